// The parts of a tick's bytes, of which its units are some.

ghost use Rattle.std.specs.Prelude.{◌≡◌, ◌++◌, ◌∷◌, ◌<◌, ◌^◌, IfOk, OnOk, length};
ghost use Rattle.std.specs.List.{All, concat, flat_map};
ghost use Rattle.byteorder.specs.Endian.{little_bytes};
ghost use Rattle.gs_tape.specs.Capture as capture;

use gs_bytes::{OutOfMemory, write_u32_le};
use gs_tape::{Delta, TICK_TAG, Tick, Unit};
use std::alloc::Global;
use std::collections::VecDeque;

fn put_u32(bytes: &mut Vec<u8>, value: u32) -> Result<(), OutOfMemory>
    ensures { OnOk result (bytes.new.items ≡ bytes.old.items ++ little_bytes 4 value) }
{
    let mut field = [0u8; 4];
    write_u32_le(&mut field, 0, value);
    bytes.extend_from_slice(&field)?;
    Ok(())
}

// What stands before the IDR unit of a tick.
fn tick_head(alloc: Global, tick: &Tick) -> Result<Unit, OutOfMemory>
    requires audio { length tick.now.audio < 2 ^ 8 }
    requires deltas { length tick.now.deltas < 2 ^ 8 }
    requires idr { length tick.now.idr < 2 ^ 32 }
    ensures { IfOk result (λ head. head ≡ 0x54 ∷ little_bytes 4 tick.now.time
        ++ length tick.now.audio ∷ length tick.now.deltas ∷ little_bytes 4 (length tick.now.idr)) }
{
    let mut head = Vec::from_slice(alloc, &[TICK_TAG])?;
    put_u32(&mut head, tick.time)?;
    head.extend_from_slice(&[tick.audio.len() as u8, tick.deltas.len() as u8])?;
    put_u32(&mut head, tick.idr.len() as u32)?;
    Unit::copy_of(alloc, head.as_slice())
}

// What stands before the unit of a delta.
fn delta_head(alloc: Global, delta: &Delta) -> Result<Unit, OutOfMemory>
    requires { length delta.now.unit < 2 ^ 32 }
    ensures { IfOk result (λ head. head ≡ little_bytes 4 delta.now.named ++ little_bytes 4 (length delta.now.unit)) }
{
    let mut head = Vec::new(alloc);
    put_u32(&mut head, delta.named)?;
    put_u32(&mut head, delta.unit.len() as u32)?;
    Unit::copy_of(alloc, head.as_slice())
}

// One part more.
fn put(parts: &mut VecDeque<Unit>, part: Unit) -> Result<(), OutOfMemory>
    ensures { OnOk result (concat parts.new.items ≡ concat parts.old.items ++ part) }
{
    parts.push_back(part)?;
    Ok(())
}

fn put_delta(alloc: Global, parts: &mut VecDeque<Unit>, delta: &Delta) -> Result<(), OutOfMemory>
    requires { length delta.now.unit < 2 ^ 32 }
    ensures { OnOk result (concat parts.new.items ≡ concat parts.old.items ++ capture.delta delta.now) }
{
    put(parts, delta_head(alloc, delta)?)?;
    put(parts, delta.unit.clone()?)
}

fn put_deltas(
    alloc: Global,
    parts: &mut VecDeque<Unit>,
    deltas: &[Delta],
) -> Result<(), OutOfMemory>
    requires { All (λ d. length d.unit < 2 ^ 32) deltas.now }
    ensures { OnOk result (concat parts.new.items ≡ concat parts.old.items ++ flat_map capture.delta deltas.now) }
{
    'deltas: for delta in deltas {
        put_delta(alloc, parts, delta)?;
    }
    Ok(())
}

fn put_sounds(parts: &mut VecDeque<Unit>, units: &[Unit]) -> Result<(), OutOfMemory>
    ensures { OnOk result (concat parts.new.items ≡ concat parts.old.items ++ concat units.now) }
{
    'units: for unit in units {
        put(parts, unit.clone()?)?;
    }
    Ok(())
}

/// The parts of a tick's bytes, end to end. They share its units.
pub(crate) fn parts_of(alloc: Global, tick: &Tick) -> Result<VecDeque<Unit>, OutOfMemory>
    requires audio { length tick.now.audio < 2 ^ 8 }
    requires deltas { length tick.now.deltas < 2 ^ 8 }
    requires idr { length tick.now.idr < 2 ^ 32 }
    requires units { All (λ d. length d.unit < 2 ^ 32) tick.now.deltas }
    ensures { IfOk result (λ parts. concat parts.items ≡ capture.tick tick.now) }
{
    let mut parts = VecDeque::new(alloc);
    put(&mut parts, tick_head(alloc, tick)?)?;
    put(&mut parts, tick.idr.clone()?)?;
    put_deltas(alloc, &mut parts, tick.deltas.as_slice())?;
    put_sounds(&mut parts, tick.audio.as_slice())?;
    Ok(parts)
}
