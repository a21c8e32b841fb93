// The bytes of a capture file's parts.

ghost use Rattle.std.specs.Prelude.{◌≡◌, ◌++◌, ◌∷◌, [], ◌<◌, ◌≤◌, ◌^◌, IfOk, OnOk, length};
ghost use Rattle.std.specs.List.{All, concat, flat_map};
ghost use Rattle.byteorder.specs.Endian.{little_bytes};
ghost use Rattle.gs_tape.specs.Capture as capture;

use crate::delta::Delta;
use crate::tick::Tick;
use crate::unit::Unit;
use gs_bytes::{OutOfMemory, write_u16_le, write_u32_le};
use std::alloc::{AllocError, Global};

/// The bytes that a capture file begins with.
const MAGIC: &[u8; 8] = b"GSTAPE01";

/// What begins a tick.
pub const TICK_TAG: u8 = 0x54;

/// The most bytes of a tick that aren't those of its units: its tag, its moment, two counts, the length of its
/// IDR unit, and what stands before each of 255 deltas.
const MOST_HEADS: usize = 11 + 255 * 8;

/// What ends a file.
pub const END_TAG: u8 = 0x45;

fn put_u32(bytes: &mut Vec<u8>, value: u32) -> Result<(), AllocError>
    ensures { OnOk result (bytes.new.items ≡ bytes.old.items ++ little_bytes 4 value) }
{
    let mut field = [0u8; 4];
    write_u32_le(&mut field, 0, value);
    bytes.extend_from_slice(&field)
}

// A unit behind its length.
fn put_unit(bytes: &mut Vec<u8>, unit: &Unit) -> Result<(), AllocError>
    requires { length unit.now < 2 ^ 32 }
    ensures { OnOk result (bytes.new.items ≡ bytes.old.items ++ capture.unit unit.now) }
{
    put_u32(bytes, unit.len() as u32)?;
    bytes.extend_from_slice(unit.as_bytes())
}

fn put_delta(bytes: &mut Vec<u8>, delta: &Delta) -> Result<(), AllocError>
    requires { length delta.now.unit < 2 ^ 32 }
    ensures { OnOk result (bytes.new.items ≡ bytes.old.items ++ capture.delta delta.now) }
{
    put_u32(bytes, delta.named)?;
    put_unit(bytes, &delta.unit)
}

fn put_deltas(bytes: &mut Vec<u8>, deltas: &[Delta]) -> Result<(), AllocError>
    requires { All (λ d. length d.unit < 2 ^ 32) deltas.now }
    ensures { OnOk result (bytes.new.items ≡ bytes.old.items ++ flat_map capture.delta deltas.now) }
{
    'deltas: for delta in deltas {
        put_delta(bytes, delta)?;
    }
    Ok(())
}

fn put_sounds(bytes: &mut Vec<u8>, units: &[Unit]) -> Result<(), AllocError>
    ensures { OnOk result (bytes.new.items ≡ bytes.old.items ++ concat units.now) }
{
    'units: for unit in units {
        bytes.extend_from_slice(unit.as_bytes())?;
    }
    Ok(())
}

/// The head of a file.
pub fn head_bytes(alloc: Global, audio: u16, duration: u8) -> Result<Vec<u8>, OutOfMemory>
    ensures { IfOk result (λ bytes. bytes.items ≡ capture.head audio duration) }
{
    let mut bytes = Vec::from_slice(alloc, MAGIC.as_slice())?;
    let mut field = [0u8; 2];
    write_u16_le(&mut field, 0, audio);
    bytes.extend_from_slice(&field)?;
    bytes.extend_from_slice(&[duration, 0])?;
    Ok(bytes)
}

// How much room the bytes of a tick are given at once, so that none is moved for want of it.
fn room_for(tick: &Tick) -> usize {
    let mut room = tick.idr.len().saturating_add(MOST_HEADS);
    'deltas: for delta in tick.deltas.as_slice() {
        room = room.saturating_add(delta.unit.len());
    }
    'units: for unit in tick.audio.as_slice() {
        room = room.saturating_add(unit.len());
    }
    room
}

/// A tick with its tag.
pub fn tick_bytes(alloc: Global, tick: &Tick) -> Result<Vec<u8>, OutOfMemory>
    requires audio { length tick.now.audio < 2 ^ 8 }
    requires deltas { length tick.now.deltas < 2 ^ 8 }
    requires idr { length tick.now.idr < 2 ^ 32 }
    requires units { All (λ d. length d.unit < 2 ^ 32) tick.now.deltas }
    ensures { IfOk result (λ bytes. bytes.items ≡ capture.tick tick.now) }
{
    let mut bytes = Vec::with_capacity(alloc, room_for(tick))?;
    bytes.push(TICK_TAG)?;
    put_u32(&mut bytes, tick.time)?;
    bytes.extend_from_slice(&[tick.audio.len() as u8, tick.deltas.len() as u8])?;
    put_unit(&mut bytes, &tick.idr)?;
    put_deltas(&mut bytes, tick.deltas.as_slice())?;
    put_sounds(&mut bytes, tick.audio.as_slice())?;
    Ok(bytes)
}
