ghost use Rattle.std.specs.Prelude.{◌≡◌, ◌∷◌, [], IfOk};

use super::*;
use gs_bytes::{MemSink, SureSink};
use std::alloc::Global;
use std::test::Fail;

/// The lengths of the first nine IDR units that 7 generates, and of the deltas of the ninth tick.
const LENGTHS: [usize; 13] = [
    105278, 117219, 113632, 105654, 115517, 116288, 118074, 115785, 115718, 42250, 42832, 41576,
    41577,
];

// The first tick of a capture, with an IDR unit of three bytes.
fn first_tick(alloc: Global) -> Result<Tick, Fail>
    ensures { IfOk result (λ tick. tick ≡ record {
      number = 1;
      time = 0;
      idr = 65 ∷ 66 ∷ 67 ∷ [];
      deltas = [];
      audio = [];
    }) }
{
    Ok(Tick {
        number: 1,
        time: 0,
        idr: Unit::copy_of(alloc, b"ABC")?,
        deltas: Deltas::from_vec(Vec::new(alloc)),
        audio: Units::from_vec(Vec::new(alloc)),
    })
}

#[test]
fn a_file_is_written(rt: HostRuntime) -> Result<(), Fail> {
    let mut out = SureSink::new(rt.alloc(), 7)?;
    let mut writer = TapeWriter::open(rt.alloc(), 0, 5, &mut out)?;
    let tick = first_tick(rt.alloc())?;
    writer.put(&tick, &mut out)?;
    writer.end(&mut out)?;
    assert!(rt;
        out.written()
            == b"GSTAPE01\x00\x00\x05\x00T\x00\x00\x00\x00\x00\x00\x03\x00\x00\x00ABCE".as_slice()
    );
    Ok(())
}

#[test]
fn a_fault_of_the_sink_is_told(rt: HostRuntime) -> Result<(), Fail> {
    let mut out = MemSink::new(rt.alloc(), 100, &[2])?;
    let mut writer = TapeWriter::open(rt.alloc(), 0, 10, &mut out)?;
    let tick = first_tick(rt.alloc())?;
    assert!(rt; writer.put(&tick, &mut out) == Err(WriteError::WriteFault));
    assert!(rt; out.written() == b"GSTAPE01\x00\x00\x0A\x00".as_slice());
    Ok(())
}

#[test]
fn a_unit_is_shared(rt: HostRuntime) -> Result<(), Fail> {
    let unit = Unit::copy_of(rt.alloc(), b"ABC")?;
    let again = unit.clone()?;
    assert!(rt; again == unit);
    assert!(rt; again.as_bytes() == b"ABC".as_slice());
    assert!(rt; again.len() == 3);
    assert!(rt; !again.is_empty());
    Ok(())
}

// The next tick that is generated.
fn generated_next(generator: &mut Generator, alloc: Global) -> Result<Option<Tick>, Fail> {
    Ok(generator.next(alloc)?)
}

#[test]
fn a_number_generates_its_capture(rt: HostRuntime) -> Result<(), Fail> {
    let mut generator = Generator::new(7, 9);
    let mut lengths = Vec::new(rt.alloc());
    for _ in 0..9 {
        if let Some(tick) = generated_next(&mut generator, rt.alloc())? {
            lengths.push(tick.idr.len())?;
            if tick.number == 9 {
                for delta in tick.deltas.as_slice() {
                    lengths.push(delta.unit.len())?;
                }
                assert!(rt; tick.time == 133);
                assert!(rt; tick.idr.as_bytes().first() == Some(&199u8));
                assert!(rt; tick.audio.len() == 4);
            }
        }
    }
    assert!(rt; lengths.as_slice() == LENGTHS.as_slice());
    assert!(rt; generated_next(&mut generator, rt.alloc())?.is_none());
    Ok(())
}
