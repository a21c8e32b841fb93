use super::GeneratedFile;
use gs_tape::{Tape, TapeError, Tick};
use std::alloc::Global;
use std::test::Fail;

// The file, read as any other.
fn opened(alloc: Global, source: &mut GeneratedFile) -> Result<Tape, TapeError> {
    Tape::open(alloc, source)
}

// Its next tick.
fn next_of(tape: &mut Tape, source: &mut GeneratedFile) -> Result<Option<Tick>, TapeError> {
    tape.next(source)
}

#[test]
fn a_generated_file_is_read(rt: HostRuntime) -> Result<(), Fail> {
    let mut source = GeneratedFile::open(rt.alloc(), 7, 2)?;
    let mut tape = opened(rt.alloc(), &mut source)?;
    assert!(rt; tape.audio() == 240);
    let first = next_of(&mut tape, &mut source)?.ok_or("a tick")?;
    assert!(rt; first.idr.len() == 105_278);
    let second = next_of(&mut tape, &mut source)?.ok_or("a tick")?;
    assert!(rt; second.time == 16);
    assert!(rt; next_of(&mut tape, &mut source)?.is_none());
    Ok(())
}
