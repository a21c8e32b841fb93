use super::*;
use gs_bytes::{Failed, MemSource, SureSource};
use std::test::Fail;

#[test]
fn bytes_are_held(rt: HostRuntime) -> Result<(), Fail> {
    let mut source = SureSource::new(rt.alloc(), b"AB")?;
    let mut reader = BufferedReader::new(rt.alloc());
    assert!(rt; reader.fill(&mut source) == Ok(true));
    assert!(rt; reader.held() == b"AB".as_slice());
    if !reader.held().is_empty() {
        reader.advance(1);
    }
    assert!(rt; reader.next_byte(&mut source) == Ok(Some(b'B')));
    assert!(rt; reader.next_byte(&mut source) == Ok(None));
    Ok(())
}

// The length of a source of two pieces and five bytes.
fn three_pieces() -> usize {
    2 * PIECE + 5
}

#[test]
fn pieces_are_joined(rt: HostRuntime) -> Result<(), Fail> {
    let bytes = vec![in rt.alloc(); 7u8; three_pieces()]?;
    let mut source = SureSource::new(rt.alloc(), bytes.as_slice())?;
    let mut reader = BufferedReader::new(rt.alloc());
    assert!(rt; reader.take(&mut source, 3)?.len() == 3);
    let joined = reader.take(&mut source, 2 * PIECE)?;
    assert!(rt; joined.len() == 2 * PIECE);
    assert!(rt; joined.as_slice().last() == Some(&7u8));
    assert!(rt; reader.held().len() == 2);
    Ok(())
}

#[test]
fn a_fault_is_handed_on(rt: HostRuntime) -> Result<(), Fail> {
    let mut source = MemSource::new(rt.alloc(), b"AB", &[1])?;
    let mut reader = BufferedReader::new(rt.alloc());
    assert!(rt; reader.next_byte(&mut source) == Err(Failed::Fault));
    assert!(rt; reader.next_byte(&mut source) == Ok(Some(b'A')));
    Ok(())
}
