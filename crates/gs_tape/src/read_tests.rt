use super::*;
use gs_bytes::{MemSource, Source, SureSource};
use std::alloc::Global;
use std::test::Fail;

/// A file of two ticks: audio units of two bytes, one in each tick; IDR units of a byte; the second tick
/// has a delta of two bytes against the first.
fn small() -> &'static [u8] {
    b"GSTAPE01\x02\x00\x05\x00\
T\x03\x00\x00\x00\x01\x00\x01\x00\x00\x00Aab\
T\x05\x00\x00\x00\x01\x01\x01\x00\x00\x00B\x01\x00\x00\x00\x02\x00\x00\x00DEcd\
E"
}

/// A file of one tick without audio, whose IDR unit has three bytes.
fn one_tick() -> &'static [u8] {
    b"GSTAPE01\x00\x00\x05\x00T\x00\x00\x00\x00\x00\x00\x03\x00\x00\x00ABCE"
}

/// What is answered where one byte of `small` is another: a text for each value, with the kind for each place (0 no
/// fault, L a unit too large, A the audio length) and behind it the place or the tick.
fn zero() -> &'static str {
    "10 11 12 13 14 15 16 17 417 00 110 00 212 00 00 00 00 224 00 225 00 00 00 00 00 00 226 327 00 00 00 \
248 240 537 00 00 00 00 538 00 00 00 248 00 00 00 00 00 00 00 250"
}

fn one() -> &'static str {
    "10 11 12 13 14 15 16 17 225 651 110 111 212 00 327 327 327 00 524 00 651 651 L1 00 00 00 226 327 00 \
00 00 00 00 00 651 651 L2 00 00 538 538 538 249 651 651 L2 00 00 00 00 250"
}

fn end() -> &'static str {
    "10 11 12 13 14 00 16 17 651 A0 110 111 713 327 327 327 327 417 418 651 651 L1 L1 00 00 00 727 00 00 \
00 00 431 432 651 651 L2 L2 00 538 538 538 538 651 651 L2 L2 00 00 00 00 00"
}

fn most() -> &'static str {
    "10 11 12 13 14 15 16 17 651 A0 110 111 212 327 327 327 327 417 418 651 651 L1 L1 00 00 00 226 00 00 \
00 00 431 432 651 651 L2 L2 00 538 538 538 538 651 651 L2 L2 00 00 00 00 250"
}

// A capture file, of which nothing is promised here: what a test needs to know it sees.
fn opened<S: Source>(alloc: Global, source: &mut S) -> Result<Tape, TapeError> {
    Tape::open(alloc, source)
}

// Its next tick, in the same way.
fn next_of<S: Source>(tape: &mut Tape, source: &mut S) -> Result<Option<Tick>, TapeError> {
    tape.next(source)
}

// What a file of few ticks is answered in the end.
fn answer_of(alloc: Global, bytes: &[u8]) -> Result<Option<TapeError>, Fail> {
    let mut source = SureSource::new(alloc, bytes)?;
    let mut tape = match opened(alloc, &mut source) {
        Ok(tape) => tape,
        Err(error) => return Ok(Some(error)),
    };
    for _ in 0..5 {
        match next_of(&mut tape, &mut source) {
            Ok(Some(_)) => {}
            Ok(None) => return Ok(None),
            Err(error) => return Ok(Some(error)),
        }
    }
    Ok(None)
}

// Whether this file, cut behind each of its bytes, is answered as cut there, and whole as no fault.
fn ends_where_it_is_cut(alloc: Global, bytes: &[u8]) -> Result<bool, Fail> {
    for length in 0..bytes.len() {
        let expected = TapeError::BadTape {
            kind: 6,
            place: length as u64,
        };
        if answer_of(alloc, &bytes[..length])? != Some(expected) {
            return Ok(false);
        }
    }
    Ok(answer_of(alloc, bytes)?.is_none())
}

// An answer as a word: its kind, and its place or tick.
fn push_word(words: &mut String, answer: Option<TapeError>) -> Result<(), Fail> {
    let (kind, at) = match answer {
        None => ('0', 0),
        Some(TapeError::BadTape { kind, place }) => (char::from(kind.wrapping_add(b'0')), place),
        Some(TapeError::TapeFull { tick }) => ('F', u64::from(tick)),
        Some(TapeError::UnitTooLarge { tick }) => ('L', u64::from(tick)),
        Some(TapeError::AudioLength { .. }) => ('A', 0),
        Some(_) => ('?', 0),
    };
    if !words.is_empty() {
        words.push(' ')?;
    }
    write!(words, "{kind}{at}")?;
    Ok(())
}

// The answers where each byte in turn has this value.
fn changed(alloc: Global, value: u8) -> Result<String, Fail> {
    let mut words = String::new(alloc);
    for place in 0..small().len() {
        let mut bytes = Vec::from_slice(alloc, small())?;
        if let Some(byte) = bytes.get_mut(place) {
            *byte = value;
        }
        let answer = answer_of(alloc, &bytes)?;
        push_word(&mut words, answer)?;
    }
    Ok(words)
}

#[test]
fn a_changed_byte_has_its_fault(rt: HostRuntime) -> Result<(), Fail> {
    assert!(rt; changed(rt.alloc(), 0x00)?.as_str() == zero());
    assert!(rt; changed(rt.alloc(), 0x01)?.as_str() == one());
    assert!(rt; changed(rt.alloc(), 0x45)?.as_str() == end());
    assert!(rt; changed(rt.alloc(), 0xFF)?.as_str() == most());
    Ok(())
}

#[test]
fn a_cut_file_ends_at_its_length(rt: HostRuntime) -> Result<(), Fail> {
    assert!(rt; ends_where_it_is_cut(rt.alloc(), one_tick())?);
    assert!(rt; ends_where_it_is_cut(rt.alloc(), small())?);
    Ok(())
}

#[test]
fn a_byte_behind_the_end_is_refused(rt: HostRuntime) -> Result<(), Fail> {
    let mut bytes = Vec::from_slice(rt.alloc(), small())?;
    bytes.push(0x45)?;
    let expected = TapeError::BadTape { kind: 7, place: 51 };
    assert!(rt; answer_of(rt.alloc(), &bytes)? == Some(expected));
    Ok(())
}

#[test]
fn a_second_tick_is_cut(rt: HostRuntime) -> Result<(), Fail> {
    let bytes = b"GSTAPE01\x00\x00\x05\x00T\x00\x00\x00\x00\x00\x00\x03\x00\x00\x00ABC\
T\x00\x00\x00\x00\x00\x00\x05\x00\x00\x00DEF";
    let mut source = SureSource::new(rt.alloc(), bytes)?;
    let mut tape = opened(rt.alloc(), &mut source)?;
    let first = next_of(&mut tape, &mut source)?.ok_or("a tick")?;
    assert!(rt; first.idr.as_bytes() == b"ABC".as_slice());
    let expected = TapeError::BadTape { kind: 6, place: 40 };
    assert!(rt; next_of(&mut tape, &mut source).err() == Some(expected));
    assert!(rt; next_of(&mut tape, &mut source).err() == Some(expected));
    Ok(())
}

#[test]
fn ticks_are_read(rt: HostRuntime) -> Result<(), Fail> {
    let mut source = SureSource::new(rt.alloc(), small())?;
    let mut tape = opened(rt.alloc(), &mut source)?;
    assert!(rt; tape.audio() == 2);
    assert!(rt; tape.duration() == 5);
    assert!(rt; next_of(&mut tape, &mut source)?.ok_or("a tick")?.number == 1);
    let second = next_of(&mut tape, &mut source)?.ok_or("a tick")?;
    assert!(rt; second.time == 5);
    let delta = second.deltas.as_slice().first().ok_or("a delta")?;
    assert!(rt; delta.named == 1);
    assert!(rt; delta.unit.as_bytes() == b"DE".as_slice());
    let sound = second.audio.as_slice().first().ok_or("audio")?;
    assert!(rt; sound.as_bytes() == b"cd".as_slice());
    assert!(rt; next_of(&mut tape, &mut source)?.is_none());
    assert!(rt; next_of(&mut tape, &mut source)?.is_none());
    Ok(())
}

#[test]
fn a_fault_of_the_source_is_told_again(rt: HostRuntime) -> Result<(), Fail> {
    let mut source = MemSource::new(rt.alloc(), small(), &[1])?;
    assert!(rt; opened(rt.alloc(), &mut source).err() == Some(TapeError::TapeFault));
    let mut source = MemSource::new(rt.alloc(), b"GSTAPE01\x02\x00\x05\x00", &[2])?;
    let mut tape = opened(rt.alloc(), &mut source)?;
    assert!(rt; next_of(&mut tape, &mut source).err() == Some(TapeError::TapeFault));
    assert!(rt; next_of(&mut tape, &mut source).err() == Some(TapeError::TapeFault));
    Ok(())
}
