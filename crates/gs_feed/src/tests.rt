ghost use Rattle.std.specs.Prelude.{◌≡◌, IfOk};
ghost use Rattle.gs_feed.specs.Feeding.{forgotten};

use super::*;
use gs_bytes::{MemSource, Source, SureSource};
use gs_tape::{TapeError, Tick};
use std::alloc::Global;
use std::sync::Arc;
use std::test::Fail;

/// A file of three ticks without audio, whose IDR units have one byte.
const FILE: &[u8; 49] = b"GSTAPE01\x00\x00\x05\x00\
T\x01\x00\x00\x00\x00\x00\x01\x00\x00\x00A\
T\x02\x00\x00\x00\x00\x00\x01\x00\x00\x00B\
T\x03\x00\x00\x00\x00\x00\x01\x00\x00\x00CE";

/// A file of one tick, with a wrong tag behind it.
const FAULTY: &[u8; 25] = b"GSTAPE01\x00\x00\x05\x00T\x01\x00\x00\x00\x00\x00\x01\x00\x00\x00AX";

const WRONG_TAG: TapeError = TapeError::BadTape { kind: 2, place: 24 };

// A feed of which nothing was captured.
fn opened<S: Source>(alloc: Global, source: &mut S) -> Result<Feed, TapeError>
    ensures { IfOk result (λ feed. forgotten feed ≡ 0) }
{
    Feed::open(alloc, source)
}

// The next tick is captured, and none is forgotten.
fn captured<S: Source>(feed: &mut Feed, source: &mut S) -> Result<bool, TapeError>
    ensures { forgotten feed.new ≡ forgotten feed.old }
{
    feed.capture(source)
}

// The rest is read.
fn finished<S: Source>(feed: &mut Feed, source: &mut S) -> Result<(), TapeError> {
    feed.finish(source)
}

// The numbers of ticks, as digits.
fn digits(ticks: &[Arc<Tick>]) -> u32 {
    let mut digits = 0u32;
    for tick in ticks {
        digits = digits.wrapping_mul(10).wrapping_add(tick.number);
    }
    digits
}

// The number of the newest tick, 0 for none.
fn newest(feed: &Feed) -> u32 {
    feed.newest().map_or(0, |tick| tick.number)
}

#[test]
fn ticks_are_captured(rt: HostRuntime) -> Result<(), Fail> {
    let mut source = SureSource::new(rt.alloc(), FILE)?;
    let mut feed = opened(rt.alloc(), &mut source)?;
    assert_eq!(rt; feed.audio(), 0);
    assert_eq!(rt; feed.duration(), 5);
    assert_eq!(rt; newest(&feed), 0);
    assert!(rt; captured(&mut feed, &mut source)?);
    assert!(rt; captured(&mut feed, &mut source)?);
    assert!(rt; captured(&mut feed, &mut source)?);
    assert_eq!(rt; newest(&feed), 3);
    assert!(rt; !captured(&mut feed, &mut source)?);
    assert!(rt; !captured(&mut feed, &mut source)?);
    assert_eq!(rt; feed.captured(), 3);
    Ok(())
}

#[test]
fn ticks_are_kept_while_they_are_wanted(rt: HostRuntime) -> Result<(), Fail> {
    let mut source = SureSource::new(rt.alloc(), FILE)?;
    let mut feed = opened(rt.alloc(), &mut source)?;
    assert_eq!(rt; digits(feed.since(0)), 0);
    assert!(rt; captured(&mut feed, &mut source)?);
    assert!(rt; captured(&mut feed, &mut source)?);
    assert!(rt; captured(&mut feed, &mut source)?);
    assert_eq!(rt; digits(feed.since(0)), 12);
    assert_eq!(rt; digits(feed.since(1)), 2);
    assert_eq!(rt; digits(feed.since(7)), 0);
    feed.forget(1);
    assert_eq!(rt; digits(feed.since(1)), 2);
    feed.forget(7);
    assert_eq!(rt; digits(feed.since(7)), 0);
    assert_eq!(rt; newest(&feed), 3);
    Ok(())
}

#[test]
fn a_fault_is_answered_behind_the_last_tick(rt: HostRuntime) -> Result<(), Fail> {
    let mut source = SureSource::new(rt.alloc(), FAULTY)?;
    let mut feed = opened(rt.alloc(), &mut source)?;
    assert!(rt; captured(&mut feed, &mut source)?);
    assert!(rt; captured(&mut feed, &mut source).err() == Some(WRONG_TAG));
    assert!(rt; captured(&mut feed, &mut source).err() == Some(WRONG_TAG));
    assert!(rt; finished(&mut feed, &mut source).err() == Some(WRONG_TAG));
    assert_eq!(rt; newest(&feed), 1);
    Ok(())
}

#[test]
fn the_rest_is_read(rt: HostRuntime) -> Result<(), Fail> {
    let mut source = SureSource::new(rt.alloc(), FAULTY)?;
    let mut feed = opened(rt.alloc(), &mut source)?;
    assert!(rt; finished(&mut feed, &mut source).err() == Some(WRONG_TAG));
    let mut source = SureSource::new(rt.alloc(), FILE)?;
    let mut feed = opened(rt.alloc(), &mut source)?;
    assert!(rt; captured(&mut feed, &mut source)?);
    finished(&mut feed, &mut source)?;
    assert!(rt; !captured(&mut feed, &mut source)?);
    assert_eq!(rt; newest(&feed), 1);
    Ok(())
}

#[test]
fn a_fault_of_the_source_is_answered(rt: HostRuntime) -> Result<(), Fail> {
    let mut source = MemSource::new(rt.alloc(), FAULTY, &[1])?;
    assert!(rt; opened(rt.alloc(), &mut source).err() == Some(TapeError::TapeFault));
    let mut source = MemSource::new(rt.alloc(), &FILE[..12], &[2])?;
    let mut feed = opened(rt.alloc(), &mut source)?;
    assert!(rt; captured(&mut feed, &mut source).err() == Some(TapeError::TapeFault));
    assert!(rt; finished(&mut feed, &mut source).err() == Some(TapeError::TapeFault));
    Ok(())
}
