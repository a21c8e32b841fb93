ghost use Rattle.std.specs.Prelude.{◌≤◌};

use super::*;
use gs_bytes::OutOfMemory;
use gs_tape::{Delta, Deltas, Tick, Unit, Units};
use std::alloc::Global;
use std::test::*;

// A tick with a unit against each of these.
fn tick(alloc: Global, number: u32, against: &[u32]) -> Result<Tick, OutOfMemory> {
    let mut deltas = Vec::new(alloc);
    for named in against {
        deltas.push(Delta {
            named: *named,
            unit: Unit::copy_of(alloc, b"delta")?,
        })?;
    }
    Ok(Tick {
        number,
        time: 0,
        idr: Unit::copy_of(alloc, b"idr")?,
        deltas: Deltas::from_vec(deltas),
        audio: Units::from_vec(Vec::new(alloc)),
    })
}

// How the tick of this number goes out, with units against these.
fn send(
    refs: &mut Refs,
    alloc: Global,
    number: u32,
    against: &[u32],
) -> Result<Result<Sent, ChooseError>, OutOfMemory> {
    let tick = tick(alloc, number, against)?;
    refs.reserve(1)?;
    Ok(refs.choose(&tick))
}

fn lose(refs: &mut Refs, first: i64, last: i64) -> Result<Result<(), InvalidError>, OutOfMemory> {
    refs.reserve(1)?;
    Ok(refs.invalidate(first, last))
}

fn sent(frame: u32, kind: u8, reference: u32) -> Result<Sent, ChooseError> {
    Ok(Sent {
        frame,
        tick: frame,
        kind,
        reference,
        named: reference,
    })
}

// The third tick has no unit against the last frame, and is sent once.
#[test]
fn a_tick_without_a_unit_against_the_last_frame(rt: HostRuntime) -> Result<(), Fail> {
    let alloc = rt.alloc();
    let mut refs = Refs::new(alloc);
    assert_eq!(rt; send(&mut refs, alloc, 1, &[])?, sent(1, 2, 0));
    assert_eq!(rt; send(&mut refs, alloc, 2, &[1])?, sent(2, 1, 1));
    assert_eq!(rt; send(&mut refs, alloc, 3, &[1])?, sent(3, 2, 0));
    assert_eq!(rt;
        send(&mut refs, alloc, 3, &[1])?,
        Err(ChooseError::OldTick { last: 3 })
    );
    Ok(())
}

// Two losses, of which the second is of the frame that was sent after the first.
#[test]
fn what_is_lost_is_referred_to_no_more(rt: HostRuntime) -> Result<(), Fail> {
    let alloc = rt.alloc();
    let mut refs = Refs::new(alloc);
    assert_eq!(rt; send(&mut refs, alloc, 1, &[])?, sent(1, 2, 0));
    for frame in 2..6u32 {
        assert_eq!(rt;
            send(&mut refs, alloc, frame, &[1, frame - 1])?,
            sent(frame, 1, frame - 1)
        );
    }
    assert_eq!(rt; lose(&mut refs, 2, 2)?, Ok(()));
    assert_eq!(rt; send(&mut refs, alloc, 6, &[1, 2, 3, 4, 5])?, sent(6, 5, 1));
    assert_eq!(rt; lose(&mut refs, 4, 4)?, Ok(()));
    assert_eq!(rt;
        send(&mut refs, alloc, 7, &[1, 2, 3, 4, 5, 6])?,
        sent(7, 5, 1)
    );
    refs.reserve(1)?;
    assert_eq!(rt; refs.ask_idr(), Ok(()));
    assert_eq!(rt; send(&mut refs, alloc, 8, &[7])?, sent(8, 2, 0));
    assert_eq!(rt; send(&mut refs, alloc, 9, &[7])?, sent(9, 2, 0));
    assert_eq!(rt;
        send(&mut refs, alloc, 9, &[8])?,
        Err(ChooseError::OldTick { last: 9 })
    );
    Ok(())
}

#[test]
fn a_range_that_cannot_be_right_ends_the_session(rt: HostRuntime) -> Result<(), Fail> {
    let alloc = rt.alloc();
    let mut refs = Refs::new(alloc);
    for frame in 1..4u32 {
        let _sent = send(&mut refs, alloc, frame, &[frame - 1])?;
    }
    assert_eq!(rt;
        lose(&mut refs, 1, 9)?,
        Err(InvalidError::BadRange { sent: 3 })
    );
    assert_eq!(rt;
        refs.entries().last().copied(),
        Some(Entry::Ended { first: 1, last: 9 })
    );
    assert_eq!(rt; send(&mut refs, alloc, 4, &[3])?, Err(ChooseError::Ended));
    assert_eq!(rt; lose(&mut refs, 1, 1)?, Err(InvalidError::Ended));
    refs.reserve(1)?;
    assert_eq!(rt; refs.ask_idr(), Err(EndedError::Ended));
    assert_eq!(rt; refs.entries().len(), 4);
    let mut fresh = Refs::new(alloc);
    assert_eq!(rt;
        lose(&mut fresh, 0, 1)?,
        Err(InvalidError::BadRange { sent: 0 })
    );
    Ok(())
}

// More frames than candidates: the one that is left is found by walking the entries.
#[test]
fn a_frame_of_long_ago_is_found(rt: HostRuntime) -> Result<(), Fail> {
    let alloc = rt.alloc();
    let mut refs = Refs::new(alloc);
    for frame in 1..5_001u32 {
        let _sent = send(&mut refs, alloc, frame, &[frame - 1])?;
    }
    assert_eq!(rt; lose(&mut refs, 3, 5_000)?, Ok(()));
    assert_eq!(rt;
        send(&mut refs, alloc, 5_001, &[2, 3, 5_000])?,
        sent(5_001, 5, 2)
    );
    assert_eq!(rt;
        send(&mut refs, alloc, 5_002, &[5_001])?,
        sent(5_002, 1, 5_001)
    );
    Ok(())
}
