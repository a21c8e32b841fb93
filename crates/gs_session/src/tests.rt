ghost use Rattle.gs_session.specs.Sessions.{HasPlace};

use super::*;
use gs_bytes::OutOfMemory;
use gs_refs::{Entry, Refs, Sent};
use gs_tape::{Delta, Deltas, Tick, Unit, Units};
use std::alloc::Global;
use std::sync::{Arc, Wait};
use std::test::*;
use std::thread::{Threads, join};

// A tick with a unit against the one before it.
fn tick(alloc: Global, number: u32) -> Result<Tick, OutOfMemory> {
    let mut deltas = Vec::new(alloc);
    deltas.push(Delta {
        named: number.saturating_sub(1),
        unit: Unit::copy_of(alloc, b"delta")?,
    })?;
    Ok(Tick {
        number,
        time: 0,
        idr: Unit::copy_of(alloc, b"idr")?,
        deltas: Deltas::from_vec(deltas),
        audio: Units::from_vec(Vec::new(alloc)),
    })
}

#[test]
fn two_passes_call_in_turns(rt: HostRuntime) -> Result<(), Fail> {
    let alloc = rt.alloc();
    let (session, mut first, mut second) = Session::open(alloc)?;
    let one = Arc::new(alloc, tick(alloc, 1)?)?;
    let two = Arc::new(alloc, tick(alloc, 2)?)?;
    assert!(rt; session.choose(&rt, &mut first, one).is_ok());
    assert!(rt; session.invalidate(&rt, &mut second, 1, 1).is_ok());
    assert!(rt; session.choose(&rt, &mut first, two).is_ok());
    assert!(rt; session.ask_idr(&rt, &mut second).is_ok());
    let refs = session.close(first, second);
    let entries = refs.entries();
    assert_eq!(rt; entries.len(), 4);
    assert_eq!(rt;
        entries[0],
        Entry::Sent {
            tick: 1,
            kind: 2,
            reference: 0
        }
    );
    assert_eq!(rt; entries[1], Entry::Invalid { first: 1, last: 1 });
    assert_eq!(rt;
        entries[2],
        Entry::Sent {
            tick: 2,
            kind: 2,
            reference: 0
        }
    );
    assert_eq!(rt; entries[3], Entry::IdrAsked);
    Ok(())
}

// Sends the ticks from 2 on.
fn send_ticks<R: Wait>(
    rt: &R,
    alloc: Global,
    session: &Session,
    mut pass: SessionPass,
) -> (bool, SessionPass)
    requires { HasPlace session.now 0 pass }
    ensures { HasPlace session.now 0 result.1 }
{
    let mut all = true;
    'ticks: for number in 2..1002u32 {
        if let Ok(tick) = tick(alloc, number)
            && let Ok(tick) = Arc::new(alloc, tick)
        {
            all &= session.choose(rt, &mut pass, tick).is_ok();
        } else {
            all = false;
        }
    }
    (all, pass)
}

// Loses the first frame, and asks for an IDR unit, by turns.
fn lose_frames<R: Wait>(rt: &R, session: &Session, mut pass: SessionPass) -> (bool, SessionPass)
    requires { HasPlace session.now 1 pass }
    ensures { HasPlace session.now 1 result.1 }
{
    let mut all = true;
    'losses: for _ in 0..500u32 {
        all &= session.invalidate(rt, &mut pass, 1, 1).is_ok();
        all &= session.ask_idr(rt, &mut pass).is_ok();
    }
    (all, pass)
}

fn call_from_two<R: Threads + Wait + Sync>(
    rt: &R,
    alloc: Global,
    session: &Session,
    first: SessionPass,
    second: SessionPass,
) -> (bool, SessionPass, SessionPass)
    requires first { HasPlace session.now 0 first }
    requires second { HasPlace session.now 1 second }
    ensures first { HasPlace session.now 0 result.1 }
    ensures second { HasPlace session.now 1 result.2 }
{
    let ((sent, first), (lost, second)) = join(
        rt,
        || -> (bool, SessionPass)
            requires { HasPlace session.now 0 first }
            ensures { HasPlace session.entry.now 0 result.1 }
        { send_ticks(rt, alloc, session, first) },
        || -> (bool, SessionPass)
            requires { HasPlace session.now 1 second }
            ensures { HasPlace session.entry.now 1 result.1 }
        { lose_frames(rt, session, second) },
    );
    (sent && lost, first, second)
}

// The references of one thread, given the calls of these entries.
fn played(alloc: Global, entries: &[Entry]) -> Result<Refs, OutOfMemory> {
    let mut refs = Refs::new(alloc);
    for entry in entries {
        refs.reserve(1)?;
        match *entry {
            Entry::Sent { tick: number, .. } => {
                let tick = tick(alloc, number)?;
                let _sent = refs.choose(&tick);
            }
            Entry::Invalid { first, last } => {
                let _taken = refs.invalidate(i64::from(first), i64::from(last));
            }
            Entry::IdrAsked => {
                let _asked = refs.ask_idr();
            }
            Entry::Ended { first, last } => {
                let _taken = refs.invalidate(first, last);
            }
        }
    }
    Ok(refs)
}

#[test]
fn a_thousand_calls_of_two_threads_are_those_of_one(rt: HostRuntime) -> Result<(), Fail> {
    let alloc = rt.alloc();
    let (session, mut first, second) = Session::open(alloc)?;
    let one = Arc::new(alloc, tick(alloc, 1)?)?;
    assert!(rt; session.choose(&rt, &mut first, one).is_ok());
    let (all, first, second) = call_from_two(&rt, alloc, &session, first, second);
    assert!(rt; all);
    let refs = session.close(first, second);
    assert_eq!(rt; refs.entries().len(), 2001);
    let alone = played(alloc, refs.entries())?;
    assert!(rt; alone.entries() == refs.entries());
    Ok(())
}
