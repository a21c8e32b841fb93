// Windows of two frames, and a reset of a decoder.

use super::answers;
use super::captures::{chain, units};
use crate::TrialStatus;
use std::test::Fail;

const BRIEF: &str = "script brief tape schedule";

#[test]
fn two_frames_are_held_at_once(rt: HostRuntime) -> Result<(), Fail> {
    let file = units(rt.alloc(), 2, 1500)?;
    let schedule = "session 1024 0 0 2\ncap\nsend 1\ncap\nsend 1\nvideo 1 1\nvideo 1 3\nvideo 1 2\n\
        video 1 4\n";
    let text =
        "sent 1 1 2 1 0\nsent 1 2 2 2 0\nhand 1 1 2 1500\nhand 1 2 2 1500\ntotal 1 2 2 0 0 0\nok\n";
    assert!(rt; answers(rt.alloc(), BRIEF, &file, schedule, TrialStatus::Ok, text)?);
    Ok(())
}

#[test]
fn a_frame_waits_for_the_one_before(rt: HostRuntime) -> Result<(), Fail> {
    let file = units(rt.alloc(), 3, 5)?;
    let sent = "session 1024 0 0 2\ncap\nsend 1\ncap\nsend 1\ncap\nsend 1\nvideo 1 2\n";
    let text = "sent 1 1 2 1 0\nsent 1 2 2 2 0\nsent 1 3 2 3 0\ntotal 1 3 0 0 0 0\nok\n";
    assert!(rt; answers(rt.alloc(), BRIEF, &file, sent, TrialStatus::Ok, text)?);
    let schedule =
        "session 1024 0 0 2\ncap\nsend 1\ncap\nsend 1\ncap\nsend 1\nvideo 1 2\nvideo 1 3\n";
    let text =
        "sent 1 1 2 1 0\nsent 1 2 2 2 0\nsent 1 3 2 3 0\nask 1 1 1\nhand 1 2 2 5\nhand 1 3 2 5\n\
        total 1 3 2 1 0 0\nok\n";
    assert!(rt; answers(rt.alloc(), BRIEF, &file, schedule, TrialStatus::Ok, text)?);
    Ok(())
}

#[test]
fn a_reset_asks_for_an_idr_frame(rt: HostRuntime) -> Result<(), Fail> {
    let file = chain(rt.alloc(), 3)?;
    let schedule = "session 1024 0 0\ncap\nsend 1\nvideo 1 1\nreset 1\ncap\nsend 1\nvideo 1 2\n\
        up 1 3\ncap\nsend 1\nvideo 1 3\n";
    let text = "sent 1 1 2 1 0\nhand 1 1 2 5\nreset 1\nsent 1 2 1 2 1\nidr 1\nsent 1 3 2 3 0\n\
        hand 1 3 2 5\ntotal 1 3 2 0 0 0\nok\n";
    assert!(rt; answers(rt.alloc(), BRIEF, &file, schedule, TrialStatus::Ok, text)?);
    Ok(())
}
