// Schedules of one session with a window of one frame, and their texts.

use super::captures::{chain, units};
use super::{answers, trial_over};
use crate::TrialStatus;
use std::alloc::Global;
use std::test::Fail;

const BYTES: &str = "script bytes tape schedule";

const BRIEF: &str = "script brief tape schedule";

// A capture file of one tick, of three bytes.
fn smallest() -> &'static [u8] {
    b"GSTAPE01\0\0\x05\0T\0\0\0\0\0\0\x03\0\0\0ABCE"
}

// One frame is sent, and comes.
fn one_frame() -> &'static str {
    "session 1024 0 0\ncap\nsend 1\nvideo 1 1\n"
}

fn one_frame_text() -> &'static str {
    "sent 1 1 2 1 0\nhand 1 1 2 3\nABC\ntotal 1 1 1 0 0 0\nok\n"
}

#[test]
fn one_frame_is_handed(rt: HostRuntime) -> Result<(), Fail> {
    let text = one_frame_text();
    assert!(rt;
        answers(
            rt.alloc(),
            BYTES,
            smallest(),
            one_frame(),
            TrialStatus::Ok,
            text
        )?
    );
    Ok(())
}

#[test]
fn a_front_is_written_before_a_write_fails(rt: HostRuntime) -> Result<(), Fail> {
    let (status, out) = trial_over(rt.alloc(), BYTES, smallest(), one_frame(), 10, [0, 0, 2])?;
    assert_eq!(rt; status, TrialStatus::WriteFault);
    assert!(rt; one_frame_text().as_bytes().starts_with(out.written()));
    assert_eq!(rt; out.written().len(), 10);
    Ok(())
}

#[test]
fn a_datagram_that_was_not_sent_is_refused(rt: HostRuntime) -> Result<(), Fail> {
    let schedule = "session 1024 0 0\ncap\nsend 1\nvideo 1 1\nvideo 1 2\n";
    let status = TrialStatus::BadSchedule { line: 5 };
    let text = "sent 1 1 2 1 0\nhand 1 1 2 3\nABC\n";
    assert!(rt; answers(rt.alloc(), BYTES, smallest(), schedule, status, text)?);
    Ok(())
}

#[test]
fn words_that_do_not_fit_are_named(rt: HostRuntime) -> Result<(), Fail> {
    let status = TrialStatus::Usage { word: 2 };
    assert!(rt; answers(rt.alloc(), "script", b"", "", status, "")?);
    assert!(rt; answers(rt.alloc(), "make 0 5", b"", "", status, "")?);
    Ok(())
}

// A capture file without its end mark, and with a part of a second tick.
fn truncated() -> &'static [u8] {
    b"GSTAPE01\0\0\x05\0T\0\0\0\0\0\0\x03\0\0\0ABCT\0\0\0\0\0\0\x05\0\0\0DEF"
}

#[test]
fn a_truncated_file_is_told_at_its_end(rt: HostRuntime) -> Result<(), Fail> {
    let status = TrialStatus::BadTape { kind: 6, place: 40 };
    let text = "sent 1 1 2 1 0\nhand 1 1 2 3\nABC\n";
    assert!(rt; answers(rt.alloc(), BYTES, truncated(), one_frame(), status, text)?);
    let read = "session 1024 0 0\ncap\nsend 1\nvideo 1 1\ncap\n";
    assert!(rt; answers(rt.alloc(), BYTES, truncated(), read, status, text)?);
    Ok(())
}

// ---- shards of one frame

#[test]
fn nine_of_ten_shards_hand_nothing(rt: HostRuntime) -> Result<(), Fail> {
    let file = units(rt.alloc(), 1, 10_000)?;
    let schedule = "session 1024 20 0\ncap\nsend 1\nvideos 1 1 9\nvideo 1 9\n";
    let text = "sent 1 1 2 1 0\ntotal 1 1 0 0 0 0\nok\n";
    assert!(rt; answers(rt.alloc(), BRIEF, &file, schedule, TrialStatus::Ok, text)?);
    Ok(())
}

#[test]
fn a_shard_of_parity_makes_the_tenth(rt: HostRuntime) -> Result<(), Fail> {
    let file = units(rt.alloc(), 1, 10_000)?;
    let schedule = "session 1024 20 0\ncap\nsend 1\nvideos 1 1 9\nvideo 1 9\nvideo 1 11\n";
    let text = "sent 1 1 2 1 0\nhand 1 1 2 10000\ntotal 1 1 1 0 0 0\nok\n";
    assert!(rt; answers(rt.alloc(), BRIEF, &file, schedule, TrialStatus::Ok, text)?);
    Ok(())
}

// ---- losses

#[test]
fn a_later_frame_moves_on(rt: HostRuntime) -> Result<(), Fail> {
    let file = units(rt.alloc(), 2, 1500)?;
    let schedule = "session 1024 0 0\ncap\nsend 1\ncap\nsend 1\nvideo 1 1\nvideo 1 3\nvideo 1 2\n\
        video 1 4\n";
    let text =
        "sent 1 1 2 1 0\nsent 1 2 2 2 0\nask 1 1 1\nhand 1 2 2 1500\ntotal 1 2 1 1 0 0\nok\n";
    assert!(rt; answers(rt.alloc(), BRIEF, &file, schedule, TrialStatus::Ok, text)?);
    Ok(())
}

#[test]
fn a_stream_is_entered_again(rt: HostRuntime) -> Result<(), Fail> {
    let file = chain(rt.alloc(), 5)?;
    let schedule = "session 1024 0 0\ncap\nsend 1\nvideo 1 1\ncap\nsend 1\ncap\nsend 1\nvideo 1 3\n\
        cap\nsend 1\nvideo 1 4\nup 1 3\ncap\nsend 1\nvideo 1 5\n";
    let text =
        "sent 1 1 2 1 0\nhand 1 1 2 5\nsent 1 2 1 2 1\nsent 1 3 1 3 2\nask 1 2 2\nsent 1 4 1 4 3\n\
        invalid 1 2 2\nsent 1 5 5 5 1\nhand 1 5 5 4\ntotal 1 5 2 1 0 0\nok\n";
    assert!(rt; answers(rt.alloc(), BRIEF, &file, schedule, TrialStatus::Ok, text)?);
    Ok(())
}

// The lines of eight frames of which three are lost, up to the first message that comes to the host.
fn losses() -> &'static str {
    "session 1024 0 0\ncap\nsend 1\nvideo 1 1\ncap\nsend 1\ncap\nsend 1\nvideo 1 3\ncap\nsend 1\n\
        cap\nsend 1\nvideo 1 5\n"
}

fn losses_mended() -> &'static str {
    "up 1 3\ncap\nsend 1\nup 1 4\ncap\nsend 1\nvideo 1 7\nup 1 5\ncap\nsend 1\nvideo 1 8\n"
}

fn losses_text() -> &'static str {
    "sent 1 1 2 1 0\nhand 1 1 2 5\nsent 1 2 1 2 1\nsent 1 3 1 3 2\nask 1 2 2\nsent 1 4 1 4 3\n\
        sent 1 5 1 5 4\nask 1 4 4\ninvalid 1 2 2\nsent 1 6 5 6 1\ninvalid 1 4 4\nsent 1 7 5 7 1\nask 1 6 6\n\
        hand 1 7 5 4\ninvalid 1 6 6\nsent 1 8 5 8 1\nhand 1 8 5 4\ntotal 1 8 3 3 0 0\nok\n"
}

fn joined(alloc: Global, parts: &[&str]) -> Result<String, Fail> {
    let mut text = String::new(alloc);
    for part in parts {
        text.push_str(part)?;
    }
    Ok(text)
}

#[test]
fn a_frame_of_a_loss_is_lost_too(rt: HostRuntime) -> Result<(), Fail> {
    let file = chain(rt.alloc(), 8)?;
    let schedule = joined(rt.alloc(), &[losses(), losses_mended()])?;
    let text = losses_text();
    assert!(rt;
        answers(
            rt.alloc(),
            BRIEF,
            &file,
            schedule.as_str(),
            TrialStatus::Ok,
            text
        )?
    );
    Ok(())
}

#[test]
fn a_message_that_comes_too_early_waits(rt: HostRuntime) -> Result<(), Fail> {
    let file = chain(rt.alloc(), 8)?;
    let schedule = joined(rt.alloc(), &[losses(), "up 1 4\n", losses_mended()])?;
    let text = losses_text();
    assert!(rt;
        answers(
            rt.alloc(),
            BRIEF,
            &file,
            schedule.as_str(),
            TrialStatus::Ok,
            text
        )?
    );
    Ok(())
}

#[test]
fn a_message_that_comes_too_early_is_not_acknowledged(rt: HostRuntime) -> Result<(), Fail> {
    let file = chain(rt.alloc(), 8)?;
    let status = TrialStatus::BadSchedule { line: 16 };
    let schedule = joined(rt.alloc(), &[losses(), "up 1 4\ndown 1 2\n"])?;
    let text =
        "sent 1 1 2 1 0\nhand 1 1 2 5\nsent 1 2 1 2 1\nsent 1 3 1 3 2\nask 1 2 2\nsent 1 4 1 4 3\n\
        sent 1 5 1 5 4\nask 1 4 4\n";
    assert!(rt; answers(rt.alloc(), BRIEF, &file, schedule.as_str(), status, text)?);
    Ok(())
}

// ---- audio and input

#[test]
fn audio_is_played_from_parity(rt: HostRuntime) -> Result<(), Fail> {
    let file = b"GSTAPE01\x01\0\x05\0T\0\0\0\0\x04\0\0\0\0\0\x01\0\0\0E";
    let schedule = "session 1024 0 0\ncap\nsend 1\naudio 1 5\naudio 1 6\naudio 1 2\naudio 1 3\n";
    let text =
        "sent 1 1 2 1 0\nplay 1 0 1\nplay 1 1 1\nplay 1 2 1\nplay 1 3 1\ntotal 1 1 0 0 0 4\nok\n";
    assert!(rt; answers(rt.alloc(), BRIEF, file, schedule, TrialStatus::Ok, text)?);
    Ok(())
}

#[test]
fn a_key_is_told_before_a_close(rt: HostRuntime) -> Result<(), Fail> {
    let schedule = "session 1024 0 0\nkeydown 1 65 0\nclose 1\npump 1 0\n";
    let text = "input 1 2 keydown 65 0\nclosed 1\ntotal 1 0 0 0 1 0\nok\n";
    assert!(rt;
        answers(
            rt.alloc(),
            BRIEF,
            smallest(),
            schedule,
            TrialStatus::Ok,
            text
        )?
    );
    Ok(())
}

#[test]
fn input_is_told_once_and_in_order(rt: HostRuntime) -> Result<(), Fail> {
    let schedule =
        "session 1024 0 0\nkeydown 1 65 0\nkeyup 1 65 0\nup 1 4\nup 1 3\nup 1 3\nup 1 4\n";
    let text = "input 1 2 keydown 65 0\ninput 1 2 keyup 65 0\ntotal 1 0 0 0 2 0\nok\n";
    assert!(rt;
        answers(
            rt.alloc(),
            BRIEF,
            smallest(),
            schedule,
            TrialStatus::Ok,
            text
        )?
    );
    Ok(())
}

// A session, and that many times the same key.
fn keys(alloc: Global, count: u32) -> Result<String, Fail> {
    let mut schedule = String::from_str(alloc, "session 1024 0 0\n")?;
    for _ in 0..count {
        schedule.push_str("keydown 1 65 0\n")?;
    }
    Ok(schedule)
}

#[test]
fn a_window_is_full_at_the_last_key(rt: HostRuntime) -> Result<(), Fail> {
    let schedule = keys(rt.alloc(), 256)?;
    let text = "total 1 0 0 0 0 0\nok\n";
    assert!(rt;
        answers(
            rt.alloc(),
            BRIEF,
            smallest(),
            schedule.as_str(),
            TrialStatus::Ok,
            text
        )?
    );
    let schedule = keys(rt.alloc(), 257)?;
    let text = "full 1 2\ntotal 1 0 0 0 0 0\nok\n";
    assert!(rt;
        answers(
            rt.alloc(),
            BRIEF,
            smallest(),
            schedule.as_str(),
            TrialStatus::Ok,
            text
        )?
    );
    Ok(())
}
