mod captures;
mod rows;
mod windows;

use super::{TrialStatus, trial_main};
use gs_bytes::{MemSink, MemSource};
use std::alloc::Global;
use std::test::Fail;

/// A capture file of three ticks without audio.
const TAPE: [u8; 52] = *b"GSTAPE01\0\0\x05\0\
T\0\0\0\0\0\0\x02\0\0\0ab\
T\x10\0\0\0\0\0\x02\0\0\0cd\
T\x20\0\0\0\0\0\x02\0\0\0efE";

// A capture file of five ticks, with units against all ticks before.
fn chain() -> &'static [u8] {
    b"GSTAPE01\0\0\x05\0\
T\0\0\0\0\0\0\x02\0\0\0ab\
T\0\0\0\0\0\x01\x02\0\0\0cd\x01\0\0\0\x01\0\0\0A\
T\0\0\0\0\0\x02\x02\0\0\0ef\x01\0\0\0\x01\0\0\0B\x02\0\0\0\x01\0\0\0C\
T\0\0\0\0\0\x03\x02\0\0\0gh\x01\0\0\0\x01\0\0\0D\x02\0\0\0\x01\0\0\0E\x03\0\0\0\x01\0\0\0F\
T\0\0\0\0\0\x03\x02\0\0\0ij\x01\0\0\0\x01\0\0\0G\x02\0\0\0\x01\0\0\0H\x03\0\0\0\x01\0\0\0IE"
}

// A capture file of a tick with four audio units of a byte.
fn sound() -> &'static [u8] {
    b"GSTAPE01\x01\0\x05\0T\0\0\0\0\x04\0\0\0\0\0\x01\x02\x03\x04E"
}

// A capture file that ends inside its second tick.
fn cut() -> &'static [u8] {
    b"GSTAPE01\0\0\x05\0T\0\0\0\0\0\0\x02\0\0\0abT\0"
}

// A capture file with audio units of 1,401 bytes.
fn long_audio() -> &'static [u8] {
    b"GSTAPE01\x79\x05\x05\0E"
}

// A capture file with a unit of almost 4 GiB.
fn large_unit() -> &'static [u8] {
    b"GSTAPE01\0\0\x05\0T\0\0\0\0\0\0\xff\xff\xff\xffab"
}

// What a trial of these words answers over a capture file and a schedule, where the calls of these numbers fail. A
// write takes up to so many bytes.
fn trial_over(
    alloc: Global,
    line: &str,
    tape: &[u8],
    schedule: &str,
    most: usize,
    fails: [u64; 3],
) -> Result<(TrialStatus, MemSink), Fail> {
    let mut words = Vec::new(alloc);
    for word in line.split(' ') {
        words.push(String::from_str(alloc, word)?)?;
    }
    let [first, second, third] = fails;
    let mut tape = MemSource::new(alloc, tape, &[first])?;
    let mut schedule = MemSource::new(alloc, schedule.as_bytes(), &[second])?;
    let mut out = MemSink::new(alloc, most, &[third])?;
    let status = trial_main(alloc, &words, &mut tape, &mut schedule, &mut out);
    Ok((status, out))
}

// The same over the capture file of three ticks, where a write takes up to 64 bytes.
fn trial_of(
    alloc: Global,
    line: &str,
    schedule: &str,
    fails: [u64; 3],
) -> Result<(TrialStatus, MemSink), Fail> {
    trial_over(alloc, line, &TAPE, schedule, 64, fails)
}

// Whether a schedule over a capture file is answered so, and that text is written.
fn answers(
    alloc: Global,
    words: &str,
    tape: &[u8],
    schedule: &str,
    status: TrialStatus,
    text: &str,
) -> Result<bool, Fail> {
    let (answer, out) = trial_over(alloc, words, tape, schedule, 64, [0, 0, 0])?;
    Ok(answer == status && out.written() == text.as_bytes())
}

#[test]
fn a_schedule_is_run(rt: HostRuntime) -> Result<(), Fail> {
    let schedule = "session 1392 20 2\ncap\nsend 1\ncap\nsend 1\nvideo 1 4\npump 1 0\ncap\nsend 1\n\
        pump 1 0\nkeydown 1 65 0\ntime 60\npump 1 0\nclose 1\npump 1 0\n";
    let (status, out) = trial_of(
        rt.alloc(),
        "script bytes tape schedule",
        schedule,
        [0, 0, 0],
    )?;
    println!(rt; "{}", str::from_utf8(out.written()).ok().unwrap_or("?"))?;
    assert_eq!(rt; status, TrialStatus::Ok);
    Ok(())
}

#[test]
fn a_fault_of_each_input_is_answered(rt: HostRuntime) -> Result<(), Fail> {
    let words = "script brief tape schedule";
    let (status, out) = trial_of(rt.alloc(), words, "cap\nsend 1\n", [0, 0, 0])?;
    assert_eq!(rt; status, TrialStatus::BadSchedule { line: 2 });
    assert!(rt; out.written().is_empty());
    let (status, _) = trial_of(rt.alloc(), words, "cap\n", [1, 0, 0])?;
    assert_eq!(rt; status, TrialStatus::TapeFault);
    let (status, _) = trial_of(rt.alloc(), words, "cap\n", [0, 1, 0])?;
    assert_eq!(rt; status, TrialStatus::ScheduleFault);
    let (status, _) = trial_of(rt.alloc(), words, "cap\n", [0, 0, 1])?;
    assert_eq!(rt; status, TrialStatus::WriteFault);
    Ok(())
}

#[test]
fn a_word_that_does_not_fit_is_named(rt: HostRuntime) -> Result<(), Fail> {
    let (status, _) = trial_of(rt.alloc(), "script all tape schedule", "", [0, 0, 0])?;
    assert_eq!(rt; status, TrialStatus::Usage { word: 2 });
    Ok(())
}

#[test]
fn a_generated_file_is_written(rt: HostRuntime) -> Result<(), Fail> {
    let (status, out) = trial_of(rt.alloc(), "tape 1 1", "", [0, 0, 0])?;
    assert_eq!(rt; status, TrialStatus::Ok);
    assert!(rt; out.written().starts_with(b"GSTAPE01\xf0\0\x05\0T"));
    assert!(rt; out.written().ends_with(b"E"));
    Ok(())
}

#[test]
fn a_capture_file_without_ticks_is_read(rt: HostRuntime) -> Result<(), Fail> {
    let words = "script brief tape schedule";
    let empty = b"GSTAPE01\0\0\x05\0E";
    assert!(rt; answers(rt.alloc(), words, empty, "", TrialStatus::Ok, "ok\n")?);
    Ok(())
}

#[test]
fn a_generated_run_is_made(rt: HostRuntime) -> Result<(), Fail> {
    let (status, out) = trial_of(rt.alloc(), "make 1 1", "", [0, 0, 0])?;
    assert_eq!(rt; status, TrialStatus::Ok);
    assert!(rt; out.written() == b"total 1 1 1 0 1 0\ntotal 2 1 1 0 0 0\nok\n".as_slice());
    Ok(())
}

#[test]
fn a_generated_run_of_many_ticks_is_made(rt: HostRuntime) -> Result<(), Fail> {
    let (status, out) = trial_of(rt.alloc(), "make 7 600", "", [0, 0, 0])?;
    assert_eq!(rt; status, TrialStatus::Ok);
    let sums = b"total 1 600 600 0 600 2000\ntotal 2 600 600 0 0 2000\nok\n";
    assert!(rt; out.written() == sums.as_slice());
    Ok(())
}

// ---- the text of the lines is gathered

// Three lines that write, of a schedule that is read at once.
fn three_lines() -> &'static str {
    "session 1024 0 0\ncap\nsend 1\nvideo 1 1\ncap\nsend 1\n"
}

fn three_texts() -> &'static [u8] {
    b"sent 1 1 2 1 0\nhand 1 1 2 2\nsent 1 2 2 2 0\n"
}

#[test]
fn text_is_written_before_a_read(rt: HostRuntime) -> Result<(), Fail> {
    let words = "script brief tape schedule";
    // The second read of the schedule finds its end: all lines were run, and their text was written before it.
    let (status, out) = trial_over(rt.alloc(), words, &TAPE, three_lines(), 4096, [0, 2, 0])?;
    assert_eq!(rt; status, TrialStatus::ScheduleFault);
    assert!(rt; out.written() == three_texts());
    Ok(())
}

#[test]
fn text_of_lines_is_written_at_once(rt: HostRuntime) -> Result<(), Fail> {
    let words = "script brief tape schedule";
    // What the lines before the second `cap` did is one write, the line behind it another, and the sums the third.
    let (status, out) = trial_over(rt.alloc(), words, &TAPE, three_lines(), 4096, [0, 0, 2])?;
    assert_eq!(rt; status, TrialStatus::WriteFault);
    assert!(rt; out.written() == b"sent 1 1 2 1 0\nhand 1 1 2 2\n".as_slice());
    let (status, out) = trial_over(rt.alloc(), words, &TAPE, three_lines(), 4096, [0, 0, 3])?;
    assert_eq!(rt; status, TrialStatus::WriteFault);
    assert!(rt; out.written() == three_texts());
    Ok(())
}

#[test]
fn a_line_at_fault_has_all_text_before_it(rt: HostRuntime) -> Result<(), Fail> {
    let words = "script brief tape schedule";
    let schedule = "session 1024 0 0\ncap\nsend 1\nvideo 1 1\nvideo 1 2\n";
    let (status, out) = trial_of(rt.alloc(), words, schedule, [0, 0, 0])?;
    assert_eq!(rt; status, TrialStatus::BadSchedule { line: 5 });
    assert!(rt; out.written() == b"sent 1 1 2 1 0\nhand 1 1 2 2\n".as_slice());
    // The line at fault is told only once that text is written.
    let (status, _) = trial_of(rt.alloc(), words, schedule, [0, 0, 1])?;
    assert_eq!(rt; status, TrialStatus::WriteFault);
    Ok(())
}

// ---- rows

#[test]
fn a_faulty_file_ends_a_run(rt: HostRuntime) -> Result<(), Fail> {
    let words = "script bytes tape schedule";
    let status = TrialStatus::BadTape { kind: 6, place: 27 };
    let text = "sent 1 1 2 1 0\nhand 1 1 2 2\nab\n";
    let sent = "session 1024 0 0\ncap\nsend 1\nvideo 1 1\n";
    assert!(rt; answers(rt.alloc(), words, cut(), sent, status, text)?);
    let read = "session 1024 0 0\ncap\nsend 1\nvideo 1 1\ncap\n";
    assert!(rt; answers(rt.alloc(), words, cut(), read, status, text)?);
    Ok(())
}

#[test]
fn limits_of_a_file_are_told(rt: HostRuntime) -> Result<(), Fail> {
    let words = "script bytes tape schedule";
    let status = TrialStatus::AudioLength { length: 1401 };
    assert!(rt; answers(rt.alloc(), words, long_audio(), "cap\n", status, "")?);
    let status = TrialStatus::UnitTooLarge { tick: 1 };
    assert!(rt; answers(rt.alloc(), words, large_unit(), "", status, "")?);
    Ok(())
}

#[test]
fn a_lost_frame_is_referred_to_no_more(rt: HostRuntime) -> Result<(), Fail> {
    let schedule = "session 1024 0 0\ncap\nsend 1\nvideo 1 1\ncap\nsend 1\ncap\nsend 1\nvideo 1 3\n\
        cap\nsend 1\nvideo 1 4\nup 1 3\ncap\nsend 1\nvideo 1 5\n";
    let text =
        "sent 1 1 2 1 0\nhand 1 1 2 2\nsent 1 2 1 2 1\nsent 1 3 1 3 2\nask 1 2 2\nsent 1 4 1 4 3\n\
        invalid 1 2 2\nsent 1 5 5 5 1\nhand 1 5 5 1\ntotal 1 5 2 1 0 0\nok\n";
    let words = "script brief tape schedule";
    assert!(rt; answers(rt.alloc(), words, chain(), schedule, TrialStatus::Ok, text)?);
    Ok(())
}

#[test]
fn a_window_holds_a_late_frame(rt: HostRuntime) -> Result<(), Fail> {
    let schedule = "session 1024 0 0 2\ncap\nsend 1\ncap\nsend 1\nvideo 1 2\nvideo 1 1\n";
    let text =
        "sent 1 1 2 1 0\nsent 1 2 1 2 1\nhand 1 1 2 2\nhand 1 2 1 1\ntotal 1 2 2 0 0 0\nok\n";
    let words = "script brief tape schedule";
    assert!(rt; answers(rt.alloc(), words, chain(), schedule, TrialStatus::Ok, text)?);
    Ok(())
}

#[test]
fn a_reset_asks_for_a_new_start(rt: HostRuntime) -> Result<(), Fail> {
    let schedule =
        "session 1024 0 0\ncap\nsend 1\nvideo 1 1\nreset 1\ncap\nsend 1\nvideo 1 2\nup 1 3\n\
        cap\nsend 1\nvideo 1 3\n";
    let text = "sent 1 1 2 1 0\nhand 1 1 2 2\nreset 1\nsent 1 2 1 2 1\nidr 1\nsent 1 3 2 3 0\n\
        hand 1 3 2 2\ntotal 1 3 2 0 0 0\nok\n";
    let words = "script brief tape schedule";
    assert!(rt; answers(rt.alloc(), words, chain(), schedule, TrialStatus::Ok, text)?);
    Ok(())
}

#[test]
fn lost_audio_is_played(rt: HostRuntime) -> Result<(), Fail> {
    let schedule = "session 1024 0 0\ncap\nsend 1\naudio 1 5\naudio 1 6\naudio 1 2\naudio 1 3\n";
    let text =
        "sent 1 1 2 1 0\nplay 1 0 1\n\x01\nplay 1 1 1\n\x02\nplay 1 2 1\n\x03\nplay 1 3 1\n\x04\n\
        total 1 1 0 0 0 4\nok\n";
    let words = "script bytes tape schedule";
    assert!(rt; answers(rt.alloc(), words, sound(), schedule, TrialStatus::Ok, text)?);
    Ok(())
}

#[test]
fn input_is_told_before_a_close(rt: HostRuntime) -> Result<(), Fail> {
    let schedule = "session 1024 0 0\nkeydown 1 65 0\nmove 1 -3 5\nclose 1\npump 1 0\n";
    let text = "input 1 2 keydown 65 0\ninput 1 3 move -3 5\nclosed 1\ntotal 1 0 0 0 2 0\nok\n";
    let words = "script brief tape schedule";
    assert!(rt; answers(rt.alloc(), words, &TAPE, schedule, TrialStatus::Ok, text)?);
    let again = "session 1024 0 0\nclose 1\nclose 1\n";
    let status = TrialStatus::BadSchedule { line: 3 };
    assert!(rt; answers(rt.alloc(), words, &TAPE, again, status, "")?);
    Ok(())
}

#[test]
fn two_sessions_have_their_own_losses(rt: HostRuntime) -> Result<(), Fail> {
    let schedule =
        "session 1024 0 0\nsession 1024 0 0 2\ncap\nsend 1\nsend 2\ncap\nsend 1\nsend 2\n\
        pump 1 2\npump 2 0\n";
    let text = "sent 1 1 2 1 0\nsent 2 1 2 1 0\nsent 1 2 2 2 0\nsent 2 2 2 2 0\nhand 1 1 2 2\n\
        hand 2 1 2 2\nhand 2 2 2 2\ntotal 1 2 1 0 0 0\ntotal 2 2 2 0 0 0\nok\n";
    let words = "script brief tape schedule";
    assert!(rt; answers(rt.alloc(), words, &TAPE, schedule, TrialStatus::Ok, text)?);
    Ok(())
}
