// What is reported of a client.

ghost use Rattle.std.specs.Prelude.{◌≡◌, ◌≤◌, ◌%◌, ◌∷◌, [], map, length, OnOk, IfOk};
ghost use Rattle.std.specs.List.{flat_map};
ghost use Rattle.gs_frames.specs.Asks.{as_list};
ghost use Rattle.gs_audio.specs.Units.{units_from};
ghost use Rattle.gs_client_core.specs.Given.{handed_at, given_frames};
ghost use Rattle.gs_run.specs.Report.{ask_report, hand_report, play_report};
ghost use Rattle.gs_run.specs.Hearing.{client_reports};
ghost use Rattle.gs_report.specs.Reporting.{with_reports};
ghost use Rattle.gs_client_end.specs.Steps.{Reported};

use gs_bytes::OutOfMemory;
use gs_client_core::Given;
use gs_enet::PeerEvent;
use gs_frames::{Range, WINDOW_GREATEST};
use gs_report::Reporter;
use gs_schedule::Output;

/// A length as a line has it.
fn length_in_line(bytes: &[u8]) -> Result<u32, OutOfMemory>
    ensures { IfOk result (λ n. n ≡ length bytes.now) }
{
    u32::try_from(bytes.len()).map_err(|_| OutOfMemory)
}

/// Reports what is asked for.
pub(crate) fn report_ask(
    session: u32,
    ask: Option<Range>,
    reporter: &mut Reporter,
) -> Result<(), OutOfMemory>
    ensures { OnOk result (reporter.new ≡ with_reports reporter.old (map (ask_report session) (as_list ask))) }
{
    match ask {
        Some(range) => reporter.report(
            &Output::Ask {
                session,
                first: range.first,
                last: range.last,
            },
            None,
        ),
        None => Ok(()),
    }
}

/// Reports a frame that is handed, and answers how many are: one or none.
fn report_frame(
    session: u32,
    frame: Option<Given<'_>>,
    reporter: &mut Reporter,
) -> Result<u64, OutOfMemory>
    ensures few { IfOk result (λ count. count ≤ 1) }
    ensures reported { IfOk result (λ count. Reported (map (hand_report session) (as_list (handed_at frame.entry)))
        count reporter.old reporter.new) }
{
    let Some(frame) = frame else {
        return Ok(0);
    };
    let hand = Output::Hand {
        session,
        frame: frame.frame,
        kind: frame.kind,
        length: length_in_line(frame.bytes)?,
    };
    reporter.report(&hand, Some(frame.bytes))?;
    Ok(1)
}

/// Reports the frames that are handed, and answers how many they are.
pub(crate) fn report_frames(
    session: u32,
    frames: [Option<Given<'_>>; WINDOW_GREATEST],
    reporter: &mut Reporter,
) -> Result<u64, OutOfMemory>
    ensures { IfOk result (λ count. Reported (map (hand_report session) (given_frames frames.entry)) count
        reporter.old reporter.new) }
{
    let [first, second, third, fourth] = frames;
    let one = report_frame(session, first, reporter)?;
    let two = one + report_frame(session, second, reporter)?;
    let three = two + report_frame(session, third, reporter)?;
    Ok(three + report_frame(session, fourth, reporter)?)
}

/// Reports the unit of that number, if it is played, and answers how many are: one or none.
fn report_unit(
    session: u32,
    number: u32,
    unit: Option<&[u8]>,
    reporter: &mut Reporter,
) -> Result<u64, OutOfMemory>
    ensures few { IfOk result (λ count. count ≤ 1) }
    ensures reported { IfOk result (λ count. Reported (map (play_report session) (units_from number (unit.entry ∷ [])))
        count reporter.old reporter.new) }
{
    let Some(unit) = unit else {
        return Ok(0);
    };
    let play = Output::Play {
        session,
        unit: number,
        length: length_in_line(unit)?,
    };
    reporter.report(&play, Some(unit))?;
    Ok(1)
}

/// Reports the units of a block that are played, the first of which has that number, and answers how many they are.
pub(crate) fn report_units(
    session: u32,
    number: u32,
    units: [Option<&[u8]>; 4],
    reporter: &mut Reporter,
) -> Result<u64, OutOfMemory>
    requires { number % 4 ≡ 0 }
    ensures { IfOk result (λ count. Reported (map (play_report session) (units_from number units.entry)) count
        reporter.old reporter.new) }
{
    let [first, second, third, fourth] = units;
    let one = report_unit(session, number, first, reporter)?;
    let two = one + report_unit(session, number + 1, second, reporter)?;
    let three = two + report_unit(session, number + 2, third, reporter)?;
    Ok(three + report_unit(session, number + 3, fourth, reporter)?)
}

/// Reports that the connection is lost, where that is what happened.
fn report_event(session: u32, event: &PeerEvent, reporter: &mut Reporter) -> Result<(), OutOfMemory>
    ensures { OnOk result (reporter.new ≡ with_reports reporter.old (client_reports session event.now)) }
{
    match event {
        PeerEvent::Lost { .. } => reporter.report(&Output::Lost { session }, None),
        PeerEvent::Connected => Ok(()),
        PeerEvent::Message { .. } => Ok(()),
        PeerEvent::Closed => Ok(()),
        PeerEvent::PeerClosed => Ok(()),
    }
}

/// Reports that the connection is lost, where one of the events says so.
pub(crate) fn report_events(
    session: u32,
    events: &[PeerEvent],
    reporter: &mut Reporter,
) -> Result<(), OutOfMemory>
    ensures { OnOk result (reporter.new ≡ with_reports reporter.old (flat_map (client_reports session) events.now)) }
{
    'events: for event in events {
        report_event(session, event, reporter)?;
    }
    Ok(())
}
