// What a host does about the events that its side tells.

ghost use Rattle.std.specs.Prelude.{◌≡◌, ◌+◌, ℤ, Some, IfOk, OnOk, length, unsigned_abs};
ghost use Rattle.std.specs.List.{flat_map};
ghost use Rattle.gs_schedule.specs.declared.output.Output.TheVariants as output;
ghost use Rattle.gs_host_core.specs.declared.act.Act.TheVariants as the_act;
ghost use Rattle.gs_host_core.specs.ActOf.{act_of};
ghost use Rattle.gs_run.specs.Hearing.{acts_on, host_heard, all_heard};
ghost use Rattle.gs_run.specs.Totals.{input_of};
ghost use Rattle.gs_report.specs.Reporting.{Did};
ghost use Rattle.gs_host_end.specs.Heard.{Hears, KeepsHosting, done_line, inputs_in};

use gs_bytes::OutOfMemory;
use gs_enet::PeerEvent;
use gs_host_core::{Act, Host, ToldError, act_of};
use gs_report::Reporter;
use gs_schedule::Output;

/// The number of a frame, of which 32 bits have room for each.
fn frame_number(number: i64) -> Result<u32, OutOfMemory>
    ensures { IfOk result (λ frame. frame ≡ unsigned_abs number) }
{
    let Ok(frame) = u32::try_from(number.unsigned_abs()) else {
        return Err(OutOfMemory);
    };
    Ok(frame)
}

/// The line of an act that was done.
fn done_line(session: u32, channel: u8, act: Act) -> Result<Option<Output>, OutOfMemory>
    ensures { IfOk result (λ line. line ≡ done_line session channel act) }
{
    match act {
        Act::Invalidate { first, last } => {
            let first = frame_number(first)?;
            let last = frame_number(last)?;
            Ok(Some(Output::Invalid {
                session,
                first,
                last,
            }))
        }
        Act::AskIdr => Ok(Some(Output::Idr { session })),
        Act::Input(event) => Ok(Some(Output::Input {
            session,
            channel,
            event,
        })),
        Act::Nothing => Ok(None),
    }
}

/// The line of a message that named a range of frames which weren't sent.
fn ended_line(session: u32, message: &[u8]) -> Option<Output>
    ensures { (first last : ℤ) → act_of message.now ≡ the_act.Invalidate first last
        → result ≡ Some (output.Ended session first last) }
{
    match act_of(message) {
        Act::Invalidate { first, last } => Some(Output::Ended {
            session,
            first,
            last,
        }),
        Act::AskIdr | Act::Input(_) | Act::Nothing => None,
    }
}

/// A host acts on a message. The line of it is answered, if there is one.
fn act_on(
    session: u32,
    host: &mut Host,
    channel: u8,
    message: &[u8],
) -> Result<Option<Output>, OutOfMemory>
    ensures heard { IfOk result (λ line. Hears (acts_on session channel (act_of message.now) host.old.history)
        host.new.history line) }
    ensures keeps { KeepsHosting host.old host.new }
{
    match host.told(message) {
        Ok(act) => done_line(session, channel, act),
        Err(ToldError::BadRange { .. }) => Ok(ended_line(session, message)),
        Err(ToldError::Ended) => Ok(None),
        Err(ToldError::OutOfMemory) => Err(OutOfMemory),
    }
}

/// A host hears an event. The line of it is answered, if there is one.
fn heard_line(
    session: u32,
    host: &mut Host,
    event: &PeerEvent,
) -> Result<Option<Output>, OutOfMemory>
    ensures heard { IfOk result (λ line. Hears (host_heard session event.now host.old.history) host.new.history line) }
    ensures keeps { KeepsHosting host.old host.new }
{
    match event {
        PeerEvent::Message { channel, bytes, .. } => {
            act_on(session, host, *channel, bytes.as_bytes())
        }
        PeerEvent::PeerClosed => Ok(Some(Output::Closed { session })),
        PeerEvent::Lost { .. } => Ok(Some(Output::Lost { session })),
        PeerEvent::Connected | PeerEvent::Closed => Ok(None),
    }
}

/// Counts an input event, if the line is one of it. The count has 64 bits.
fn count(line: &Output, inputs: &mut u64) -> Result<(), OutOfMemory>
    ensures { OnOk result (inputs.new ≡ inputs.old + inputs_in (Some line.now)) }
{
    if !matches!(line, Output::Input { .. }) {
        return Ok(());
    }
    let Some(more) = inputs.checked_add(1) else {
        return Err(OutOfMemory);
    };
    *inputs = more;
    Ok(())
}

/// A host hears an event: what it does about it is reported, and an input event is counted.
fn hear(
    session: u32,
    host: &mut Host,
    event: &PeerEvent,
    inputs: &mut u64,
    reporter: &mut Reporter,
) -> Result<(), OutOfMemory>
    ensures heard { OnOk result (Did (λ h. host.new.history ≡ h) (host_heard session event.now host.old.history)
        reporter.old reporter.new) }
    ensures inputs { OnOk result (inputs.new ≡ inputs.old + length (input_of event.now)) }
    ensures keeps { KeepsHosting host.old host.new }
{
    let Some(line) = heard_line(session, host, event)? else {
        return Ok(());
    };
    reporter.report(&line, None)?;
    count(&line, inputs)
}

/// A host hears events, in order.
pub fn hear_all(
    session: u32,
    host: &mut Host,
    events: &[PeerEvent],
    inputs: &mut u64,
    reporter: &mut Reporter,
) -> Result<(), OutOfMemory>
    ensures heard { OnOk result (Did (λ h. host.new.history ≡ h) (all_heard session events.now host.old.history)
        reporter.old reporter.new) }
    ensures inputs { OnOk result (inputs.new ≡ inputs.old + length (flat_map input_of events.now)) }
    ensures keeps { KeepsHosting host.old host.new }
{
    'events: for event in events {
        hear(session, host, event, inputs, reporter)?;
    }
    Ok(())
}
