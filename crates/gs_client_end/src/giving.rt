// What a client's user does.

ghost use Rattle.std.specs.Prelude.{false, ◌≡◌, ◌≤◌, ◌<◌, ℕ, length, IfOk};
ghost use Rattle.gs_input.specs.Event.{HasButton, IsKnown};
ghost use Rattle.gs_enet.specs.Record.{channels, most_message};
ghost use Rattle.gs_run.specs.Session.{Part};
ghost use Rattle.gs_run.specs.Message.{event_channel};
ghost use Rattle.gs_client_end.specs.Standing.{IsClientEndOf};
ghost use Rattle.gs_client_end.specs.Steps.{GivesMessage};
ghost use Rattle.gs_client_end.specs.Outcomes.{Gives, AsksIdr, Closes};

use crate::ClientEnd;
use crate::end::REQUEST_CHANNEL;
use gs_bytes::OutOfMemory;
use gs_control::{MESSAGE_ROOM, Message};
use gs_enet::SendError;
use gs_input::Event;
use gs_report::Reporter;
use gs_schedule::Output;

/// The channel of the keys, and that of all other events.
const KEY_CHANNEL: u8 = 2;

const INPUT_CHANNEL: u8 = 3;

/// The channel of an event.
fn channel_of(event: &Event) -> u8
    ensures { result ≡ event_channel event.now }
{
    match event {
        Event::KeyDown { .. } => KEY_CHANNEL,
        Event::KeyUp { .. } => KEY_CHANNEL,
        Event::Move { .. } => INPUT_CHANNEL,
        Event::At { .. } => INPUT_CHANNEL,
        Event::Press { .. } => INPUT_CHANNEL,
        Event::Release { .. } => INPUT_CHANNEL,
        Event::Scroll { .. } => INPUT_CHANNEL,
        Event::Unknown { .. } => INPUT_CHANNEL,
    }
}

impl ClientEnd {
    /// The user does something. A full window refuses it, which is reported. Answers false where the client is closed
    /// or lost, or the event's channel may have no more messages. Then nothing is reported; but in the second case its
    /// side has the message, so that the end stands for no part of a run any more.
    pub fn give(&mut self, event: &Event, reporter: &mut Reporter) -> Result<bool, OutOfMemory>
        requires known { IsKnown event.now }
        requires button { HasButton event.now }
        ensures { IfOk result (λ done. (session : ℕ) (part : Part) → IsClientEndOf self.old session part
            → Gives session event.now part done self.new reporter.old reporter.new) }
    {
        let mut out = [0; MESSAGE_ROOM];
        let length = Message::Input(*event).write(&mut out);
        self.give_message(channel_of(event), &out[..length], reporter)
    }

    /// Asks for a frame that needs no other, as `give` does.
    pub fn ask_idr(&mut self, reporter: &mut Reporter) -> Result<bool, OutOfMemory>
        ensures { IfOk result (λ done. (session : ℕ) (part : Part) → IsClientEndOf self.old session part
            → AsksIdr session part done self.new reporter.old reporter.new) }
    {
        let mut out = [0; MESSAGE_ROOM];
        let length = Message::IdrRequest.write(&mut out);
        self.give_message(REQUEST_CHANNEL, &out[..length], reporter)
    }

    /// Gives the connection a message.
    fn give_message(
        &mut self,
        channel: u8,
        bytes: &[u8],
        reporter: &mut Reporter,
    ) -> Result<bool, OutOfMemory>
        requires channel { channel < channels }
        requires some { 1 ≤ length bytes.now }
        requires short { length bytes.now ≤ most_message }
        ensures { IfOk result (λ done. (session : ℕ) (part : Part) → IsClientEndOf self.old session part
            → GivesMessage session channel bytes.now part done self.new reporter.old reporter.new) }
    {
        let may_make = !self.has_made_most(channel);
        match self.side.send(channel, bytes) {
            Ok(_) => Ok(may_make),
            Err(SendError::NotOpen) => Ok(false),
            Err(SendError::WindowFull) => {
                let full = Output::Full {
                    session: self.session,
                    channel,
                };
                reporter.report(&full, None)?;
                Ok(true)
            }
            Err(SendError::OutOfMemory) => Err(OutOfMemory),
        }
    }

    /// Closes the connection once everything that was sent is acknowledged. Answers false, and does nothing, where it
    /// is closed or lost.
    pub fn close(&mut self) -> bool
        ensures closes { (session : ℕ) (part : Part) → IsClientEndOf self.old session part
            → Closes session part result self.new }
        ensures same { result ≡ false → self.new ≡ self.old }
    {
        if !self.is_open() {
            return false;
        }
        self.side.close();
        true
    }
}
