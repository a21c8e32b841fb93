//! What a peer reads.

ghost use Rattle.std.specs.Prelude.{◌≡◌, ◌<◌, not};
ghost use Rattle.gs_enet.specs.Record.{PeerRecord, channels, control, owing, happened, shut};
ghost use Rattle.gs_enet.specs.Receive.{acknowledge_came, connected, message_came, verify_came, disconnect_came};
ghost use Rattle.gs_enet.specs.Receive.{other_came, expected, is_connect};
ghost use Rattle.gs_enet.specs.Standing.{IsPeerOf};
ghost use Rattle.gs_enet.specs.Events.{IsQuiet};
ghost use Rattle.gs_enet.specs.Rooms.{HasEventRoom, HasAnswerRoom, Grows, HearsMore};
ghost use Rattle.std.specs.List.{filter};
ghost use Rattle.gs_enet.specs.Controls.{control_held};

use crate::answer::Answer;
use crate::control::{Control, ControlKind};
use crate::limits::CONTROL;
use crate::timing::keep_answers_to_disconnect;
use crate::{Peer, PeerEvent, PeerState};
use gs_bytes::Text;

impl Peer {
    /// Owes an answer.
    pub(crate) fn owe(&mut self, answer: Answer)
        requires { HasAnswerRoom self.old }
        ensures stands { (r : PeerRecord) → IsPeerOf self.old r → IsPeerOf self.new (owing answer r) }
        ensures grows { Grows 0 1 self.old self.new }
    {
        let Ok(()) = self.pending.push_back(answer) else {
            unreachable!()
        };
    }

    /// Has an event wait that is no message.
    pub(crate) fn happen(&mut self, event: PeerEvent)
        requires room { HasEventRoom self.old }
        requires quiet { IsQuiet event }
        ensures stands { (r : PeerRecord) → IsPeerOf self.old r → IsPeerOf self.new (happened event r) }
        ensures grows { Grows 1 0 self.old self.new }
    {
        let Ok(()) = self.waiting.push_back(event) else {
            unreachable!()
        };
    }

    /// The connection is over: of the answers that are owed only those to a disconnect are written.
    pub(crate) fn shut(&mut self)
        ensures stands { (r : PeerRecord) → IsPeerOf self.old r → IsPeerOf self.new (shut r) }
        ensures grows { Grows 0 0 self.old self.new }
    {
        self.state = PeerState::Shut;
        keep_answers_to_disconnect(&mut self.pending);
    }

    /// The other side disconnected.
    pub(crate) fn disconnect_came(&mut self, answer: Answer)
        requires events { HasEventRoom self.old }
        requires answers { HasAnswerRoom self.old }
        ensures stands { (r : PeerRecord) → IsPeerOf self.old r → IsPeerOf self.new (disconnect_came answer r) }
        ensures grows { Grows 1 1 self.old self.new }
    {
        if self.disconnected {
            self.owe(answer);
            return;
        }
        self.disconnected = true;
        self.happen(PeerEvent::PeerClosed);
        self.shut();
        self.owe(answer);
    }

    /// A command that only wants an answer.
    pub(crate) fn other_came(&mut self, asks: bool, answer: Answer)
        requires events { HasEventRoom self.old }
        requires answers { HasAnswerRoom self.old }
        ensures stands { (r : PeerRecord) → IsPeerOf self.old r → IsPeerOf self.new (other_came asks answer r) }
        ensures grows { Grows 0 1 self.old self.new }
    {
        if asks && !self.state.is_shut() {
            self.owe(answer);
        }
    }

    /// A message of a channel, with that number on the wire.
    pub(crate) fn message_came(&mut self, channel: u8, number: u16, bytes: Text, answer: Answer)
        requires events { HasEventRoom self.old }
        requires answers { HasAnswerRoom self.old }
        ensures stands { (r : PeerRecord) → IsPeerOf self.old r
            → IsPeerOf self.new (message_came channel number bytes answer r) }
        ensures grows { Grows 1 1 self.old self.new }
    {
        let place = usize::from(channel);
        if place >= self.channels.len() || !self.state.takes_messages() {
            return;
        }
        let known = &self.channels[place];
        if known.is_next(number) {
            self.tell(channel, bytes);
            self.owe(answer);
        } else if known.is_behind(number) {
            self.owe(answer);
        }
    }

    /// Has the next message of a channel wait to be told.
    fn tell(&mut self, channel: u8, bytes: Text)
        requires room { HasEventRoom self.old }
        requires channel { channel < channels }
        requires number { HearsMore channel self.old }
        ensures stands { (r : PeerRecord) → IsPeerOf self.old r
            → IsPeerOf self.new (happened (PeerEvent.Message channel (expected r channel) bytes) r) }
        ensures grows { Grows 1 0 self.old self.new }
    {
        let heard = &mut self.channels[usize::from(channel)];
        heard.heard += 1;
        let number = heard.heard;
        let Ok(()) = self.waiting.push_back(PeerEvent::Message {
            channel,
            number,
            bytes,
        })
        else {
            unreachable!()
        };
    }

    /// The answer to a client's request for a connection.
    pub(crate) fn verify_came(&mut self, peer: u16, connect_id: u32, answer: Answer)
        requires events { HasEventRoom self.old }
        requires answers { HasAnswerRoom self.old }
        ensures stands { (r : PeerRecord) → IsPeerOf self.old r
            → IsPeerOf self.new (verify_came peer connect_id answer r) }
        ensures grows { Grows 1 1 self.old self.new }
    {
        if self.extra.is_none() || connect_id != self.connect_id {
            return;
        }
        match self.state {
            PeerState::Connecting => {
                self.state = PeerState::Connected;
                self.other = Some(peer);
                drop_connect(&mut self.control);
                self.happen(PeerEvent::Connected);
                self.owe(answer);
            }
            PeerState::Connected | PeerState::Closing => self.owe(answer),
            PeerState::Accepting | PeerState::Shut => {}
        }
    }

    /// An acknowledgement of the command with that channel and that number on the wire.
    pub(crate) fn acknowledge_came(&mut self, channel: u8, number: u16)
        requires { HasEventRoom self.old }
        ensures stands { (r : PeerRecord) → IsPeerOf self.old r
            → IsPeerOf self.new (acknowledge_came channel number r) }
        ensures grows { Grows 1 0 self.old self.new }
    {
        if channel == CONTROL {
            self.acknowledge_control(number);
            return;
        }
        let place = usize::from(channel);
        if place >= self.channels.len() {
            return;
        }
        let acknowledged = &mut self.channels[place];
        if acknowledged.acknowledge(number) {
            self.leave();
        }
    }

    /// An acknowledgement of a command of the control channel.
    fn acknowledge_control(&mut self, number: u16)
        requires { HasEventRoom self.old }
        ensures stands { (r : PeerRecord) → IsPeerOf self.old r
            → IsPeerOf self.new (acknowledge_came control number r) }
        ensures grows { Grows 1 0 self.old self.new }
    {
        let Some(control) = self.control else {
            return;
        };
        if control.number != number {
            return;
        }
        match control.kind {
            ControlKind::Connect => self.control = None,
            ControlKind::VerifyConnect => {
                self.control = None;
                self.accepted();
            }
            ControlKind::Disconnect => {
                self.state = PeerState::Shut;
                self.control = None;
                self.happen(PeerEvent::Closed);
                self.shut();
            }
        }
    }

    /// A host's answer to a connect is acknowledged.
    fn accepted(&mut self)
        requires { HasEventRoom self.old }
        ensures stands { (r : PeerRecord) → IsPeerOf self.old r → IsPeerOf self.new (connected r.state r) }
        ensures grows { Grows 1 0 self.old self.new }
    {
        if self.state.is_accepting() {
            self.state = PeerState::Connected;
            self.happen(PeerEvent::Connected);
        }
    }
}

/// Drops the request for a connection.
fn drop_connect(held: &mut Option<Control>)
    ensures { control_held held.new ≡ filter (λ u. not (is_connect u.order)) (control_held held.old) }
{
    if let Some(control) = held
        && control.kind == ControlKind::Connect
    {
        *held = None;
    }
}
