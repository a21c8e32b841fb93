//! What a peer writes.

ghost use Rattle.std.specs.Prelude.{◌≡◌, ◌≢◌, ◌≤◌, ◌<◌, [], false, true, Some, IfSome, IfNone, length, drop};
ghost use Rattle.gs_enet_wire.specs.Grammar.{payload};
ghost use Rattle.gs_enet.specs.Record.{PeerRecord, control, datagram_room, is_shut};
ghost use Rattle.gs_enet.specs.Write.{address, order_command};
ghost use Rattle.gs_enet.specs.Controls.{content_of};
ghost use Rattle.gs_enet.specs.Standing.{IsPeerOf};
ghost use Rattle.gs_enet.specs.Outcomes.{WritesNext};
ghost use Rattle.gs_enet.specs.Puts.{PutsIfFits};
ghost use Rattle.gs_enet.specs.Items.{WritesOne, HasControlDue, HasNoControlDue, HasMessageDue, HasNoneDue};
ghost use Rattle.gs_enet.specs.Items.{IsPeerAsBefore};

use crate::answer::Answer;
use crate::control::{Control, ControlKind};
use crate::limits::{
    CHANNELS, CONTROL, DATAGRAM_ROOM, NOBODY, THROTTLE_INTERVAL, THROTTLE_STEP, WINDOW_BYTES,
};
use crate::{Peer, holding};
use gs_enet_wire::{Command, Connect, write_command, write_header};
use std::collections::VecDeque;

/// The bytes of a datagram's header.
const HEADER: usize = 4;

impl Peer {
    /// Writes the next datagram and answers its length in bytes; there is none where nothing is to be
    /// written. Its sent time (`sentTime`) is the moment in milliseconds modulo 65,536, and its id (`peerID`)
    /// that of the other side, `NOBODY` while it isn't known. The rest of `out` stays as it was.
    pub fn next_out(&mut self, now: u32, out: &mut [u8]) -> Option<usize>
        requires { datagram_room ≤ length out.old }
        ensures size { IfSome result (λ size. size ≤ datagram_room) }
        ensures written { (r : PeerRecord) → IsPeerOf self.old r → WritesNext r now result self.new out.old out.new }
    {
        self.see(now);
        let Some(first) = self.write_item(out, HEADER) else {
            return None;
        };
        let mut place = first;
        'items: while let Some(end) = self.write_item(out, place) {
            place = end;
        }
        write_header(out, self.address(), (self.moment % 65536) as u16);
        Some(place)
    }

    /// The id by which the other side is addressed: the low 12 bits of its id.
    fn address(&self) -> u16
        ensures { result ≡ address self.now.other }
    {
        match self.other {
            Some(other) => other % 4096,
            None => NOBODY,
        }
    }

    /// Writes the first of what is to be written from the place on, if it fits, and answers the
    /// place behind it.
    fn write_item(&mut self, out: &mut [u8], place: usize) -> Option<usize>
        requires room { datagram_room ≤ length out.old }
        requires place { place ≤ datagram_room }
        ensures end { IfSome result (λ end. (place < end) × (end ≤ datagram_room)) }
        ensures written { (r : PeerRecord) → IsPeerOf self.old r → WritesOne r place result self.new out.old out.new }
    {
        if !self.pending.is_empty() {
            return self.write_answer(out, place);
        }
        if self.state.is_shut() {
            return None;
        }
        if let Some(control) = self.control_due() {
            return self.write_control(control, out, place);
        }
        let Some(channel) = self.find_busy() else {
            return None;
        };
        self.write_message(channel, out, place)
    }

    /// The command of the control channel, if it is to be written.
    fn control_due(&self) -> Option<Control>
        ensures some { IfSome result (λ k. (self.now.control ≡ Some k) × (k.due ≡ true)) }
        ensures none { IfNone result (HasNoControlDue self.now) }
    {
        match self.control {
            Some(control) if control.due => Some(control),
            _ => None,
        }
    }

    /// Writes the first answer that is owed.
    fn write_answer(&mut self, out: &mut [u8], place: usize) -> Option<usize>
        requires room { datagram_room ≤ length out.old }
        requires place { place ≤ datagram_room }
        requires some { self.old.pending.items ≢ [] }
        ensures end { IfSome result (λ end. (place < end) × (end ≤ datagram_room)) }
        ensures written { (r : PeerRecord) → IsPeerOf self.old r → WritesOne r place result self.new out.old out.new }
    {
        let answer = self.pending[0];
        let command = Command::Acknowledge {
            channel: answer.channel,
            number: answer.number,
            asks: false,
            received: answer.number,
            received_sent: answer.sent,
        };
        let Some(end) = put_if_fits(out, place, &command) else {
            return None;
        };
        drop_first(&mut self.pending);
        Some(end)
    }

    /// Writes the command of the control channel.
    fn write_control(&mut self, due: Control, out: &mut [u8], place: usize) -> Option<usize>
        requires room { datagram_room ≤ length out.old }
        requires place { place ≤ datagram_room }
        requires due { HasControlDue due self.old }
        ensures end { IfSome result (λ end. (place < end) × (end ≤ datagram_room)) }
        ensures written { (r : PeerRecord) → IsPeerOf self.old r → WritesOne r place result self.new out.old out.new }
    {
        let command = self.control_command(&due);
        let Some(end) = put_if_fits(out, place, &command) else {
            return None;
        };
        let mut written = due;
        written.write(self.moment);
        self.control = Some(written);
        Some(end)
    }

    /// A command of the control channel.
    fn control_command(&self, held: &Control) -> Command
        ensures is { (r : PeerRecord) → IsPeerOf self.now r
            → result ≡ order_command (content_of held.now.kind) control held.now.number r }
        ensures none { payload result ≡ [] }
    {
        match held.kind {
            ControlKind::Connect => Command::Connect(Connect {
                channel: CONTROL,
                number: held.number,
                asks: true,
                peer: self.own,
                incoming: 0,
                outgoing: 0,
                mtu: DATAGRAM_ROOM as u32,
                window: WINDOW_BYTES,
                channels: CHANNELS as u32,
                incoming_bandwidth: 0,
                outgoing_bandwidth: 0,
                throttle_interval: THROTTLE_INTERVAL,
                acceleration: THROTTLE_STEP,
                deceleration: THROTTLE_STEP,
                connect_id: self.connect_id,
                extra: self.extra.unwrap_or(0),
            }),
            ControlKind::VerifyConnect => Command::VerifyConnect {
                channel: CONTROL,
                number: held.number,
                asks: true,
                peer: self.own,
                incoming: 0,
                outgoing: 0,
                mtu: DATAGRAM_ROOM as u32,
                window: WINDOW_BYTES,
                channels: CHANNELS as u32,
                incoming_bandwidth: 0,
                outgoing_bandwidth: 0,
                throttle_interval: THROTTLE_INTERVAL,
                acceleration: THROTTLE_STEP,
                deceleration: THROTTLE_STEP,
                connect_id: self.connect_id,
            },
            ControlKind::Disconnect => Command::Disconnect {
                channel: CONTROL,
                number: held.number,
                asks: true,
                extra: 0,
            },
        }
    }

    /// The first channel with a message that is to be written.
    fn find_busy(&mut self) -> Option<usize>
        ensures some { IfSome result (λ c. HasMessageDue c self.new) }
        ensures none { IfNone result (HasNoneDue self.new) }
        ensures same { IsPeerAsBefore self.old self.new }
    {
        self.busy.from = holding::find_busy(&mut self.channels, self.busy.from, self.busy.to);
        if self.busy.from == self.busy.to {
            return None;
        }
        Some(self.busy.from)
    }

    /// Writes the first message of that channel that is to be written.
    fn write_message(&mut self, channel: usize, out: &mut [u8], place: usize) -> Option<usize>
        requires room { datagram_room ≤ length out.old }
        requires place { place ≤ datagram_room }
        requires none { self.old.pending.items ≡ [] }
        requires up { is_shut self.old.state ≡ false }
        requires control { HasNoControlDue self.old }
        requires due { HasMessageDue channel self.old }
        ensures end { IfSome result (λ end. (place < end) × (end ≤ datagram_room)) }
        ensures written { (r : PeerRecord) → IsPeerOf self.old r → WritesOne r place result self.new out.old out.new }
    {
        let now = self.moment;
        self.channels[channel].write(channel as u8, now, out, place)
    }
}

/// Drops the first of the answers that are owed.
fn drop_first(pending: &mut VecDeque<Answer>)
    ensures { pending.new.items ≡ drop 1 pending.old.items }
{
    pending.pop_front();
}

/// Writes a command from the place on, if it fits, and answers the place behind it.
fn put_if_fits(out: &mut [u8], place: usize, command: &Command) -> Option<usize>
    requires room { datagram_room ≤ length out.old }
    requires place { place ≤ datagram_room }
    requires none { payload command.now ≡ [] }
    ensures { PutsIfFits command.now place result out.old out.new }
{
    if place + command.written_length() > DATAGRAM_ROOM {
        return None;
    }
    Some(write_command(out, place, command))
}
