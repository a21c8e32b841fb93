//! Datagrams that come.

ghost use Rattle.std.specs.Prelude.{ℕ, None, is_some, ◌≡◌, ◌⊎◌, ◌≤◌, ◌+◌, Ok, Err, IfOk, IfErr, OnOk, OnErr, length};
ghost use Rattle.gs_enet_wire.specs.Grammar.{most_on_link, IsFaultAt, command_head};
ghost use Rattle.gs_enet.specs.Record.{PeerRecord};
ghost use Rattle.gs_enet.specs.Receive.{command_received, all_received, owed_answer};
ghost use Rattle.gs_enet.specs.Standing.{IsPeerOf};
ghost use Rattle.gs_enet.specs.Outcomes.{PeerTakes, IsTakeFault};
ghost use Rattle.gs_enet.specs.Rooms.{message_bytes, HasRooms, HasEventRoom, HasAnswerRoom, Grows};

use crate::answer::Answer;
use crate::{Peer, TakeError};
use gs_bytes::Text;
use gs_enet_wire::{Command, WireError, read_into};
use std::alloc::AllocError;
use std::collections::VecDeque;
use std::mem::replace;

impl Peer {
    /// Reads a datagram that came at that moment, in milliseconds. After an error the peer is as before.
    ///
    /// `BadDatagram` has the place of the first fault in bytes from the front, by the grammar of datagrams.
    pub fn take(&mut self, datagram: &[u8], now: u32) -> Result<(), TakeError>
        ensures taken { IfOk result (λ _. PeerTakes datagram.now now self.old self.new) }
        ensures refused { OnErr result ((r : PeerRecord) → IsPeerOf self.old r → IsPeerOf self.new r) }
        ensures bad { IfErr result (IsTakeFault datagram.now) }
        ensures bad_only { (place : ℕ) → IsFaultAt datagram.now place
            → (result ≡ Err (TakeError.BadDatagram place)) ⊎ (result ≡ Err TakeError.OutOfMemory) }
    {
        let mut commands = self.lend_commands();
        let taken = self.take_by(&mut commands, datagram, now);
        self.keep_commands(commands);
        taken
    }

    /// The vector that is kept for the commands of datagrams.
    fn lend_commands(&mut self) -> Vec<Command>
        ensures { (r : PeerRecord) → IsPeerOf self.old r → IsPeerOf self.new r }
    {
        let none = Vec::new(*self.commands.allocator());
        replace(&mut self.commands, none)
    }

    /// Takes that vector back.
    fn keep_commands(&mut self, commands: Vec<Command>)
        ensures { (r : PeerRecord) → IsPeerOf self.old r → IsPeerOf self.new r }
    {
        self.commands = commands;
    }

    /// Reads a datagram by means of a vector for its commands.
    fn take_by(
        &mut self,
        commands: &mut Vec<Command>,
        datagram: &[u8],
        now: u32,
    ) -> Result<(), TakeError>
        ensures taken { IfOk result (λ _. PeerTakes datagram.now now self.old self.new) }
        ensures refused { OnErr result ((r : PeerRecord) → IsPeerOf self.old r → IsPeerOf self.new r) }
        ensures bad { IfErr result (IsTakeFault datagram.now) }
        ensures bad_only { (place : ℕ) → IsFaultAt datagram.now place
            → (result ≡ Err (TakeError.BadDatagram place)) ⊎ (result ≡ Err TakeError.OutOfMemory) }
    {
        let header = match read_into(datagram, commands) {
            Ok(header) => header,
            Err(WireError::BadDatagram(place)) => return Err(TakeError::BadDatagram(place)),
            Err(WireError::OutOfMemory) => return Err(TakeError::OutOfMemory),
        };
        let Ok(()) = self.make_room(commands.len()) else {
            return Err(TakeError::OutOfMemory);
        };
        self.see(now);
        self.receive_all(header.sent.unwrap_or(0), commands);
        Ok(())
    }

    /// Makes room for what so many commands may add.
    fn make_room(&mut self, commands: usize) -> Result<(), AllocError>
        requires { commands ≤ most_on_link }
        ensures room { OnOk result (HasRooms commands self.new) }
        ensures same { (r : PeerRecord) → IsPeerOf self.old r → IsPeerOf self.new r }
    {
        self.waiting.reserve(commands + 1)?;
        self.pending.reserve(commands)?;
        Ok(())
    }

    /// Acts on the commands of a datagram, one after the other, and leaves the vector without them.
    fn receive_all(&mut self, sent: u16, commands: &mut Vec<Command>)
        requires { HasRooms (length commands.old.items) self.old }
        ensures { (r : PeerRecord) → IsPeerOf self.old r
            → IsPeerOf self.new (all_received sent commands.old.items r) }
    {
        let none = Vec::new(*commands.allocator());
        let mut rest = VecDeque::from_vec(replace(commands, none));
        'commands: while let Some(command) = rest.pop_front() {
            self.receive(sent, command);
        }
        *commands = rest.into_vec();
    }

    /// Acts on one command of a datagram with that sent time.
    pub(crate) fn receive(&mut self, sent: u16, command: Command)
        requires events { HasEventRoom self.old }
        requires answers { HasAnswerRoom self.old }
        ensures stands { (r : PeerRecord) → IsPeerOf self.old r → IsPeerOf self.new (command_received sent command r) }
        ensures grows { Grows 1 1 self.old self.new }
    {
        let answer = Answer {
            channel: command.channel(),
            number: command.number(),
            sent,
            to_disconnect: false,
        };
        if !is_reliable(&command) {
            self.receive_other(&command, answer);
            return;
        }
        let Some(bytes) = message_of(command) else {
            return;
        };
        self.message_came(answer.channel, answer.number, bytes, answer);
    }

    /// Acts on a command that is no message.
    fn receive_other(&mut self, command: &Command, answer: Answer)
        requires events { HasEventRoom self.old }
        requires answers { HasAnswerRoom self.old }
        requires other { message_bytes command.now ≡ None }
        requires answer { answer
            ≡ owed_answer answer.sent (command_head command.now).channel (command_head command.now).number }
        ensures stands { (r : PeerRecord) → IsPeerOf self.old r
            → IsPeerOf self.new (command_received answer.sent command.now r) }
        ensures grows { Grows 1 1 self.old self.new }
    {
        match command {
            Command::Acknowledge {
                channel,
                received,
                ..
            } => self.acknowledge_came(*channel, *received),
            Command::VerifyConnect {
                peer,
                connect_id,
                ..
            } => self.verify_came(*peer, *connect_id, answer),
            Command::Disconnect { .. } => self.disconnect_came(Answer {
                to_disconnect: true,
                ..answer
            }),
            Command::Ping { asks, .. }
            | Command::Bandwidth { asks, .. }
            | Command::Throttle { asks, .. } => self.other_came(*asks, answer),
            _ => {}
        }
    }
}

/// Whether the command is a reliable message.
fn is_reliable(command: &Command) -> bool
    ensures { result ≡ is_some (message_bytes command.now) }
{
    matches!(command, Command::Reliable { .. })
}

/// The bytes of a message.
fn message_of(command: Command) -> Option<Text>
    ensures { result ≡ message_bytes command }
{
    match command {
        Command::Reliable {
            channel: _channel,
            number: _number,
            asks: _asks,
            bytes,
        } => Some(bytes),
        Command::Unreliable {
            channel: _channel,
            number: _number,
            asks: _asks,
            unreliable: _unreliable,
            bytes: _bytes,
        } => None,
        Command::Fragment {
            channel: _channel,
            number: _number,
            asks: _asks,
            start: _start,
            count: _count,
            fragment: _fragment,
            total: _total,
            offset: _offset,
            bytes: _bytes,
        } => None,
        Command::Unsequenced {
            channel: _channel,
            number: _number,
            asks: _asks,
            group: _group,
            bytes: _bytes,
        } => None,
        Command::UnreliableFragment {
            channel: _channel,
            number: _number,
            asks: _asks,
            start: _start,
            count: _count,
            fragment: _fragment,
            total: _total,
            offset: _offset,
            bytes: _bytes,
        } => None,
        Command::Acknowledge { .. }
        | Command::Connect(_)
        | Command::VerifyConnect { .. }
        | Command::Disconnect { .. }
        | Command::Ping { .. }
        | Command::Bandwidth { .. }
        | Command::Throttle { .. } => None,
    }
}
