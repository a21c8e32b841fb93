// What a client owes its host.

ghost use Rattle.std.specs.Prelude.{◌≡◌, ◌≤◌, ◌+◌, ◌++◌, ◌∷◌, [], OnOk, OnErr, length};
ghost use Rattle.gs_enet.specs.Record.{PeerRecord};
ghost use Rattle.gs_enet.specs.Standing.{IsPeerOf};
ghost use Rattle.gs_control.specs.Message.{IsWritten, HasInputButton};
ghost use Rattle.gs_client_core.specs.Owed.{message_of, owed_message, SendsOne};

use gs_bytes::OutOfMemory;
use gs_control::{MESSAGE_ROOM, Message};
use gs_enet::{Peer, SendError};
use gs_frames::Range;
use std::alloc::Global;
use std::collections::VecDeque;
use std::marker::Model;

// The channel on which a client asks.
const REQUEST_CHANNEL: u8 = 1;

// The most things that are owed, so that they can be counted.
const OWED_GREATEST: usize = u32::MAX as usize;

/// What a client owes its host: that it lost frames, or that it needs an IDR frame.
#[derive(Clone, Copy, Debug, PartialEq, Eq)]
pub enum Owed {
    Lost(Range),
    Idr,
}

impl Owed {
    // As a message of the control stream.
    fn message(&self) -> Message
        ensures is { result ≡ message_of self.now }
        ensures written { IsWritten result }
        ensures button { HasInputButton result }
    {
        match self {
            Owed::Lost(range) => Message::Invalidate {
                first: i64::from(range.first),
                last: i64::from(range.last),
            },
            Owed::Idr => Message::IdrRequest,
        }
    }

    // Gives it to the peer, where the connection is up and its window isn't full, and tells whether it went.
    fn send(&self, peer: &mut Peer) -> Result<bool, OutOfMemory>
        ensures { (r : PeerRecord) → IsPeerOf peer.old r → SendsOne r (owed_message self.now) result peer.new }
    {
        let mut out = [0; MESSAGE_ROOM];
        let length = self.message().write(&mut out);
        match peer.send(REQUEST_CHANNEL, &out[..length]) {
            Ok(_) => Ok(true),
            Err(SendError::NotOpen) => Ok(false),
            Err(SendError::WindowFull) => Ok(false),
            Err(SendError::OutOfMemory) => Err(OutOfMemory),
        }
    }
}

/// What a client owes its host, in the order in which it arose.
#[derive(Drop)]
pub struct Asker {
    owed: VecDeque<Owed>,
}

impl Model for Asker {
    ghost use Rattle.std.specs.Prelude.{◌≤◌, List};
    ghost use Rattle.std.specs.VecDeque.{deque_len};
    ghost use Rattle.gs_client_core.specs.declared.asker.Owed.{Owed};

    ghost Value = { List Owed };

    ghost view = { λ asker. asker.owed.items };

    ghost invariant = { λ asker. deque_len asker.owed ≤ 4294967295 };
}

impl Asker {
    ghost use Rattle.std.specs.Prelude.{drop};
    ghost use Rattle.gs_client_core.specs.Owed.{gone_by, SendsFront, SendsOwed};

    /// Owes nothing.
    pub fn new(alloc: Global) -> Asker
        ensures { result ≡ [] }
    {
        Asker {
            owed: VecDeque::new(alloc),
        }
    }

    // Owes one thing more.
    fn push(&mut self, owed: Owed) -> Result<(), OutOfMemory>
        ensures ok { OnOk result (self.new ≡ self.old ++ owed ∷ []) }
        ensures refused { OnErr result (self.new ≡ self.old) }
    {
        if self.owed.len() == OWED_GREATEST {
            return Err(OutOfMemory);
        }
        self.owed.push_back(owed)?;
        Ok(())
    }

    /// Owes an ask for lost frames, behind what is owed.
    pub fn owe(&mut self, range: Range) -> Result<(), OutOfMemory>
        ensures ok { OnOk result (self.new ≡ self.old ++ Owed.Lost range ∷ []) }
        ensures refused { OnErr result (self.new ≡ self.old) }
    {
        self.push(Owed::Lost(range))
    }

    /// Owes a request for an IDR frame, behind what is owed.
    pub fn owe_idr(&mut self) -> Result<(), OutOfMemory>
        ensures ok { OnOk result (self.new ≡ self.old ++ Owed.Idr ∷ []) }
        ensures refused { OnErr result (self.new ≡ self.old) }
    {
        self.push(Owed::Idr)
    }

    // How many things are owed.
    fn count(&self) -> u32
        ensures { result ≡ length self.now }
    {
        self.owed.len() as u32
    }

    // Gives the first thing that is owed to the peer, and tells whether it went.
    fn send_front(&mut self, peer: &mut Peer) -> Result<bool, OutOfMemory>
        ensures rest { self.new ≡ drop (gone_by result) self.old }
        ensures fewer { length self.new + gone_by result ≡ length self.old }
        ensures some { OnErr result (1 ≤ length self.old) }
        ensures gone { (r : PeerRecord) → IsPeerOf peer.old r → SendsFront r self.old result peer.new }
    {
        let Some(owed) = self.owed.front() else {
            return Ok(false);
        };
        let went = owed.send(peer)?;
        if went {
            self.owed.pop_front();
        }
        Ok(went)
    }

    /// Gives what is owed to the peer, in order on channel 1, until none is left or the peer takes no more: its window
    /// is full, or the connection isn't up. Answers how many went. After want of memory those that went are gone, and
    /// the rest stays.
    pub fn send_owed(&mut self, peer: &mut Peer) -> Result<u32, OutOfMemory>
        ensures { (r : PeerRecord) → IsPeerOf peer.old r → SendsOwed r self.old self.new result peer.new }
    {
        let all = self.count();
        'owed: for gone in 0..all {
            if !self.send_front(peer)? {
                return Ok(gone);
            }
        }
        Ok(all)
    }
}
