//! Messages and events, between a peer and its user.

ghost use Rattle.std.specs.Prelude.{◌≤◌, ◌<◌, length};
ghost use Rattle.gs_enet.specs.Record.{PeerRecord, channels, most_message};
ghost use Rattle.gs_enet.specs.Standing.{IsPeerOf};
ghost use Rattle.gs_enet.specs.Outcomes.{Sends, TellsNext};

use crate::{Peer, PeerEvent, SendError};
use gs_bytes::Text;

impl Peer {
    /// Gives a message to be sent on a channel (`channelID`), and answers its number there, from 1 and
    /// without wrap. A datagram has that number modulo 65,536 (`reliableSequenceNumber`).
    pub fn send(&mut self, channel: u8, bytes: &[u8]) -> Result<u64, SendError>
        requires channel { channel < channels }
        requires some { 1 ≤ length bytes.now }
        requires short { length bytes.now ≤ most_message }
        ensures { (r : PeerRecord) → IsPeerOf self.old r → Sends r channel bytes.now result self.new }
    {
        if !self.state.is_open() {
            return Err(SendError::NotOpen);
        }
        let place = usize::from(channel);
        let number = self.channels[place].next();
        if self.channels[place].is_full() {
            return Err(SendError::WindowFull);
        }
        let Ok(text) = Text::copy_of(*self.pending.allocator(), bytes) else {
            return Err(SendError::OutOfMemory);
        };
        self.busy.add(place);
        let channel = &mut self.channels[place];
        match channel.give(text) {
            Ok(()) => Ok(number),
            Err(_) => Err(SendError::OutOfMemory),
        }
    }

    /// The event that has waited longest.
    pub fn next_event(&mut self) -> Option<PeerEvent>
        ensures { (r : PeerRecord) → IsPeerOf self.old r → TellsNext r result self.new }
    {
        self.waiting.pop_front()
    }
}
