//! A message that isn't acknowledged yet.

ghost use Rattle.std.specs.Prelude.{◌≡◌, ◌≤◌, ◌+◌, true, length};
ghost use Rattle.gs_enet.specs.declared.limits.TheConstants.{MOST_WRITES};
ghost use Rattle.gs_enet.specs.Record.{most_message, datagram_room};
ghost use Rattle.gs_enet.specs.Steps;

use crate::limits::{DATAGRAM_ROOM, FIRST_WAIT, LONGEST_WAIT, MOST_WRITES};
use gs_bytes::Text;
use gs_enet_wire::write_reliable;

/// The bytes of a message on the wire, without its data.
const RELIABLE: usize = 6;

/// How long the n-th writing of a command waits for its acknowledgement, in milliseconds.
pub fn wait_after(writes: u8) -> u32
    ensures { result ≡ Steps.wait_after writes }
{
    match writes {
        0 | 1 => FIRST_WAIT,
        2 => 2 * FIRST_WAIT,
        3 => 4 * FIRST_WAIT,
        _ => LONGEST_WAIT,
    }
}

/// A message, how often and when it was written, and whether it is to be written.
#[derive(Drop)]
pub struct Held {
    pub bytes: Text,
    /// How often it was written (`sendAttempts`).
    pub writes: u8,
    /// The moment of the last writing (`sentTime`), in milliseconds.
    pub written: u32,
    pub due: bool,
    ghost short: { length bytes ≤ most_message },
    ghost few: { writes ≤ MOST_WRITES },
    ghost again: { due ≡ true → writes + 1 ≤ MOST_WRITES },
}

impl Held {
    ghost use Rattle.gs_enet_wire.specs.declared.command.Command.TheVariants.{Reliable};
    ghost use Rattle.gs_enet.specs.Window.{held_waited, held_lost};
    ghost use Rattle.gs_enet.specs.Puts.{PutsIfFits};

    /// Whether the message was written and its wait has passed.
    pub fn has_waited(&self, now: u32) -> bool
        ensures { result ≡ held_waited now self.now }
    {
        !self.due && u64::from(self.written) + u64::from(wait_after(self.writes)) <= u64::from(now)
    }

    /// Whether the message had its last wait.
    pub fn is_lost(&self, now: u32) -> bool
        ensures { result ≡ held_lost now self.now }
    {
        self.has_waited(now) && self.writes >= MOST_WRITES
    }

    /// Writes the message as one of that channel and number from the place on, if it fits, and
    /// answers the place behind it.
    pub fn put(&self, channel: u8, number: u16, out: &mut [u8], place: usize) -> Option<usize>
        requires room { datagram_room ≤ length out.old }
        requires place { place ≤ datagram_room }
        ensures { PutsIfFits (Reliable channel number true self.now.bytes) place result out.old out.new }
    {
        if place + RELIABLE + self.bytes.len() > DATAGRAM_ROOM {
            return None;
        }
        Some(write_reliable(out, place, channel, number, self.bytes.as_bytes()))
    }
}
