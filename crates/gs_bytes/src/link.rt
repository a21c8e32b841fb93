//! The trait through which a program sends and receives datagrams.

ghost use Rattle.std.specs.Prelude.{◌≡◌, ◌≤◌, List, None, Option, length, ℕ};
ghost use Rattle.gs_bytes.specs.Link.{HasCome, IsCountedLink, KeepsEntries, KeepsWaiting, Puts, Takes};
ghost use Rattle.gs_bytes.specs.declared.link.Waiting.{Waiting};
ghost use Rattle.gs_bytes.specs.declared.link.LinkEntry.{LinkEntry};

use crate::{Addr, Failed, MOST_ON_LINK, Text};

/// What happened on a link.
#[derive(Debug, PartialEq, Eq, Drop)]
pub enum LinkEntry {
    /// A datagram was put.
    Put { to: Addr, bytes: Text },
    /// A datagram was taken.
    Took { from: Addr, bytes: Text },
    /// Nothing waited to be taken, once or more often.
    Nothing,
}

/// A datagram that waits to be taken.
#[derive(Debug, PartialEq, Eq, Drop)]
pub struct Waiting {
    pub from: Addr,
    pub bytes: Text,
}

/// What a call of `Link::take` answers.
#[derive(Clone, Copy, Debug, PartialEq, Eq)]
pub enum Arrived {
    /// A datagram, of so many bytes.
    Datagram { from: Addr, length: usize },
    /// No datagram waits.
    Nothing,
}

/// A port on which datagrams are put and taken. A link may lose, repeat and reorder them.
pub trait Link {
    /// How many of its calls have failed so far. It stands still at `u64::MAX`.
    ghost faults: { Self → ℕ };

    /// What happened on it so far, in order. A link that doesn't tell it has `None`.
    ghost entries: { Self → Option (List LinkEntry) } = { λ _. None };

    /// The datagrams that wait to be taken, in the order in which they will be.
    ghost waiting: { Self → Option (List Waiting) } = { λ _. None };

    /// Sends a datagram of at most 4,096 bytes. A call that fails sends nothing, and counts a fault
    /// unless it failed for want of memory.
    fn put(&mut self, to: Addr, bytes: &[u8]) -> Result<(), Failed>
        requires { length bytes.now ≤ MOST_ON_LINK }
        ensures entries { Puts (entries self.old) (entries self.new) result to bytes.now }
        ensures waiting { KeepsWaiting (waiting self.old) (waiting self.new) }
        ensures never_falls { faults self.old ≤ faults self.new }
        ensures counted { IsCountedLink (faults self.old) (faults self.new) result };

    /// Moves the next datagram that waits into the front of `into`, which has 4,096 bytes. A call that
    /// fails moves nothing, and counts a fault unless it failed for want of memory.
    fn take(&mut self, into: &mut [u8]) -> Result<Arrived, Failed>
        requires { length into.old ≡ MOST_ON_LINK }
        // A datagram fits, and an answer that nothing waits is noted once where several come in a row.
        ensures entries { Takes (entries self.old) (entries self.new) result into.new }
        // Nothing is answered exactly where nothing waits.
        ensures waiting { HasCome (waiting self.old) (waiting self.new) result into.new }
        ensures never_falls { faults self.old ≤ faults self.new }
        ensures counted { IsCountedLink (faults self.old) (faults self.new) result };
}
