//! The traits through which a program reads and writes.

ghost use Rattle.std.specs.Prelude.{◌<◌, ◌≤◌, ℕ, Bool, List, None, IfOk, Option, length};
ghost use Rattle.std.specs.Io.KnownBytes.{Keeps, ReadConsumes, WriteAppends};
ghost use Rattle.gs_bytes.specs.Outside.{IsCounted, IsCountedWrite, KeepsFlag, MeetsEnd};

use crate::Failed;

/// What contracts see of an object of the outside. What an object doesn't tell is `None`, as all
/// of the bytes of a real file are.
pub trait Outside {
    /// How many of its calls have failed so far. It stands still at `u64::MAX`.
    ghost faults: { Self → ℕ };

    /// The bytes that are left to read.
    ghost left: { Self → Option (List ℕ) } = { λ _. None };

    /// The bytes that were read so far.
    ghost taken: { Self → Option (List ℕ) } = { λ _. None };

    /// Whether a read met the end.
    ghost met_end: { Self → Option Bool } = { λ _. None };

    /// The bytes that were written so far.
    ghost written: { Self → Option (List ℕ) } = { λ _. None };
}

/// A stream of bytes to read.
pub trait Source: Outside {
    /// Moves the first n of the bytes that are left into the front of `into` and answers n, which
    /// is 0 exactly at the end. A read that fails moves nothing, and counts a fault unless it
    /// failed for want of memory.
    fn read(&mut self, into: &mut [u8]) -> Result<usize, Failed>
        requires { 0 < length into.old }
        ensures bound { IfOk result (λ n. n ≤ length into.new) }
        ensures left { ReadConsumes (Self.left self.old) (Self.left self.new) result into.new }
        ensures taken { WriteAppends (Self.taken self.old) (Self.taken self.new) result into.new }
        ensures end { MeetsEnd (Self.met_end self.old) (Self.met_end self.new) result }
        ensures written { Keeps (Self.written self.old) (Self.written self.new) }
        ensures never_falls { Self.faults self.old ≤ Self.faults self.new }
        ensures counted { IsCounted (Self.faults self.old) (Self.faults self.new) result };
}

/// A stream of bytes to write.
pub trait Sink: Outside {
    /// Appends the first n bytes of `piece` to what is written and answers n. Taking none of them
    /// counts as a fault. A write that fails appends nothing, and counts a fault unless it failed
    /// for want of memory.
    fn write(&mut self, piece: &[u8]) -> Result<usize, Failed>
        requires { 0 < length piece.now }
        ensures bound { IfOk result (λ n. n ≤ length piece.now) }
        ensures written { WriteAppends (Self.written self.old) (Self.written self.new) result piece.now }
        ensures left { Keeps (Self.left self.old) (Self.left self.new) }
        ensures taken { Keeps (Self.taken self.old) (Self.taken self.new) }
        ensures end { KeepsFlag (Self.met_end self.old) (Self.met_end self.new) }
        ensures never_falls { Self.faults self.old ≤ Self.faults self.new }
        ensures counted { IsCountedWrite (Self.faults self.old) (Self.faults self.new) result };
}
