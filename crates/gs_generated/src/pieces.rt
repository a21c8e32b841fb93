// A generated file, piece by piece.

ghost use Rattle.std.specs.Prelude.{◌≡◌, ◌++◌, ◌≤◌, ◌<◌, ◌⊎◌, [], true, length, take, OnOk};
ghost use Rattle.gs_generated.specs.Parting.{parts_left};
ghost use Rattle.gs_generated.specs.Remaining.{IsWhole, pieces_left};

use crate::parts::Parts;
use crate::unspelled::Unspelled;
use gs_bytes::OutOfMemory;
use std::alloc::Global;

/// What was spelled last, and what isn't spelled yet.
#[derive(Drop)]
pub(crate) struct Pieces {
    pub(crate) parts: Parts,
    /// Whether the end mark was spelled.
    pub(crate) ended: bool,
    pub(crate) unspelled: Unspelled,
}

impl Pieces {
    /// Spells the next piece, where the last one is read whole.
    pub(crate) fn refill(&mut self, alloc: Global) -> Result<(), OutOfMemory>
        requires whole { IsWhole self.old }
        requires read { parts_left self.old.parts ≡ [] }
        ensures whole { IsWhole self.new }
        ensures same { pieces_left self.new ≡ pieces_left self.old }
        ensures some { OnOk result ((0 < length (parts_left self.new.parts)) ⊎ (self.new.ended ≡ true)) }
    {
        if self.ended {
            return Ok(());
        }
        let next = self.unspelled.next_piece(alloc)?;
        self.parts.more = next.parts;
        self.ended = next.is_last;
        Ok(())
    }

    /// Moves what is left of the piece into the front of `into`, as far as there is room, and answers how much that is.
    pub(crate) fn read(&mut self, into: &mut [u8]) -> usize
        requires { IsWhole self.old }
        ensures whole { IsWhole self.new }
        ensures bound { result ≤ length into.new }
        ensures moved { pieces_left self.old ≡ take result into.new ++ pieces_left self.new }
        ensures parts { parts_left self.old.parts ≡ take result into.new ++ parts_left self.new.parts }
        ensures none { result ≡ 0 → 0 < length into.old → parts_left self.new.parts ≡ [] }
        ensures ended { self.new.ended ≡ self.old.ended }
        ensures length { length into.new ≡ length into.old }
    {
        self.parts.read(into)
    }
}
