// Parts of a generated file, which are read one after the other.

ghost use Rattle.std.specs.Prelude.{◌≡◌, ◌++◌, ◌≤◌, ◌<◌, ◌⊎◌, [], true, false, length, take};
ghost use Rattle.gs_generated.specs.Parting.{IsWithin, parts_left};

use gs_tape::Unit;
use std::collections::VecDeque;

/// What was spelled last, part by part.
#[derive(Drop)]
pub(crate) struct Parts {
    /// The part that is read.
    pub(crate) part: Unit,
    /// How much of it was read.
    pub(crate) at: usize,
    /// The parts behind it.
    pub(crate) more: VecDeque<Unit>,
}

impl Parts {
    // Moves what is left of the part behind the first `count` bytes of `into`, as far as there is room, and answers how
    // many bytes are moved then.
    fn move_part(&mut self, into: &mut [u8], count: usize) -> usize
        requires within { IsWithin self.old }
        requires room { count ≤ length into.old }
        ensures within { IsWithin self.new }
        ensures bound { result ≤ length into.new }
        ensures moved { take count into.old ++ parts_left self.old ≡ take result into.new ++ parts_left self.new }
        ensures all { result < length into.new → length self.new.part ≤ self.new.at }
        ensures more { self.new.more ≡ self.old.more }
        ensures length { length into.new ≡ length into.old }
    {
        let left = &self.part.as_bytes()[self.at..];
        let n = left.len().min(into.len() - count);
        into[count..count + n].copy_from_slice(&left[..n]);
        self.at += n;
        count + n
    }

    // Goes on to the next part where this one is read whole, and answers whether there was one.
    fn next_part(&mut self) -> bool
        requires { IsWithin self.old }
        ensures within { IsWithin self.new }
        ensures same { parts_left self.new ≡ parts_left self.old }
        ensures fewer { result ≡ true → length self.new.more.items < length self.old.more.items }
        ensures none { result ≡ false → (self.old.at < length self.old.part) ⊎ (parts_left self.old ≡ []) }
    {
        if self.at < self.part.len() {
            return false;
        }
        let Some(next) = self.more.pop_front() else {
            return false;
        };
        self.part = next;
        self.at = 0;
        true
    }

    /// Moves what is left of the parts into the front of `into`, as far as there is room, and answers how much that is.
    pub(crate) fn read(&mut self, into: &mut [u8]) -> usize
        requires { IsWithin self.old }
        ensures within { IsWithin self.new }
        ensures bound { result ≤ length into.new }
        ensures moved { parts_left self.old ≡ take result into.new ++ parts_left self.new }
        ensures none { result ≡ 0 → 0 < length into.old → parts_left self.new ≡ [] }
        ensures length { length into.new ≡ length into.old }
    {
        let mut count = self.move_part(into, 0);
        'parts: while count < into.len() && self.next_part() {
            count = self.move_part(into, count);
        }
        count
    }
}
