//! Passes are joined, and a cell is closed.
ghost use Rattle.std.specs.Prelude.{◌≡◌, ℕ, ◌++◌, ◌||◌, ◌⊎◌, List, true};
ghost use Rattle.std.specs.List.{AllByRecursion};
ghost use mathlib.Core.List.{IsPrefix};
ghost use Rattle.gs_turn.specs.declared.turn_call.TurnCall.{TurnCall};
ghost use Rattle.gs_turn.specs.Cells.{opening_of, IsPassOf, HasAllNumbers, front, own};
ghost use Rattle.gs_turn.specs.History.{Leaves, Front, has_number};

use super::{DRAWN, STATE, Turn};
use crate::pass::Pass;
use crate::plays::{Both, Settle};
use crate::turned::Turned;

impl<S: Turned> Turn<S> {
    /// Makes one pass of two. It has the numbers and calls of both, and the longer of their fronts, which begins with
    /// the other.
    pub fn join(&self, keep: &mut Pass<S>, give: Pass<S>)
        requires cell { IsPassOf self.now keep.old × IsPassOf self.now give }
        ensures cell { IsPassOf self.now keep.new }
        ensures own { own keep.new ≡ own keep.old ++ own give }
        ensures numbers { (number : ℕ) → has_number number (own keep.new) ≡ (has_number number (own keep.old)
            || has_number number (own give)) }
        ensures begins { IsPrefix (front keep.old) (front keep.new) × IsPrefix (front give) (front keep.new) }
        ensures longer { (front keep.new ≡ front keep.old) ⊎ (front keep.new ≡ front give) }
    {
        let Pass { seat } = give;
        self.table.shared.join_seat::<Both>(&mut keep.seat, seat);
        self.table.shared.load::<Settle>(&mut keep.seat, DRAWN);
    }

    /// Ends the cell and answers its state, which one history leaves from the opening state. The pass has all numbers
    /// of the cell. The history begins with its front, has under each number just the calls that the pass has, each
    /// once and in order, and holds no other call.
    pub fn close(self, pass: Pass<S>) -> S
        requires cell { IsPassOf self pass }
        requires all { HasAllNumbers self pass }
        ensures { (h : List (TurnCall S.Call S.Reply)) × Leaves S.steps (opening_of self) h result
            × Front (front pass) (own pass) h
            × AllByRecursion (λ (e : TurnCall S.Call S.Reply). has_number e.number (own pass) ≡ true) h }
    {
        let Turn { table } = self;
        let Pass { seat } = pass;
        let mut closed = table.close_with(seat);
        let state = closed.take(STATE);
        closed.free();
        match state {
            Some(state) => state,
            None => unreachable!(),
        }
    }
}
