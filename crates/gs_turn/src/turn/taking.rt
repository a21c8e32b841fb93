//! A call: it draws a ticket, waits until that ticket is served, and makes its step.
ghost use Rattle.std.specs.Prelude.{◌≡◌, ℕ, [], ◌∷◌, ◌++◌, List, None};
ghost use Rattle.gs_turn.specs.declared.rule.Standing.TheVariants.{Outside};
ghost use Rattle.gs_turn.specs.declared.turn_call.TurnCall.{TurnCall};
ghost use Rattle.gs_turn.specs.Cells.{IsPassOf, opening_of, front, own};
ghost use Rattle.gs_turn.specs.History.{TurnHistory, Leaves, HasOwn, has_number, turn_call, least_number, with_call};
ghost use Rattle.gs_turn.specs.Plays.{after_call};
ghost use Rattle.gs_turn.specs.Turns.{IsSeatOf, IsOutside, Became, HasTurnWith, HasState, TurnCame, MayReply, Called};

use super::{DRAWN, MADE, SERVED, STATE, Turn};
use crate::pass::Pass;
use crate::plays::{Asked, Count, Draw, GiveBack, Look, Replied};
use crate::rule::PassView;
use crate::turned::Turned;
use atomic_table::Seat;
use crossbeam_utils::Backoff;
use std::marker::Brand;
use std::sync::Wait;

impl<S: Turned> Turn<S> {
    /// Makes a call in the pass's turn, for which it may wait. It answers what the state answers at that point of one
    /// history. The history begins with the pass's front and has the pass's own calls, each once and those of each
    /// number in order. Afterwards the front ends with this call, which counts for the pass's least number.
    pub fn call<Rt: Wait>(&self, rt: &Rt, pass: &mut Pass<S>, call: S::Call) -> S::Reply
        requires cell { IsPassOf self.now pass.old }
        ensures cell { IsPassOf self.now pass.new }
        ensures history { TurnHistory S.steps (opening_of self.now) (front pass.new) }
        ensures ends { (between : List (TurnCall S.Call S.Reply))
            × (front pass.new ≡ (front pass.old ++ between)
            ++ turn_call (least_number (own pass.old)) call result ∷ []) }
        ensures own { own pass.new ≡ with_call (turn_call (least_number (own pass.old)) call result) (own pass.old) }
        ensures numbers { (number : ℕ) → has_number number (own pass.new) ≡ has_number number (own pass.old) }
        ensures once { HasOwn (own pass.new) (front pass.new) }
    {
        self.wait_for_turn(rt, &mut pass.seat);
        self.take_turn::<Brand>(&mut pass.seat, call)
    }

    fn wait_for_turn<Rt: Wait>(
        &self,
        rt: &Rt,
        seat: &mut Seat<Option<S>, PassView<S, S::Call, S::Reply>>,
    )
        requires seat { IsSeatOf self.now seat.old }
        requires outside { IsOutside seat.old }
        ensures { TurnCame S.steps self.now seat.old seat.new }
    {
        let ticket = self.table.shared.fetch_add::<Draw>(seat, DRAWN, 1);
        let backoff = Backoff::new();
        for _ in rt.forever() {
            if self.table.shared.load::<Look>(seat, SERVED) == ticket {
                return;
            }
            backoff.snooze();
        }
        unreachable!()
    }

    // The whole of a turn, once it has come.
    fn take_turn<J: Asked<S::Call>>(
        &self,
        seat: &mut Seat<Option<S>, PassView<S, S::Call, S::Reply>>,
        call: S::Call,
    ) -> S::Reply
        requires seat { IsSeatOf self.now seat.old }
        requires turn { HasState S.steps self.now seat.old }
        requires call { J.call ≡ call ∷ [] }
        ensures called { Became seat.old seat.new
            (record (after_call call result seat.old.me.0) { standing = Outside }) [] }
        ensures history { TurnHistory S.steps (opening_of self.now) seat.new.me.0.front }
        ensures once { HasOwn seat.new.me.0.own seat.new.me.0.front }
    {
        let (reply, state) = self.make_step::<J>(seat, call);
        self.give_back(seat, state);
        reply
    }

    // The call joins the history while the seat has the state. Answers the reply and the state after.
    fn make_step<J: Asked<S::Call>>(
        &self,
        seat: &mut Seat<Option<S>, PassView<S, S::Call, S::Reply>>,
        call: S::Call,
    ) -> (S::Reply, S)
        requires seat { IsSeatOf self.now seat.old }
        requires turn { HasState S.steps self.now seat.old }
        requires call { J.call ≡ call ∷ [] }
        ensures called { Became seat.old seat.new (after_call call result.0 seat.old.me.0) ((0, None) ∷ []) }
        ensures seat { IsSeatOf self.now seat.new }
        ensures turn { HasTurnWith S.steps self.now None seat.new }
        ensures state { Leaves S.steps (opening_of self.now) seat.new.me.0.front result.1 }
        ensures once { HasOwn seat.new.me.0.own seat.new.me.0.front }
    {
        let Some(mut state) = self.table.shared.exchange(seat, STATE, None) else {
            unreachable!()
        };
        let reply = state.step(call);
        self.count::<J, Brand>(seat, &reply);
        (reply, state)
    }

    // The step at which the call joins the history.
    fn count<J: Asked<S::Call>, K: Replied<S::Reply>>(
        &self,
        seat: &mut Seat<Option<S>, PassView<S, S::Call, S::Reply>>,
        reply: &S::Reply,
    )
        requires seat { IsSeatOf self.now seat.old }
        requires turn { HasTurnWith S.steps self.now None seat.old }
        requires may { MayReply S.steps self.now seat.old J.call reply.now }
        requires reply { K.reply ≡ reply.now ∷ [] }
        ensures { (call : S.Call) → J.call ≡ call ∷ [] → Called S.steps call reply.now seat.old seat.new seat.old.me.1 }
    {
        self.table.shared.fetch_add::<Count<J, K>>(seat, MADE, 1);
    }

    pub(super) fn give_back(
        &self,
        seat: &mut Seat<Option<S>, PassView<S, S::Call, S::Reply>>,
        state: S,
    )
        requires seat { IsSeatOf self.now seat.old }
        requires turn { HasTurnWith S.steps self.now None seat.old }
        requires state { Leaves S.steps (opening_of self.now) seat.old.me.0.front state }
        ensures { Became seat.old seat.new (record seat.old.me.0 { standing = Outside }) [] }
    {
        match self.table.shared.exchange(seat, STATE, Some(state)) {
            None => {}
            Some(_) => unreachable!(),
        }
        self.table.shared.fetch_add::<GiveBack>(seat, SERVED, 1);
    }
}
