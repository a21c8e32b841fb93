//! The calls of a session.

ghost use Rattle.std.specs.Prelude.{◌≡◌, ℕ, ◌||◌, List, [], true, IfOk};
ghost use Rattle.std.specs.List.{AllByRecursion};
ghost use Rattle.gs_turn.specs.History.{Front, HasOwn, has_number, with_call};
ghost use Rattle.gs_session.specs.Replies.{is_choice, is_invalidation, is_idr_request};
ghost use Rattle.gs_session.specs.Sessions.{SessionCall, opening_of, front, own, made_by, IsPassOf, IsNewPass};
ghost use Rattle.gs_session.specs.Sessions.{HasPlace, LeavesRefs, IsHistory, EndsWith};
ghost use Rattle.gs_session.specs.declared.call.Call.TheVariants as call;
ghost use Rattle.gs_session.specs.declared.call.Reply.TheVariants as reply_is;

use super::Session;
use crate::call::{Call, Reply};
use crate::error::{ChooseError, EndedError, InvalidError};
use crate::pass::SessionPass;
use crate::shared::Shared;
use gs_bytes::OutOfMemory;
use gs_refs::{Refs, Sent};
use gs_tape::Tick;
use gs_turn::Turn;
use std::alloc::Global;
use std::sync::{Arc, Wait};

fn chosen(reply: Reply) -> Result<Sent, ChooseError>
    requires { is_choice reply ≡ true }
    ensures { reply ≡ reply_is.Chosen result }
{
    match reply {
        Reply::Chosen(answer) => answer,
        Reply::Taken(_) | Reply::Asked(_) => unreachable!(),
    }
}

fn taken(reply: Reply) -> Result<(), InvalidError>
    requires { is_invalidation reply ≡ true }
    ensures { reply ≡ reply_is.Taken result }
{
    match reply {
        Reply::Taken(answer) => answer,
        Reply::Chosen(_) | Reply::Asked(_) => unreachable!(),
    }
}

fn asked(reply: Reply) -> Result<(), EndedError>
    requires { is_idr_request reply ≡ true }
    ensures { reply ≡ reply_is.Asked result }
{
    match reply {
        Reply::Asked(answer) => answer,
        Reply::Chosen(_) | Reply::Taken(_) => unreachable!(),
    }
}

impl Session {
    /// A session in which nothing was done, with its two passes.
    pub fn open(alloc: Global) -> Result<(Session, SessionPass, SessionPass), OutOfMemory>
        ensures opening { IfOk result (λ made. (opening_of made.0).history ≡ []) }
        ensures first { IfOk result (λ made. IsNewPass made.0 0 made.1) }
        ensures second { IfOk result (λ made. IsNewPass made.0 1 made.2) }
    {
        let shared = Shared {
            refs: Refs::new(alloc),
        };
        let (turn, mut passes) = Turn::new(alloc, shared, 2)?;
        let Some(second) = passes.pop() else {
            unreachable!()
        };
        let Some(first) = passes.pop() else {
            unreachable!()
        };
        Ok((
            Session { turn },
            SessionPass { pass: first },
            SessionPass { pass: second },
        ))
    }

    /// Sends a tick, in the pass's turn, for which it may wait.
    pub fn choose<Rt: Wait>(
        &self,
        rt: &Rt,
        pass: &mut SessionPass,
        tick: Arc<Tick>,
    ) -> Result<Sent, ChooseError>
        requires session { IsPassOf self.now pass.old }
        ensures session { IsPassOf self.now pass.new }

        // What the pass knows is a beginning of one history, which ends with this call.
        ensures history { IsHistory self.now (front pass.new) }
        ensures ends { EndsWith self.now pass.old pass.new (call.Choose tick) (reply_is.Chosen result) }

        // The pass's own calls are there each once and in order, and this one is the last of them.
        ensures own { own pass.new ≡ with_call (made_by pass.old (call.Choose tick) (reply_is.Chosen result))
            (own pass.old) }
        ensures once { HasOwn (own pass.new) (front pass.new) }
        ensures numbers { (number : ℕ) → has_number number (own pass.new) ≡ has_number number (own pass.old) }
    {
        chosen(self.turn.call(rt, &mut pass.pass, Call::Choose(tick)))
    }

    /// Takes a range of frames as invalid, in the pass's turn, for which it may wait.
    pub fn invalidate<Rt: Wait>(
        &self,
        rt: &Rt,
        pass: &mut SessionPass,
        first: i64,
        last: i64,
    ) -> Result<(), InvalidError>
        requires session { IsPassOf self.now pass.old }
        ensures session { IsPassOf self.now pass.new }
        ensures history { IsHistory self.now (front pass.new) }
        ensures ends { EndsWith self.now pass.old pass.new (call.Invalidate first last) (reply_is.Taken result) }
        ensures own { own pass.new ≡ with_call (made_by pass.old (call.Invalidate first last) (reply_is.Taken result))
            (own pass.old) }
        ensures once { HasOwn (own pass.new) (front pass.new) }
        ensures numbers { (number : ℕ) → has_number number (own pass.new) ≡ has_number number (own pass.old) }
    {
        taken(
            self.turn
                .call(rt, &mut pass.pass, Call::Invalidate { first, last }),
        )
    }

    /// Asks that the next tick goes out as an IDR unit, in the pass's turn, for which it may wait.
    pub fn ask_idr<Rt: Wait>(&self, rt: &Rt, pass: &mut SessionPass) -> Result<(), EndedError>
        requires session { IsPassOf self.now pass.old }
        ensures session { IsPassOf self.now pass.new }
        ensures history { IsHistory self.now (front pass.new) }
        ensures ends { EndsWith self.now pass.old pass.new call.AskIdr (reply_is.Asked result) }
        ensures own { own pass.new ≡ with_call (made_by pass.old call.AskIdr (reply_is.Asked result)) (own pass.old) }
        ensures once { HasOwn (own pass.new) (front pass.new) }
        ensures numbers { (number : ℕ) → has_number number (own pass.new) ≡ has_number number (own pass.old) }
    {
        asked(self.turn.call(rt, &mut pass.pass, Call::AskIdr))
    }

    /// Ends the session and answers its references, which one history leaves from the opening. That history begins
    /// with what each pass knows, has of each pass just its own calls, each once and in order, and holds no others.
    pub fn close(self, first: SessionPass, second: SessionPass) -> Refs
        requires first { HasPlace self 0 first }
        requires second { HasPlace self 1 second }
        ensures { (h : List SessionCall) × LeavesRefs self h result × Front (front first) (own first) h
            × Front (front second) (own second) h
            × AllByRecursion (λ (e : SessionCall).
            (has_number e.number (own first) || has_number e.number (own second)) ≡ true) h }
    {
        let Session { turn } = self;
        let SessionPass { pass: mut keep } = first;
        turn.join(&mut keep, second.pass);
        let Shared { refs } = turn.close(keep);
        refs
    }
}
