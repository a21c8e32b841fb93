//! The references that the two threads of a session share.

ghost use Rattle.std.specs.Prelude.{◌≡◌};
ghost use Rattle.gs_session.specs.Errors.{choose_error, invalid_error, ended_error, with_error};
ghost use Rattle.gs_session.specs.Replies.{MayReply};
ghost use Rattle.gs_session.specs.declared.call.Call.TheVariants as call;
ghost use Rattle.gs_session.specs.declared.call.Reply.TheVariants as reply;

use crate::call::{Call, Reply};
use crate::error::{ChooseError, EndedError, InvalidError};
use gs_bytes::OutOfMemory;
use gs_refs::{Refs, Sent};
use gs_tape::Tick;
use gs_turn::Turned;
use std::marker::Model;
use std::sync::Arc;

/// The references of a session, each call of which makes room for its entry first.
#[derive(Drop)]
pub struct Shared {
    pub refs: Refs,
}

impl Model for Shared {
    ghost use Rattle.gs_refs.specs.Answers.{References};

    ghost Value = { References };

    ghost view = { λ shared. shared.refs };
}

impl Turned for Shared {
    type Call = Call;

    type Reply = Reply;

    ghost steps = { MayReply };

    fn step(&mut self, call: Call) -> Reply {
        match call {
            Call::Choose(tick) => Reply::Chosen(choose(&mut self.refs, &tick)),
            Call::Invalidate { first, last } => Reply::Taken(invalidate(
                &mut self.refs,
                first,
                last,
            )),
            Call::AskIdr => Reply::Asked(ask_idr(&mut self.refs)),
        }
    }
}

fn choose(refs: &mut Refs, tick: &Arc<Tick>) -> Result<Sent, ChooseError>
    ensures { MayReply refs.old (call.Choose tick.now) (reply.Chosen result) refs.new }
{
    match refs.reserve(1) {
        Ok(()) => chosen(refs.choose(tick)),
        Err(OutOfMemory) => Err(ChooseError::OutOfMemory),
    }
}

fn invalidate(refs: &mut Refs, first: i64, last: i64) -> Result<(), InvalidError>
    ensures { MayReply refs.old (call.Invalidate first last) (reply.Taken result) refs.new }
{
    match refs.reserve(1) {
        Ok(()) => taken(refs.invalidate(first, last)),
        Err(OutOfMemory) => Err(InvalidError::OutOfMemory),
    }
}

fn ask_idr(refs: &mut Refs) -> Result<(), EndedError>
    ensures { MayReply refs.old call.AskIdr (reply.Asked result) refs.new }
{
    match refs.reserve(1) {
        Ok(()) => asked(refs.ask_idr()),
        Err(OutOfMemory) => Err(EndedError::OutOfMemory),
    }
}

// The answers of the references as those of a session.

fn chosen(answer: Result<Sent, gs_refs::ChooseError>) -> Result<Sent, ChooseError>
    ensures { result ≡ with_error choose_error answer }
{
    match answer {
        Ok(sent) => Ok(sent),
        Err(refused) => Err(ChooseError::from(refused)),
    }
}

fn taken(answer: Result<(), gs_refs::InvalidError>) -> Result<(), InvalidError>
    ensures { result ≡ with_error invalid_error answer }
{
    match answer {
        Ok(()) => Ok(()),
        Err(refused) => Err(InvalidError::from(refused)),
    }
}

fn asked(answer: Result<(), gs_refs::EndedError>) -> Result<(), EndedError>
    ensures { result ≡ with_error ended_error answer }
{
    match answer {
        Ok(()) => Ok(()),
        Err(refused) => Err(EndedError::from(refused)),
    }
}
