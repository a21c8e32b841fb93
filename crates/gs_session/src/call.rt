//! The calls of a session, and what they are answered.

use crate::error::{ChooseError, EndedError, InvalidError};
use gs_refs::Sent;
use gs_tape::Tick;
use std::sync::Arc;

/// A call of a session.
#[derive(Drop)]
pub enum Call {
    Choose(Arc<Tick>),
    Invalidate { first: i64, last: i64 },
    AskIdr,
}

/// What a call is answered.
#[derive(Clone, Copy)]
pub enum Reply {
    Chosen(Result<Sent, ChooseError>),
    Taken(Result<(), InvalidError>),
    Asked(Result<(), EndedError>),
}
