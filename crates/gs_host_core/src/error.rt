// Why a turn sends nothing or not all, and why a message isn't done.

ghost use Rattle.std.specs.Prelude.{◌≡◌};
ghost use Rattle.gs_host_core.specs.Errors.{link_error, told_error_of, turn_error_of};
ghost use Rattle.gs_host_core.specs.declared.error.ToldError.TheVariants as told_error;
ghost use Rattle.gs_host_core.specs.declared.error.TurnError.TheVariants as turn_error;

use gs_bytes::{Failed, OutOfMemory};
use gs_refs::{ChooseError, EndedError, InvalidError};
use thiserror::Error;

/// Why a turn sent nothing, or not all.
#[derive(Clone, Copy, Debug, PartialEq, Eq, Error)]
pub enum TurnError {
    /// The session has ended.
    #[error("the session has ended")]
    Ended,
    /// The tick isn't above the last one sent.
    #[error("tick {last} was sent already")]
    OldTick { last: u32 },
    /// A link failed. The frame stands in the history, and a front of the turn's datagrams was put.
    #[error("a link failed")]
    LinkFault,
    /// An allocation was refused: nothing was sent, or, where a link refused, a front of the turn's datagrams.
    #[error("out of memory")]
    OutOfMemory,
}

impl From<OutOfMemory> for TurnError {
    ghost from_gives = { λ _ e. e ≡ turn_error.OutOfMemory };

    fn from(_refused: OutOfMemory) -> TurnError {
        TurnError::OutOfMemory
    }
}

impl From<ChooseError> for TurnError {
    ghost from_gives = { λ error e. e ≡ turn_error_of error };

    fn from(error: ChooseError) -> TurnError {
        match error {
            ChooseError::Ended => TurnError::Ended,
            ChooseError::OldTick { last } => TurnError::OldTick { last },
        }
    }
}

impl From<Failed> for TurnError {
    ghost from_gives = { λ failed e. e ≡ link_error failed };

    fn from(failed: Failed) -> TurnError {
        match failed {
            Failed::Fault => TurnError::LinkFault,
            Failed::NoMemory => TurnError::OutOfMemory,
        }
    }
}

/// Why a message wasn't done.
#[derive(Clone, Copy, Debug, PartialEq, Eq, Error)]
pub enum ToldError {
    /// The session has ended.
    #[error("the session has ended")]
    Ended,
    /// The range isn't one of the frames that were sent, of which there are so many. It ends the session.
    #[error("a range that isn't of the {sent} frames sent")]
    BadRange { sent: u32 },
    /// An allocation was refused, and nothing was done.
    #[error("out of memory")]
    OutOfMemory,
}

impl From<OutOfMemory> for ToldError {
    ghost from_gives = { λ _ e. e ≡ told_error.OutOfMemory };

    fn from(_refused: OutOfMemory) -> ToldError {
        ToldError::OutOfMemory
    }
}

impl From<InvalidError> for ToldError {
    ghost from_gives = { λ error e. e ≡ told_error_of error };

    fn from(error: InvalidError) -> ToldError {
        match error {
            InvalidError::Ended => ToldError::Ended,
            InvalidError::BadRange { sent } => ToldError::BadRange { sent },
        }
    }
}

impl From<EndedError> for ToldError {
    ghost from_gives = { λ _ e. e ≡ told_error.Ended };

    fn from(_error: EndedError) -> ToldError {
        ToldError::Ended
    }
}
