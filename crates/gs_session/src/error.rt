//! Why a call on a session's references is refused. Want of memory comes before any other refusal, and adds no
//! entry.

use thiserror::Error;

/// Why no unit of a tick goes out.
#[derive(Clone, Copy, Debug, PartialEq, Eq, Error)]
pub enum ChooseError {
    /// Nothing is sent any more.
    #[error("the session has ended")]
    Ended,
    /// The tick isn't above that of the last frame.
    #[error("the last tick sent was {last}")]
    OldTick { last: u32 },
    /// An allocation was refused.
    #[error("out of memory")]
    OutOfMemory,
}

/// Why a range of frames isn't taken as invalid.
#[derive(Clone, Copy, Debug, PartialEq, Eq, Error)]
pub enum InvalidError {
    /// Nothing is sent any more.
    #[error("the session has ended")]
    Ended,
    /// It is no range of the frames sent.
    #[error("no range of the {sent} frames sent")]
    BadRange { sent: u32 },
    /// An allocation was refused.
    #[error("out of memory")]
    OutOfMemory,
}

/// Why an IDR unit can't be asked for.
#[derive(Clone, Copy, Debug, PartialEq, Eq, Error)]
pub enum EndedError {
    /// Nothing is sent any more.
    #[error("the session has ended")]
    Ended,
    /// An allocation was refused.
    #[error("out of memory")]
    OutOfMemory,
}

impl From<gs_refs::ChooseError> for ChooseError {
    ghost use Rattle.std.specs.Prelude.{◌≡◌};
    ghost use Rattle.gs_session.specs.Errors.{choose_error};

    ghost from_gives = { λ refused e. e ≡ choose_error refused };

    fn from(refused: gs_refs::ChooseError) -> ChooseError {
        match refused {
            gs_refs::ChooseError::Ended => ChooseError::Ended,
            gs_refs::ChooseError::OldTick { last } => ChooseError::OldTick { last },
        }
    }
}

impl From<gs_refs::InvalidError> for InvalidError {
    ghost use Rattle.std.specs.Prelude.{◌≡◌};
    ghost use Rattle.gs_session.specs.Errors.{invalid_error};

    ghost from_gives = { λ refused e. e ≡ invalid_error refused };

    fn from(refused: gs_refs::InvalidError) -> InvalidError {
        match refused {
            gs_refs::InvalidError::Ended => InvalidError::Ended,
            gs_refs::InvalidError::BadRange { sent } => InvalidError::BadRange { sent },
        }
    }
}

impl From<gs_refs::EndedError> for EndedError {
    ghost use Rattle.std.specs.Prelude.{◌≡◌};
    ghost use Rattle.gs_session.specs.Errors.{ended_error};

    ghost from_gives = { λ refused e. e ≡ ended_error refused };

    fn from(refused: gs_refs::EndedError) -> EndedError {
        match refused {
            gs_refs::EndedError::Ended => EndedError::Ended,
        }
    }
}
