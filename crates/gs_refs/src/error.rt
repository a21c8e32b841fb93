//! Why a call on the references of a session is refused.

use thiserror::Error;

/// Why no unit of a tick goes out.
#[derive(Clone, Copy, Debug, PartialEq, Eq, Error)]
pub enum ChooseError {
    /// Nothing is sent any more.
    #[error("the session has ended")]
    Ended,
    /// The tick isn't above that of the last frame.
    #[error("the last tick sent was {last}")]
    OldTick { last: u32 },
}

/// Why a range of frames isn't taken as invalid.
#[derive(Clone, Copy, Debug, PartialEq, Eq, Error)]
pub enum InvalidError {
    /// Nothing is sent any more.
    #[error("the session has ended")]
    Ended,
    /// It is no range of the frames sent.
    #[error("no range of the {sent} frames sent")]
    BadRange { sent: u32 },
}

/// Why an IDR unit can't be asked for.
#[derive(Clone, Copy, Debug, PartialEq, Eq, Error)]
pub enum EndedError {
    /// Nothing is sent any more.
    #[error("the session has ended")]
    Ended,
}
