//! Why a message could not be given.

use gs_bytes::OutOfMemory;
use thiserror::Error;

/// Why a message could not be given. The peer stays as it was.
#[derive(Clone, Copy, Debug, PartialEq, Eq, Error)]
pub enum SendError {
    /// The connection isn't up.
    #[error("the connection isn't up")]
    NotOpen,
    /// The oldest message of the channel that isn't acknowledged is `WINDOW_SPAN` before this one, or
    /// no number is left.
    #[error("the channel's window is full")]
    WindowFull,
    #[error("out of memory")]
    OutOfMemory,
}

impl From<OutOfMemory> for SendError {
    ghost use Rattle.std.specs.Prelude.{◌≡◌};
    ghost use Rattle.gs_enet.specs.declared.send_error.SendError.TheVariants.{OutOfMemory};

    ghost from_gives = { λ _ e. e ≡ OutOfMemory };

    fn from(_refused: OutOfMemory) -> SendError {
        SendError::OutOfMemory
    }
}
