//! Why a datagram could not be taken.

use gs_enet_wire::WireError;
use std::alloc::AllocError;
use thiserror::Error;

/// Why a datagram could not be taken. The peer stays as it was.
#[derive(Clone, Copy, Debug, PartialEq, Eq, Error)]
pub enum TakeError {
    /// The bytes are no datagram; the place of the first fault, in bytes from the front.
    #[error("no ENet datagram: at byte {0}")]
    BadDatagram(usize),
    #[error("out of memory")]
    OutOfMemory,
}

impl From<WireError> for TakeError {
    ghost use Rattle.gs_enet.specs.TakeErrors.{take_error};
    ghost use Rattle.std.specs.Prelude.{◌≡◌};

    ghost from_gives = { λ w e. e ≡ take_error w };

    fn from(error: WireError) -> TakeError {
        match error {
            WireError::BadDatagram(place) => TakeError::BadDatagram(place),
            WireError::OutOfMemory => TakeError::OutOfMemory,
        }
    }
}

impl From<AllocError> for TakeError {
    ghost use Rattle.gs_enet.specs.declared.take_error.TakeError.TheVariants.{OutOfMemory};
    ghost use Rattle.std.specs.Prelude.{◌≡◌};

    ghost from_gives = { λ _ e. e ≡ OutOfMemory };

    fn from(_refused: AllocError) -> TakeError {
        TakeError::OutOfMemory
    }
}
