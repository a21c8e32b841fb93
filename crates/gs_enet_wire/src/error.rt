//! Why a datagram could not be read.

use std::alloc::AllocFailed;
use thiserror::Error;

/// Why bytes are no datagram.
#[derive(Clone, Copy, Debug, PartialEq, Eq, Error)]
pub enum WireError {
    /// The place of the first fault, in bytes from the front.
    #[error("no ENet datagram: at byte {0}")]
    BadDatagram(usize),
    #[error("out of memory")]
    OutOfMemory,
}

impl<T: Drop> From<AllocFailed<T>> for WireError {
    ghost use Rattle.std.specs.Prelude.{◌≡◌};
    ghost use Rattle.gs_enet_wire.specs.declared.error.WireError.TheVariants.{OutOfMemory};

    ghost from_gives = { λ _ e. e ≡ OutOfMemory };

    fn from(_refused: AllocFailed<T>) -> WireError {
        WireError::OutOfMemory
    }
}
