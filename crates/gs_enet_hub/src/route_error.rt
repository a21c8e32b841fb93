//! Why a datagram has no peer.

use gs_bytes::OutOfMemory;
use std::alloc::AllocFailed;
use thiserror::Error;

/// Why a datagram has no peer. The hub's connections stay as they were.
#[derive(Clone, Copy, Debug, PartialEq, Eq, Error)]
pub enum RouteError {
    /// The bytes are no datagram; the place of the first fault, in bytes from the front.
    #[error("no ENet datagram: at byte {0}")]
    BadDatagram(usize),
    /// The datagram isn't addressed to a live key by that key's other side, and asks for no connection.
    #[error("no such connection")]
    NoPeer,
    /// The datagram asks for a new connection, and `MOST_PEERS` live.
    #[error("too many connections")]
    HubFull,
    #[error("out of memory")]
    OutOfMemory,
}

impl From<OutOfMemory> for RouteError {
    ghost use Rattle.std.specs.Prelude.{◌≡◌};
    ghost use Rattle.gs_enet_hub.specs.declared.route_error.RouteError.TheVariants.{OutOfMemory};

    ghost from_gives = { λ _ e. e ≡ OutOfMemory };

    fn from(_refused: OutOfMemory) -> RouteError {
        RouteError::OutOfMemory
    }
}

impl<T: Drop> From<AllocFailed<T>> for RouteError {
    ghost use Rattle.std.specs.Prelude.{◌≡◌};
    ghost use Rattle.gs_enet_hub.specs.declared.route_error.RouteError.TheVariants.{OutOfMemory};

    ghost from_gives = { λ _ e. e ≡ OutOfMemory };

    fn from(_refused: AllocFailed<T>) -> RouteError {
        RouteError::OutOfMemory
    }
}
