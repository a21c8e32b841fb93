//! Why a call of an object of the outside failed.

ghost use Rattle.std.specs.Prelude.{◌≡◌};
ghost use Rattle.gs_bytes.specs.declared.failed.Failed.TheVariants.{NoMemory};

use crate::OutOfMemory;
use std::alloc::{AllocError, AllocFailed};
use thiserror::Error;

/// Why a call of an object of the outside failed.
#[derive(Clone, Copy, Debug, PartialEq, Eq, Error)]
pub enum Failed {
    /// The object failed, and counted it.
    #[error("the object failed")]
    Fault,
    /// An allocation was refused.
    #[error("out of memory")]
    NoMemory,
}

impl From<OutOfMemory> for Failed {
    ghost from_gives = { λ _ e. e ≡ NoMemory };

    fn from(_refused: OutOfMemory) -> Failed {
        Failed::NoMemory
    }
}

impl From<AllocError> for Failed {
    ghost from_gives = { λ _ e. e ≡ NoMemory };

    fn from(_refused: AllocError) -> Failed {
        Failed::NoMemory
    }
}

impl<T: Drop> From<AllocFailed<T>> for Failed {
    ghost from_gives = { λ _ e. e ≡ NoMemory };

    fn from(_refused: AllocFailed<T>) -> Failed {
        Failed::NoMemory
    }
}
