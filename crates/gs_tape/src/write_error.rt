//! Why a capture file is not written on.

use gs_bytes::{Failed, OutOfMemory};
use std::alloc::AllocError;
use thiserror::Error;

/// Why a capture file is not written on.
#[derive(Clone, Copy, Debug, PartialEq, Eq, Error)]
pub enum WriteError {
    /// The sink failed, or took nothing.
    #[error("write failed")]
    WriteFault,
    /// An allocation was refused.
    #[error("out of memory")]
    OutOfMemory,
}

impl From<Failed> for WriteError {
    ghost use Rattle.std.specs.Prelude.{◌≡◌};
    ghost use Rattle.gs_tape.specs.Writer.{write_error};

    ghost from_gives = { λ failed e. e ≡ write_error failed };

    fn from(failed: Failed) -> WriteError {
        match failed {
            Failed::Fault => WriteError::WriteFault,
            Failed::NoMemory => WriteError::OutOfMemory,
        }
    }
}

impl From<OutOfMemory> for WriteError {
    ghost use Rattle.std.specs.Prelude.{◌≡◌};
    ghost use Rattle.gs_tape.specs.declared.write_error.WriteError.TheVariants as write_error;

    ghost from_gives = { λ _ e. e ≡ write_error.OutOfMemory };

    fn from(_refused: OutOfMemory) -> WriteError {
        WriteError::OutOfMemory
    }
}

impl From<AllocError> for WriteError {
    ghost use Rattle.std.specs.Prelude.{◌≡◌};
    ghost use Rattle.gs_tape.specs.declared.write_error.WriteError.TheVariants as write_error;

    ghost from_gives = { λ _ e. e ≡ write_error.OutOfMemory };

    fn from(_refused: AllocError) -> WriteError {
        WriteError::OutOfMemory
    }
}
