//! Why a capture file is not read or written on.

use gs_bytes::{Failed, OutOfMemory};
use std::alloc::{AllocError, AllocFailed};
use thiserror::Error;

/// Why a capture file is not read on. Kinds of `BadTape`: 1 the head, 2 a tag, 3 a time below the one
/// before, 4 a count, 5 a named tick, 6 the end inside a field or where a tag is due, 7 a byte after
/// the end mark. The place is that of the first byte of the field at fault, from 0; for kind 6 it is
/// the length of the file.
#[derive(Clone, Copy, Debug, PartialEq, Eq, Error)]
pub enum TapeError {
    /// The source failed.
    #[error("read failed")]
    TapeFault,
    /// The bytes are no capture file.
    #[error("kind {kind} at {place}")]
    BadTape { kind: u8, place: u64 },
    /// There is no room for this tick.
    #[error("full at tick {tick}")]
    TapeFull { tick: u32 },
    /// A unit of this tick is too large.
    #[error("unit too large in tick {tick}")]
    UnitTooLarge { tick: u32 },
    /// Audio units are too long.
    #[error("audio length {length}")]
    AudioLength { length: u16 },
    /// An allocation was refused.
    #[error("out of memory")]
    OutOfMemory,
}

impl From<Failed> for TapeError {
    ghost use Rattle.std.specs.Prelude.{◌≡◌};
    ghost use Rattle.gs_tape.specs.Errors.{read_error};

    ghost from_gives = { λ failed e. e ≡ read_error failed };

    fn from(failed: Failed) -> TapeError {
        match failed {
            Failed::Fault => TapeError::TapeFault,
            Failed::NoMemory => TapeError::OutOfMemory,
        }
    }
}

impl From<OutOfMemory> for TapeError {
    ghost use Rattle.std.specs.Prelude.{◌≡◌};
    ghost use Rattle.gs_tape.specs.declared.error.TapeError.TheVariants as tape_error;

    ghost from_gives = { λ _ e. e ≡ tape_error.OutOfMemory };

    fn from(_refused: OutOfMemory) -> TapeError {
        TapeError::OutOfMemory
    }
}

impl From<AllocError> for TapeError {
    ghost use Rattle.std.specs.Prelude.{◌≡◌};
    ghost use Rattle.gs_tape.specs.declared.error.TapeError.TheVariants as tape_error;

    ghost from_gives = { λ _ e. e ≡ tape_error.OutOfMemory };

    fn from(_refused: AllocError) -> TapeError {
        TapeError::OutOfMemory
    }
}

impl<T: Drop> From<AllocFailed<T>> for TapeError {
    ghost use Rattle.std.specs.Prelude.{◌≡◌};
    ghost use Rattle.gs_tape.specs.declared.error.TapeError.TheVariants as tape_error;

    ghost from_gives = { λ _ e. e ≡ tape_error.OutOfMemory };

    fn from(_refused: AllocFailed<T>) -> TapeError {
        TapeError::OutOfMemory
    }
}
