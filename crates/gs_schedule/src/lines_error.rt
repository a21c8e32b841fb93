//! Why no line was given.

use gs_bytes::{Failed, OutOfMemory};
use thiserror::Error;

/// Why no line was given.
#[derive(Clone, Copy, Debug, PartialEq, Eq, Error)]
pub enum LinesError {
    /// A read of the source failed.
    #[error("a read of the lines failed")]
    ReadFault,
    /// The line of this number has more than 64 bytes, or its number is the last of its type.
    #[error("line {line} is too long")]
    TooLong { line: u32 },
    /// An allocation was refused.
    #[error("out of memory")]
    OutOfMemory,
}

impl From<Failed> for LinesError {
    ghost use Rattle.std.specs.Prelude.{◌≡◌};
    ghost use Rattle.gs_schedule.specs.LinesError.{lines_error};

    ghost from_gives = { λ failed error. error ≡ lines_error failed };

    fn from(failed: Failed) -> LinesError {
        match failed {
            Failed::Fault => LinesError::ReadFault,
            Failed::NoMemory => LinesError::OutOfMemory,
        }
    }
}

impl From<OutOfMemory> for LinesError {
    ghost use Rattle.std.specs.Prelude.{◌≡◌};
    ghost use Rattle.gs_schedule.specs.declared.lines_error.LinesError.TheVariants.{OutOfMemory};

    ghost from_gives = { λ _ error. error ≡ OutOfMemory };

    fn from(_refused: OutOfMemory) -> LinesError {
        LinesError::OutOfMemory
    }
}
