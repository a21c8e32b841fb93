// What a run of a workload answers.
ghost use Rattle.std.specs.Prelude.{◌≡◌};
ghost use Rattle.gsbench.specs.Report.{stop_status};

use gs_enet::{SendError, TakeError};
use gs_tape::{TapeError, WriteError};
use std::alloc::AllocError;
use std::fmt;

/// What is counted of a workload.
#[derive(Clone, Copy, Debug, PartialEq, Eq)]
pub enum Counted {
    Bytes,
    Calls,
}

/// What the last turn left, and how many bytes of data all turns went through, or how many calls they made.
#[derive(Clone, Copy, Debug, PartialEq, Eq)]
pub struct Report {
    pub checksum: u32,
    pub counted: Counted,
    pub amount: u64,
}

/// Why there is no report: a word doesn't fit, by its number from 1; a message wasn't told, a file not read, a unit not
/// chosen or a tick not there; or there is no memory.
#[derive(Clone, Copy, Debug, PartialEq, Eq)]
pub enum Stop {
    Usage { word: usize },
    Untold,
    OutOfMemory,
}

/// The line that is printed, without a newline.
impl fmt::Display for Report {
    ghost use Rattle.std.specs.Prelude.{Some};
    ghost use Rattle.gsbench.specs.Report.{report_line};

    ghost output = { λ report. Some (report_line report) };

    fn fmt<W: fmt::Write>(&self, f: &mut fmt::Formatter<W>) -> fmt::Result {
        match self.counted {
            Counted::Bytes => write!(f, "checksum {:08x} bytes {}", self.checksum, self.amount),
            Counted::Calls => write!(f, "checksum {:08x} calls {}", self.checksum, self.amount),
        }
    }
}

/// The line that is printed, without a newline.
impl fmt::Display for Stop {
    ghost use Rattle.std.specs.Prelude.{Some};
    ghost use Rattle.gsbench.specs.Report.{stop_line};

    ghost output = { λ stop. Some (stop_line stop) };

    fn fmt<W: fmt::Write>(&self, f: &mut fmt::Formatter<W>) -> fmt::Result {
        match self {
            Stop::Usage { word } => write!(f, "usage: word {word}"),
            Stop::Untold => write!(f, "untold"),
            Stop::OutOfMemory => write!(f, "out of memory"),
        }
    }
}

impl Stop {
    /// The exit status.
    pub fn status(self) -> u8
        ensures { result ≡ stop_status self }
    {
        match self {
            Stop::Usage { .. } => 2,
            Stop::Untold => 1,
            Stop::OutOfMemory => 12,
        }
    }
}

impl From<AllocError> for Stop {
    ghost use Rattle.std.specs.Prelude.{◌≡◌};
    ghost use Rattle.gsbench.specs.declared.report.Stop.TheVariants as stops;

    ghost from_gives = { λ _ stop. stop ≡ stops.OutOfMemory };

    fn from(_: AllocError) -> Stop {
        Stop::OutOfMemory
    }
}

impl From<gs_bytes::OutOfMemory> for Stop {
    ghost use Rattle.std.specs.Prelude.{◌≡◌};
    ghost use Rattle.gsbench.specs.declared.report.Stop.TheVariants as stops;

    ghost from_gives = { λ _ stop. stop ≡ stops.OutOfMemory };

    fn from(_: gs_bytes::OutOfMemory) -> Stop {
        Stop::OutOfMemory
    }
}

impl From<SendError> for Stop {
    ghost use Rattle.std.specs.Prelude.{◌≡◌};
    ghost use Rattle.gsbench.specs.Report.{send_stop};

    ghost from_gives = { λ error stop. stop ≡ send_stop error };

    fn from(error: SendError) -> Stop {
        match error {
            SendError::NotOpen | SendError::WindowFull => Stop::Untold,
            SendError::OutOfMemory => Stop::OutOfMemory,
        }
    }
}

impl From<TakeError> for Stop {
    ghost use Rattle.std.specs.Prelude.{◌≡◌};
    ghost use Rattle.gsbench.specs.Report.{take_stop};

    ghost from_gives = { λ error stop. stop ≡ take_stop error };

    fn from(error: TakeError) -> Stop {
        match error {
            TakeError::BadDatagram(_) => Stop::Untold,
            TakeError::OutOfMemory => Stop::OutOfMemory,
        }
    }
}

impl From<WriteError> for Stop {
    ghost use Rattle.std.specs.Prelude.{◌≡◌};
    ghost use Rattle.gsbench.specs.Report.{write_stop};

    ghost from_gives = { λ error stop. stop ≡ write_stop error };

    fn from(error: WriteError) -> Stop {
        match error {
            WriteError::WriteFault => Stop::Untold,
            WriteError::OutOfMemory => Stop::OutOfMemory,
        }
    }
}

impl From<TapeError> for Stop {
    ghost use Rattle.std.specs.Prelude.{◌≡◌};
    ghost use Rattle.gsbench.specs.Report.{tape_stop};

    ghost from_gives = { λ error stop. stop ≡ tape_stop error };

    fn from(error: TapeError) -> Stop {
        match error {
            TapeError::OutOfMemory => Stop::OutOfMemory,
            _ => Stop::Untold,
        }
    }
}
