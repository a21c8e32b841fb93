//! How a trial ends.

use std::{error, fmt};

/// How a trial ended. What it shows on standard error is its text, which a trial that ended well
/// hasn't.
#[derive(Clone, Copy, Debug, PartialEq, Eq)]
pub enum TrialStatus {
    /// All inputs were read to their end, and the whole text was written.
    Ok,
    /// The first word that doesn't fit, from 1, or one more than their number where one is missing.
    Usage { word: u32 },
    /// A read of the capture file failed.
    TapeFault,
    /// The capture file has a fault of this kind at this byte.
    BadTape { kind: u8, place: u64 },
    /// The capture file has more ticks, or more bytes of units, than may be.
    TapeFull { tick: u32 },
    /// A unit of the capture file has more bytes than may be.
    UnitTooLarge { tick: u32 },
    /// The capture file has audio units of a length that may not be.
    AudioLength { length: u16 },
    /// A read of the schedule failed.
    ScheduleFault,
    /// The first line of the schedule, from 1, that can't be run.
    BadSchedule { line: u32 },
    /// A write of the text failed.
    WriteFault,
    /// An allocation was refused.
    OutOfMemory,
}

impl TrialStatus {
    ghost use Rattle.std.specs.Prelude.{◌≡◌};
    ghost use Rattle.gs_schedule.specs.Status.{exit_status};

    /// The exit status.
    pub fn code(&self) -> u8
        ensures { result ≡ exit_status self.now }
    {
        match self {
            TrialStatus::Ok => 0,
            TrialStatus::Usage { .. } => 2,
            TrialStatus::TapeFault => 3,
            TrialStatus::BadTape { .. } => 4,
            TrialStatus::TapeFull { .. } => 5,
            TrialStatus::UnitTooLarge { .. } => 6,
            TrialStatus::AudioLength { .. } => 7,
            TrialStatus::ScheduleFault => 8,
            TrialStatus::BadSchedule { .. } => 9,
            TrialStatus::WriteFault => 10,
            TrialStatus::OutOfMemory => 12,
        }
    }
}

impl fmt::Display for TrialStatus {
    ghost use Rattle.std.specs.Prelude.{Some};
    ghost use Rattle.gs_schedule.specs.Status.{status_text};

    ghost output = { λ status. Some (status_text status) };

    fn fmt<W: fmt::Write>(&self, f: &mut fmt::Formatter<W>) -> fmt::Result {
        match self {
            TrialStatus::Ok => Ok(()),
            TrialStatus::Usage { word } => write!(f, "usage: word {word}"),
            TrialStatus::TapeFault => write!(f, "tape: read failed"),
            TrialStatus::BadTape { kind, place } => write!(f, "tape: kind {kind} at {place}"),
            TrialStatus::TapeFull { tick } => write!(f, "tape: full at tick {tick}"),
            TrialStatus::UnitTooLarge { tick } => {
                write!(f, "tape: unit too large in tick {tick}")
            }
            TrialStatus::AudioLength { length } => write!(f, "tape: audio length {length}"),
            TrialStatus::ScheduleFault => write!(f, "schedule: read failed"),
            TrialStatus::BadSchedule { line } => write!(f, "schedule: line {line}"),
            TrialStatus::WriteFault => write!(f, "write failed"),
            TrialStatus::OutOfMemory => write!(f, "out of memory"),
        }
    }
}

impl error::Error for TrialStatus {}
