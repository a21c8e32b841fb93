// Why a step isn't run, and how a trial then ends.
//
// A status and the errors that lead to it are types of other crates, so functions turn one into the other, and no
// `From`; what a failed call means depends on the object besides. Where a function of the trial answers an error, that
// is a status other than `Ok` and `Usage`: each says so by its clause `cause`.

ghost use Rattle.std.specs.Prelude.{◌≡◌};
ghost use Rattle.gs_trial.specs.Stepping.{refusal_of};
ghost use Rattle.gs_trial.specs.Stepping as stepping;

use gs_bytes::{Failed, OutOfMemory};
use gs_schedule::TrialStatus;
use gs_tape::TapeError;
use std::alloc::AllocFailed;

/// Why a step isn't run, or not whole.
#[derive(Clone, Copy, Debug, PartialEq, Eq)]
pub(crate) enum StepError {
    /// It can't be run.
    BadLine,
    /// The capture file isn't read on.
    Tape(TapeError),
    /// An allocation was refused.
    OutOfMemory,
}

impl From<OutOfMemory> for StepError {
    ghost use Rattle.std.specs.Prelude.{◌≡◌};
    ghost use Rattle.gs_trial.specs.declared.error.StepError.TheVariants as step_error;

    ghost from_gives = { λ failed error. error ≡ step_error.OutOfMemory };

    fn from(_refused: OutOfMemory) -> StepError {
        StepError::OutOfMemory
    }
}

impl<T: Drop> From<AllocFailed<T>> for StepError {
    ghost use Rattle.std.specs.Prelude.{◌≡◌};
    ghost use Rattle.gs_trial.specs.declared.error.StepError.TheVariants as step_error;

    ghost from_gives = { λ failed error. error ≡ step_error.OutOfMemory };

    fn from(_refused: AllocFailed<T>) -> StepError {
        StepError::OutOfMemory
    }
}

impl From<TapeError> for StepError {
    ghost use Rattle.std.specs.Prelude.{◌≡◌};
    ghost use Rattle.gs_trial.specs.declared.error.StepError.TheVariants as step_error;

    ghost from_gives = { λ failed error. error ≡ step_error.Tape failed };

    fn from(error: TapeError) -> StepError {
        StepError::Tape(error)
    }
}

impl StepError {
    ghost use Rattle.std.specs.Prelude.{is_some};

    /// Whether it tells why a deed was refused. A source that failed and want of memory tell nothing.
    pub(crate) fn is_told(&self) -> bool
        ensures { result ≡ is_some (refusal_of self.now) }
    {
        !matches!(
            self,
            StepError::OutOfMemory | StepError::Tape(TapeError::TapeFault | TapeError::OutOfMemory)
        )
    }
}

/// How a trial ends that reads its capture file no further.
pub(crate) fn tape_status(error: TapeError) -> TrialStatus
    ensures { result ≡ stepping.tape_status error }
{
    match error {
        TapeError::TapeFault => TrialStatus::TapeFault,
        TapeError::BadTape { kind, place } => TrialStatus::BadTape { kind, place },
        TapeError::TapeFull { tick } => TrialStatus::TapeFull { tick },
        TapeError::UnitTooLarge { tick } => TrialStatus::UnitTooLarge { tick },
        TapeError::AudioLength { length } => TrialStatus::AudioLength { length },
        TapeError::OutOfMemory => TrialStatus::OutOfMemory,
    }
}

/// How a trial ends whose step of this number isn't run.
pub(crate) fn step_status(error: StepError, number: u32) -> TrialStatus
    ensures { result ≡ stepping.step_status error number }
{
    match error {
        StepError::BadLine => TrialStatus::BadSchedule { line: number },
        StepError::Tape(error) => tape_status(error),
        StepError::OutOfMemory => TrialStatus::OutOfMemory,
    }
}

/// How a trial ends whose text can't be written.
pub(crate) fn write_status(failed: Failed) -> TrialStatus
    ensures { result ≡ stepping.write_status failed }
{
    match failed {
        Failed::Fault => TrialStatus::WriteFault,
        Failed::NoMemory => TrialStatus::OutOfMemory,
    }
}
