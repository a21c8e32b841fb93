// How far a capture file was read.

ghost use Rattle.std.specs.Prelude.{◌≡◌};
ghost use Rattle.gs_tape.specs.Tape.{stage_of};

use crate::error::TapeError;
use crate::tick::Tick;

/// Whether a file is read on.
#[derive(Clone, Copy, Debug)]
pub enum Stage {
    /// It is.
    Open,
    /// Its end was read.
    Ended,
    /// It has this error.
    Failed(TapeError),
}

// What an answer leads to.
pub fn stage_after(answer: &Result<Option<Tick>, TapeError>) -> Stage
    ensures { result ≡ stage_of answer.now }
{
    match answer {
        Ok(Some(_)) => Stage::Open,
        Ok(None) => Stage::Ended,
        Err(error) => Stage::Failed(*error),
    }
}
