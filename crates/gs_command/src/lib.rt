//! The words of a trial's command.
//!
//! A trial is `script bytes TAPE SCHEDULE`, `script brief TAPE SCHEDULE`, `make N T` or `tape N T`. TAPE and SCHEDULE
//! name files, and may be any words that aren't empty. N is the number of a generated capture, 1 to 4,294,967,295, and
//! T how many ticks it has, 1 to 2,000, both in decimal without leading zeros.
//!
//! The definitions are in specs/: which words fit (`first_misfit`), and which command they are (`command_of`). The
//! contract says that a command is read exactly where all words fit, and otherwise which word is the first that
//! doesn't.
#![tactic(auto)]

mod command;
mod limits;
mod read;
#[cfg(test)]
mod tests;

pub use command::{Detail, Generated, TrialCommand};
pub use gs_bytes::MOST_GENERATED;
pub use limits::MOST_NUMBER;
pub use read::read_command;
