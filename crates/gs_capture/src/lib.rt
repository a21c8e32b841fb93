//! A capture that grows while threads read it.
//!
//! A `Recorder` appends ticks and each `Viewer`, on a thread of its own, reads the list so far. The
//! list lies twice in memory (`left_right`): viewers read one copy with no lock, while the recorder
//! brings the other up and then shows it in one step. So no viewer waits for another.
//!
//! - Each read takes place at one step, and the list read begins with all that this viewer read
//!   before. The k-th tick of a list read has the number k, and its audio units have one length.
//! - The ticks appended are one history, which lies in proofs alone (`logbook`), and each copy of the
//!   list tells which front of it was reached. By this `Recorder::meet` ties what a viewer reads to
//!   what was appended: the list that is read then begins with both.
//! - A contract sees a recorder as its capture, the length of its audio units, how many ticks it may
//!   have, those appended, and whether an append was refused; a viewer as its capture, that length,
//!   the list that it read last and the length of each list that it read.
//!
//! Nothing is said of how soon a viewer sees a tick.
#![tactic(auto)]

mod appended;
mod history;
mod limits;
mod making;
mod newest;
mod published;
mod recorder;
mod sight;
mod viewer;

pub use limits::MOST_VIEWERS;
pub use making::capture;
pub use newest::Newest;
pub use recorder::Recorder;
pub use viewer::Viewer;

#[cfg(test)]
mod tests;
