//! What a host has done for one session, and which unit of a tick it may send next.
//!
//! The definitions are in specs/: a history as a list of `Entry` values with the newest first, what each
//! frame was sent as (`sent_frame`), which frames are valid (`is_valid`), the choice of a unit (`choice`),
//! and which histories a host may have over the ticks of a capture (`IsLegal`). They keep nothing but the
//! history.
//!
//! `Refs` keeps a session's history, and beside it its newest valid frames, so that a choice doesn't walk the
//! history. Each call answers what the definitions say of the history, and leaves the history with the entry
//! that they name. The functions without a body are laws about the definitions, which their contracts state.
#![tactic(auto)]

mod candidate;
mod candidates;
mod chosen;
mod entry;
mod error;
mod laws;
mod names;
mod refs;
mod sent;
mod walk;

pub use entry::Entry;
pub use error::{ChooseError, EndedError, InvalidError};
pub use laws::{choice_is_sound, legal_histories};
pub use refs::Refs;
pub use sent::Sent;

#[cfg(test)]
mod tests;
