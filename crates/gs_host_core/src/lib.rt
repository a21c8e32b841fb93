//! A host of one session on one thread: what it does with a message of its client, and a turn, which sends a tick of
//! the capture and the audio since the last one sent.
//!
//! A `Host` stands for its session's history. A turn sends the tick that `Refs` chooses: what its two links gain are
//! the datagrams that the history's streams gain (`video_stream`, `audio_stream` of gs_stream), whole and in order,
//! and where a link fails a front of them. A message does what its act says, and leaves the history with the entry
//! that the act names.
#![tactic(auto)]

mod act;
mod error;
mod host;
mod put;
mod sound;
#[cfg(test)]
mod tests;
mod unit;

pub use act::{Act, act_of};
pub use error::{ToldError, TurnError};
pub use host::Host;
pub use unit::unit_of;
