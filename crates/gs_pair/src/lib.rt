//! What a host sends and what its client hands on, joined: each frame that is handed to a decoder and refers
//! to another comes after that other.
//!
//! The definitions are in specs/. `references_were_handed` and `cuts_are_in_order` have no body: each is a
//! law, which its contract states. `references_held` tells of one session's entries and handed frames
//! whether each reference is held, and `references_held_since` whether each is held since the last reset of
//! the client's decoder.
#![tactic(auto)]

mod laws;
mod lookup;
mod places;
mod references;
#[cfg(test)]
mod tests;

pub use laws::{cuts_are_in_order, references_were_handed};
pub use references::{references_held, references_held_since};
