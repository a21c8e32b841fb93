//! What is written of a run, before it goes out.
//!
//! A `Reporter` collects the text of what happens, by how much of it is to be written. Its contract is the text of a
//! run (`gs_run`): each call adds the line of what happened, and the unit that was handed or played with it.
#![tactic(auto)]

mod reporter;

pub use gs_command::Detail;
pub use reporter::Reporter;

#[cfg(test)]
mod tests;
