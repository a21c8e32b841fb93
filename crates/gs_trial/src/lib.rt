//! Trials: a host and its client for each session, run over a given schedule of losses.
//!
//! A capture file gives what is streamed, a schedule what is done: a tick is captured, a host sends, a datagram is
//! delivered, once, late, several times or never, the user does something, time passes. What happens is written as
//! text, one line an event: the frames that were sent, each frame that a client's decoder is handed with its bytes,
//! each audio unit that is played, the ranges of lost frames that a client asks its host to mend, the input that a host
//! is told.
//!
//! The contract of `trial_main` is the run of a schedule over a capture file (`IsRun` of `gs_run`): at `Ok`, and at
//! each answer that the run itself gives, what was written is the run's text (`run_text`); at any other answer it is a
//! front of it. What is known of every run is a law of `gs_run`, and the contract says it of this one: that each
//! session's history is one that a host may have, and that each unit that was handed or played is the captured one, for
//! instance.
#![tactic(auto)]

mod error;
mod generated_steps;
mod generating;
mod lines;
mod opening;
mod running;
mod script;
mod sessions;
mod step;
mod steps;
mod timing;
mod top;
mod trial;

pub use gs_command::{Detail, TrialCommand, read_command};
pub use gs_schedule::TrialStatus;
pub use top::trial_main;

#[cfg(test)]
mod tests;
