//! A law of the generated run: it ends well.
//!
//! A number generates a capture file of up to 2,000 ticks. The schedule over it opens two sessions, sends each tick
//! in both, gives one of them an input event a tick, pumps both, and closes them. The crate's function has no body:
//! it is the law that none of the deeds of that schedule is refused, whatever the number is.
#![tactic(auto)]

mod laws;
#[cfg(test)]
mod tests;

pub use laws::generated_runs_end_well;
