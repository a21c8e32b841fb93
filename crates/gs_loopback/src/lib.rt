//! A host and its client joined in memory: one session of a trial.
//!
//! A `Loopback` stands for a part of a run's session, over the ticks of a capture file (`StandsFor`; the parts and
//! what is done in them are those of `gs_run`). Each call does a deed, or several, each behind what the one before it
//! left; both sides of the connection write out behind each. What is reported is what the run reports, and false is
//! answered exactly where the run refuses a deed.
#![tactic(auto)]

mod acting;
mod delivering;
mod delivery;
mod marks;
mod pump;
mod pumping;
mod session;

pub use delivery::Delivery;
pub use marks::Marks;
pub use session::{Loopback, Sums};

#[cfg(test)]
mod tests;
