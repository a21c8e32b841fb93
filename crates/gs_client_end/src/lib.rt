//! The client of one session of a trial: its core, what it owes its host, and its side of the control connection.
//!
//! A `ClientEnd` stands for a part of a run's session (`StandsFor`; the parts are those of `gs_run`). Each call does
//! what one deed of a run does at the client, and adds what is reported of it: its contract is the run's own definition
//! of the deed, and where it answers false, the deed is one that a run refuses.
//!
//! After an error, and after an answer of false by a call that may have changed something, nothing is said of the end
//! any more: a run is over then.
#![tactic(auto)]

mod end;
mod giving;
mod hearing;
mod reports;
mod streaming;
mod sums;

pub use end::ClientEnd;
pub use sums::ClientSums;

#[cfg(test)]
mod tests;
