//! The host of one session of a trial: its core, the datagrams that it sent, and its side of the control connection.
//!
//! A `HostEnd` stands for a part of a run's session, over the ticks of a capture file (`StandsFor`; the parts are
//! those of `gs_run`). Each call does what one deed of a run does at the host, and adds what is reported of it: its
//! contract is the run's own definition of the deed. The last 65,536 datagrams of each kind can be named by their
//! numbers. Where memory runs out in a call that changes it, nothing is said of it any more: a trial ends there.
#![tactic(auto)]

mod end;
mod heard;
mod hearing;
mod outbox;
mod sending;
mod streaming;

pub use end::HostEnd;

#[cfg(test)]
mod tests;
