//! One side of a session's control connection, in a trial where each datagram may come late, several times or never.
//!
//! A side is an ENet peer and all the datagrams that it wrote, of which the newest can be named by their numbers. To
//! every contract it stands for a `Side` of `gs_enet`: a peer's record, and the list of what was written. Each call is
//! one step of that record. A datagram that one side wrote is taken by the other as itself: none is ever refused.
//!
//! What a client owes its host (`Asker`) is given by the side as far as its window takes it.
//!
//! Events are told by the call in which they arise, so none waits between two calls. Where memory runs out in a call
//! that writes, takes or lets time pass, nothing is said of the side any more: a trial ends there.
#![tactic(auto)]

mod owing;
mod side;
mod taking;
mod telling;
mod writing;

pub use side::ControlSide;

#[cfg(test)]
mod tests;
