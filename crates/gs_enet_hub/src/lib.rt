//! The connections of one ENet host, by the address and the connect id of the other side.
//!
//! A `Hub` holds up to `MOST_PEERS` peers under keys from 0. A key is the peer's own id on the wire
//! (`peerID` of the datagrams that come to it), and a new peer gets the least one that isn't live.
//! `Hub::route` reads a datagram once, says which peer it is for, and makes a peer for a connect datagram
//! of a new pair of address and connect id; its caller hands the datagram on. A refusal has its cause and
//! changes nothing.
//!
//! The contracts speak of the connections that live under the keys (`specs/Seating.antt`) and of the
//! datagrams of ENet 1.3 (`gs_enet_wire`).
#![tactic(auto)]

mod hub;
mod joining;
mod limits;
mod route_error;
mod seat;

pub use hub::Hub;
pub use limits::MOST_PEERS;
pub use route_error::RouteError;

#[cfg(test)]
mod tests;
