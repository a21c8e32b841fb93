//! A client's core: the datagrams of a stream go in, and the frames for its decoder, the ranges to ask its host for and
//! the audio units to be played come out.
//!
//! A `Client` stands for all that it was given so far (`StandsFor`): video datagrams of any bytes and resets of its
//! decoder, and audio datagrams of any bytes. With each further video datagram it answers the verdict on it
//! (`verdict`), the range that it newly asks for (`newly_asked`) and the frames that it newly hands, in order, each
//! with its unit (`newly_handed`), all as the definitions of gs_frames give them; with each audio datagram the units
//! that it plays (`newly_played` of gs_audio). Nothing is assumed of a datagram. `Client::new` takes all memory, and
//! units are given where they were collected: none is copied.
//!
//! An `Asker` keeps what the client owes its host, ranges of lost frames and requests for IDR frames in their common
//! order, and gives them to the client's side of an ENet connection as its window has room.
#![tactic(auto)]

mod asker;
mod client;
mod given;
mod hand;
mod tell;
#[cfg(test)]
mod tests;

pub use asker::{Asker, Owed};
pub use client::Client;
pub use given::{Given, Taken};
