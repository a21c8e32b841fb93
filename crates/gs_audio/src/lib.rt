//! The audio of a stream, both ways: a session's units as RTP datagrams (RFC 3550) with parity, and the units that a
//! client plays of the datagrams that came.
//!
//! Four units are a block, which has two parity shards: any four of the six give the four units. An `AudioSender`
//! stands for the list of units that were pushed (`HasPushed`), and its datagrams are those of gs_rtp's
//! `audio_datagrams`. An `AudioQueue` stands for all the datagrams that came so far, of any bytes (`StandsFor`); what
//! one more plays is the definition `newly_played`, and what all of them play is `played`. Nothing is assumed of a
//! datagram. By the laws `played_units_were_sent` and `played_units_rise` each unit that is played of a sender's
//! datagrams is the sender's unit of that number, however they came, and each is played at most once, in the order of
//! their numbers.
//!
//! Both take all their memory in `new`. A shard that comes is copied once, to its place; units that were lost are
//! restored at their places once four shards of their block came.
#![tactic(auto)]

mod laws;
mod played;
mod queue;
mod room;
mod sender;
#[cfg(test)]
mod tests;

pub use laws::{audio_datagrams_grow, played_units_rise, played_units_were_sent};
pub use played::Played;
pub use queue::AudioQueue;
pub use sender::AudioSender;
