//! Splits coded pictures into the RTP datagrams (RFC 3550) of a GameStream video stream, with Reed-Solomon parity.
//!
//! `plan_of` says how a frame of some length is parted into blocks of data and parity shards: it is `fec_plan` of
//! gs_frames, for every length and all settings. A `Splitter` loads a frame and writes its datagrams, in any order and
//! again too: they are `frame_datagrams` of gs_frames, for every unit, kind and time, and every number of datagrams
//! before it.
//!
//! The shards of a frame with parity are encoded once, when it is loaded, and a datagram is then written by copying. A
//! frame without parity is copied from its unit. `Splitter::new` takes all memory: room for the shards of any frame
//! with parity, which is filled as far as the frames need it.
#![tactic(auto)]

mod datagram;
mod frame;
mod image;
mod placed;
#[cfg(test)]
mod plain;
mod plan;
mod shard;
mod splitter;
#[cfg(test)]
mod tests;

pub use plan::{Plan, plan_of};
pub use splitter::Splitter;
