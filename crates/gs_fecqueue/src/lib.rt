//! From datagrams to frames: a client's queue, which collects the shards of the newest frames of a stream, restores
//! what was lost of them, and joins each whole frame's image.
//!
//! A `Queue` stands for all that its client was given so far (`StandsFor`), datagrams of any bytes and resets of its
//! decoder. The verdict on each further datagram is the one that the definitions give (`verdict`), a datagram of a
//! greater frame than all before it tells what it moves (`moved_by`), and a frame whose blocks are whole has the image
//! that the definitions give (`image_of`). Nothing is assumed of a datagram.
//!
//! A shard is copied once, to the place of its number in its block's room. A data shard that was lost is restored
//! at its own place, once as many shards of the block came as it has data shards. For this the payloads are enough:
//! of what parity covers of a packet's header nothing is kept. One block is its frame's image as it stands; several are
//! moved together by the datagram that makes the frame whole.
//!
//! Each frame of the window has a room, and so has one that was left, in a window of several: rooms are handed round.
//! A room has 1,023 payloads for each of four blocks, and 4,092 for an image beside them: about 12 MB at the greatest
//! packet size. They are reserved by `new`, which costs microseconds, and touched as they are used. No other call takes
//! memory.
#![tactic(auto)]

mod block;
mod frame;
#[cfg(test)]
mod hostile;
mod join;
mod laws;
mod moved;
mod queue;
mod rooms;
#[cfg(test)]
mod tests;
#[cfg(test)]
mod worked;

pub use gs_frames::{Added, Shape, WINDOW_GREATEST, Why};
pub use laws::{reset_changes_nothing, whole_frame_is_at_hand};
pub use moved::{Moved, Outcome};
pub use queue::Queue;
