//! Frames on the wire: how a coded picture becomes datagrams, and what a client holds, hands to its
//! decoder and asks for, whatever datagrams came and in whatever order, and wherever its decoder was reset.
//!
//! The definitions are in specs/, to be read in the order of specs/Lib.antt: the image of a frame, the
//! plan of its blocks, their shards, what a client is and what it receives of bytes, the datagrams of a frame
//! (`frame_datagrams`), the verdict on a datagram and what counts (`verdict`), which frames are complete
//! (`complete`) and settled (`settled`), handed (`handed`) and asked for (`asks`), and what a client keeps
//! (`kept`). They know of no queue and no buffer: each is stated over the whole list of what the client was
//! given. A client keeps the newest frames open, one to four of them, before it gives one up.
//!
//! The crate's functions without a body are laws about the definitions, which their contracts state. By them,
//! where what came of a frame is of what was sent, it is complete once enough distinct datagrams of each of
//! its blocks came while it was open, and it is the one that was sent. A complete frame stays so. The frames
//! handed are exactly the complete settled ones that aren't barred, and are re-entry frames or follow a
//! handed one. They are handed by rising index, and none is taken back.
//!
//! `write_image_header` writes the first bytes of an image.
#![tactic(auto)]

mod image;
mod laws;
mod range;
#[cfg(test)]
mod tests;
mod verdict;
mod window;

pub use image::{IMAGE_HEADER_LENGTH, write_image_header};
pub use laws::{
    arrival_asks_for_lost, arrival_hands_new_frames, complete_frame_is_sent, complete_frame_stays,
    distinct_shards_fill_block, enough_complete_frame, frame_is_received,
    handed_frames_are_exactly, image_is_read, last_handed_tells_next, narrow_client_is_client,
    nothing_is_kept_at_first, other_ssrc_changes_nothing, plan_covers, settled_is_greatest,
    verdict_says_what_is_whole,
};
pub use range::Range;
pub use verdict::{Added, Shape, Why};
pub use window::{WINDOW_GREATEST, WINDOW_LEAST};
