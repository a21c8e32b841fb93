//! From whole frames to what a decoder is handed: reading a frame's image, the order in which complete frames are
//! handed on, and the ranges of frames that a client asks its host to make good.
//!
//! `read_image` answers exactly where the bytes are a frame's image. A `Depack` stands for all that its client was
//! given so far (`StandsFor`), of which it keeps a few numbers: with each datagram that is taken it asks for the range
//! that the definitions add (`newly_asked`), and hands the frames that they add (`newly_handed`), in order. After a
//! reset of the decoder it bars frames until an IDR frame is handed. No call takes memory.
#![tactic(auto)]

mod depack;
mod image;
mod laws;
#[cfg(test)]
mod tests;

pub use depack::Depack;
pub use gs_fecqueue::Moved;
pub use gs_frames::Range;
pub use image::{IMAGE_PACKETS_GREATEST, ImageHead, read_image};
pub use laws::{queue_tells_moves, untold_arrivals};
