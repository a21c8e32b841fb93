// What a client answers.

use gs_frames::{Added, Range, WINDOW_GREATEST};

/// A frame for the decoder: its index, its kind (1 a unit against the frame before, 2 an IDR unit, 5 a unit against an
/// older frame) and its unit.
#[derive(Clone, Copy, Debug, PartialEq, Eq)]
pub struct Given<'a> {
    pub frame: u32,
    pub kind: u8,
    pub bytes: &'a [u8],
}

/// What one more datagram gives: the verdict on it, the frames to ask the host for, and the frames for the decoder, in
/// the first places and by rising index.
#[derive(Clone, Copy, Debug)]
pub struct Taken<'a> {
    pub what: Added,
    pub ask: Option<Range>,
    pub units: [Option<Given<'a>>; WINDOW_GREATEST],
}
