// What a queue answers.

use gs_frames::{Added, WINDOW_GREATEST};

/// What a datagram of a greater frame changed: the greatest frame before it, 0 at first, and its own.
#[derive(Clone, Copy, Debug, PartialEq, Eq)]
pub struct Moved {
    pub from: u32,
    pub to: u32,
    /// `whole[i]`, for an i below the window, says whether each block of frame `from - i` was whole when this datagram
    /// came. It is false for a frame that was left before, and where there is no such frame.
    pub whole: [bool; WINDOW_GREATEST],
}

/// What one more datagram gives: whether its frame is greater than all before it, and the verdict on it.
#[derive(Clone, Copy, Debug, PartialEq, Eq)]
pub struct Outcome {
    pub moved: Option<Moved>,
    pub what: Added,
}
