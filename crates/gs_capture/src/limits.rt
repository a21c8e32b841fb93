//! The limit of a capture. Those of its ticks are of `gs_tape`.

/// Viewers of a capture.
pub const MOST_VIEWERS: u32 = 16;
