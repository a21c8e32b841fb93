//! The limits of a schedule.

/// The most bytes of a line, without its newline.
pub const MOST_LINE: usize = 64;

/// The most milliseconds that one step lets pass.
pub const MOST_TIME: u32 = 60_000;
