//! How many frames a client keeps open.

/// The least frames of a client's window.
pub const WINDOW_LEAST: usize = 1;

/// The most frames of a client's window.
pub const WINDOW_GREATEST: usize = 4;
