//! The numbers of a generated capture. How many ticks it has at most is of `gs_bytes`.

/// The greatest number of a generated capture.
pub const MOST_NUMBER: u32 = u32::MAX;
