//! How much is kept.

/// How many of the last items can be named.
pub const MOST_NAMED: usize = 65_536;
