// The limit of a code.

/// The most shards that a block has: each stands at a point of its own, a byte.
pub const MAX_SHARDS: usize = 255;
