//! The limit of a hub.

/// The most connections at one time (`peerCount`).
pub const MOST_PEERS: usize = 16;
