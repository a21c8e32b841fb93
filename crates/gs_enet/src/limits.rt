//! The limits of a connection, and what a side says of itself when it opens one. Behind a limit stands the
//! protocol's name of it, where it has one.

/// How many channels carry messages (`channelCount`).
pub const CHANNELS: usize = 48;

/// The channel of the commands that are no messages (`channelID`).
pub const CONTROL: u8 = 255;

/// The id by which no side is addressed: that of the other one while it isn't known
/// (`ENET_PROTOCOL_MAXIMUM_PEER_ID`).
pub const NOBODY: u16 = 4095;

/// The most bytes of a message.
pub const MOST_MESSAGE: usize = 1024;

/// The most bytes of a datagram that a side writes, which is the one that it names (`mtu`).
pub const DATAGRAM_ROOM: usize = 1392;

/// How many numbers the window of a channel spans.
pub const WINDOW_SPAN: usize = 256;

/// The most writings of one command, the first of them included.
pub const MOST_WRITES: u8 = 13;

/// Milliseconds that the first writing of a command waits for its acknowledgement. Each later wait is
/// twice the one before, up to `LONGEST_WAIT`.
pub const FIRST_WAIT: u32 = 500;

/// The most milliseconds that a writing of a command waits for its acknowledgement.
pub const LONGEST_WAIT: u32 = 4000;

/// The most bytes of reliable data in flight that a side names (`windowSize`).
pub const WINDOW_BYTES: u32 = 65536;

/// Milliseconds between two changes of the throttle that a side names (`packetThrottleInterval`).
pub const THROTTLE_INTERVAL: u32 = 5000;

/// By how much, of 32, the throttle goes up and down, that a side names (`packetThrottleAcceleration`,
/// `packetThrottleDeceleration`).
pub const THROTTLE_STEP: u32 = 2;
