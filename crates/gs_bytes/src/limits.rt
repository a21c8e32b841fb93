//! The limits that crates share which don't stand on each other.

/// Bytes of one video unit, in a capture file and in a frame.
pub const MOST_UNIT: u32 = 4_000_000;

/// Bytes of one audio unit, in a capture file and in the payload of a datagram.
pub const MOST_AUDIO: u16 = 1_400;

/// The shorter duration of an audio unit, in milliseconds.
pub const DURATION_SHORT: u8 = 5;

/// The longer duration of an audio unit, in milliseconds.
pub const DURATION_LONG: u8 = 10;

/// Bytes of one datagram on a link.
pub const MOST_ON_LINK: usize = 4_096;

/// Ticks of a generated capture.
pub const MOST_GENERATED: u32 = 2_000;
