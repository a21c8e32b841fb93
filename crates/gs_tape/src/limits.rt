//! The limits of a capture file. Those of its units are of `gs_bytes`.

/// Ticks of a file.
pub const MOST_TICKS: u32 = 1_048_576;

/// Bytes of all units of a file together.
pub const MOST_BYTES: u64 = 1_073_741_824;

/// Deltas of one tick, and audio units of one tick.
pub const MOST_COUNT: u8 = 16;

/// The length of an audio unit of a generated capture, in bytes.
pub const GENERATED_AUDIO: u16 = 240;

/// The duration of an audio unit of a generated capture, in milliseconds.
pub const GENERATED_DURATION: u8 = 5;
