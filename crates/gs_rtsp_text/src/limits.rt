//! The limits of a message.

/// The most bytes of a head: a first line, header lines and the empty line, with their ends.
pub const MOST_HEAD: usize = 4_096;

/// The most bytes of a body.
pub const MOST_BODY: u32 = 8_192;
