//! The room of a written message, and the limit of a payload that isn't looked at.

/// How many bytes a caller gives `Message::write`. Each message that is written fits.
pub const MESSAGE_ROOM: usize = 64;

/// The longest payload of the messages whose payload isn't looked at, in bytes.
pub const MOST_UNREAD: usize = 64;
