//! The room of a written event.

/// How many bytes a caller gives `Event::write`. Each known event fits.
pub const EVENT_ROOM: usize = 32;
