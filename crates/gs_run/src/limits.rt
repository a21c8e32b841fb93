//! The limits of a run. A deed that would go beyond one is refused, and a line that has it is a bad one, which ends the
//! run.

/// The most messages that a client makes on one channel: those given to its connection, and on the channel of requests
/// those that it owes besides. At so many a further one is refused, and so is a video datagram by which the client
/// would ask.
pub const MOST_MADE: u64 = 30_000;

/// The greatest moment, in milliseconds from the start. Time that would pass it is refused.
pub const MOST_MOMENT: u32 = 4_000_000_000;

/// The most sessions. A further one isn't opened.
pub const MOST_SESSIONS: usize = 8;

/// The frames a second of every session.
pub const SESSION_FPS: u16 = 60;
