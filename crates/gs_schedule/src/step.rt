use gs_input::Event;

/// What a line of a schedule does. A session is named by its number, from 1, and a datagram by its
/// number among those of its kind in the session, from 1.
#[derive(Clone, Copy, Debug, PartialEq, Eq)]
pub enum Step {
    /// An empty line or a comment does nothing.
    Blank,
    /// Opens the next session: packet size in bytes, percentage and least number of parity shards,
    /// and how many frames the client keeps open.
    Session {
        packet: u32,
        percentage: u32,
        minimum: u32,
        window: u32,
    },
    /// The capture gains the capture file's next tick.
    Cap,
    /// The host sends the newest tick, if it is newer than the last one sent.
    Send {
        session: u32,
    },
    /// The k-th video datagram is delivered.
    Video {
        session: u32,
        k: u32,
    },
    /// The k-th audio datagram is delivered.
    Audio {
        session: u32,
        k: u32,
    },
    /// The video datagrams from the first to the last are delivered, in order.
    Videos {
        session: u32,
        first: u32,
        last: u32,
    },
    /// The k-th control datagram of the client is delivered.
    Up {
        session: u32,
        k: u32,
    },
    /// The k-th control datagram of the host is delivered.
    Down {
        session: u32,
        k: u32,
    },
    /// The user does this at the client.
    Input {
        session: u32,
        event: Event,
    },
    /// The client asks for a frame that needs no other.
    Idr {
        session: u32,
    },
    /// So many milliseconds pass.
    Time {
        by: u32,
    },
    /// All datagrams that are new are delivered, but for the video and audio datagrams whose number
    /// is a multiple of `every`, where that isn't 0.
    Pump {
        session: u32,
        every: u32,
    },
    /// The client closes.
    Close {
        session: u32,
    },
    /// The client's decoder loses its state.
    Reset {
        session: u32,
    },
}
