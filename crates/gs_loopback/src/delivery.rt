// What is delivered in a session.

/// A datagram to be delivered, by its number among those of its kind, from 1: a video or an audio datagram of the host,
/// a control datagram of the client, or one of the host.
#[derive(Clone, Copy, Debug, PartialEq, Eq)]
pub enum Delivery {
    Video(u64),
    Audio(u64),
    Up(u64),
    Down(u64),
}
