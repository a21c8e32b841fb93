//! What a peer tells its user.

use gs_bytes::Text;

/// What happened on a connection, in the order in which it did. Behind an event stands the protocol's name of
/// its kind.
#[derive(Debug, PartialEq, Eq, Drop)]
pub enum PeerEvent {
    /// The connection is up (`ENET_EVENT_TYPE_CONNECT`).
    Connected,
    /// A message came (`ENET_EVENT_TYPE_RECEIVE`).
    Message {
        /// Its channel (`channelID`), below `CHANNELS`.
        channel: u8,
        /// Its number on that channel, from 1 and without wrap (`reliableSequenceNumber` is that number
        /// modulo 65,536).
        number: u64,
        bytes: Text,
    },
    /// The other side acknowledged the DISCONNECT of this one (`ENET_EVENT_TYPE_DISCONNECT`).
    Closed,
    /// A DISCONNECT of the other side came (`ENET_EVENT_TYPE_DISCONNECT`).
    PeerClosed,
    /// A command was written `MOST_WRITES` times and isn't acknowledged, which ends the connection
    /// (`ENET_EVENT_TYPE_DISCONNECT`).
    Lost {
        /// Its channel (`channelID`): that of a message, or `CONTROL`.
        channel: u8,
        /// Its number on that channel, from 1 and without wrap.
        number: u64,
    },
}
