//! The commands of a datagram.

ghost use Rattle.std.specs.Prelude.{◌≡◌, ◌+◌, length};
ghost use Rattle.gs_enet_wire.specs.Grammar.{command_spelling, fields, fields_bytes, command_head, kind, payload};

use gs_bytes::Text;

/// The fields that every command begins with, and whether it asks for an acknowledgement.
#[derive(Clone, Copy, Debug, PartialEq, Eq)]
pub struct Head {
    pub channel: u8,
    pub number: u16,
    pub asks: bool,
}

/// The bit of a command's first byte that asks for an acknowledgement.
pub const ASKS: u8 = 0x80;
/// The bits of a command's first byte that say which command it is.
pub const KIND: u8 = 0x0F;

/// What the low bits say.
pub const ACKNOWLEDGE: u8 = 1;

pub const CONNECT: u8 = 2;

pub const VERIFY_CONNECT: u8 = 3;

pub const DISCONNECT: u8 = 4;

pub const PING: u8 = 5;

pub const RELIABLE: u8 = 6;

pub const UNRELIABLE: u8 = 7;

pub const FRAGMENT: u8 = 8;

pub const UNSEQUENCED: u8 = 9;

pub const BANDWIDTH: u8 = 10;

pub const THROTTLE: u8 = 11;

pub const UNRELIABLE_FRAGMENT: u8 = 12;

/// A request for a connection, CONNECT of the protocol. `VerifyConnect` has the same fields but for
/// `extra`. Behind each field stands the protocol's name of it.
#[derive(Clone, Copy, Debug, PartialEq, Eq)]
pub struct Connect {
    /// The channel (`channelID`); 0xFF for commands about the connection.
    pub channel: u8,
    /// The reliable sequence number (`reliableSequenceNumber`).
    pub number: u16,
    /// Whether an acknowledgement is asked for (`ENET_PROTOCOL_COMMAND_FLAG_ACKNOWLEDGE`).
    pub asks: bool,
    /// The id by which the sender wants to be addressed (`outgoingPeerID`).
    pub peer: u16,
    /// The session of datagrams to the sender (`incomingSessionID`).
    pub incoming: u8,
    /// The session of datagrams from the sender (`outgoingSessionID`).
    pub outgoing: u8,
    /// The most bytes of a datagram (`mtu`).
    pub mtu: u32,
    /// The most bytes of reliable data in flight (`windowSize`).
    pub window: u32,
    /// The number of channels (`channelCount`).
    pub channels: u32,
    /// Bytes a second, 0 for any number (`incomingBandwidth`).
    pub incoming_bandwidth: u32,
    /// Bytes a second, 0 for any number (`outgoingBandwidth`).
    pub outgoing_bandwidth: u32,
    /// Milliseconds between two changes of the throttle (`packetThrottleInterval`).
    pub throttle_interval: u32,
    /// By how much the throttle goes up, of 32 (`packetThrottleAcceleration`).
    pub acceleration: u32,
    /// By how much the throttle goes down, of 32 (`packetThrottleDeceleration`).
    pub deceleration: u32,
    /// The number that both sides know this connection by (`connectID`).
    pub connect_id: u32,
    /// A number of the sender's own (`data`).
    pub extra: u32,
}

/// A command. Each has a channel (`channelID`), a reliable sequence number
/// (`reliableSequenceNumber`), and whether it asks for an acknowledgement
/// (`ENET_PROTOCOL_COMMAND_FLAG_ACKNOWLEDGE`).
///
/// In the variants `received` and `received_sent` are `receivedReliableSequenceNumber` and
/// `receivedSentTime` of what is acknowledged, `extra` is `data`, `unreliable` is
/// `unreliableSequenceNumber` and `group` is `unsequencedGroup`; `start`, `count`, `fragment`,
/// `total` and `offset` of a fragment are `startSequenceNumber`, `fragmentCount`, `fragmentNumber`,
/// `totalLength` and `fragmentOffset`. `bytes` is the data behind the fields, whose length
/// (`dataLength`) is written, below 65,536. The fields of `VerifyConnect` are those of `Connect`.
#[derive(Debug, PartialEq, Eq, Drop)]
pub enum Command {
    /// ACKNOWLEDGE: a command that asked came.
    Acknowledge {
        channel: u8,
        number: u16,
        asks: bool,
        received: u16,
        received_sent: u16,
    },
    /// CONNECT: asks for a connection.
    Connect(Connect),
    /// VERIFY_CONNECT: accepts it, with the values that hold from now on.
    VerifyConnect {
        channel: u8,
        number: u16,
        asks: bool,
        peer: u16,
        incoming: u8,
        outgoing: u8,
        mtu: u32,
        window: u32,
        channels: u32,
        incoming_bandwidth: u32,
        outgoing_bandwidth: u32,
        throttle_interval: u32,
        acceleration: u32,
        deceleration: u32,
        connect_id: u32,
    },
    /// DISCONNECT: ends the connection.
    Disconnect {
        channel: u8,
        number: u16,
        asks: bool,
        extra: u32,
    },
    /// PING: says that the sender is there.
    Ping {
        channel: u8,
        number: u16,
        asks: bool,
    },
    /// SEND_RELIABLE: a whole message, in order on its channel.
    Reliable {
        channel: u8,
        number: u16,
        asks: bool,
        bytes: Text,
    },
    /// SEND_UNRELIABLE: a message that may be lost.
    Unreliable {
        channel: u8,
        number: u16,
        asks: bool,
        unreliable: u16,
        bytes: Text,
    },
    /// SEND_FRAGMENT: a part of a reliable message.
    Fragment {
        channel: u8,
        number: u16,
        asks: bool,
        start: u16,
        count: u32,
        fragment: u32,
        total: u32,
        offset: u32,
        bytes: Text,
    },
    /// SEND_UNSEQUENCED: a message without an order.
    Unsequenced {
        channel: u8,
        number: u16,
        asks: bool,
        group: u16,
        bytes: Text,
    },
    /// BANDWIDTH_LIMIT: bytes a second, 0 for any number (`incomingBandwidth`, `outgoingBandwidth`).
    Bandwidth {
        channel: u8,
        number: u16,
        asks: bool,
        incoming: u32,
        outgoing: u32,
    },
    /// THROTTLE_CONFIGURE: as the fields of the same names in `Connect`.
    Throttle {
        channel: u8,
        number: u16,
        asks: bool,
        interval: u32,
        acceleration: u32,
        deceleration: u32,
    },
    /// SEND_UNRELIABLE_FRAGMENT: a part of an unreliable message.
    UnreliableFragment {
        channel: u8,
        number: u16,
        asks: bool,
        start: u16,
        count: u32,
        fragment: u32,
        total: u32,
        offset: u32,
        bytes: Text,
    },
}

/// The head of a command: each variant but `Connect` has its fields beside its own.
macro_rules! head_of {
    ($command:expr, $($variant:ident)|+) => {
        match $command {
            Command::Connect(c) => Head {
                channel: c.channel,
                number: c.number,
                asks: c.asks,
            },
            $(Command::$variant { channel, number, asks, .. })|+ => Head {
                channel: *channel,
                number: *number,
                asks: *asks,
            },
        }
    };
}

impl Command {
    /// The number by which the protocol names the kind of command.
    pub(crate) fn kind(&self) -> u8
        ensures { result ≡ kind self.now }
    {
        match self {
            Command::Acknowledge { .. } => ACKNOWLEDGE,
            Command::Connect(_) => CONNECT,
            Command::VerifyConnect { .. } => VERIFY_CONNECT,
            Command::Disconnect { .. } => DISCONNECT,
            Command::Ping { .. } => PING,
            Command::Reliable { .. } => RELIABLE,
            Command::Unreliable { .. } => UNRELIABLE,
            Command::Fragment { .. } => FRAGMENT,
            Command::Unsequenced { .. } => UNSEQUENCED,
            Command::Bandwidth { .. } => BANDWIDTH,
            Command::Throttle { .. } => THROTTLE,
            Command::UnreliableFragment { .. } => UNRELIABLE_FRAGMENT,
        }
    }

    /// What each command begins with.
    pub(crate) fn head(&self) -> Head
        ensures { result ≡ command_head self.now }
    {
        head_of!(
            self,
            Acknowledge
                | VerifyConnect
                | Disconnect
                | Ping
                | Reliable
                | Unreliable
                | Fragment
                | Unsequenced
                | Bandwidth
                | Throttle
                | UnreliableFragment
        )
    }

    /// The channel (`channelID`).
    pub fn channel(&self) -> u8
        ensures { result ≡ (command_head self.now).channel }
    {
        self.head().channel
    }

    /// The reliable sequence number (`reliableSequenceNumber`).
    pub fn number(&self) -> u16
        ensures { result ≡ (command_head self.now).number }
    {
        self.head().number
    }

    /// Whether the command asks for an acknowledgement.
    pub fn asks(&self) -> bool
        ensures { result ≡ (command_head self.now).asks }
    {
        self.head().asks
    }

    /// The data at the command's end, empty where its kind carries none.
    pub(crate) fn payload(&self) -> &[u8]
        ensures { result.now ≡ payload self.now }
    {
        match self {
            Command::Reliable { bytes, .. }
            | Command::Unreliable { bytes, .. }
            | Command::Fragment { bytes, .. }
            | Command::Unsequenced { bytes, .. }
            | Command::UnreliableFragment { bytes, .. } => bytes.as_bytes(),
            _ => &[],
        }
    }

    /// How many bytes the head and the fields take.
    fn fixed_length(&self) -> usize
        ensures { result ≡ 4 + length (fields_bytes (fields self.now)) }
    {
        match self {
            Command::Ping { .. } => 4,
            Command::Reliable { .. } => 6,
            Command::Acknowledge { .. }
            | Command::Disconnect { .. }
            | Command::Unreliable { .. }
            | Command::Unsequenced { .. } => 8,
            Command::Bandwidth { .. } => 12,
            Command::Throttle { .. } => 16,
            Command::Fragment { .. } | Command::UnreliableFragment { .. } => 24,
            Command::VerifyConnect { .. } => 44,
            Command::Connect(_) => 48,
        }
    }

    /// How many bytes the command takes where it is written.
    pub fn written_length(&self) -> usize
        ensures { result ≡ length (command_spelling self.now) }
    {
        self.fixed_length() + self.payload().len()
    }
}
