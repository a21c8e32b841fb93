//! A side, its messages and its end.

ghost use Rattle.std.specs.Prelude.{◌≡◌, ◌≤◌, ◌<◌, IfOk, length};
ghost use Rattle.gs_enet.specs.Record.{PeerRecord};
ghost use Rattle.gs_enet.specs.Standing.{IsPeerOf};
ghost use Rattle.gs_enet.specs.Record.{channels, most_message, connecting, accepting, given_count};
ghost use Rattle.gs_enet.specs.Outcomes.{Sends as IsSent};
ghost use Rattle.gs_enet.specs.World.{Side, Close, acted};
ghost use Rattle.gs_sides.specs.Known.{HasRecord, HasList};

use gs_bytes::{OutOfMemory, Text};
use gs_enet::{CHANNELS, CONTROL, DATAGRAM_ROOM, Peer, SendError};
use gs_enet_wire::Connect;
use gs_store::Store;
use std::alloc::Global;

/// One side of a control connection, and what it wrote.
#[derive(Drop)]
pub struct ControlSide {
    pub(crate) alloc: Global,
    pub(crate) peer: Peer,
    /// The datagrams that it wrote.
    pub(crate) wrote: Store<Text>,
    /// Whether messages can be given, by what was told.
    pub(crate) up: bool,
    /// How many messages were given on each channel.
    pub(crate) given: [u64; CHANNELS],
    ghost has_record: { HasRecord peer },
    ghost has_list: { HasList wrote },
}

/// A request for a connection by a side that is to be addressed by `own`.
fn request(own: u16, connect_id: u32) -> Connect
    ensures peer { result.peer ≡ own }
    ensures connect_id { result.connect_id ≡ connect_id }
{
    Connect {
        channel: CONTROL,
        number: 1,
        asks: true,
        peer: own,
        incoming: 0,
        outgoing: 0,
        mtu: DATAGRAM_ROOM as u32,
        window: 0,
        channels: CHANNELS as u32,
        incoming_bandwidth: 0,
        outgoing_bandwidth: 0,
        throttle_interval: 0,
        acceleration: 0,
        deceleration: 0,
        connect_id,
        extra: 0,
    }
}

/// Gives a peer a message.
fn offer(peer: &mut Peer, channel: u8, bytes: &[u8]) -> Result<u64, SendError>
    requires known { HasRecord peer.old }
    requires channel { channel < channels }
    requires some { 1 ≤ length bytes.now }
    requires short { length bytes.now ≤ most_message }
    ensures known { HasRecord peer.new }
    ensures sent { (r : PeerRecord) → IsPeerOf peer.old r → IsSent r channel bytes.now result peer.new }
{
    peer.send(channel, bytes)
}

impl ControlSide {
    ghost use Rattle.gs_sides.specs.Standing.{IsSideOf};
    ghost use Rattle.gs_enet.specs.Sides.{new_side};
    ghost use Rattle.gs_sides.specs.Outcomes.{SideSends};
    ghost use Rattle.gs_enet.specs.Steps.{is_open};
    ghost use Rattle.gs_sides.specs.Steps.{IsNew};

    /// The client's side: it asks for a connection with its own id, an id of the connection and the data of the
    /// request. Nothing is written yet.
    pub fn connect(
        alloc: Global,
        own: u16,
        connect_id: u32,
        extra: u32,
        now: u32,
    ) -> Result<ControlSide, OutOfMemory>
        ensures { IfOk result (λ side. IsSideOf side (new_side (connecting own connect_id extra now))) }
    {
        let peer = Peer::connect(alloc, own, connect_id, extra, now)?;
        ControlSide::of(alloc, peer)
    }

    /// The host's side: with its own id it answers the request of a side with the id `other`. Nothing is written yet.
    pub fn accept(
        alloc: Global,
        own: u16,
        other: u16,
        connect_id: u32,
        now: u32,
    ) -> Result<ControlSide, OutOfMemory>
        ensures { IfOk result (λ side. IsSideOf side (new_side (accepting own other connect_id now))) }
    {
        let peer = Peer::accept(alloc, own, &request(other, connect_id), now)?;
        ControlSide::of(alloc, peer)
    }

    /// The side of a new peer.
    fn of(alloc: Global, peer: Peer) -> Result<ControlSide, OutOfMemory>
        requires { HasRecord peer }
        ensures { IfOk result (λ side. (r : PeerRecord) → IsPeerOf peer r → IsNew r → IsSideOf side (new_side r)) }
    {
        Ok(ControlSide {
            alloc,
            peer,
            wrote: Store::new(alloc)?,
            up: false,
            given: [0; CHANNELS],
        })
    }

    /// Whether messages can be given: the connection is up and isn't closed.
    pub fn is_open(&self) -> bool
        ensures { (x : Side) → IsSideOf self.now x → result ≡ is_open x.peer.state }
    {
        self.up
    }

    /// How many messages were given on a channel.
    pub fn given(&self, channel: u8) -> u64
        requires { channel < channels }
        ensures { (x : Side) → IsSideOf self.now x → result ≡ given_count x.peer channel }
    {
        self.given[usize::from(channel)]
    }

    /// How many datagrams were written.
    pub fn wrote(&self) -> u64
        ensures { (x : Side) → IsSideOf self.now x → result ≡ length x.wrote }
    {
        self.wrote.count()
    }

    /// Gives a message to be sent on a channel, and answers its number there, from 1. After an error the side is as
    /// before.
    pub fn send(&mut self, channel: u8, bytes: &[u8]) -> Result<u64, SendError>
        requires channel { channel < channels }
        requires some { 1 ≤ length bytes.now }
        requires short { length bytes.now ≤ most_message }
        ensures { (x : Side) → IsSideOf self.old x → SideSends x channel bytes.now result self.new }
    {
        match offer(&mut self.peer, channel, bytes) {
            Ok(number) => {
                self.given[usize::from(channel)] = number;
                Ok(number)
            }
            Err(error) => Err(error),
        }
    }

    /// Closes the connection once everything that was sent is acknowledged. Where it isn't up, nothing happens.
    pub fn close(&mut self)
        ensures { (x : Side) → IsSideOf self.old x → IsSideOf self.new (acted Close x) }
    {
        self.peer.close();
        self.up = false;
    }
}
