//! The hub: its peers by key.

ghost use Rattle.std.specs.Prelude.{ℕ, ◌≡◌, ◌≢◌, ◌≤◌, ◌⊎◌, None, Ok, Err, IfOk, IfErr, OnErr, length};
ghost use Rattle.std.specs.Option.{option_copied_mut};
ghost use Rattle.std.specs.Borrow.{sem};
ghost use Rattle.gs_enet_wire.specs.declared.datagram.Datagram.{Datagram};
ghost use Rattle.gs_enet_wire.specs.Grammar.{SpellsDatagram, IsFaultAt};
ghost use Rattle.gs_enet_hub.specs.Routing.{Routes, IsRouteFault, RoutesOther};
ghost use Rattle.gs_enet_hub.specs.Seating.{seat_of, place_if};
ghost use Rattle.gs_enet_hub.specs.declared.route_error.RouteError.TheVariants as route_error;

use crate::RouteError;
use crate::seat::{Seat, empty_seats, seat_at};
use gs_bytes::{Addr, OutOfMemory};
use gs_enet::{NOBODY, Peer};
use gs_enet_wire::{Command, Connect, Datagram, WireError, read};
use slab::Slab;
use std::alloc::Global;
use std::marker::Model;

/// Up to `MOST_PEERS` peers, each under a key from 0 on and below that.
#[derive(Drop)]
pub struct Hub {
    pub(crate) seats: Vec<Option<Seat>>,
    pub(crate) peers: Slab<Peer>,
}

impl Model for Hub {
    ghost use Rattle.gs_enet_hub.specs.Seating.{Seating, IsSeating};

    ghost Value = { Seating };

    ghost view = { λ hub. record { seats = hub.seats.items; peers = hub.peers } };

    ghost invariant = { λ hub. IsSeating hub.seats.items hub.peers };
}

impl Hub {
    ghost use Rattle.gs_enet.specs.declared.peer.Peer.{Peer};
    ghost use Rattle.gs_enet_hub.specs.Routing.{IsLive};
    ghost use Rattle.gs_enet_hub.specs.Seating.{member, peer_of, with_peer, PutsPeer, SameMembers};
    ghost use Rattle.gs_enet_hub.specs.Lending.{LendsPeer};

    /// A hub without connections.
    pub fn new(alloc: Global) -> Result<Hub, OutOfMemory>
        ensures { IfOk result (λ hub. (key : ℕ) → member hub key ≡ None) }
    {
        Ok(Hub {
            seats: empty_seats(alloc)?,
            peers: Slab::new(alloc),
        })
    }

    /// The key of the peer that a datagram from that address is for. Its caller hands the datagram on. `now`
    /// is the moment in milliseconds at which a new peer begins.
    ///
    /// A connect datagram, which is one to id `NOBODY` (`peerID`) whose first command is CONNECT, is for the
    /// connection with that address and connect id (`connectID`). Where there is none, a peer is made, under
    /// the least key that isn't live. Any other datagram is for the key that it is addressed to, where that is
    /// live and its other side has that address.
    ///
    /// After an error the connections are as before. `BadDatagram` has the place of the first fault in bytes
    /// from the front, by the grammar of datagrams. `NoPeer` says that the datagram asks for no connection and
    /// is for none, and `HubFull` that it asks for a new one while `MOST_PEERS` live.
    pub fn route(&mut self, from: Addr, datagram: &[u8], now: u32) -> Result<usize, RouteError>
        ensures routed { (d : Datagram) → SpellsDatagram datagram.now d → Routes d from now self.old result self.new }
        ensures same { OnErr result (SameMembers self.old self.new) }
        ensures bad { IfErr result (IsRouteFault datagram.now) }
        ensures bad_only { (place : ℕ) → IsFaultAt datagram.now place
            → (result ≡ Err (route_error.BadDatagram place)) ⊎ (result ≡ Err route_error.OutOfMemory) }
    {
        let datagram = match read(*self.seats.allocator(), datagram) {
            Ok(datagram) => datagram,
            Err(WireError::BadDatagram(place)) => return Err(RouteError::BadDatagram(place)),
            Err(WireError::OutOfMemory) => return Err(RouteError::OutOfMemory),
        };
        match request_of(&datagram) {
            Some(connect) => self.join(from, &connect, now),
            None => self.find(from, datagram.peer),
        }
    }

    /// The key, where it is live and its other side has that address.
    fn find(&self, from: Addr, id: u16) -> Result<usize, RouteError>
        ensures { RoutesOther id from self.now result self.now }
    {
        match seat_at(&self.seats, usize::from(id)) {
            Some(seat) if seat.from == from => Ok(usize::from(id)),
            _ => Err(RouteError::NoPeer),
        }
    }

    /// The peer of a key; none exactly where the key isn't live.
    pub fn peer(&mut self, key: usize) -> Option<&mut Peer>
        ensures* lent { sem 𝓛 (LendsPeer self.entry key result) }
        ensures value { option_copied_mut result ≡ peer_of (member self.old key) }
        // What is left behind the reference is the peer of that key alone.
        ensures puts { (peer : Peer) → IsLive self.old key → PutsPeer self.old (with_peer self.old key peer) key peer }
    {
        let place = place_of(&self.seats, &self.peers, key);
        self.peers.get_mut(place)
    }

    /// Takes out the peer of a key, which is no longer live; none exactly where it isn't live.
    pub fn remove(&mut self, key: usize) -> Option<Peer>
        ensures value { result ≡ peer_of (member self.old key) }
        ensures free { member self.new key ≡ None }
        ensures others { (k : ℕ) → k ≢ key → member self.new k ≡ member self.old k }
    {
        let seat = seat_at(&self.seats, key)?;
        self.seats[key] = None;
        self.peers.try_remove(seat.place)
    }
}

/// Where the peer of a key stands, and a place without one where the key isn't live.
fn place_of(seats: &[Option<Seat>], peers: &Slab<Peer>, key: usize) -> usize
    ensures value { result ≡ place_if peers.now.capacity (seat_of seats.now key) }
    ensures past { seat_of seats.now key ≡ None → length peers.now.slots ≤ result }
{
    match seat_at(seats, key) {
        Some(seat) => seat.place,
        None => peers.capacity(),
    }
}

/// The request of a connect datagram.
fn request_of(datagram: &Datagram) -> Option<Connect>
    ensures { result ≡ Rattle.gs_enet_hub.specs.Routing.request_of datagram.now }
{
    if datagram.peer != NOBODY {
        return None;
    }
    match datagram.commands.as_slice().first() {
        Some(Command::Connect(connect)) => Some(*connect),
        _ => None,
    }
}
