//! The seats of a hub: for each key where its peer stands, and the name of its connection.

ghost use Rattle.std.specs.Prelude.{◌≡◌, ◌<◌, ℕ, None, true, false, IfSome, IfNone, IfOk, length, replicate};
ghost use Rattle.std.specs.Prelude.{slice_index_or};
ghost use Rattle.gs_enet_hub.specs.Seats.{most_peers, IsSeatOf, IsTaken};

use crate::limits::MOST_PEERS;
use gs_bytes::{Addr, OutOfMemory};
use std::alloc::Global;

/// Where a connection's peer stands among the peers, the other side's address, and the connect id
/// (`connectID`).
#[derive(Clone, Copy)]
pub struct Seat {
    pub place: usize,
    pub from: Addr,
    pub connect_id: u32,
}

/// As many seats as there are keys, none of them taken.
pub fn empty_seats(alloc: Global) -> Result<Vec<Option<Seat>>, OutOfMemory>
    ensures { IfOk result (λ seats. seats.items ≡ replicate most_peers None) }
{
    Ok(vec![in alloc; None; MOST_PEERS]?)
}

/// The seat of a key, if it is taken.
pub fn seat_at(seats: &[Option<Seat>], key: usize) -> Option<Seat>
    ensures { result ≡ slice_index_or seats.now key None }
{
    match seats.get(key) {
        Some(seat) => *seat,
        None => None,
    }
}

/// The key of the connection with that address and connect id.
pub fn seat_of(seats: &[Option<Seat>], from: Addr, connect_id: u32) -> Option<usize>
    ensures found { IfSome result (λ key. IsSeatOf from connect_id (slice_index_or seats.now key None)) }
    ensures none { IfNone result ((key : ℕ) → IsSeatOf from connect_id (slice_index_or seats.now key None) → ⊥) }
{
    'seats: for key in 0..seats.len() {
        if is_of(&seats[key], from, connect_id) {
            return Some(key);
        }
    }
    None
}

/// Whether the seat is that of the connection with that address and connect id.
fn is_of(seat: &Option<Seat>, from: Addr, connect_id: u32) -> bool
    ensures yes { result ≡ true → IsSeatOf from connect_id seat.now }
    ensures no { result ≡ false → IsSeatOf from connect_id seat.now → ⊥ }
{
    match seat {
        Some(seat) => seat.from == from && seat.connect_id == connect_id,
        None => false,
    }
}

/// The least key whose seat isn't taken.
pub fn first_free(seats: &[Option<Seat>]) -> Option<usize>
    ensures found { IfSome result (λ key. key < length seats.now) }
    ensures free { IfSome result (λ key. slice_index_or seats.now key None ≡ None) }
    ensures least { IfSome result (λ key. (k : ℕ) → k < key → IsTaken (slice_index_or seats.now k None)) }
    ensures none { IfNone result ((k : ℕ) → k < length seats.now → IsTaken (slice_index_or seats.now k None)) }
{
    'free: for key in 0..seats.len() {
        if seats[key].is_none() {
            return Some(key);
        }
    }
    None
}
