// A block of a frame: a room for its shards, each at the place of its number.

ghost use Rattle.std.specs.Prelude.{
  ℕ,
  ◌≡◌,
  ◌≢◌,
  ◌≤◌,
  ◌<◌,
  ◌+◌,
  ◌*◌,
  false,
  List,
  length,
  take,
  slice_index_or,
  IfOk,
  vec_len,
  vec_capacity,
};
ghost use Rattle.gs_rtp.specs.Limits.{most_shards_of_block};
ghost use Rattle.gs_rtp.specs.Stream.{StreamSettings};
ghost use Rattle.gs_rtp.specs.Video.{parity_count};
ghost use Rattle.gs_rs.specs.Codeword.{shard_of};
ghost use Rattle.gs_frames.specs.Received.{Received};
ghost use Rattle.gs_frames.specs.Complete.{joined_payloads};
ghost use Rattle.gs_frames.specs.Shards.{most_payload, payload_of};
ghost use Rattle.gs_fecqueue.specs.Limits.{most_of_block};
ghost use Rattle.gs_fecqueue.specs.Places.{AreShards, HasFlagsOf, HasPlaced};

use gs_bytes::OutOfMemory;
use gs_frames::{Added, Shape, Why};
use gs_rs::Code;
use gs_rtp::{PACKET_GREATEST, SHARDS_GREATEST, VideoHead};
use std::alloc::Global;

// How much of a packet isn't payload.
pub(crate) const PACKET_HEADER: usize = 16;

// The most bytes of a shard's payload.
pub(crate) const PAYLOAD_GREATEST: usize = PACKET_GREATEST as usize - PACKET_HEADER;

// The most bytes of a block's data.
pub(crate) const DATA_GREATEST: usize = SHARDS_GREATEST as usize * PAYLOAD_GREATEST;

// What came of a block: a room in which the payloads of its shards stand end to end, those of data shards first.
// Payloads have one size, which its calls are told. Nothing came where none is held.
#[derive(Debug, Drop)]
pub(crate) struct Block {
    shards: u16,
    percentage: u8,
    // of its data and its parity
    total: u16,
    held: u16,
    present: Vec<bool>,
    bytes: Vec<u8>,
    ghost enough: { held ≤ shards },
    ghost counts: { total ≡ shards + parity_count shards percentage },
    ghost total_greatest: { total ≤ most_shards_of_block },
    ghost flags: { vec_len present ≡ most_shards_of_block },
    ghost reserved: { most_of_block ≤ vec_capacity bytes },
    ghost room: { total * most_payload ≤ vec_len bytes },
}

impl Block {
    ghost use Rattle.std.specs.Prelude.{Option, not, ◌∷◌, ◌&&◌, ◌==◌, if◌then◌else◌};
    ghost use Rattle.gs_rtp.specs.Video.{IsVideoHead};
    ghost use Rattle.gs_frames.specs.Verdict.{is_counting};
    ghost use Rattle.gs_fecqueue.specs.Holding.{data_of_block, IsRoomOf, ArePlaced, IsBlockReady, IsJoined};
    ghost use Rattle.gs_fecqueue.specs.Holding.{HoldsShards};
    ghost use Rattle.gs_fecqueue.specs.Holding.{HoldsBlock, Brings};
    ghost use Rattle.gs_fecqueue.specs.BlockVerdict.{made_block_whole, block_verdict, held_behind, first_behind};
    ghost use Rattle.gs_fecqueue.specs.Steps.{IsStarted, IsPut, KeepsHeld};

    // A room of which nothing is held.
    pub(crate) fn new(alloc: Global) -> Result<Block, OutOfMemory> {
        Ok(Block {
            shards: 0,
            percentage: 0,
            total: 0,
            held: 0,
            present: no_flags(alloc, usize::from(SHARDS_GREATEST))?,
            bytes: Vec::with_capacity(alloc, DATA_GREATEST)?,
        })
    }

    // Forgets what it holds.
    pub(crate) fn clear(&mut self)
        ensures { self.new.held ≡ 0 }
    {
        self.held = 0;
    }

    // Whether as many shards are held as it has data shards.
    pub(crate) fn is_whole(&self) -> bool
        ensures { result ≡ (not (self.now.held == 0) && self.now.held == self.now.shards) }
    {
        self.held != 0 && self.held == self.shards
    }

    // The payloads of its data shards.
    pub(crate) fn data(&self, size: usize) -> &[u8]
        requires { size ≤ most_payload }
        ensures { result.now ≡ data_of_block size self.now }
    {
        &self.bytes[..usize::from(self.shards) * size]
    }

    // The verdict on a datagram of it, but for what is whole besides it. `last_block` is its frame's.
    pub(crate) fn take(&mut self, head: &VideoHead, last_block: u8, payload: &[u8]) -> Added
        requires grammar { IsVideoHead head.now }
        requires size { length payload.now ≤ most_payload }
        ensures verdict { (s : StreamSettings) (held : List Received) (first : Option Received) (r : Received)
            → HoldsBlock s self.old held first → Brings s head.now payload.now r
            → result ≡ block_verdict last_block r held first }
        ensures holds { (s : StreamSettings) (held : List Received) (first : Option Received) (r : Received)
            → HoldsBlock s self.old held first → Brings s head.now payload.now r
            → HoldsBlock s self.new (held_behind (is_counting result) r held)
            (first_behind (is_counting result) r first) }
    {
        let had = self.shape_had(head, last_block);
        let came = shape_of(head);
        if had != came {
            return Added::Foreign(Why::Shape { had, came });
        }
        if self.held == 0 {
            self.start(head);
            return self.hold(head.index, payload);
        }
        if self.present[usize::from(head.index)] {
            return Added::Repeat;
        }
        if self.is_whole() {
            return Added::Spare;
        }
        self.hold(head.index, payload)
    }

    // What its datagrams said of it, and of its frame.
    fn shape_had(&self, head: &VideoHead, last_block: u8) -> Shape
        ensures { result ≡ (if self.now.held == 0
            then record { last_block = last_block; shards = head.now.shards; percentage = head.now.percentage }
            else record { last_block = last_block; shards = self.now.shards; percentage = self.now.percentage }) }
    {
        let (shards, percentage) = if self.held == 0 {
            (head.shards, head.percentage)
        } else {
            (self.shards, self.percentage)
        };
        Shape {
            last_block,
            shards,
            percentage,
        }
    }

    // Makes room for the shards of a block that a head tells of.
    fn start(&mut self, head: &VideoHead)
        requires { IsVideoHead head.now }
        ensures { IsStarted self.new head.now }
    {
        let total = usize::from(head.shards) + parity_of(head.shards, head.percentage);
        self.held = 0;
        grow(&mut self.bytes, total * PAYLOAD_GREATEST);
        clear_flags(&mut self.present, total);
        self.shards = head.shards;
        self.percentage = head.percentage;
        self.total = total as u16;
    }

    // Holds one shard more, and restores the data where as many are held then as there are data shards.
    fn hold(&mut self, index: u16, payload: &[u8]) -> Added
        requires index { index < self.old.total }
        requires size { length payload.now ≤ most_payload }
        requires more { self.old.held < self.old.shards }
        ensures { (s : StreamSettings) (held : List Received) (first r : Received)
            → IsBlockReady s self.old held first → IsJoined s held first r index payload.now
            → (result ≡ made_block_whole (length (r ∷ held) == first.head.shards))
            × HoldsShards s self.new (r ∷ held) first }
    {
        self.put(index, payload);
        if !self.is_whole() {
            return Added::Added;
        }
        self.restore(payload.len());
        Added::BlockWhole
    }

    // Holds a shard.
    fn put(&mut self, index: u16, payload: &[u8])
        requires index { index < self.old.total }
        requires size { length payload.now ≤ most_payload }
        requires more { self.old.held < self.old.shards }
        ensures { IsPut self.old self.new index payload.now }
    {
        let index = usize::from(index);
        place(&mut self.bytes, index, payload);
        self.present[index] = true;
        self.held += 1;
    }

    // Restores the data shards that aren't held, where as many shards are held as there are of data.
    fn restore(&mut self, size: usize)
        requires { size ≤ most_payload }
        ensures kept { KeepsHeld self.old self.new }
        ensures data { (s : StreamSettings) (held : List Received) (first : Received) → payload_of s ≡ size
            → AreShards held first → IsRoomOf self.old held first → ArePlaced s self.old held
            → length held ≡ first.head.shards → data_of_block size self.new ≡ joined_payloads s held first }
    {
        let total = usize::from(self.total);
        let data = usize::from(self.shards);
        restore(&mut self.bytes, &self.present[..total], size, data);
    }
}

// What a datagram says of its frame and its block.
fn shape_of(head: &VideoHead) -> Shape
    ensures { result ≡ record {
      last_block = head.now.last_block;
      shards = head.now.shards;
      percentage = head.now.percentage;
    } }
{
    Shape {
        last_block: head.last_block,
        shards: head.shards,
        percentage: head.percentage,
    }
}

// Grows to a length, within the room that was reserved.
fn grow(bytes: &mut Vec<u8>, size: usize)
    requires { size ≤ vec_capacity bytes.old }
    ensures size { size ≤ vec_len bytes.new }
    ensures longer { vec_len bytes.old ≤ vec_len bytes.new }
    ensures capacity { vec_capacity bytes.old ≤ vec_capacity bytes.new }
{
    if bytes.len() < size {
        bytes.resize(size, 0).unwrap();
    }
}

// Writes a payload to the place of its number.
fn place(bytes: &mut [u8], index: usize, payload: &[u8])
    requires { index * length payload.now + length payload.now ≤ length bytes.old }
    ensures itself { shard_of (length payload.now) bytes.new index ≡ payload.now }
    ensures others { (i : ℕ) → i ≢ index
        → shard_of (length payload.now) bytes.new i ≡ shard_of (length payload.now) bytes.old i }
{
    let place = index * payload.len();
    bytes[place..place + payload.len()].copy_from_slice(payload);
}

// Restores the data shards of a block that aren't present, where as many shards are as it has of data.
fn restore(bytes: &mut [u8], present: &[bool], size: usize, shards: usize)
    requires data_first { shards ≤ length present.now }
    requires room { length present.now * size ≤ length bytes.old }
    ensures { (s : StreamSettings) (held : List Received) (first : Received) → payload_of s ≡ size
        → AreShards held first → HasFlagsOf present.now held first → HasPlaced size bytes.old held
        → shards ≡ first.head.shards → length held ≡ first.head.shards
        → take (shards * size) bytes.new ≡ joined_payloads s held first }
{
    let total = present.len();
    if let Ok(code) = Code::video(shards, total - shards) {
        let _ = code.restore(size, &mut bytes[..total * size], present);
    }
}

// Takes the first flags back.
fn clear_flags(flags: &mut [bool], count: usize)
    requires { count ≤ length flags.old }
    ensures { (i : ℕ) → i < count → slice_index_or flags.new i false ≡ false }
{
    for i in 0..count {
        flags[i] = false;
    }
}

// Flags that aren't set.
fn no_flags(alloc: Global, count: usize) -> Result<Vec<bool>, OutOfMemory>
    ensures { IfOk result (λ flags. vec_len flags ≡ count) }
{
    Ok(vec![in alloc; false; count]?)
}

// How many parity shards a block of so many data shards has at a percentage.
fn parity_of(shards: u16, percentage: u8) -> usize
    ensures { result ≡ parity_count shards percentage }
{
    (usize::from(shards) * usize::from(percentage)).div_ceil(100)
}
