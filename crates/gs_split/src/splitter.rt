// From the units of frames to their datagrams.

ghost use Rattle.std.specs.Prelude.{ℕ, ◌≡◌, ◌≤◌, ◌<◌, ◌+◌, ◌*◌, ◌%◌, ◌^◌, IfOk, Some, length, take, drop, true};
ghost use Rattle.std.specs.Prelude.{vec_len, vec_capacity};
ghost use Rattle.std.specs.List.{slice_get};
ghost use Rattle.gs_bytes.specs.Limits.{most_unit};
ghost use Rattle.gs_rtp.specs.Limits.{most_frame, most_stream_datagram};
ghost use Rattle.gs_rtp.specs.Stream.{numbers_of};
ghost use Rattle.gs_frames.specs.ImageLaws.{IsWrittenKind};
ghost use Rattle.gs_frames.specs.Datagrams.{OutgoingFrame, frame_datagrams};
ghost use Rattle.gs_split.specs.Splitting.{IsFresh, IsLoaded, KeepsShards, frame_behind, has_parity_at, next_count};
ghost use Rattle.gs_split.specs.Loaded.{IsPlanned, most_datagrams, loaded_outgoing};

use crate::frame::{FrameLabel, LoadedFrame};
use crate::plan::Plan;
use gs_bytes::OutOfMemory;
use gs_rs::MAX_SHARDS;
use gs_rtp::{BLOCKS_GREATEST, RTP_HEADER_LENGTH, Settings};
use std::alloc::Global;
use std::marker::Model;

// No frame: one of no datagrams.
const NO_FRAME: LoadedFrame = LoadedFrame {
    count: 0,
    frame: 0,
    kind: 0,
    time: 0,
    unit_length: 0,
    plan: Plan {
        packets: 0,
        blocks: 0,
        percentage: 0,
        shards: [0; BLOCKS_GREATEST],
        parity: [0; BLOCKS_GREATEST],
        sent: [0; BLOCKS_GREATEST],
    },
    datagrams: 0,
};

/// Makes the datagrams of a stream, frame by frame. It keeps how many went out before the loaded frame, modulo 2^32,
/// and the shards of a loaded frame that has parity.
#[derive(Drop)]
pub struct Splitter {
    settings: Settings,
    // of no datagrams where none is loaded
    loaded: LoadedFrame,
    // the shards of the loaded frame, where it has parity, end to end, and then what is left of earlier ones
    kept: Vec<u8>,
}

impl Model for Splitter {
    ghost use Rattle.std.specs.Prelude.{vec_len, vec_capacity};
    ghost use Rattle.gs_rtp.specs.Stream.{numbers_of};
    ghost use Rattle.gs_split.specs.Splitting.{Splitting};
    ghost use Rattle.gs_split.specs.Loaded.{IsFrameSound};

    ghost Value = { Splitting };

    ghost view = { λ s. record {
      settings = numbers_of s.settings;
      count = s.loaded.count;
      datagrams = s.loaded.datagrams;
      frame = s.loaded.frame;
      kind = s.loaded.kind;
      time = s.loaded.time;
      unit_length = s.loaded.unit_length;
      kept = s.kept.items;
    } };

    ghost invariant = { λ s. IsFrameSound (numbers_of s.settings) s.loaded (vec_len s.kept) (vec_capacity s.kept) };
}

// How many bytes the shards of a frame with parity take at most.
fn most_kept(settings: &Settings) -> usize
    ensures { 0 < settings.now.percentage → most_datagrams * settings.now.packet ≤ result }
{
    if settings.percentage == 0 {
        return 0;
    }
    BLOCKS_GREATEST * MAX_SHARDS * usize::from(settings.packet)
}

// Makes bytes at least so long, within their room.
fn lengthen(bytes: &mut Vec<u8>, size: usize)
    requires { size ≤ vec_capacity bytes.old }
    ensures capacity { vec_capacity bytes.old ≤ vec_capacity bytes.new }
    ensures len { size ≤ vec_len bytes.new }
{
    if bytes.len() < size {
        bytes.resize(size, 0).unwrap();
    }
}

// Writes the shards of a frame that has parity to the front of what is kept, end to end.
fn keep_shards(settings: &Settings, frame: &LoadedFrame, unit: &[u8], kept: &mut Vec<u8>)
    requires planned { IsPlanned (numbers_of settings.now) frame.now }
    requires unit { length unit.now ≡ frame.now.unit_length }
    requires room { 0 < settings.now.percentage → most_datagrams * settings.now.packet ≤ vec_capacity kept.old }
    ensures capacity { vec_capacity kept.old ≤ vec_capacity kept.new }
    ensures enough { has_parity_at (numbers_of settings.now) frame.now.unit_length ≡ true
        → frame.now.datagrams * settings.now.packet ≤ vec_len kept.new }
    ensures shards { has_parity_at (numbers_of settings.now) frame.now.unit_length ≡ true
        → KeepsShards (numbers_of settings.now) (loaded_outgoing frame.now unit.now) kept.new.items }
{
    if frame.plan.percentage == 0 {
        return;
    }
    let size = frame.datagrams as usize * usize::from(settings.packet);
    lengthen(kept, size);
    frame.write_front(settings, unit, kept);
}

impl Splitter {
    /// A splitter of a stream of these settings, with no frame loaded. Takes all the memory that it needs.
    pub fn new(alloc: Global, settings: &Settings) -> Result<Splitter, OutOfMemory>
        ensures { IfOk result (λ splitter. IsFresh (numbers_of settings.now) splitter) }
    {
        Ok(Splitter {
            settings: *settings,
            loaded: NO_FRAME,
            kept: Vec::with_capacity(alloc, most_kept(settings))?,
        })
    }

    /// Loads a frame: its number, 1 to 1,048,576, its kind (1 a unit against the frame before, 2 an IDR unit, 5 a unit
    /// against an older frame), the time of its tick in milliseconds, any number of 32 bits, and its unit, of 0 to
    /// 4,000,000 bytes. Answers how many datagrams it has.
    pub fn load(&mut self, frame: u32, kind: u8, time: u32, unit: &[u8]) -> u32
        requires frame_least { 1 ≤ frame }
        requires frame_greatest { frame ≤ most_frame }
        requires written { IsWrittenKind kind }
        requires limit { length unit.now ≤ most_unit }
        ensures settings { self.new.settings ≡ self.old.settings }
        ensures count { self.new.count ≡ next_count self.old }
        ensures datagrams { self.new.datagrams ≡ result }
        ensures unit_length { self.new.unit_length ≡ length unit.now }
        ensures number { (count : ℕ)
            → result ≡ length (frame_datagrams self.old.settings (frame_behind count frame kind time unit.now)) }
        ensures loaded { (count : ℕ) → count % 2 ^ 32 ≡ next_count self.old
            → IsLoaded self.new (frame_behind count frame kind time unit.now) }
    {
        let count = self.loaded.count.wrapping_add(self.loaded.datagrams);
        let label = FrameLabel { frame, kind, time };
        let loaded = LoadedFrame::plan(&self.settings, count, label, unit.len() as u32);
        keep_shards(&self.settings, &loaded, unit, &mut self.kept);
        self.loaded = loaded;
        loaded.datagrams
    }

    /// Writes a datagram of the loaded frame, by its number in the frame, from 0, in any order, and answers its length.
    /// `unit` is the frame's unit, and `out` has `DATAGRAM_GREATEST` bytes or more.
    pub fn datagram(&mut self, k: u32, unit: &[u8], out: &mut [u8]) -> usize
        requires number { k < self.old.datagrams }
        requires unit { length unit.now ≡ self.old.unit_length }
        requires room { most_stream_datagram ≤ length out.old }
        ensures kept { self.new ≡ self.old }
        ensures length { result ≡ self.old.settings.packet + 16 }
        ensures datagram { (sent : OutgoingFrame) → IsLoaded self.old sent → sent.unit ≡ unit.now
            → slice_get (frame_datagrams self.old.settings sent) k ≡ Some (take result out.new) }
        ensures rest { drop result out.new ≡ drop result out.old }
    {
        self.loaded
            .write_datagram(&self.settings, k, unit, &self.kept, out);
        RTP_HEADER_LENGTH + usize::from(self.settings.packet)
    }
}
