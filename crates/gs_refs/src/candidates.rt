//! The newest valid frames of a history.

ghost use Rattle.std.specs.Prelude.{◌≡◌, ◌≢◌, ◌+◌, ◌≤◌, ℕ, List, [], ◌∷◌, IfOk, IfSome, IfNone, None, Some, nat_le};
ghost use Rattle.gs_refs.specs.declared.entry.Entry.{Entry};
ghost use Rattle.gs_refs.specs.declared.entry.Entry.TheVariants as entry;
ghost use Rattle.gs_refs.specs.Candidates.{KeepsValid, IsGreatestNamed, frame_or, reaches};
ghost use Rattle.gs_refs.specs.History.{frames};

use crate::candidate::Candidate;
use crate::names::names;
use circular_buffer::HeapCircularBuffer;
use gs_bytes::OutOfMemory;
use gs_tape::Tick;
use std::alloc::Global;
use std::marker::Model;

// How many frames are kept.
const MOST_CANDIDATES: usize = 1_024;

/// The newest valid frames, and the greatest frame that fell out of them and may still be valid, or 0.
#[derive(Drop)]
pub struct Candidates {
    ring: HeapCircularBuffer<Candidate>,
    watermark: u32,
}

impl Model for Candidates {
    ghost use Rattle.std.specs.Prelude.{◌≤◌, length};
    ghost use Rattle.gs_refs.specs.Candidates.{KeptCandidates};

    ghost Value = { KeptCandidates };

    ghost view = { λ c. record { frames = c.ring.items; watermark = c.watermark } };

    ghost invariant = { λ c. (1 ≤ c.ring.capacity) × (length c.ring.items ≤ c.ring.capacity) };
}

// The frame that fell out, if one did.
fn frame_or(fallen: Option<Candidate>, watermark: u32) -> u32
    ensures { result ≡ frame_or fallen watermark }
{
    match fallen {
        Some(oldest) => oldest.frame,
        None => watermark,
    }
}

impl Candidates {
    /// No frame is kept.
    pub fn new(alloc: Global) -> Result<Candidates, OutOfMemory>
        ensures { IfOk result (λ kept. kept ≡ record { frames = []; watermark = 0 }) }
    {
        Ok(Candidates {
            ring: HeapCircularBuffer::with_capacity(alloc, MOST_CANDIDATES)?,
            watermark: 0,
        })
    }

    /// An IDR frame was sent, and no frame before it is valid.
    pub fn restart(&mut self, newest: Candidate)
        ensures { (h : List Entry) (reference : ℕ) → newest.frame ≡ frames h + 1
            → KeepsValid (entry.Sent newest.tick 2 reference ∷ h) self.new }
    {
        self.ring.clear();
        self.ring.push_back(newest);
        self.watermark = 0;
    }

    /// A frame was sent that refers to another.
    pub fn push(&mut self, newest: Candidate)
        ensures { (h : List Entry) (kind reference : ℕ) → kind ≢ 2 → newest.frame ≡ frames h + 1 → KeepsValid h self.old
            → KeepsValid (entry.Sent newest.tick kind reference ∷ h) self.new }
    {
        let fallen = self.ring.push_back(newest);
        self.watermark = frame_or(fallen, self.watermark);
    }

    /// Whether the last frame kept is this one or above it.
    pub fn reaches(&self, frame: u32) -> bool
        ensures { result ≡ reaches frame self.now.frames }
    {
        match self.ring.back() {
            Some(newest) => frame <= newest.frame,
            None => false,
        }
    }

    /// The frames from this one on aren't valid any more.
    pub fn drop_from(&mut self, first: u32)
        ensures { (h : List Entry) (last : ℕ) → KeepsValid h self.old
            → KeepsValid (entry.Invalid first last ∷ h) self.new }
    {
        while self.reaches(first) {
            self.ring.pop_back();
        }
        self.watermark = self.watermark.min(first.saturating_sub(1));
    }

    /// The greatest frame kept that the tick has a unit against.
    pub fn greatest_named(&self, tick: &Tick) -> Option<Candidate>
        ensures some { IfSome result (λ c. (h : List Entry) → KeepsValid h self.now
            → IsGreatestNamed h tick.now (Some c)) }
        ensures none { IfNone result ((h : List Entry) → KeepsValid h self.now → self.now.watermark ≡ 0
            → IsGreatestNamed h tick.now None) }
    {
        for place in (0..self.ring.len()).rev() {
            let Some(candidate) = self.ring.get(place) else {
                unreachable!()
            };
            if names(tick, candidate.tick) {
                return Some(*candidate);
            }
        }
        None
    }

    /// Whether a frame that isn't kept may be valid.
    pub fn has_forgotten(&self) -> bool
        ensures { result ≡ nat_le 1 self.now.watermark }
    {
        self.watermark >= 1
    }
}
