// Which frames are handed, and which are asked for.

ghost use Rattle.std.specs.Prelude.{◌≡◌, ◌<◌, ◌≤◌, ◌+◌, ◌∷◌, ◌&&◌, ◌==◌, not, ℕ, List, [], Option, Some, None, IsTrue};
ghost use Rattle.std.specs.Prelude.{MatchBool, MatchOption};
ghost use Rattle.gs_frames.specs.Client.{ClientSettings, HasWindow, Arrival, Datagram, Reset, least_window};
ghost use Rattle.gs_frames.specs.Client.{most_window};
ghost use Rattle.gs_frames.specs.Received.{Received, taken};
ghost use Rattle.gs_frames.specs.Complete.{IsComplete};
ghost use Rattle.gs_frames.specs.Image.{Frame};
ghost use Rattle.gs_frames.specs.Handed.{Handed, handed};
ghost use Rattle.gs_frames.specs.Asks.{newly_asked};
ghost use Rattle.gs_frames.specs.KeptLaws.{is_handed_next};
ghost use Rattle.gs_depack.specs.Depack.{noted_kind, HasNoneAbove, Handing, IsDepackOf, HandsNext, HandsNone, IsMove};
ghost use Rattle.gs_depack.specs.Steps.{PutsFrame, IsAdvance, IsNote, HasSettled, LeavesRange, LeavesNone};

use gs_fecqueue::{Moved, WINDOW_GREATEST};
use gs_frames::Range;

const KIND_IDR: u8 = 2;

const KIND_AGAINST_OLDER: u8 = 5;

/// Which of a client's complete frames are handed to its decoder, in which order, and which frames are asked for. It
/// is told when a datagram of a greater frame came (`moved`) and when a frame became complete (`note`); then `next`
/// gives the frames that are to be handed, until there is none.
#[derive(Debug, Drop)]
pub struct Depack {
    window: u8,
    greatest: u32,
    // The kind of the greatest frame, where it is complete.
    newest: Option<u8>,
    // Complete frames below the greatest, each at its number modulo 4, and their kinds.
    frames: [u32; WINDOW_GREATEST],
    kinds: [u8; WINDOW_GREATEST],
    // Each frame up to this one is complete or was left.
    settled: u32,
    // Each frame up to this one was handed or passed by.
    passed: u32,
    last_handed: u32,
    waits_for_idr: bool,
}

impl Depack {
    /// The depack of a client that was given nothing, with a window of 1 to 4 frames.
    pub fn new(window: u8) -> Depack
        requires least { least_window ≤ window }
        requires greatest { window ≤ most_window }
        ensures { (c : ClientSettings) → c.window ≡ window → IsDepackOf result c [] }
    {
        Depack {
            window,
            greatest: 0,
            newest: None,
            frames: [0; WINDOW_GREATEST],
            kinds: [0; WINDOW_GREATEST],
            settled: 0,
            passed: 0,
            last_handed: 0,
            waits_for_idr: false,
        }
    }

    // The kind that was noted of a frame.
    fn noted_as(&self, frame: u32) -> Option<u8>
        ensures { result ≡ noted_kind self.now frame }
    {
        let place = frame as usize % WINDOW_GREATEST;
        if frame == self.greatest {
            self.newest
        } else if self.frames[place] == frame {
            Some(self.kinds[place])
        } else {
            None
        }
    }

    // Puts a complete frame to its place.
    fn put(&mut self, frame: u32, kind: u8)
        ensures { PutsFrame self.old self.new frame kind }
    {
        let place = frame as usize % WINDOW_GREATEST;
        self.frames[place] = frame;
        self.kinds[place] = kind;
    }

    // Goes on to a greater frame, of which nothing is noted.
    fn advance(&mut self, to: u32)
        ensures { HasNoneAbove self.old → self.old.greatest < to → IsAdvance self.old self.new to }
    {
        if let Some(kind) = self.newest {
            self.put(self.greatest, kind);
        }
        self.newest = None;
        self.greatest = to;
    }

    // Leaves the frames that are the window below the greatest, and answers those of them that aren't settled.
    fn leave(&mut self) -> Option<Range>
        ensures { MatchOption result (LeavesNone self.old self.new) (λ range. LeavesRange self.old self.new range) }
    {
        let left = self.greatest.saturating_sub(u32::from(self.window));
        if left <= self.settled {
            return None;
        }
        let first = self.settled + 1;
        self.settled = left;
        Some(Range { first, last: left })
    }

    // Settles the complete frames behind the settled ones.
    fn settle(&mut self)
        ensures { HasSettled self.old self.new }
    {
        'settle: while self.settled < self.greatest && self.noted_as(self.settled + 1).is_some() {
            self.settled += 1;
        }
    }

    /// A datagram of a greater frame came than all before it: leaves the frames that it leaves, and answers the range
    /// to ask for. `from` is the `to` of the move before, 0 at first, and no frame waits to be handed.
    pub fn moved(&mut self, moved: &Moved) -> Option<Range>
        ensures asks { (c : ClientSettings) (came : List Arrival) (bytes : List ℕ) (r : Received) → HasWindow c
            → IsDepackOf self.old c came → IsMove moved.now c came bytes r
            → result ≡ newly_asked c (Datagram bytes) came }
        ensures hands { (c : ClientSettings) (came : List Arrival) (bytes : List ℕ) (r : Received) → HasWindow c
            → IsDepackOf self.old c came → IsMove moved.now c came bytes r
            → Handing self.new c (Datagram bytes ∷ came) (Some r.head.frame) (handed c came) }
    {
        self.advance(moved.to);
        let lost = self.leave();
        self.settle();
        lost
    }

    /// Notes that a frame became complete: one that was taken, isn't left and wasn't noted.
    pub fn note(&mut self, frame: u32, kind: u8)
        ensures { (c : ClientSettings) (came : List Arrival) (given : List Handed) (held : Frame) → HasWindow c
            → Handing self.old c came (Some frame) given → IsComplete c (taken c came) frame held → held.kind ≡ kind
            → Handing self.new c came None given }
    {
        self.set_kind(frame, kind);
        self.settle();
    }

    // Sets the kind of a frame, which is at most the greatest.
    fn set_kind(&mut self, frame: u32, kind: u8)
        ensures { HasNoneAbove self.old → 1 ≤ frame → frame ≤ self.old.greatest → IsNote self.old self.new frame kind }
    {
        if frame == self.greatest {
            self.newest = Some(kind);
        } else {
            self.put(frame, kind);
        }
    }

    // Whether a frame of this kind is handed behind those that were.
    fn is_next(&self, frame: u32, kind: u8) -> bool
        requires { 1 ≤ frame }
        ensures { result ≡ is_handed_next self.now.last_handed self.now.waits_for_idr frame kind }
    {
        (kind == KIND_IDR || !self.waits_for_idr)
            && (kind == KIND_IDR
                || kind == KIND_AGAINST_OLDER
                || 0 < self.last_handed && self.last_handed == frame - 1)
    }

    // Whether an IDR frame is awaited behind a frame of this kind that is handed.
    fn waits_behind(&self, kind: u8) -> bool
        ensures { result ≡ (self.now.waits_for_idr && not (kind == 2)) }
    {
        self.waits_for_idr && kind != KIND_IDR
    }

    // Passes the next settled frame, and tells whether it is handed.
    fn pass(&mut self) -> bool
        requires { self.old.passed < self.old.settled }
        ensures settled { self.new.settled ≡ self.old.settled }
        ensures passed { self.new.passed ≡ self.old.passed + 1 }
        ensures hands { (c : ClientSettings) (came : List Arrival) (unnoted : Option ℕ) (given : List Handed)
            → Handing self.old c came unnoted given
            → MatchBool result (HandsNext self.new c came unnoted given self.new.passed)
            (Handing self.new c came unnoted given) }
    {
        self.passed += 1;
        let frame = self.passed;
        let Some(kind) = self.noted_as(frame) else {
            return false;
        };
        if !self.is_next(frame, kind) {
            return false;
        }
        self.last_handed = frame;
        self.waits_for_idr = self.waits_behind(kind);
        true
    }

    /// The next frame to hand, None exactly where no settled frame waits to be handed. Its work is at most the number
    /// of frames that were settled since the last one, each of which is passed once.
    pub fn next(&mut self) -> Option<u32>
        ensures { (c : ClientSettings) (came : List Arrival) (unnoted : Option ℕ) (given : List Handed)
            → Handing self.old c came unnoted given
            → MatchOption result (HandsNone self.new c came unnoted given)
            (λ frame. HandsNext self.new c came unnoted given frame) }
    {
        'pass: while self.passed < self.settled {
            if self.pass() {
                return Some(self.passed);
            }
        }
        None
    }

    /// The decoder was reset: no frame but an IDR frame is handed until one was. No frame waits to be handed.
    pub fn reset(&mut self)
        ensures { (c : ClientSettings) (came : List Arrival) → IsDepackOf self.old c came
            → IsDepackOf self.new c (Reset ∷ came) }
    {
        self.waits_for_idr = true;
    }
}
