// The newest frames, and the window over them.

ghost use Rattle.std.specs.Prelude.{◌≡◌, ◌≤◌, vec_len};
ghost use Rattle.gs_rtp.specs.Limits.{least_packet, most_packet};
ghost use Rattle.gs_frames.specs.Client.{least_window, most_window};

use crate::block::PACKET_HEADER;
use crate::frame::Frame;
use crate::moved::{Moved, Outcome};
use crate::rooms::no_frames;
use gs_bytes::OutOfMemory;
use gs_frames::{Added, Why};
use gs_rtp::{Settings, VideoHead, read_video};
use std::alloc::Global;

/// Collects the datagrams of the newest frames of a stream, as many frames as its window. It takes its memory in `new`,
/// and each shard that comes is copied once, to its place.
#[derive(Debug, Drop)]
pub struct Queue {
    packet: u16,
    ssrc: u32,
    window: u8,
    greatest: u32,
    // An open frame stands at its number modulo the window. In a window of several frames one more stands last: the
    // one whose place the newest took.
    frames: Vec<Frame>,
    ghost packet_least: { least_packet ≤ packet },
    ghost packet_greatest: { packet ≤ most_packet },
    ghost window_least: { least_window ≤ window },
    ghost window_greatest: { window ≤ most_window },
    ghost places: { window ≤ vec_len frames },
}

impl Queue {
    ghost use Rattle.std.specs.Prelude.{ℕ, ◌+◌, ◌-◌, ◌%◌, ◌<◌, true, false, List, [], ◌∷◌, Option, Some, None, length};
    ghost use Rattle.std.specs.Prelude.{IfOk, MatchOption};
    ghost use Rattle.gs_rtp.specs.Stream.{numbers_of};
    ghost use Rattle.gs_rtp.specs.Video.{IsVideoHead, video_head};
    ghost use Rattle.gs_frames.specs.Client.{ClientSettings, Arrival, Datagram};
    ghost use Rattle.gs_frames.specs.Received.{Received, taken, is_left};
    ghost use Rattle.gs_frames.specs.Verdict.{counting, judged, verdict};
    ghost use Rattle.gs_frames.specs.VerdictLaws.{image_of};
    ghost use Rattle.gs_frames.specs.Plan.{most_blocks};
    ghost use Rattle.gs_frames.specs.Shards.{packet_header, most_payload};
    ghost use Rattle.gs_fecqueue.specs.Holding.{Brings};
    ghost use Rattle.gs_fecqueue.specs.Moves.{is_whole_below, moved_behind, moved_by};
    ghost use Rattle.gs_fecqueue.specs.Standing.{is_at_hand, all_but_last, IsAt, IsAmong, IsStanding, IsQueueOf};
    ghost use Rattle.gs_fecqueue.specs.QueueSteps.{head_or_why, IsAdvanced, IsOpened};

    /// The queue of a client that was given nothing, with a window of 1 to 4 frames. It takes all its memory.
    pub fn new(alloc: Global, settings: &Settings, window: u8) -> Result<Queue, OutOfMemory>
        requires least { least_window ≤ window }
        requires greatest { window ≤ most_window }
        ensures { IfOk result (λ queue. (c : ClientSettings) → c.stream ≡ numbers_of settings.now → c.window ≡ window
            → IsQueueOf queue c []) }
    {
        let count = if window > 1 { window + 1 } else { 1 };
        Ok(Queue {
            packet: settings.packet,
            ssrc: settings.ssrc,
            window,
            greatest: 0,
            frames: no_frames(alloc, usize::from(count))?,
        })
    }

    /// The verdict on one more datagram, of any bytes, and what it moves.
    pub fn add(&mut self, datagram: &[u8]) -> Outcome
        ensures verdict { (c : ClientSettings) (came : List Arrival) → IsQueueOf self.old c came
            → result.what ≡ verdict c came datagram.now }
        ensures moved { (c : ClientSettings) (came : List Arrival) → IsQueueOf self.old c came
            → result.moved ≡ moved_by c came datagram.now }
        ensures stands { (c : ClientSettings) (came : List Arrival) → IsQueueOf self.old c came
            → IsQueueOf self.new c (Datagram datagram.now ∷ came) }
    {
        let head = match self.head_of(datagram) {
            Ok(head) => head,
            Err(why) => {
                return Outcome {
                    moved: None,
                    what: Added::Foreign(why),
                };
            }
        };
        if head.frame + u32::from(self.window) <= self.greatest {
            return Outcome {
                moved: None,
                what: Added::Old {
                    current: self.greatest,
                },
            };
        }
        let payload = &datagram[datagram.len() - self.payload_size()..];
        self.take(&head, payload)
    }

    // The head of a datagram of the stream.
    fn head_of(&self, datagram: &[u8]) -> Result<VideoHead, Why>
        ensures is { result ≡ head_or_why self.now.ssrc (video_head self.now.packet datagram.now) }
        ensures grammar { IfOk result (λ head. IsVideoHead head) }
        ensures room { IfOk result (λ _. self.now.packet ≤ length datagram.now) }
    {
        let Some(head) = read_video(datagram, self.packet) else {
            return Err(Why::Grammar);
        };
        if head.ssrc == self.ssrc {
            Ok(head)
        } else {
            Err(Why::Ssrc { came: head.ssrc })
        }
    }

    // Takes a datagram of a frame that isn't left.
    fn take(&mut self, head: &VideoHead, payload: &[u8]) -> Outcome
        requires grammar { IsVideoHead head.now }
        requires size { length payload.now ≤ most_payload }
        ensures { (c : ClientSettings) (before now : List Received) (r : Received)
            → IsStanding self.old c before now → is_left c.window now r.head.frame ≡ false
            → Brings c.stream head.now payload.now r
            → (result.moved ≡ moved_behind c now r.head.frame)
            × (result.what ≡ judged c.window r now (counting c.window now))
            × IsStanding self.new c now (r ∷ now) }
    {
        let moved = self.advance(head.frame);
        let place = self.begin(head.frame, head.last_block);
        let what = self.frames[place].take(head, payload);
        Outcome { moved, what }
    }

    // How many bytes of a packet are payload.
    fn payload_size(&self) -> usize
        ensures is { result ≡ self.now.packet - packet_header }
        ensures most { result ≤ most_payload }
    {
        usize::from(self.packet) - PACKET_HEADER
    }

    // Where a frame stands.
    fn place_of(&self, number: u32) -> usize
        ensures is { result ≡ number % self.now.window }
        ensures within { result < self.now.window }
    {
        usize::try_from(number % u32::from(self.window)).unwrap()
    }

    // Whether the frame that is so many below the greatest is open and whole.
    fn is_whole_below(&self, below: u8) -> bool
        ensures { (c : ClientSettings) (before now : List Received) → IsStanding self.now c before now
            → result ≡ is_whole_below c now below }
    {
        if below >= self.window || u32::from(below) >= self.greatest {
            return false;
        }
        let number = self.greatest - u32::from(below);
        let frame = &self.frames[self.place_of(number)];
        frame.number == number && frame.is_whole()
    }

    // Goes on to a greater frame. What stands at its place becomes the last.
    fn advance(&mut self, to: u32) -> Option<Moved>
        ensures moved { (c : ClientSettings) (before now : List Received) → IsStanding self.old c before now
            → result ≡ moved_behind c now to }
        ensures frames { IsAdvanced self.old self.new to }
    {
        if to <= self.greatest {
            return None;
        }
        let moved = Moved {
            from: self.greatest,
            to,
            whole: [
                self.is_whole_below(0),
                self.is_whole_below(1),
                self.is_whole_below(2),
                self.is_whole_below(3),
            ],
        };
        let place = self.place_of(to);
        let last = self.frames.len() - 1;
        self.frames.swap(place, last);
        self.greatest = to;
        Some(moved)
    }

    // Where the open frame stands, which begins now where nothing of it came before.
    fn begin(&mut self, number: u32, last_block: u8) -> usize
        requires { last_block < most_blocks }
        ensures place { result ≡ number % self.old.window }
        ensures within { result < vec_len self.new.frames }
        ensures opened { IsOpened self.old self.new number last_block }
    {
        let place = self.place_of(number);
        if self.frames[place].number != number {
            self.frames[place].begin(number, last_block);
        }
        place
    }

    /// The image of a whole frame that is at hand: it is open or, in a window of several frames, was left by the last
    /// datagram.
    pub fn image(&self, frame: u32) -> &[u8]
        ensures { (c : ClientSettings) (came : List Arrival) (image : List ℕ) → IsQueueOf self.now c came
            → is_at_hand c.window (taken c (all_but_last came)) (taken c came) frame ≡ true
            → image_of c came frame ≡ Some image → result.now ≡ image }
    {
        match self.place_among(frame) {
            Some(place) => self.frames[place].image(self.payload_size()),
            None => &[],
        }
    }

    // Where a frame of this number stands.
    fn place_among(&self, number: u32) -> Option<usize>
        ensures { MatchOption result (IsAmong self.now.frames.items number → ⊥)
            (λ place. IsAt self.now.frames.items place number) }
    {
        'places: for (place, held) in self.frames.iter().enumerate() {
            if held.number == number {
                return Some(place);
            }
        }
        None
    }
}
