// A client: from datagrams to the frames for its decoder, and to the audio units that are played.

ghost use Rattle.std.specs.Prelude.{◌≡◌, ◌≤◌};

use crate::given::{Given, Taken};
use crate::hand::{next_frames, units_of};
use crate::tell::{tell_complete, tell_moved};
use gs_audio::{AudioQueue, Played};
use gs_bytes::OutOfMemory;
use gs_depack::Depack;
use gs_fecqueue::{Outcome, Queue};
use gs_frames::{Added, Range, WINDOW_GREATEST};
use gs_rtp::Settings;
use std::alloc::Global;

/// A client of a stream. It collects the video datagrams of its newest frames, hands each complete frame to its decoder
/// in turn, and asks for those that were lost. It collects the audio datagrams, and gives the units that are to be
/// played.
#[derive(Drop)]
pub struct Client {
    settings: Settings,
    queue: Queue,
    depack: Depack,
    audio: AudioQueue,
}

// What one more datagram gives: its frames are handed.
struct Step {
    what: Added,
    ask: Option<Range>,
    frames: [Option<u32>; WINDOW_GREATEST],
}

impl Client {
    ghost use Rattle.std.specs.Prelude.{ℕ, ◌%◌, List, [], ◌∷◌, IfOk};
    ghost use Rattle.std.specs.Borrow.{sem};
    ghost use Rattle.std.specs.Io.BufRead.{Rests};
    ghost use Rattle.gs_rtp.specs.Stream.{numbers_of};
    ghost use Rattle.gs_frames.specs.Client.{ClientSettings, Arrival, Datagram, Reset, least_window, most_window};
    ghost use Rattle.gs_frames.specs.Verdict.{verdict};
    ghost use Rattle.gs_frames.specs.Handed.{Handed, newly_handed};
    ghost use Rattle.gs_frames.specs.Asks.{newly_asked};
    ghost use Rattle.gs_audio.specs.Played.{newly_played};
    ghost use Rattle.gs_audio.specs.Units.{played_units};
    ghost use Rattle.gs_client_core.specs.contracts.client.Client.{the_row};
    ghost use Rattle.gs_client_core.specs.Given.{frames_of, in_places, AreGiven};
    ghost use Rattle.gs_client_core.specs.Standing.{IsClientOf};
    ghost use Rattle.gs_client_core.specs.Steps.{AreReady};

    /// A client that was given nothing, with a window of 1 to 4 frames. It takes all its memory.
    pub fn new(alloc: Global, settings: &Settings, window: u8) -> Result<Client, OutOfMemory>
        requires least { least_window ≤ window }
        requires greatest { window ≤ most_window }
        ensures { IfOk result (λ client. (c : ClientSettings) → c.stream ≡ numbers_of settings.now → c.window ≡ window
            → IsClientOf client c [] []) }
    {
        Ok(Client {
            settings: *settings,
            queue: Queue::new(alloc, settings, window)?,
            depack: Depack::new(window),
            audio: AudioQueue::new(alloc, settings)?,
        })
    }

    // Takes one more datagram.
    fn step(&mut self, datagram: &[u8]) -> Step
        ensures what { (c : ClientSettings) (came : List Arrival) (sound : List (List ℕ))
            → IsClientOf self.old c came sound → result.what ≡ verdict c came datagram.now }
        ensures ask { (c : ClientSettings) (came : List Arrival) (sound : List (List ℕ))
            → IsClientOf self.old c came sound → result.ask ≡ newly_asked c (Datagram datagram.now) came }
        ensures frames { (c : ClientSettings) (came : List Arrival) (sound : List (List ℕ))
            → IsClientOf self.old c came sound
            → result.frames ≡ in_places (frames_of (newly_handed c (Datagram datagram.now) came)) }
        ensures stands { (c : ClientSettings) (came : List Arrival) (sound : List (List ℕ))
            → IsClientOf self.old c came sound → IsClientOf self.new c (Datagram datagram.now ∷ came) sound }
    {
        let Outcome { moved, what } = self.queue.add(datagram);
        let ask = tell_moved(&mut self.depack, &moved);
        tell_complete(
            &mut self.depack,
            &self.queue,
            self.settings.packet,
            what,
            datagram,
        );
        let frames = next_frames(&mut self.depack);
        Step { what, ask, frames }
    }

    // The units of frames that are handed.
    fn units(&self, frames: &[Option<u32>; WINDOW_GREATEST]) -> [Option<Given<'_>>; WINDOW_GREATEST]
        ensures { (c : ClientSettings) (came : List Arrival) (sound : List (List ℕ)) (hs : List Handed)
            → IsClientOf self.now c came sound → AreReady c came hs → frames.now ≡ in_places (frames_of hs)
            → AreGiven result hs }
    {
        units_of(&self.queue, self.settings.packet, frames)
    }

    /// Takes one more datagram, of any bytes, and answers the verdict on it, the range to ask for, and the frames that
    /// are handed with it.
    pub fn take<'a>(&'a mut self, datagram: &[u8]) -> Taken<'a>
        ensures what { (c : ClientSettings) (came : List Arrival) (sound : List (List ℕ))
            → IsClientOf self.old c came sound → result.what ≡ verdict c came datagram.now }
        ensures ask { (c : ClientSettings) (came : List Arrival) (sound : List (List ℕ))
            → IsClientOf self.old c came sound → result.ask ≡ newly_asked c (Datagram datagram.now) came }
        ensures units { (c : ClientSettings) (came : List Arrival) (sound : List (List ℕ))
            → IsClientOf self.old c came sound → AreGiven result.units (newly_handed c (Datagram datagram.now) came) }
        ensures* stands { sem 𝓛 (Rests the_row self.entry (λ new. (c : ClientSettings) (came : List Arrival)
            (sound : List (List ℕ)) → IsClientOf self.old c came sound
            → IsClientOf new c (Datagram datagram.now ∷ came) sound)) }
    {
        let Step { what, ask, frames } = self.step(datagram);
        Taken {
            what,
            ask,
            units: self.units(&frames),
        }
    }

    /// The decoder was reset: no frame but an IDR frame is handed until one was.
    pub fn reset(&mut self)
        ensures { (c : ClientSettings) (came : List Arrival) (sound : List (List ℕ))
            → IsClientOf self.old c came sound → IsClientOf self.new c (Reset ∷ came) sound }
    {
        self.depack.reset();
    }

    /// Takes one more audio datagram, of any bytes, and answers the units that it plays.
    pub fn play<'a>(&'a mut self, datagram: &[u8]) -> Played<'a>
        ensures units { (c : ClientSettings) (came : List Arrival) (sound : List (List ℕ))
            → IsClientOf self.old c came sound → played_units result ≡ newly_played c.stream datagram.now sound }
        ensures nothing { played_units result ≡ [] → result.first ≡ 0 }
        ensures first { result.first % 4 ≡ 0 }
        ensures* stands { sem 𝓛 (Rests the_row self.entry (λ new. (c : ClientSettings) (came : List Arrival)
            (sound : List (List ℕ)) → IsClientOf self.old c came sound
            → IsClientOf new c came (datagram.now ∷ sound))) }
    {
        self.audio.add(datagram)
    }
}
