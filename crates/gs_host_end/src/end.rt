// A host's end.

ghost use Rattle.std.specs.Prelude.{◌≡◌, ◌≤◌, ◌-◌, ℕ, List, [], length, OnOk, IfOk, option_copied};
ghost use Rattle.gs_rtp.specs.Stream.{numbers_of};
ghost use Rattle.gs_tape.specs.Tick as spec;
ghost use Rattle.gs_refs.specs.History.{frames};
ghost use Rattle.gs_frames.specs.Client.{ClientSettings};
ghost use Rattle.gs_store.specs.Named.{named};
ghost use Rattle.gs_feed.specs.Feeding.{Feeding};
ghost use Rattle.gs_sides.specs.Standing.{IsSideOf};
ghost use Rattle.gs_run.specs.Session.{Part, video_of, audio_of};
ghost use Rattle.gs_run.specs.Totals.{inputs_of};
ghost use Rattle.gs_run.specs.Opening.{most_sessions, new_part};
ghost use Rattle.gs_run.specs.Connection.{settled_part};
ghost use Rattle.gs_host_end.specs.Counts.{AreCounts};

use gs_bytes::{OutOfMemory, Text};
use gs_enet::PeerEvent;
use gs_host_core::Host;
use gs_rtp::Settings;
use gs_sides::ControlSide;
use gs_store::Store;
use std::alloc::Global;

/// A host of a session of a trial, and its side of the control connection.
#[derive(Drop)]
pub struct HostEnd {
    pub(crate) alloc: Global,
    pub(crate) session: u32,
    pub(crate) host: Host,
    /// Whether a turn failed for want of memory, so that it isn't known how far it came.
    pub(crate) lost: bool,
    /// How many frames were sent, and the tick of the last of them, 0 where none was.
    pub(crate) frames: u32,
    pub(crate) last_tick: u32,
    /// The datagrams that were sent.
    pub(crate) video: Store<Text>,
    pub(crate) audio: Store<Text>,
    pub(crate) side: ControlSide,
    /// How many input events were told.
    pub(crate) inputs: u64,
    /// Kept for the events of a delivery.
    pub(crate) events: Vec<PeerEvent>,
    ghost counts: { AreCounts lost frames last_tick host.history },
}

impl HostEnd {
    ghost use Rattle.gs_host_end.specs.Standing.{IsHostEndOf};
    ghost use Rattle.gs_host_end.specs.Outcomes.{KeepsTicks, SentNothing, tick_sent};

    /// The host of the session of this number, by which its stream and its connection are named. Nothing was sent, and
    /// nothing is written yet.
    pub fn open(
        alloc: Global,
        session: u32,
        settings: &Settings,
        now: u32,
    ) -> Result<HostEnd, OutOfMemory>
        requires some { 1 ≤ session }
        requires few { session ≤ most_sessions }
        ensures stands { IfOk result (λ end. (ticks : List spec.Tick) (c : ClientSettings)
            → c.stream ≡ numbers_of settings.now → c.stream.ssrc ≡ session
            → IsHostEndOf end session ticks (new_part (session - 1) now c)) }
        ensures settings { IfOk result (λ end. end.host.settings ≡ numbers_of settings.now) }
        ensures history { IfOk result (λ end. end.host.history ≡ []) }
        ensures keeps { IfOk result (λ end. (feed : Feeding) → feed.tape.audio ≡ settings.now.audio
            → KeepsTicks feed end) }
    {
        Ok(HostEnd {
            alloc,
            session,
            host: Host::open(alloc, settings)?,
            lost: false,
            frames: 0,
            last_tick: 0,
            video: Store::new(alloc)?,
            audio: Store::new(alloc)?,
            side: ControlSide::accept(alloc, (session - 1) as u16, 0, session, now)?,
            inputs: 0,
            events: Vec::new(alloc),
        })
    }

    /// Its side of the control connection.
    pub fn side(&self) -> &ControlSide
        ensures { (session : ℕ) (ticks : List spec.Tick) (part : Part) → IsHostEndOf self.now session ticks part
            → IsSideOf result.now part.host }
    {
        &self.side
    }

    /// How many video datagrams were sent.
    pub fn video_count(&self) -> u64
        ensures { (session : ℕ) (ticks : List spec.Tick) (part : Part) → IsHostEndOf self.now session ticks part
            → result ≡ length (video_of ticks part) }
    {
        self.video.count()
    }

    /// How many audio datagrams were sent.
    pub fn audio_count(&self) -> u64
        ensures { (session : ℕ) (ticks : List spec.Tick) (part : Part) → IsHostEndOf self.now session ticks part
            → result ≡ length (audio_of ticks part) }
    {
        self.audio.count()
    }

    /// The video datagram of that number, from 1, where it can be named.
    pub fn video(&self, number: u64) -> Option<&[u8]>
        ensures { (session : ℕ) (ticks : List spec.Tick) (part : Part) → IsHostEndOf self.now session ticks part
            → option_copied result ≡ named (video_of ticks part) number }
    {
        let datagram = self.video.get(number)?;
        Some(datagram.as_bytes())
    }

    /// The audio datagram of that number, from 1, where it can be named.
    pub fn audio(&self, number: u64) -> Option<&[u8]>
        ensures { (session : ℕ) (ticks : List spec.Tick) (part : Part) → IsHostEndOf self.now session ticks part
            → option_copied result ≡ named (audio_of ticks part) number }
    {
        let datagram = self.audio.get(number)?;
        Some(datagram.as_bytes())
    }

    /// How many frames were sent.
    pub fn frames(&self) -> u32
        ensures { (session : ℕ) (ticks : List spec.Tick) (part : Part) → IsHostEndOf self.now session ticks part
            → result ≡ frames part.history }
    {
        self.frames
    }

    /// How many input events were told.
    pub fn inputs(&self) -> u64
        ensures { (session : ℕ) (ticks : List spec.Tick) (part : Part) → IsHostEndOf self.now session ticks part
            → result ≡ length (inputs_of part) }
    {
        self.inputs
    }

    /// The last tick that was sent, above which a turn wants every tick. None where none was sent: the next turn wants
    /// the newest alone.
    pub fn last_tick(&self) -> Option<u32>
        ensures { result ≡ tick_sent self.now }
    {
        if self.frames == 0 {
            return None;
        }
        Some(self.last_tick)
    }

    /// Writes all that is due.
    pub fn settle(&mut self, now: u32) -> Result<(), OutOfMemory>
        ensures sent { OnOk result (SentNothing self.old self.new) }
        ensures settled { OnOk result ((session : ℕ) (ticks : List spec.Tick) (part : Part)
            → IsHostEndOf self.old session ticks part → IsHostEndOf self.new session ticks (settled_part now part)) }
    {
        self.side.write_out(now)
    }
}
