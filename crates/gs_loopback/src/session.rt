// One session.

ghost use Rattle.std.specs.Prelude.{◌≡◌, ◌≤◌, ℕ, List, OnOk, IfOk};
ghost use Rattle.gs_tape.specs.Tick.{Tick};
ghost use Rattle.gs_run.specs.Session.{Part};
ghost use Rattle.gs_feed.specs.Feeding.{Feeding};
ghost use Rattle.gs_host_end.specs.Outcomes.{KeepsTicks, SentNothing, tick_sent};
ghost use Rattle.gs_loopback.specs.Standing.{IsLoopbackOf};

use crate::delivery::Delivery;
use crate::marks::Marks;
use gs_bytes::OutOfMemory;
use gs_client_end::ClientEnd;
use gs_host_end::HostEnd;
use gs_report::{Detail, Reporter};
use gs_rtp::Settings;
use std::alloc::Global;

/// A host and its client, joined by the datagrams that a schedule delivers.
#[derive(Drop)]
pub struct Loopback {
    pub(crate) host: HostEnd,
    pub(crate) client: ClientEnd,
    /// Up to which datagrams the pumps have delivered.
    pub(crate) marks: Marks,
}

/// What a session's last line says: frames sent, frames handed, asks, input events told, audio units played.
#[derive(Clone, Copy, Debug, PartialEq, Eq)]
pub struct Sums {
    pub frames: u64,
    pub handed: u64,
    pub asks: u64,
    pub inputs: u64,
    pub units: u64,
}

impl Loopback {
    ghost use Rattle.std.specs.Prelude.{◌-◌};
    ghost use Rattle.gs_rtp.specs.Stream.{numbers_of};
    ghost use Rattle.gs_frames.specs.Client.{ClientSettings, least_window, most_window};
    ghost use Rattle.gs_run.specs.Connection.{settled_part};
    ghost use Rattle.gs_run.specs.Opening.{new_part, opened_part, most_sessions};
    ghost use Rattle.gs_loopback.specs.Standing.{AreSums};

    /// Opens the session of this number, which its stream and its connection are named by, with a window of 1 to 4
    /// frames: the three datagrams that open the connection are delivered.
    pub fn open(
        alloc: Global,
        session: u32,
        settings: &Settings,
        window: u8,
        now: u32,
    ) -> Result<Loopback, OutOfMemory>
        requires some { 1 ≤ session }
        requires few { session ≤ most_sessions }
        requires least { least_window ≤ window }
        requires greatest { window ≤ most_window }
        ensures stands { IfOk result (λ opened. (ticks : List Tick) (c : ClientSettings)
            → c.stream ≡ numbers_of settings.now → c.stream.ssrc ≡ session → c.window ≡ window
            → IsLoopbackOf opened session ticks (opened_part session now c)) }
        ensures keeps { IfOk result (λ opened. (feed : Feeding) → feed.tape.audio ≡ settings.now.audio
            → KeepsTicks feed opened.host) }
    {
        let mut opened = Loopback::new(alloc, session, settings, window, now)?;
        let mut unheard = Reporter::new(alloc, Detail::Sums);
        opened.settle(now)?;
        opened.deliver(Delivery::Down(1), now, &mut unheard)?;
        opened.deliver(Delivery::Up(2), now, &mut unheard)?;
        Ok(opened)
    }

    // Both ends, before anything is written.
    fn new(
        alloc: Global,
        session: u32,
        settings: &Settings,
        window: u8,
        now: u32,
    ) -> Result<Loopback, OutOfMemory>
        requires some { 1 ≤ session }
        requires few { session ≤ most_sessions }
        requires least { least_window ≤ window }
        requires greatest { window ≤ most_window }
        ensures stands { IfOk result (λ opened. (ticks : List Tick) (c : ClientSettings)
            → c.stream ≡ numbers_of settings.now → c.stream.ssrc ≡ session → c.window ≡ window
            → IsLoopbackOf opened session ticks (new_part (session - 1) now c)) }
        ensures keeps { IfOk result (λ opened. (feed : Feeding) → feed.tape.audio ≡ settings.now.audio
            → KeepsTicks feed opened.host) }
    {
        Ok(Loopback {
            host: HostEnd::open(alloc, session, settings, now)?,
            client: ClientEnd::open(alloc, session, settings, window, now)?,
            marks: Marks {
                video: 0,
                audio: 0,
                up: 2,
                down: 1,
            },
        })
    }

    /// What is owed is given as far as it may be, and both sides write out.
    pub fn settle(&mut self, now: u32) -> Result<(), OutOfMemory>
        ensures settled { OnOk result ((session : ℕ) (ticks : List Tick) (part : Part)
            → IsLoopbackOf self.old session ticks part → IsLoopbackOf self.new session ticks (settled_part now part)) }
        ensures sent { OnOk result (SentNothing self.old.host self.new.host) }
    {
        self.client.settle(now)?;
        self.host.settle(now)
    }

    /// The tick that its host sent last, None where it sent none.
    pub fn last_tick(&self) -> Option<u32>
        ensures { result ≡ tick_sent self.now.host }
    {
        self.host.last_tick()
    }

    /// The sums of what was done.
    pub fn sums(&self) -> Sums
        ensures { (session : ℕ) (ticks : List Tick) (part : Part) → IsLoopbackOf self.now session ticks part
            → AreSums result part }
    {
        let client = self.client.sums();
        Sums {
            frames: u64::from(self.host.frames()),
            handed: client.handed,
            asks: client.asks,
            inputs: self.host.inputs(),
            units: client.units,
        }
    }
}
