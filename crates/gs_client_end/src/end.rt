// A client's end.

ghost use Rattle.std.specs.Prelude.{◌≡◌, ◌≤◌, ◌<◌, ℕ, IfOk, OnOk};
ghost use Rattle.gs_enet.specs.Record.{channels};
ghost use Rattle.gs_sides.specs.Standing.{IsSideOf};
ghost use Rattle.gs_run.specs.Session.{Part};
ghost use Rattle.gs_run.specs.Refusal.{is_client_open, has_made_most};
ghost use Rattle.gs_client_end.specs.Standing.{IsClientEndOf, AreClientSums};

use crate::sums::ClientSums;
use gs_bytes::OutOfMemory;
use gs_client_core::{Asker, Client};
use gs_enet::PeerEvent;
use gs_rtp::Settings;
use gs_run::MOST_MADE;
use gs_sides::ControlSide;
use std::alloc::Global;

/// The channel on which a client asks.
pub(crate) const REQUEST_CHANNEL: u8 = 1;

/// A client of a session of a trial, and its side of the control connection.
#[derive(Drop)]
pub struct ClientEnd {
    pub(crate) session: u32,
    pub(crate) client: Client,
    pub(crate) asker: Asker,
    /// How many things are owed.
    pub(crate) owed: u64,
    pub(crate) side: ControlSide,
    pub(crate) sums: ClientSums,
    /// Kept for the events of a delivery.
    pub(crate) events: Vec<PeerEvent>,
}

impl ClientEnd {
    ghost use Rattle.gs_rtp.specs.Stream.{numbers_of};
    ghost use Rattle.gs_frames.specs.Client.{ClientSettings, least_window, most_window};
    ghost use Rattle.gs_run.specs.Opening.{new_part};
    ghost use Rattle.gs_run.specs.Connection.{settled_part};

    /// The client of the session of this number, which its stream and its connection are named by, with a window of 1
    /// to 4 frames. It was given nothing, and wrote nothing yet.
    pub fn open(
        alloc: Global,
        session: u32,
        settings: &Settings,
        window: u8,
        now: u32,
    ) -> Result<ClientEnd, OutOfMemory>
        requires least { least_window ≤ window }
        requires greatest { window ≤ most_window }
        ensures { IfOk result (λ end. (host_id : ℕ) (c : ClientSettings) → c.stream ≡ numbers_of settings.now
            → c.stream.ssrc ≡ session → c.window ≡ window → IsClientEndOf end session (new_part host_id now c)) }
    {
        Ok(ClientEnd {
            session,
            client: Client::new(alloc, settings, window)?,
            asker: Asker::new(alloc),
            owed: 0,
            side: ControlSide::connect(alloc, 0, session, session, now)?,
            sums: ClientSums {
                handed: 0,
                asks: 0,
                units: 0,
            },
            events: Vec::new(alloc),
        })
    }

    /// Its side of the control connection.
    pub fn side(&self) -> &ControlSide
        ensures { (session : ℕ) (part : Part) → IsClientEndOf self.now session part → IsSideOf result.now part.client }
    {
        &self.side
    }

    /// What it did so far.
    pub fn sums(&self) -> ClientSums
        ensures { (session : ℕ) (part : Part) → IsClientEndOf self.now session part → AreClientSums result part }
    {
        self.sums
    }

    /// Gives what is owed, as far as the window takes it, and writes all that is due.
    pub fn settle(&mut self, now: u32) -> Result<(), OutOfMemory>
        ensures { OnOk result ((session : ℕ) (part : Part) → IsClientEndOf self.old session part
            → IsClientEndOf self.new session (settled_part now part)) }
    {
        let given = self.side.give_owed(&mut self.asker)?;
        let Some(owed) = self.owed.checked_sub(u64::from(given)) else {
            return Err(OutOfMemory);
        };
        self.owed = owed;
        self.side.write_out(now)
    }

    /// Whether it isn't closed and not lost.
    pub(crate) fn is_open(&self) -> bool
        ensures { (session : ℕ) (part : Part) → IsClientEndOf self.now session part → result ≡ is_client_open part }
    {
        self.side.is_open()
    }

    /// Whether a channel has as many messages and asks as it may have.
    pub(crate) fn has_made_most(&self, channel: u8) -> bool
        requires { channel < channels }
        ensures { (session : ℕ) (part : Part) → IsClientEndOf self.now session part
            → result ≡ has_made_most channel part }
    {
        let given = self.side.given(channel);
        if channel == REQUEST_CHANNEL {
            given.saturating_add(self.owed) >= MOST_MADE
        } else {
            given >= MOST_MADE
        }
    }
}
