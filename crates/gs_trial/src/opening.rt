// How a session of a trial is opened.

ghost use Rattle.std.specs.Prelude.{◌≡◌, ◌≤◌, ◌<◌, ◌+◌, ◌&&◌, ◌↔◌, false, [], ◌∷◌, IfErr, IfNone, IfSome, IsSome, OnOk};
ghost use Rattle.std.specs.Prelude.{length, nat_le};
ghost use Rattle.gs_rtp.specs.Settings.{AreSettingsWithinLimits};
ghost use Rattle.gs_frames.specs.Client.{least_window, most_window};
ghost use Rattle.gs_run.specs.Deed.{Open};
ghost use Rattle.gs_run.specs.Opening.{most_sessions};
ghost use Rattle.gs_run.specs.declared.limits.TheConstants.{SESSION_FPS};
ghost use Rattle.gs_trial.specs.Standing.{IsReady};
ghost use Rattle.gs_trial.specs.Stepping.{IsOwn, RunsIn};

use crate::error::StepError;
use crate::trial::Trial;
use gs_frames::{WINDOW_GREATEST, WINDOW_LEAST};
use gs_loopback::Loopback;
use gs_rtp::Settings;
use gs_run::{MOST_SESSIONS, SESSION_FPS};

/// The window of so many frames, where it is one.
fn window_of(window: u32) -> Option<u8>
    ensures some { IfSome result (λ w. (w ≡ window) × (least_window ≤ w) × (w ≤ most_window)) }
    ensures none { IfNone result ((nat_le least_window window && nat_le window most_window) ≡ false) }
{
    if (WINDOW_LEAST..=WINDOW_GREATEST).contains(&(window as usize)) {
        Some(window as u8)
    } else {
        None
    }
}

impl Trial {
    /// Opens the next session.
    pub(crate) fn open(
        &mut self,
        packet: u32,
        percentage: u32,
        minimum: u32,
        window: u32,
    ) -> Result<(), StepError>
        requires ready { IsReady self.old }
        ensures ready { OnOk result (IsReady self.new) }
        ensures feed { self.new.feed ≡ self.old.feed }
        ensures own { IfErr result IsOwn }
        ensures ran { RunsIn self.old (Open packet percentage minimum window ∷ []) self.new result }
    {
        if self.sessions.len() >= MOST_SESSIONS {
            return Err(StepError::BadLine);
        }
        let Some(settings) = self.settings(packet, percentage, minimum) else {
            return Err(StepError::BadLine);
        };
        let Some(window) = window_of(window) else {
            return Err(StepError::BadLine);
        };
        let number = self.sessions.len() as u32 + 1;
        let opened = Loopback::open(self.alloc, number, &settings, window, self.moment)?;
        self.sessions.push(opened)?;
        Ok(())
    }

    // The settings of the next session, where they are within their limits.
    fn settings(&self, packet: u32, percentage: u32, minimum: u32) -> Option<Settings>
        requires room { length self.now.sessions.items < most_sessions }
        ensures within { IsSome result ↔ AreSettingsWithinLimits (record {
          packet = packet;
          percentage = percentage;
          minimum = minimum;
          fps = SESSION_FPS;
          duration = self.now.feed.tape.duration;
          audio = self.now.feed.tape.audio;
          ssrc = length self.now.sessions.items + 1;
        }) }
        ensures packet { IfSome result (λ s. s.packet ≡ packet) }
        ensures percentage { IfSome result (λ s. s.percentage ≡ percentage) }
        ensures minimum { IfSome result (λ s. s.minimum ≡ minimum) }
        ensures fps { IfSome result (λ s. s.fps ≡ SESSION_FPS) }
        ensures duration { IfSome result (λ s. s.duration ≡ self.now.feed.tape.duration) }
        ensures audio { IfSome result (λ s. s.audio ≡ self.now.feed.tape.audio) }
        ensures ssrc { IfSome result (λ s. s.ssrc ≡ length self.now.sessions.items + 1) }
    {
        Settings::make(
            u16::try_from(packet).ok()?,
            u8::try_from(percentage).ok()?,
            u8::try_from(minimum).ok()?,
            SESSION_FPS,
            self.feed.duration(),
            self.feed.audio(),
            self.sessions.len() as u32 + 1,
        )
    }
}
