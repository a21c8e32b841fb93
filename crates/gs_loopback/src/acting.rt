// What the host and the user do.

ghost use Rattle.std.specs.Prelude.{◌≡◌, ℕ, true, List, [], ◌∷◌, OnOk, IfOk};
ghost use Rattle.gs_tape.specs.Tick.{Tick};
ghost use Rattle.gs_input.specs.Event.{HasButton, IsKnown};
ghost use Rattle.gs_run.specs.Session.{Part};
ghost use Rattle.gs_run.specs.Scene.{Scene};
ghost use Rattle.gs_run.specs.Deed.{Turn, Give, AskIdr, Close, Reset};
ghost use Rattle.gs_run.specs.Connection.{settled_part};
ghost use Rattle.gs_run.specs.Hearing.{timed_part};
ghost use Rattle.gs_report.specs.Reporting.{Reporting, Did};
ghost use Rattle.gs_host_end.specs.Outcomes.{IsCapturedOf, KeepsTicks, SentNothing};
ghost use Rattle.gs_loopback.specs.Standing.{IsLoopbackOf};
ghost use Rattle.gs_loopback.specs.Outcomes.{RanAll};

use crate::session::Loopback;
use gs_bytes::OutOfMemory;
use gs_feed::Feed;
use gs_input::Event;
use gs_report::Reporter;

impl Loopback {
    /// The host sends the newest tick, unless that was sent or the session ended, and both sides write out.
    pub fn turn(
        &mut self,
        feed: &Feed,
        now: u32,
        reporter: &mut Reporter,
    ) -> Result<(), OutOfMemory>
        requires keeps { KeepsTicks feed.now self.old.host }
        ensures keeps { OnOk result (KeepsTicks feed.now self.new.host) }
        ensures ran { OnOk result ((scene : Scene) (part : Part) → IsCapturedOf feed.now scene → scene.moment ≡ now
            → IsLoopbackOf self.old scene.session scene.ticks part
            → RanAll scene (Turn ∷ []) part true self.new reporter.old reporter.new) }
    {
        self.host.turn(feed, reporter)?;
        self.settle(now)
    }

    /// The user does something at the client, and both sides write out. Answers false where the client is closed or
    /// lost, or the event's channel may have no more messages; then nothing is reported.
    pub fn give(
        &mut self,
        event: &Event,
        now: u32,
        reporter: &mut Reporter,
    ) -> Result<bool, OutOfMemory>
        requires known { IsKnown event.now }
        requires button { HasButton event.now }
        ensures ran { IfOk result (λ done. (scene : Scene) (part : Part) → scene.moment ≡ now
            → IsLoopbackOf self.old scene.session scene.ticks part
            → RanAll scene (Give event.now ∷ []) part done self.new reporter.old reporter.new) }
        ensures sent { OnOk result (SentNothing self.old.host self.new.host) }
    {
        let done = self.client.give(event, reporter)?;
        self.settle_if(done, now)
    }

    /// The client asks for a frame that needs no other, as `give` does.
    pub fn ask_idr(&mut self, now: u32, reporter: &mut Reporter) -> Result<bool, OutOfMemory>
        ensures ran { IfOk result (λ done. (scene : Scene) (part : Part) → scene.moment ≡ now
            → IsLoopbackOf self.old scene.session scene.ticks part
            → RanAll scene (AskIdr ∷ []) part done self.new reporter.old reporter.new) }
        ensures sent { OnOk result (SentNothing self.old.host self.new.host) }
    {
        let done = self.client.ask_idr(reporter)?;
        self.settle_if(done, now)
    }

    /// The client closes, and both sides write out. Answers false where it is closed or lost.
    pub fn close(&mut self, now: u32) -> Result<bool, OutOfMemory>
        ensures ran { IfOk result (λ done. (scene : Scene) (part : Part) (before : Reporting) → scene.moment ≡ now
            → IsLoopbackOf self.old scene.session scene.ticks part
            → RanAll scene (Close ∷ []) part done self.new before before) }
        ensures sent { OnOk result (SentNothing self.old.host self.new.host) }
    {
        let done = self.client.close();
        self.settle_if(done, now)
    }

    /// The client's decoder loses its state, and both sides write out. Answers false where the client is closed or
    /// lost, or would ask once more than a channel may have; then nothing is reported.
    pub fn reset(&mut self, now: u32, reporter: &mut Reporter) -> Result<bool, OutOfMemory>
        ensures ran { IfOk result (λ done. (scene : Scene) (part : Part) → scene.moment ≡ now
            → IsLoopbackOf self.old scene.session scene.ticks part
            → RanAll scene (Reset ∷ []) part done self.new reporter.old reporter.new) }
        ensures sent { OnOk result (SentNothing self.old.host self.new.host) }
    {
        let done = self.client.reset(reporter)?;
        self.settle_if(done, now)
    }

    /// The timers of both sides run, the client's first. Nothing is written yet.
    pub fn timer(&mut self, now: u32, reporter: &mut Reporter) -> Result<(), OutOfMemory>
        ensures timed { OnOk result ((session : ℕ) (ticks : List Tick) (part : Part)
            → IsLoopbackOf self.old session ticks part
            → Did (IsLoopbackOf self.new session ticks) (timed_part session now part) reporter.old reporter.new) }
        ensures sent { OnOk result (SentNothing self.old.host self.new.host) }
    {
        self.client.timer(now, reporter)?;
        self.host.timer(now, reporter)
    }

    // Both sides write out behind what was done.
    fn settle_if(&mut self, done: bool, now: u32) -> Result<bool, OutOfMemory>
        ensures same { IfOk result (λ settled_part. settled_part ≡ done) }
        ensures settled { OnOk result (done ≡ true → (session : ℕ) (ticks : List Tick) (part : Part)
            → IsLoopbackOf self.old session ticks part → IsLoopbackOf self.new session ticks (settled_part now part)) }
        ensures sent { OnOk result (SentNothing self.old.host self.new.host) }
    {
        if done {
            self.settle(now)?;
        }
        Ok(done)
    }
}
