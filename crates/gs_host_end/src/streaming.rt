// The host's turn.

ghost use Rattle.std.specs.Prelude.{◌≡◌, ◌∷◌, [], ℕ, List, map, All, IfOk, IsErr, IsTrue, OnOk};
ghost use Rattle.std.specs.Arc.{arc_value};
ghost use Rattle.gs_tape.specs.Tick as spec;
ghost use Rattle.gs_host_core.specs.Hosting.{IsSendable, AreOfCapture, numbers_between};
ghost use Rattle.gs_run.specs.Session.{Part};
ghost use Rattle.gs_run.specs.Scene.{Scene};
ghost use Rattle.gs_run.specs.Streaming.{turned};
ghost use Rattle.gs_report.specs.Reporting.{Did, with_reports};
ghost use Rattle.gs_host_end.specs.Sending.{sent_report};
ghost use Rattle.gs_host_end.specs.Standing.{IsHostEndOf};
ghost use Rattle.gs_host_end.specs.Outcomes.{IsCapturedOf, KeepsTicks, SendsNewest, SendsUpTo};

use crate::HostEnd;
use crate::outbox::Outbox;
use crate::sending::{send, ticks_between};
use gs_bytes::OutOfMemory;
use gs_feed::Feed;
use gs_refs::Sent;
use gs_report::Reporter;
use gs_schedule::Output;
use gs_tape::Tick;
use std::sync::Arc;

/// Reports a frame that was sent.
fn report_sent(session: u32, sent: &Sent, reporter: &mut Reporter) -> Result<(), OutOfMemory>
    ensures { OnOk result (reporter.new ≡ with_reports reporter.old (sent_report session sent.now ∷ [])) }
{
    let output = Output::Sent {
        session,
        frame: sent.frame,
        kind: sent.kind,
        tick: sent.tick,
        reference: sent.reference,
    };
    reporter.report(&output, None)
}

impl HostEnd {
    /// Sends the newest tick that is captured, unless that was sent or the session ended, and reports it. After a turn
    /// that ran out of memory while it sent each one fails so, and changes nothing.
    pub fn turn(&mut self, feed: &Feed, reporter: &mut Reporter) -> Result<(), OutOfMemory>
        requires keeps { KeepsTicks feed.now self.old }
        ensures keeps { OnOk result (KeepsTicks feed.now self.new) }
        ensures lost { IsTrue self.old.lost → IsErr result × (self.new ≡ self.old) × (reporter.new ≡ reporter.old) }
        ensures turned { OnOk result ((scene : Scene) (part : Part) → IsCapturedOf feed.now scene
            → IsHostEndOf self.old scene.session scene.ticks part
            → Did (IsHostEndOf self.new scene.session scene.ticks) (turned scene part) reporter.old reporter.new) }
    {
        if self.lost {
            return Err(OutOfMemory);
        }
        let Some(newest) = feed.newest() else {
            return Ok(());
        };
        let between = ticks_between(feed, self.frames, self.last_tick);
        let Some(sent) = self.send_newest(newest, between)? else {
            return Ok(());
        };
        report_sent(self.session, &sent, reporter)
    }

    // Sends the newest tick, and stores its datagrams. None is answered, and nothing done, where it was sent
    // already or the session ended.
    fn send_newest(
        &mut self,
        newest: &Tick,
        between: &[Arc<Tick>],
    ) -> Result<Option<Sent>, OutOfMemory>
        requires newest { IsSendable self.old.host.settings newest.now }
        requires between { All (λ t. IsSendable self.old.host.settings t.value) between.now }
        requires numbers { map (λ t. t.value.number) between.now
            ≡ numbers_between self.old.host.history newest.now.number }
        ensures settings { self.new.host.settings ≡ self.old.host.settings }
        ensures last { OnOk result (SendsUpTo newest.now.number self.old self.new) }
        ensures sent { IfOk result (λ sent. (session : ℕ) (ticks : List spec.Tick) (part : Part)
            → AreOfCapture ticks newest.now (map arc_value between.now) → IsHostEndOf self.old session ticks part
            → SendsNewest session ticks newest.now part sent self.new) }
    {
        let mut video = Outbox::new(self.alloc);
        let mut audio = Outbox::new(self.alloc);
        let sent = match send(&mut self.host, newest, between, &mut video, &mut audio) {
            Ok(Some(sent)) => sent,
            Ok(None) => return Ok(None),
            Err(refused) => {
                self.lost = true;
                return Err(refused);
            }
        };
        self.frames = sent.frame;
        self.last_tick = sent.tick;
        video.store(&mut self.video)?;
        audio.store(&mut self.audio)?;
        Ok(Some(sent))
    }
}
