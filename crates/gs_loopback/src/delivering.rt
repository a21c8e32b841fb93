// Deliveries.

ghost use Rattle.std.specs.Prelude.{◌≡◌, [], ◌∷◌, OnOk, IfOk};
ghost use Rattle.gs_run.specs.Session.{Part};
ghost use Rattle.gs_host_end.specs.Outcomes.{SentNothing};
ghost use Rattle.gs_run.specs.Scene.{Scene};
ghost use Rattle.gs_run.specs.Deed.{TakeVideo, TakeAudio};
ghost use Rattle.gs_loopback.specs.Standing.{IsLoopbackOf};
ghost use Rattle.gs_loopback.specs.Running.{run_delivery, video_deeds};
ghost use Rattle.gs_loopback.specs.Outcomes.{RanAll, Attempts};

use crate::delivery::Delivery;
use crate::session::Loopback;
use gs_bytes::OutOfMemory;
use gs_report::Reporter;

impl Loopback {
    /// Delivers a datagram, and lets both sides write out. Answers false where none of that number can be named, or the
    /// client would ask once more than a channel may have; then nothing is reported.
    pub fn deliver(
        &mut self,
        delivery: Delivery,
        now: u32,
        reporter: &mut Reporter,
    ) -> Result<bool, OutOfMemory>
        ensures ran { IfOk result (λ done. (scene : Scene) (part : Part) → scene.moment ≡ now
            → IsLoopbackOf self.old scene.session scene.ticks part
            → RanAll scene (run_delivery delivery ∷ []) part done self.new reporter.old reporter.new) }
        ensures sent { OnOk result (SentNothing self.old.host self.new.host) }
    {
        if !self.attempt(delivery, now, reporter)? {
            return Ok(false);
        }
        self.settle(now)?;
        Ok(true)
    }

    // Delivers a datagram, before anything is written out.
    fn attempt(
        &mut self,
        delivery: Delivery,
        now: u32,
        reporter: &mut Reporter,
    ) -> Result<bool, OutOfMemory>
        ensures attempted { IfOk result (λ done. (scene : Scene) (part : Part) → scene.moment ≡ now
            → IsLoopbackOf self.old scene.session scene.ticks part
            → Attempts scene (run_delivery delivery) part done self.new reporter.old reporter.new) }
        ensures sent { OnOk result (SentNothing self.old.host self.new.host) }
    {
        match delivery {
            Delivery::Video(number) => self.take_video(number, reporter),
            Delivery::Audio(number) => self.take_audio(number, reporter),
            Delivery::Up(number) => self.host.take_up(self.client.side(), number, now, reporter),
            Delivery::Down(number) => self
                .client
                .take_down(self.host.side(), number, now, reporter),
        }
    }

    fn take_video(&mut self, number: u64, reporter: &mut Reporter) -> Result<bool, OutOfMemory>
        ensures attempted { IfOk result (λ done. (scene : Scene) (part : Part)
            → IsLoopbackOf self.old scene.session scene.ticks part
            → Attempts scene (TakeVideo number) part done self.new reporter.old reporter.new) }
        ensures sent { OnOk result (SentNothing self.old.host self.new.host) }
    {
        let Some(datagram) = self.host.video(number) else {
            return Ok(false);
        };
        self.client.take_video(datagram, reporter)
    }

    fn take_audio(&mut self, number: u64, reporter: &mut Reporter) -> Result<bool, OutOfMemory>
        ensures attempted { IfOk result (λ done. (scene : Scene) (part : Part)
            → IsLoopbackOf self.old scene.session scene.ticks part
            → Attempts scene (TakeAudio number) part done self.new reporter.old reporter.new) }
        ensures sent { OnOk result (SentNothing self.old.host self.new.host) }
    {
        let Some(datagram) = self.host.audio(number) else {
            return Ok(false);
        };
        self.client.take_audio(datagram, reporter)?;
        Ok(true)
    }

    /// Delivers the video datagrams from one number to another, each as `deliver` does. Answers false at the first that
    /// isn't delivered; those before it are, with their reports.
    pub fn deliver_videos(
        &mut self,
        first: u64,
        last: u64,
        now: u32,
        reporter: &mut Reporter,
    ) -> Result<bool, OutOfMemory>
        ensures ran { IfOk result (λ done. (scene : Scene) (part : Part) → scene.moment ≡ now
            → IsLoopbackOf self.old scene.session scene.ticks part
            → RanAll scene (video_deeds first last) part done self.new reporter.old reporter.new) }
        ensures sent { OnOk result (SentNothing self.old.host self.new.host) }
    {
        'videos: for number in first..=last {
            if !self.deliver(Delivery::Video(number), now, reporter)? {
                return Ok(false);
            }
        }
        Ok(true)
    }
}
