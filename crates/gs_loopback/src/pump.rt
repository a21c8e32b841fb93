// A pump delivers all that is new.

ghost use Rattle.std.specs.Prelude.{◌≡◌, OnOk, IfOk};
ghost use Rattle.gs_run.specs.Session.{Part};
ghost use Rattle.gs_host_end.specs.Outcomes.{SentNothing};
ghost use Rattle.gs_run.specs.Scene.{Scene};
ghost use Rattle.gs_run.specs.Deed.{Mark};
ghost use Rattle.gs_run.specs.Pump.{ends_of};
ghost use Rattle.gs_run.specs.Done.{settled_in};
ghost use Rattle.gs_loopback.specs.Standing.{IsLoopbackOf, run_marks};
ghost use Rattle.gs_loopback.specs.Outcomes.{Pumped};

use crate::marks::Marks;
use crate::pumping::Pumping;
use crate::session::Loopback;
use gs_bytes::OutOfMemory;
use gs_report::Reporter;

impl Loopback {
    // How many datagrams there are of each kind.
    fn ends(&self) -> Marks
        ensures { (scene : Scene) (part : Part) → IsLoopbackOf self.now scene.session scene.ticks part
            → run_marks result ≡ ends_of scene part }
    {
        Marks {
            video: self.host.video_count(),
            audio: self.host.audio_count(),
            up: self.client.side().wrote(),
            down: self.host.side().wrote(),
        }
    }

    /// Delivers all datagrams above the marks of their kinds: the video datagrams, then the audio datagrams, then one
    /// control datagram of the client and one of the host in turn, also those that are written meanwhile. A video or
    /// audio datagram is left out where its number is a multiple of `every` and that isn't 0. At last the marks move to
    /// the end. Answers false at the first datagram that isn't delivered; those before it are, with their reports.
    ///
    /// `OutOfMemory` is answered too behind 2^64 - 1 deliveries.
    pub fn pump(
        &mut self,
        every: u32,
        now: u32,
        reporter: &mut Reporter,
    ) -> Result<bool, OutOfMemory>
        ensures pumped { IfOk result (λ done. (scene : Scene) (part : Part) → scene.moment ≡ now
            → IsLoopbackOf self.old scene.session scene.ticks part
            → Pumped scene every part done self.new reporter.old reporter.new) }
        ensures sent { OnOk result (SentNothing self.old.host self.new.host) }
    {
        let mut pumping = Pumping::from(self.marks);
        'deliveries: for _ in 0..u64::MAX {
            let Some(delivery) = pumping.next(u64::from(every), &self.ends()) else {
                self.mark(now)?;
                return Ok(true);
            };
            if !self.deliver(delivery, now, reporter)? {
                return Ok(false);
            }
            pumping.move_behind(delivery);
        }
        Err(OutOfMemory)
    }

    // The marks move to the end, and both sides write out.
    fn mark(&mut self, now: u32) -> Result<(), OutOfMemory>
        ensures marked { OnOk result ((scene : Scene) (part : Part) → scene.moment ≡ now
            → IsLoopbackOf self.old scene.session scene.ticks part
            → IsLoopbackOf self.new scene.session scene.ticks (settled_in scene Mark part).value) }
        ensures sent { OnOk result (SentNothing self.old.host self.new.host) }
    {
        self.marks = self.ends();
        self.settle(now)
    }
}
