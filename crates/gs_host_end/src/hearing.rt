// What a host's side of the connection is given, and what the host does about what it tells.

ghost use Rattle.std.specs.Prelude.{ℕ, List, IfOk, OnOk};
ghost use Rattle.gs_tape.specs.Tick as spec;
ghost use Rattle.gs_sides.specs.Standing.{IsSideOf};
ghost use Rattle.gs_run.specs.Session.{Part};
ghost use Rattle.gs_report.specs.Reporting.{Did};
ghost use Rattle.gs_host_end.specs.Standing.{IsHostEndOf};
ghost use Rattle.gs_host_end.specs.Outcomes.{TakesUp, SentNothing, host_timed};

use crate::HostEnd;
use crate::heard::hear_all;
use gs_bytes::OutOfMemory;
use gs_report::Reporter;
use gs_sides::ControlSide;

impl HostEnd {
    /// Takes the control datagram of that number, from 1, of those that the client's side wrote; does what each message
    /// asks for, and reports it. Answers false, and does nothing, where no datagram of that number can be named.
    pub fn take_up(
        &mut self,
        client: &ControlSide,
        number: u64,
        now: u32,
        reporter: &mut Reporter,
    ) -> Result<bool, OutOfMemory>
        ensures sent { OnOk result (SentNothing self.old self.new) }
        ensures took { IfOk result (λ took. (session : ℕ) (ticks : List spec.Tick) (part : Part)
            → IsHostEndOf self.old session ticks part → IsSideOf client.now part.client
            → TakesUp session now number ticks part took self.new reporter.old reporter.new) }
    {
        if !self.side.take(client, number, now, &mut self.events)? {
            return Ok(false);
        }
        hear_all(
            self.session,
            &mut self.host,
            &self.events,
            &mut self.inputs,
            reporter,
        )?;
        Ok(true)
    }

    /// Lets time pass, and reports that the connection was lost, where it was.
    pub fn timer(&mut self, now: u32, reporter: &mut Reporter) -> Result<(), OutOfMemory>
        ensures sent { OnOk result (SentNothing self.old self.new) }
        ensures timed { OnOk result ((session : ℕ) (ticks : List spec.Tick) (part : Part)
            → IsHostEndOf self.old session ticks part
            → Did (IsHostEndOf self.new session ticks) (host_timed session now part) reporter.old reporter.new) }
    {
        self.side.timer(now, &mut self.events)?;
        hear_all(
            self.session,
            &mut self.host,
            &self.events,
            &mut self.inputs,
            reporter,
        )
    }
}
