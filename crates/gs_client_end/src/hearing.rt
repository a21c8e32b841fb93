// What a client's side of the connection is given, and tells.

ghost use Rattle.std.specs.Prelude.{ℕ, OnOk, IfOk};
ghost use Rattle.gs_sides.specs.Standing.{IsSideOf};
ghost use Rattle.gs_run.specs.Session.{Part};
ghost use Rattle.gs_report.specs.Reporting.{Did};
ghost use Rattle.gs_client_end.specs.Standing.{IsClientEndOf};
ghost use Rattle.gs_client_end.specs.Outcomes.{TakesDown, client_timed};

use crate::ClientEnd;
use crate::reports::report_events;
use gs_bytes::OutOfMemory;
use gs_report::Reporter;
use gs_sides::ControlSide;

impl ClientEnd {
    /// Takes the control datagram of that number, from 1, of those that the host's side wrote, and reports that its
    /// connection was lost, where it was. Answers false where no datagram of that number can be named.
    pub fn take_down(
        &mut self,
        host: &ControlSide,
        number: u64,
        now: u32,
        reporter: &mut Reporter,
    ) -> Result<bool, OutOfMemory>
        ensures { IfOk result (λ took. (session : ℕ) (part : Part) → IsClientEndOf self.old session part
            → IsSideOf host.now part.host
            → TakesDown session now number part took self.new reporter.old reporter.new) }
    {
        if !self.side.take(host, number, now, &mut self.events)? {
            return Ok(false);
        }
        report_events(self.session, &self.events, reporter)?;
        Ok(true)
    }

    /// Lets time pass.
    pub fn timer(&mut self, now: u32, reporter: &mut Reporter) -> Result<(), OutOfMemory>
        ensures { OnOk result ((session : ℕ) (part : Part) → IsClientEndOf self.old session part
            → Did (IsClientEndOf self.new session) (client_timed session now part) reporter.old reporter.new) }
    {
        self.side.timer(now, &mut self.events)?;
        report_events(self.session, &self.events, reporter)
    }
}
