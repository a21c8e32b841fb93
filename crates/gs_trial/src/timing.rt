// Time passes in a trial.

ghost use Rattle.std.specs.Prelude.{◌≡◌, ◌≤◌, ◌+◌, [], ◌∷◌, List, IfErr, IfNone, IfSome, OnOk, ◌<◌};
ghost use Rattle.gs_tape.specs.Tick.{Tick};
ghost use Rattle.gs_report.specs.Reporting.{Did};
ghost use Rattle.gs_run.specs.Session.{RunSession};
ghost use Rattle.gs_run.specs.Deed.{Pass};
ghost use Rattle.gs_run.specs.Done.{all_timed};
ghost use Rattle.gs_run.specs.Refusal.{most_moment};
ghost use Rattle.gs_trial.specs.Standing.{AreSessions, IsReady};
ghost use Rattle.gs_trial.specs.Stepping.{IsOwn, RunsIn};

use crate::error::StepError;
use crate::trial::Trial;
use gs_bytes::OutOfMemory;
use gs_run::MOST_MOMENT;

/// A moment that is so much later, where it isn't beyond the greatest.
fn later(moment: u32, by: u32) -> Option<u32>
    ensures some { IfSome result (λ then. (then ≡ moment + by) × (then ≤ most_moment)) }
    ensures none { IfNone result (most_moment < moment + by) }
{
    let then = moment.checked_add(by)?;
    (then <= MOST_MOMENT).then_some(then)
}

impl Trial {
    /// So many milliseconds pass: the timers run, session by session, and what is due behind each is written.
    pub(crate) fn pass(&mut self, by: u32) -> Result<(), StepError>
        requires ready { IsReady self.old }
        ensures ready { OnOk result (IsReady self.new) }
        ensures feed { self.new.feed ≡ self.old.feed }
        ensures own { IfErr result IsOwn }
        ensures ran { RunsIn self.old (Pass by ∷ []) self.new result }
    {
        let Some(moment) = later(self.moment, by) else {
            return Err(StepError::BadLine);
        };
        self.run_timers(moment)?;
        self.moment = moment;
        Ok(())
    }

    // The timers run at this moment.
    fn run_timers(&mut self, moment: u32) -> Result<(), OutOfMemory>
        requires ready { IsReady self.old }
        ensures ready { OnOk result (IsReady self.new) }
        ensures feed { (self.new.feed ≡ self.old.feed) × (self.new.moment ≡ self.old.moment) }
        ensures timed { OnOk result ((ticks : List Tick) (sessions : List RunSession)
            → AreSessions ticks 1 self.old.sessions.items sessions
            → Did (AreSessions ticks 1 self.new.sessions.items) (all_timed 1 moment sessions) self.old.reporter
            self.new.reporter) }
    {
        'sessions: for place in 0..self.sessions.len() {
            let session = &mut self.sessions[place];
            session.timer(moment, &mut self.reporter)?;
            session.settle(moment)?;
        }
        Ok(())
    }
}
