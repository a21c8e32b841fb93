// Steps that are run one after the other.

ghost use Rattle.std.specs.Prelude.{◌≢◌, ◌<◌, ◌-◌, ◌^◌, [], ℕ, IfErr, OnOk, length};
ghost use Rattle.std.specs.List.{All};
ghost use Rattle.gs_run.specs.CaptureFile.{CaptureFile};
ghost use Rattle.gs_run.specs.Run.{IsStep};
ghost use Rattle.gs_run.specs.Session.{State};
ghost use Rattle.gs_trial.specs.Standing.{IsReady, IsTrialOf};
ghost use Rattle.gs_trial.specs.Stepping.{IsStepAllowed};
ghost use Rattle.gs_trial.specs.Running.{EndsRun, LedTo};
ghost use Rattle.gs_trial.specs.Trial.{CountsFor, IsCause};

use crate::trial::Trial;
use gs_bytes::{Sink, Source};
use gs_schedule::{Step, TrialStatus};

impl Trial {
    /// Runs step after step, up to the first at fault. What they report is gathered.
    pub(crate) fn run_steps<S: Source, K: Sink>(
        &mut self,
        steps: &[Step],
        tape: &mut S,
        out: &mut K,
    ) -> Result<(), TrialStatus>
        requires proper { All IsStepAllowed steps.now }
        requires few { length steps.now < 2 ^ 32 - 1 }
        requires ready { IsReady self.old }
        ensures ready { OnOk result (IsReady self.new) }
        ensures led { OnOk result ((file : CaptureFile) (state : State)
            → IsTrialOf self.old file (S.left tape.old) state
            → (n : ℕ) × LedTo IsStep self.old.reporter file 1 steps.now state
            (K.written out.old) (K.written out.new) n [] self.new (S.left tape.new)) }
        ensures ends { IfErr result (λ answer. (file : CaptureFile) (state : State)
            → IsTrialOf self.old file (S.left tape.old) state
            → EndsRun IsStep self.old.reporter file 1 steps.now state (K.written out.old) (K.written out.new) answer) }
        ensures cause { IfErr result IsCause }
        ensures not_schedule { IfErr result (λ e. e ≢ TrialStatus.ScheduleFault) }
        ensures tape_faults { CountsFor TrialStatus.TapeFault result (S.faults tape.old) (S.faults tape.new) }
        ensures write_faults { CountsFor TrialStatus.WriteFault result (K.faults out.old) (K.faults out.new) }
    {
        'steps: for place in 0..steps.len() {
            self.run_step(&steps[place], place as u32 + 1, tape, out)?;
        }
        Ok(())
    }
}
