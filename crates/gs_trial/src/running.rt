// A step that is run, and its text.

ghost use Rattle.std.specs.Prelude.{◌≡◌, ◌≢◌, ◌⊎◌, ℕ, true, List, [], IfErr, OnErr, OnOk};
ghost use Rattle.std.specs.Io.KnownBytes.{Appends};
ghost use Rattle.gs_bytes.specs.Outside.{AppendsPart, KeepsFlag};
ghost use Rattle.gs_feed.specs.Cuts.{StopsBehind};
ghost use Rattle.gs_schedule.specs.Lines.{holds_line};
ghost use Rattle.gs_run.specs.CaptureFile.{CaptureFile};
ghost use Rattle.gs_run.specs.Session.{State};
ghost use Rattle.gs_trial.specs.Standing.{FeedHasTaken, IsReady, IsTrialOf};
ghost use Rattle.gs_trial.specs.Stepping.{IsStepAllowed};
ghost use Rattle.gs_trial.specs.Running.{EndsStep, IsSameButText, RanStep, WritesUpTo};
ghost use Rattle.gs_trial.specs.Trial.{CountsFor, IsCause};

use crate::error::{step_status, write_status};
use crate::trial::Trial;
use gs_bytes::{Sink, Source, write_all};
use gs_reader::PIECE;
use gs_schedule::{Lines, Step, TrialStatus};

impl Trial {
    /// Runs the step of this number. What it reports waits, until a piece is gathered or a source is read. Where a deed
    /// of it was refused all that waits is written, and what it did before that; where a source failed or memory ran
    /// out nothing of it is.
    pub(crate) fn run_step<S: Source, K: Sink>(
        &mut self,
        step: &Step,
        number: u32,
        tape: &mut S,
        out: &mut K,
    ) -> Result<(), TrialStatus>
        requires proper { IsStepAllowed step.now }
        requires ready { IsReady self.old }
        ensures ready { OnOk result (IsReady self.new) }
        ensures ran { OnOk result ((file : CaptureFile) (state : State)
            → IsTrialOf self.old file (S.left tape.old) state
            → RanStep self.old.reporter file step.now state (K.written out.old) (K.written out.new) self.new
            (S.left tape.new)) }
        ensures ends { IfErr result (λ answer. (file : CaptureFile) (state : State)
            → IsTrialOf self.old file (S.left tape.old) state
            → EndsStep self.old.reporter file number step.now state (K.written out.old) (K.written out.new) answer) }
        ensures at_capture { IfErr result (λ e. e ≡ TrialStatus.TapeFault
            → (step.now ≡ Step.Cap) × Appends (K.written out.old) (K.written out.new) self.old.reporter.text) }
        ensures taken { OnOk result ((bytes : List ℕ) → FeedHasTaken bytes self.old.feed (S.left tape.old)
            → FeedHasTaken bytes self.new.feed (S.left tape.new)) }
        ensures cut { IfErr result (λ e. e ≡ TrialStatus.TapeFault → (bytes : List ℕ)
            → FeedHasTaken bytes self.old.feed (S.left tape.old)
            → StopsBehind bytes (S.left tape.new) self.old.feed.count) }
        ensures cause { IfErr result IsCause }
        ensures not_met { OnOk result (KeepsFlag (S.met_end tape.old) (S.met_end tape.new)) }
        ensures not_schedule { IfErr result (λ e. e ≢ TrialStatus.ScheduleFault) }
        ensures tape_faults { CountsFor TrialStatus.TapeFault result (S.faults tape.old) (S.faults tape.new) }
        ensures write_faults { CountsFor TrialStatus.WriteFault result (K.faults out.old) (K.faults out.new) }
    {
        self.write_before_step(step, out)?;
        match self.step(step, tape) {
            Ok(()) => self.write_piece(out),
            Err(error) => {
                if error.is_told() {
                    self.write_text(out)?;
                }
                Err(step_status(error, number))
            }
        }
    }

    // Writes the text that waits, before a step that reads the capture file.
    fn write_before_step<K: Sink>(&mut self, step: &Step, out: &mut K) -> Result<(), TrialStatus>
        ensures kept { IsSameButText self.old self.new }
        ensures first { OnOk result (step.now ≡ Step.Cap → self.new.reporter.text ≡ []) }
        ensures up_to { OnOk result (WritesUpTo (K.written out.old) (K.written out.new) self.old.reporter.text
            self.new.reporter.text) }
        ensures err { OnErr result (AppendsPart (K.written out.old) (K.written out.new) self.old.reporter.text) }
        ensures cause { IfErr result (λ e. (e ≡ TrialStatus.WriteFault) ⊎ (e ≡ TrialStatus.OutOfMemory)) }
        ensures faults { CountsFor TrialStatus.WriteFault result (K.faults out.old) (K.faults out.new) }
    {
        if matches!(step, Step::Cap) {
            self.write_text(out)
        } else {
            Ok(())
        }
    }

    /// Writes the text that waits, before the schedule is read for its next line.
    pub(crate) fn write_before_line<K: Sink>(
        &mut self,
        lines: &Lines,
        out: &mut K,
    ) -> Result<(), TrialStatus>
        ensures kept { IsSameButText self.old self.new }
        ensures first { OnOk result ((holds_line lines.now.held ≡ true) ⊎ (self.new.reporter.text ≡ [])) }
        ensures up_to { OnOk result (WritesUpTo (K.written out.old) (K.written out.new) self.old.reporter.text
            self.new.reporter.text) }
        ensures err { OnErr result (AppendsPart (K.written out.old) (K.written out.new) self.old.reporter.text) }
        ensures cause { IfErr result (λ e. (e ≡ TrialStatus.WriteFault) ⊎ (e ≡ TrialStatus.OutOfMemory)) }
        ensures faults { CountsFor TrialStatus.WriteFault result (K.faults out.old) (K.faults out.new) }
    {
        if lines.holds_line() {
            Ok(())
        } else {
            self.write_text(out)
        }
    }

    // Writes the text that waits behind a step, once it makes a piece. So what waits is never longer than a piece and
    // the text of one step.
    fn write_piece<K: Sink>(&mut self, out: &mut K) -> Result<(), TrialStatus>
        ensures kept { IsSameButText self.old self.new }
        ensures up_to { OnOk result (WritesUpTo (K.written out.old) (K.written out.new) self.old.reporter.text
            self.new.reporter.text) }
        ensures err { OnErr result (AppendsPart (K.written out.old) (K.written out.new) self.old.reporter.text) }
        ensures cause { IfErr result (λ e. (e ≡ TrialStatus.WriteFault) ⊎ (e ≡ TrialStatus.OutOfMemory)) }
        ensures faults { CountsFor TrialStatus.WriteFault result (K.faults out.old) (K.faults out.new) }
    {
        if self.reporter.text().len() >= PIECE {
            self.write_text(out)
        } else {
            Ok(())
        }
    }

    /// Writes the text that waits.
    pub(crate) fn write_text<K: Sink>(&mut self, out: &mut K) -> Result<(), TrialStatus>
        ensures kept { IsSameButText self.old self.new }
        ensures empty { OnOk result (self.new.reporter.text ≡ []) }
        ensures ok { OnOk result (Appends (K.written out.old) (K.written out.new) self.old.reporter.text) }
        ensures err { OnErr result (AppendsPart (K.written out.old) (K.written out.new) self.old.reporter.text) }
        ensures cause { IfErr result (λ e. (e ≡ TrialStatus.WriteFault) ⊎ (e ≡ TrialStatus.OutOfMemory)) }
        ensures faults { CountsFor TrialStatus.WriteFault result (K.faults out.old) (K.faults out.new) }
    {
        if let Err(failed) = write_all(out, self.reporter.text()) {
            return Err(write_status(failed));
        }
        self.reporter.clear();
        Ok(())
    }
}
