// The lines of a schedule.

ghost use Rattle.std.specs.Prelude.{◌≡◌, ◌≢◌, ◌≤◌, ◌<◌, ◌+◌, ◌-◌, ◌^◌, ◌∷◌, [], ℕ, List, Err, Some, IfErr, OnOk};
ghost use Rattle.std.specs.Prelude.{length};
ghost use Rattle.std.specs.Io.KnownBytes.{Appends, IsAtEnd};
ghost use Rattle.gs_bytes.specs.Outside.{KeepsFlag, SetsFlag};
ghost use Rattle.gs_feed.specs.Cuts.{StopsBehind};
ghost use Rattle.gs_schedule.specs.Lines.{lines_of, most_line};
ghost use Rattle.gs_schedule.specs.declared.step.Step.TheVariants.{Cap};
ghost use Rattle.gs_run.specs.CaptureFile.{CaptureFile};
ghost use Rattle.gs_run.specs.Session.{State};
ghost use Rattle.gs_run.specs.Line.{HasStep};
ghost use Rattle.gs_run.specs.Run.{stopped};
ghost use Rattle.gs_trial.specs.Standing.{FeedHasTaken, IsReady, IsTrialOf};
ghost use Rattle.gs_trial.specs.Running.{EndsRun, LedTo, StopsLines, WritesBehind};
ghost use Rattle.gs_trial.specs.Trial.{CountsFor, IsCause};

use crate::trial::Trial;
use gs_bytes::{Sink, Source};
use gs_schedule::{Line, Lines, LinesError, TrialStatus, read_line};

impl Trial {
    /// Runs line after line, up to the first at fault. What they report is gathered, and written before the schedule is
    /// read again; where a read of it fails, that was written before.
    pub(crate) fn run_lines<S: Source, T: Source, K: Sink>(
        &mut self,
        tape: &mut S,
        schedule: &mut T,
        out: &mut K,
    ) -> Result<(), TrialStatus>
        requires ready { IsReady self.old }
        ensures ready { OnOk result (IsReady self.new) }
        ensures led { OnOk result ((file : CaptureFile) (state : State) (bytes : List ℕ)
            → IsTrialOf self.old file (S.left tape.old) state
            → T.left schedule.old ≡ Some bytes → (n : ℕ) × LedTo HasStep self.old.reporter file 1 (lines_of bytes) state
            (K.written out.old) (K.written out.new) n [] self.new (S.left tape.new)) }
        ensures ends { IfErr result (λ answer. (file : CaptureFile) (state : State) (bytes : List ℕ)
            → IsTrialOf self.old file (S.left tape.old) state
            → T.left schedule.old ≡ Some bytes → EndsRun HasStep self.old.reporter file 1 (lines_of bytes) state
            (K.written out.old) (K.written out.new) answer) }
        ensures taken { OnOk result ((tape_bytes : List ℕ) → FeedHasTaken tape_bytes self.old.feed (S.left tape.old)
            → FeedHasTaken tape_bytes self.new.feed (S.left tape.new)) }
        ensures stops { IfErr result (λ answer. (file : CaptureFile) (tape_bytes : List ℕ) (state : State)
            (bytes : List ℕ) → IsTrialOf self.old file (S.left tape.old) state
            → FeedHasTaken tape_bytes self.old.feed (S.left tape.old) → T.left schedule.old ≡ Some bytes
            → StopsLines self.old.reporter file tape_bytes (lines_of bytes) state (S.left tape.new)
            (T.left schedule.new) (K.written out.old) (K.written out.new) answer) }
        ensures cause { IfErr result IsCause }
        ensures at_end { OnOk result (IsAtEnd (T.left schedule.new)) }
        ensures met_end { OnOk result (SetsFlag (T.met_end schedule.old) (T.met_end schedule.new)) }
        ensures not_met { OnOk result (KeepsFlag (S.met_end tape.old) (S.met_end tape.new)) }
        ensures tape_faults { CountsFor TrialStatus.TapeFault result (S.faults tape.old) (S.faults tape.new) }
        ensures schedule_faults { CountsFor TrialStatus.ScheduleFault result (T.faults schedule.old)
            (T.faults schedule.new) }
        ensures write_faults { CountsFor TrialStatus.WriteFault result (K.faults out.old) (K.faults out.new) }
    {
        let mut lines = Lines::new(self.alloc);
        'lines: loop {
            self.write_before_line(&lines, out)?;
            match lines.next(schedule) {
                Ok(Some(line)) => self.run_line(&line, tape, out)?,
                Ok(None) => return Ok(()),
                Err(LinesError::TooLong { line }) => return Err(self.end_at(line, out)),
                Err(LinesError::ReadFault) => return Err(TrialStatus::ScheduleFault),
                Err(LinesError::OutOfMemory) => return Err(TrialStatus::OutOfMemory),
            }
        }
    }

    // How a trial ends at the line of this number, which can't be run: what waits is written first.
    fn end_at<K: Sink>(&mut self, number: u32, out: &mut K) -> TrialStatus
        ensures ends { (state : State) → WritesBehind self.old.reporter (stopped (TrialStatus.BadSchedule number) state)
            (K.written out.old) (K.written out.new) result }
        ensures cause { IsCause result }
        ensures not_of_source { (result ≢ TrialStatus.TapeFault) × (result ≢ TrialStatus.ScheduleFault) }
        ensures write_faults { CountsFor TrialStatus.WriteFault (Err result) (K.faults out.old) (K.faults out.new) }
    {
        match self.write_text(out) {
            Ok(()) => TrialStatus::BadSchedule { line: number },
            Err(failed) => failed,
        }
    }

    // Runs a line.
    fn run_line<S: Source, K: Sink>(
        &mut self,
        line: &Line,
        tape: &mut S,
        out: &mut K,
    ) -> Result<(), TrialStatus>
        requires short { length line.now.bytes ≤ most_line }
        requires numbered { line.now.number < 2 ^ 32 - 1 }
        requires ready { IsReady self.old }
        ensures ready { OnOk result (IsReady self.new) }
        ensures led { OnOk result ((file : CaptureFile) (state : State) (rest : List (List ℕ))
            → IsTrialOf self.old file (S.left tape.old) state
            → LedTo HasStep self.old.reporter file line.now.number (line.now.bytes ∷ rest) state
            (K.written out.old) (K.written out.new) (line.now.number + 1) rest self.new (S.left tape.new)) }
        ensures ends { IfErr result (λ answer. (file : CaptureFile) (state : State) (rest : List (List ℕ))
            → IsTrialOf self.old file (S.left tape.old) state
            → EndsRun HasStep self.old.reporter file line.now.number (line.now.bytes ∷ rest) state
            (K.written out.old) (K.written out.new) answer) }
        ensures at_capture { IfErr result (λ e. e ≡ TrialStatus.TapeFault
            → HasStep line.now.number line.now.bytes (Some Cap)
            × Appends (K.written out.old) (K.written out.new) self.old.reporter.text) }
        ensures taken { OnOk result ((bytes : List ℕ) → FeedHasTaken bytes self.old.feed (S.left tape.old)
            → FeedHasTaken bytes self.new.feed (S.left tape.new)) }
        ensures cut { IfErr result (λ e. e ≡ TrialStatus.TapeFault → (bytes : List ℕ)
            → FeedHasTaken bytes self.old.feed (S.left tape.old)
            → StopsBehind bytes (S.left tape.new) self.old.feed.count) }
        ensures cause { IfErr result IsCause }
        ensures not_met { OnOk result (KeepsFlag (S.met_end tape.old) (S.met_end tape.new)) }
        ensures not_schedule { IfErr result (λ e. e ≢ TrialStatus.ScheduleFault) }
        ensures tape_faults { CountsFor TrialStatus.TapeFault result (S.faults tape.old) (S.faults tape.new) }
        ensures write_faults { CountsFor TrialStatus.WriteFault result (K.faults out.old) (K.faults out.new) }
    {
        let Some(step) = read_line(line.bytes.as_bytes()) else {
            return Err(self.end_at(line.number, out));
        };
        self.run_step(&step, line.number, tape, out)
    }
}
