// A schedule over a capture file.

ghost use Rattle.std.specs.Prelude.{◌≡◌, ◌≢◌, ◌++◌, ◌∷◌, [], ℕ, IfErr, List, OnOk};
ghost use Rattle.std.specs.Io.KnownBytes.{Appends, IsAtEnd};
ghost use Rattle.gs_bytes.specs.Outside.{SetsFlag};
ghost use Rattle.gs_tape.specs.Tick.{Tick};
ghost use Rattle.gs_feed.specs.Cuts.{StopsInRest};
ghost use Rattle.gs_schedule.specs.declared.output.Output.TheVariants as output;
ghost use Rattle.gs_run.specs.CaptureFile.{CaptureFile};
ghost use Rattle.gs_run.specs.Session.{RunSession, State};
ghost use Rattle.gs_run.specs.Report.{plain};
ghost use Rattle.gs_run.specs.Run.{finished};
ghost use Rattle.gs_run.specs.Totals.{totals_from};
ghost use Rattle.gs_report.specs.Reporting.{with_reports};
ghost use Rattle.gs_trial.specs.Standing.{AreSessions, FeedHasTaken, IsReady, IsTrialOf};
ghost use Rattle.gs_trial.specs.Running.{WritesBehind};
ghost use Rattle.gs_trial.specs.Stopping.{StopsIfTold};
ghost use Rattle.gs_trial.specs.Trial.{AnswersIfTold, CountsFor, HasHead, IsCause, status_answer};

use crate::error::tape_status;
use crate::trial::Trial;
use gs_bytes::{OutOfMemory, Sink, Source};
use gs_feed::Feed;
use gs_report::Detail;
use gs_run::whole_runs_hold;
use gs_schedule::{Output, TrialStatus};
use std::alloc::Global;

/// Runs a schedule over a capture file: the file's head, then line after line, then the rest of the file, then the sums
/// and `ok`. What lines report is gathered, and written before either is read again.
pub(crate) fn run_script<S: Source, T: Source, K: Sink>(
    alloc: Global,
    detail: Detail,
    tape: &mut S,
    schedule: &mut T,
    out: &mut K,
) -> Result<(), TrialStatus>
    ensures answers { AnswersIfTold detail (S.left tape.old) (T.left schedule.old) (K.written out.old)
        (K.written out.new) (status_answer result) }
    ensures stops { StopsIfTold detail (S.left tape.old) (T.left schedule.old) (S.left tape.new)
        (T.left schedule.new) (K.written out.old) (K.written out.new) (status_answer result) }
    ensures headless { (HasHead (S.left tape.old) → ⊥) → (schedule.new ≡ schedule.old) × (out.new ≡ out.old) }
    ensures cause { IfErr result IsCause }
    ensures head_first { IfErr result (λ e. e ≡ TrialStatus.ScheduleFault → HasHead (S.left tape.old)) }
    ensures at_end { OnOk result (IsAtEnd (S.left tape.new) × IsAtEnd (T.left schedule.new)) }
    ensures met_end { OnOk result (SetsFlag (S.met_end tape.old) (S.met_end tape.new)
        × SetsFlag (T.met_end schedule.old) (T.met_end schedule.new)) }
    ensures tape_faults { CountsFor TrialStatus.TapeFault result (S.faults tape.old) (S.faults tape.new) }
    ensures schedule_faults { CountsFor TrialStatus.ScheduleFault result (T.faults schedule.old)
        (T.faults schedule.new) }
    ensures write_faults { CountsFor TrialStatus.WriteFault result (K.faults out.old) (K.faults out.new) }
{
    whole_runs_hold();
    let feed = match Feed::open(alloc, tape) {
        Ok(feed) => feed,
        Err(error) => return Err(tape_status(error)),
    };
    let mut trial = Trial::new(alloc, feed, detail);
    trial.run_lines(tape, schedule, out)?;
    trial.finish(tape, out)
}

impl Trial {
    /// Writes what waits, reads the rest of the capture file, and writes the sums.
    pub(crate) fn finish<S: Source, K: Sink>(
        &mut self,
        tape: &mut S,
        out: &mut K,
    ) -> Result<(), TrialStatus>
        requires ready { IsReady self.old }
        ensures finishes { (file : CaptureFile) (state : State) → IsTrialOf self.old file (S.left tape.old) state
            → WritesBehind self.old.reporter (finished file.fault state) (K.written out.old) (K.written out.new)
            (status_answer result) }
        ensures at_rest { IfErr result (λ e. e ≡ TrialStatus.TapeFault
            → Appends (K.written out.old) (K.written out.new) self.old.reporter.text) }
        ensures cut { IfErr result (λ e. e ≡ TrialStatus.TapeFault → (bytes : List ℕ)
            → FeedHasTaken bytes self.old.feed (S.left tape.old)
            → StopsInRest bytes (S.left tape.new) self.old.feed.count) }
        ensures cause { IfErr result IsCause }
        ensures not_schedule { IfErr result (λ e. e ≢ TrialStatus.ScheduleFault) }
        ensures at_end { OnOk result (IsAtEnd (S.left tape.new)) }
        ensures met_end { OnOk result (SetsFlag (S.met_end tape.old) (S.met_end tape.new)) }
        ensures tape_faults { CountsFor TrialStatus.TapeFault result (S.faults tape.old) (S.faults tape.new) }
        ensures write_faults { CountsFor TrialStatus.WriteFault result (K.faults out.old) (K.faults out.new) }
    {
        self.write_text(out)?;
        if let Err(error) = self.feed.finish(tape) {
            return Err(tape_status(error));
        }
        if self.report_sums().is_err() {
            return Err(TrialStatus::OutOfMemory);
        }
        self.write_text(out)
    }

    // The sums of each session, and that all is done.
    fn report_sums(&mut self) -> Result<(), OutOfMemory>
        ensures sums { OnOk result ((ticks : List Tick) (sessions : List RunSession)
            → AreSessions ticks 1 self.old.sessions.items sessions
            → self.new.reporter ≡ with_reports self.old.reporter (totals_from 1 sessions ++ plain output.Done ∷ [])) }
        ensures detail { self.new.reporter.detail ≡ self.old.reporter.detail }
    {
        'sessions: for place in 0..self.sessions.len() {
            let sums = self.sessions[place].sums();
            let total = Output::Total {
                session: place as u32 + 1,
                frames: sums.frames,
                handed: sums.handed,
                asks: sums.asks,
                inputs: sums.inputs,
                units: sums.units,
            };
            self.reporter.report(&total, None)?;
        }
        self.reporter.report(&Output::Done, None)
    }
}
