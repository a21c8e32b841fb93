// A step of a schedule.

ghost use Rattle.std.specs.Prelude.{◌≡◌, ◌≢◌, ◌≤◌, ℕ, List, [], ◌∷◌, Err, IfSome, OnOk};
ghost use Rattle.std.specs.List.{All};
ghost use Rattle.gs_bytes.specs.Outside.{KeepsFlag, Rose};
ghost use Rattle.gs_host_end.specs.Outcomes.{tick_sent};
ghost use Rattle.gs_run.specs.CaptureFile.{CaptureFile};
ghost use Rattle.gs_run.specs.Session.{State};
ghost use Rattle.gs_run.specs.Deed.{Capture};
ghost use Rattle.gs_trial.specs.Standing.{FeedHasTaken, IsReady, IsTrialOf};
ghost use Rattle.gs_trial.specs.Stepping.{IsStepAllowed, RunsDeeds, StepsIfTold, TakesBytes};

use crate::error::StepError;
use crate::trial::Trial;
use gs_bytes::Source;
use gs_loopback::Delivery;
use gs_schedule::Step;
use gs_tape::TapeError;

impl Trial {
    /// Runs a step. Where it can't be run, what it did before the deed at fault stands, with its text.
    pub(crate) fn step<S: Source>(&mut self, step: &Step, tape: &mut S) -> Result<(), StepError>
        requires proper { IsStepAllowed step.now }
        requires ready { IsReady self.old }
        ensures ready { OnOk result (IsReady self.new) }
        ensures ran { (file : CaptureFile) (state : State) → IsTrialOf self.old file (S.left tape.old) state
            → StepsIfTold file step.now state (S.left tape.new) self.new self.old.reporter self.new.reporter result }
        ensures bytes { (bytes : List ℕ) → FeedHasTaken bytes self.old.feed (S.left tape.old)
            → TakesBytes bytes self.old.feed.count self.new.feed (S.left tape.new) result }
        ensures not_met { OnOk result (KeepsFlag (S.met_end tape.old) (S.met_end tape.new)) }
        ensures only_cap { result ≡ Err (StepError.Tape TapeError.TapeFault) → step.now ≡ Step.Cap }
        ensures fault { result ≡ Err (StepError.Tape TapeError.TapeFault)
            → Rose (S.faults tape.old) (S.faults tape.new) }
        ensures counted { S.faults tape.new ≢ S.faults tape.old → result ≡ Err (StepError.Tape TapeError.TapeFault) }
    {
        match *step {
            Step::Blank => Ok(()),
            Step::Session {
                packet,
                percentage,
                minimum,
                window,
            } => self.open(packet, percentage, minimum, window),
            Step::Cap => self.capture(tape),
            Step::Send { session } => self.turn(session),
            Step::Video { session, k } => self.deliver(session, Delivery::Video(u64::from(k))),
            Step::Audio { session, k } => self.deliver(session, Delivery::Audio(u64::from(k))),
            Step::Videos {
                session,
                first,
                last,
            } => self.deliver_videos(session, first, last),
            Step::Up { session, k } => self.deliver(session, Delivery::Up(u64::from(k))),
            Step::Down { session, k } => self.deliver(session, Delivery::Down(u64::from(k))),
            Step::Input { session, event } => self.give(session, &event),
            Step::Idr { session } => self.ask_idr(session),
            Step::Time { by } => self.pass(by),
            Step::Pump { session, every } => self.pump(session, every),
            Step::Close { session } => self.close(session),
            Step::Reset { session } => self.reset(session),
        }
    }

    // The capture gains the file's next tick. Ticks that no turn wants any more are dropped.
    fn capture<S: Source>(&mut self, tape: &mut S) -> Result<(), StepError>
        requires ready { IsReady self.old }
        ensures ready { OnOk result (IsReady self.new) }
        ensures ran { (file : CaptureFile) (state : State) → IsTrialOf self.old file (S.left tape.old) state
            → RunsDeeds file (Capture ∷ []) state (S.left tape.new) self.new self.old.reporter self.new.reporter
            result }
        ensures bytes { (bytes : List ℕ) → FeedHasTaken bytes self.old.feed (S.left tape.old)
            → TakesBytes bytes self.old.feed.count self.new.feed (S.left tape.new) result }
        ensures not_met { OnOk result (KeepsFlag (S.met_end tape.old) (S.met_end tape.new)) }
        ensures fault { result ≡ Err (StepError.Tape TapeError.TapeFault)
            → Rose (S.faults tape.old) (S.faults tape.new) }
        ensures counted { S.faults tape.new ≢ S.faults tape.old → result ≡ Err (StepError.Tape TapeError.TapeFault) }
    {
        if !self.feed.capture(tape)? {
            return Err(StepError::BadLine);
        }
        let wanted = self.wanted();
        self.feed.forget(wanted);
        Ok(())
    }

    // Up to which tick no turn wants one any more.
    fn wanted(&self) -> u32
        ensures { All (λ l. IfSome (tick_sent l.host) (λ last. result ≤ last)) self.now.sessions.items }
    {
        let mut wanted = u32::MAX;
        'sessions: for session in &self.sessions {
            if let Some(last) = session.last_tick() {
                wanted = wanted.min(last);
            }
        }
        wanted
    }
}
