// What is done in the sessions of a trial.

ghost use Rattle.std.specs.Prelude.{◌≡◌, ◌+◌, ◌<◌, ◌≤◌, ℕ, List, [], ◌∷◌, Option, Ok, Err, IfOk, IfErr, OnOk, length};
ghost use Rattle.std.specs.Prelude.{if◌then◌else◌};
ghost use Rattle.gs_input.specs.Event.{HasButton, IsKnown};
ghost use Rattle.gs_schedule.specs.declared.step.Step.TheVariants as step;
ghost use Rattle.gs_run.specs.CaptureFile.{CaptureFile};
ghost use Rattle.gs_run.specs.Session.{State};
ghost use Rattle.gs_run.specs.Deed.{Turn, Give, AskIdr, Close, Reset, In};
ghost use Rattle.gs_run.specs.Line.{videos};
ghost use Rattle.gs_loopback.specs.Running.{run_delivery};
ghost use Rattle.gs_trial.specs.Standing.{HasNoSession, IsReady, IsTrialOf};
ghost use Rattle.gs_trial.specs.Stepping.{IsOwn, RunsIn, StepsIfTold};

use crate::error::StepError;
use crate::trial::Trial;
use gs_input::Event;
use gs_loopback::Delivery;

// A deed that a run refuses is a fault of its line.
fn allowed(done: bool) -> Result<(), StepError>
    ensures { result ≡ (if done then Ok tt else Err StepError.BadLine) }
{
    if done {
        Ok(())
    } else {
        Err(StepError::BadLine)
    }
}

impl Trial {
    // The place of the session of this number.
    fn place(&self, session: u32) -> Result<usize, StepError>
        ensures ok { IfOk result (λ place. (place + 1 ≡ session) × (place < length self.now.sessions.items)) }
        ensures err { IfErr result (λ e. (e ≡ StepError.BadLine) × HasNoSession self.now session) }
    {
        match (session as usize).checked_sub(1) {
            Some(place) if place < self.sessions.len() => Ok(place),
            _ => Err(StepError::BadLine),
        }
    }

    /// The host sends the newest tick.
    pub(crate) fn turn(&mut self, session: u32) -> Result<(), StepError>
        requires ready { IsReady self.old }
        ensures ready { OnOk result (IsReady self.new) }
        ensures feed { self.new.feed ≡ self.old.feed }
        ensures own { IfErr result IsOwn }
        ensures ran { RunsIn self.old (In session Turn ∷ []) self.new result }
    {
        let place = self.place(session)?;
        self.sessions[place].turn(&self.feed, self.moment, &mut self.reporter)?;
        Ok(())
    }

    /// A datagram is delivered.
    pub(crate) fn deliver(&mut self, session: u32, delivery: Delivery) -> Result<(), StepError>
        requires ready { IsReady self.old }
        ensures ready { OnOk result (IsReady self.new) }
        ensures feed { self.new.feed ≡ self.old.feed }
        ensures own { IfErr result IsOwn }
        ensures ran { RunsIn self.old (In session (run_delivery delivery) ∷ []) self.new result }
    {
        let place = self.place(session)?;
        let done = self.sessions[place].deliver(delivery, self.moment, &mut self.reporter)?;
        allowed(done)
    }

    /// Video datagrams are delivered, one after the other.
    pub(crate) fn deliver_videos(
        &mut self,
        session: u32,
        first: u32,
        last: u32,
    ) -> Result<(), StepError>
        requires order { first ≤ last }
        requires ready { IsReady self.old }
        ensures ready { OnOk result (IsReady self.new) }
        ensures feed { self.new.feed ≡ self.old.feed }
        ensures own { IfErr result IsOwn }
        ensures ran { RunsIn self.old (videos session first last) self.new result }
    {
        let place = self.place(session)?;
        let (first, last) = (u64::from(first), u64::from(last));
        let done = self.sessions[place].deliver_videos(
            first,
            last,
            self.moment,
            &mut self.reporter,
        )?;
        allowed(done)
    }

    /// All that is new is delivered.
    pub(crate) fn pump(&mut self, session: u32, every: u32) -> Result<(), StepError>
        requires ready { IsReady self.old }
        ensures ready { OnOk result (IsReady self.new) }
        ensures feed { self.new.feed ≡ self.old.feed }
        ensures own { IfErr result IsOwn }
        ensures ran { (file : CaptureFile) (left : Option (List ℕ)) (state : State) → IsTrialOf self.old file left state
            → StepsIfTold file (step.Pump session every) state left self.new self.old.reporter self.new.reporter
            result }
    {
        let place = self.place(session)?;
        let done = self.sessions[place].pump(every, self.moment, &mut self.reporter)?;
        allowed(done)
    }

    /// The user does something at the client.
    pub(crate) fn give(&mut self, session: u32, event: &Event) -> Result<(), StepError>
        requires known { IsKnown event.now }
        requires button { HasButton event.now }
        requires ready { IsReady self.old }
        ensures ready { OnOk result (IsReady self.new) }
        ensures feed { self.new.feed ≡ self.old.feed }
        ensures own { IfErr result IsOwn }
        ensures ran { RunsIn self.old (In session (Give event.now) ∷ []) self.new result }
    {
        let place = self.place(session)?;
        let done = self.sessions[place].give(event, self.moment, &mut self.reporter)?;
        allowed(done)
    }

    /// The client asks for a frame that needs no other.
    pub(crate) fn ask_idr(&mut self, session: u32) -> Result<(), StepError>
        requires ready { IsReady self.old }
        ensures ready { OnOk result (IsReady self.new) }
        ensures feed { self.new.feed ≡ self.old.feed }
        ensures own { IfErr result IsOwn }
        ensures ran { RunsIn self.old (In session AskIdr ∷ []) self.new result }
    {
        let place = self.place(session)?;
        let done = self.sessions[place].ask_idr(self.moment, &mut self.reporter)?;
        allowed(done)
    }

    /// The client closes.
    pub(crate) fn close(&mut self, session: u32) -> Result<(), StepError>
        requires ready { IsReady self.old }
        ensures ready { OnOk result (IsReady self.new) }
        ensures feed { self.new.feed ≡ self.old.feed }
        ensures own { IfErr result IsOwn }
        ensures ran { RunsIn self.old (In session Close ∷ []) self.new result }
    {
        let place = self.place(session)?;
        let done = self.sessions[place].close(self.moment)?;
        allowed(done)
    }

    /// The client's decoder loses its state.
    pub(crate) fn reset(&mut self, session: u32) -> Result<(), StepError>
        requires ready { IsReady self.old }
        ensures ready { OnOk result (IsReady self.new) }
        ensures feed { self.new.feed ≡ self.old.feed }
        ensures own { IfErr result IsOwn }
        ensures ran { RunsIn self.old (In session Reset ∷ []) self.new result }
    {
        let place = self.place(session)?;
        let done = self.sessions[place].reset(self.moment, &mut self.reporter)?;
        allowed(done)
    }
}
