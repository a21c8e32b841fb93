//! An input sink in memory, whose calls fail as planned.

ghost use Rattle.std.specs.Prelude.{◌≡◌, IfOk};

use crate::event::Event;
use crate::sink::{Input, InputSink};
use gs_bytes::{CallPlan, Failed, OutOfMemory, Outside};
use std::alloc::Global;
use std::marker::Model;

/// An input sink in memory that tells what was put.
#[derive(Drop)]
pub struct MemInput {
    inputs: Vec<Input>,
    plan: CallPlan,
}

impl Model for MemInput {
    ghost use Rattle.gs_input.specs.Sink.{FailingInput};

    ghost Value = { FailingInput };

    ghost view = { λ sink. record { inputs = sink.inputs.items; calls = sink.plan } };
}

impl MemInput {
    ghost use Rattle.gs_input.specs.Sink.{no_inputs};

    /// Nothing was put yet. The calls of the numbers in `fails`, from 1, fail.
    pub fn new(alloc: Global, fails: &[u64]) -> Result<MemInput, OutOfMemory>
        ensures { IfOk result (λ sink. sink ≡ no_inputs fails.now) }
    {
        Ok(MemInput {
            inputs: Vec::new(alloc),
            plan: CallPlan::new(alloc, fails)?,
        })
    }

    /// What was put, in order.
    pub fn inputs(&self) -> &[Input]
        ensures { result.now ≡ self.now.inputs }
    {
        self.inputs.as_slice()
    }

    /// How many calls have failed.
    pub fn faults(&self) -> u64
        ensures { result ≡ self.now.calls.faults }
    {
        self.plan.faults()
    }
}

impl Outside for MemInput {
    ghost faults = { λ sink. sink.calls.faults };
}

impl InputSink for MemInput {
    ghost use Rattle.std.specs.Prelude.{◌≡◌, ◌≤◌, ◌↔◌, IsErrOf, IsTrue, Some};
    ghost use Rattle.gs_bytes.specs.Memory.{after_call, next_fails};
    ghost use Rattle.gs_input.specs.Event.{HasButton};
    ghost use Rattle.gs_input.specs.Sink.{IsCountedPut, PutsInput};

    ghost inputs = { λ sink. Some sink.inputs };

    fn put(&mut self, session: u32, channel: u8, event: &Event) -> Result<(), Failed>
        requires { HasButton event.now }
        ensures inputs { PutsInput (Some self.old.inputs) (Some self.new.inputs) result
            (record { session = session; channel = channel; event = event.now }) }
        ensures never_falls { self.old.calls.faults ≤ self.new.calls.faults }
        ensures counted { IsCountedPut self.old.calls.faults self.new.calls.faults result }
        ensures fault { IsErrOf result Failed.Fault ↔ IsTrue (next_fails self.old.calls) }
        ensures calls { self.new.calls ≡ after_call self.old.calls }
    {
        if self.plan.begin() {
            return Err(Failed::Fault);
        }
        self.inputs.push(Input {
            session,
            channel,
            event: *event,
        })?;
        Ok(())
    }
}
