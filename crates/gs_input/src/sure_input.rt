//! An input sink in memory that never fails but for want of memory.

ghost use Rattle.std.specs.Prelude.{◌≡◌, IfOk, []};

use crate::event::Event;
use crate::sink::{Input, InputSink};
use gs_bytes::{Failed, OutOfMemory, Outside};
use std::alloc::Global;
use std::marker::Model;

/// An input sink in memory that tells what was put and counts no fault.
#[derive(Drop)]
pub struct SureInput {
    inputs: Vec<Input>,
}

impl Model for SureInput {
    ghost use Rattle.std.specs.Prelude.{List};
    ghost use Rattle.gs_input.specs.declared.sink.Input.{Input};

    ghost Value = { List Input };

    ghost view = { λ sink. sink.inputs.items };
}

impl SureInput {
    /// Nothing was put yet.
    pub fn new(alloc: Global) -> Result<SureInput, OutOfMemory>
        ensures { IfOk result (λ sink. sink ≡ []) }
    {
        Ok(SureInput {
            inputs: Vec::new(alloc),
        })
    }

    /// What was put, in order.
    pub fn inputs(&self) -> &[Input]
        ensures { result.now ≡ self.now }
    {
        self.inputs.as_slice()
    }
}

impl Outside for SureInput {
    ghost faults = { λ _. 0 };
}

impl InputSink for SureInput {
    ghost use Rattle.std.specs.Prelude.{IsErrOf, Some};
    ghost use Rattle.gs_input.specs.Event.{HasButton};
    ghost use Rattle.gs_input.specs.Sink.{IsCountedPut, PutsInput};

    ghost inputs = { λ sink. Some sink };

    fn put(&mut self, session: u32, channel: u8, event: &Event) -> Result<(), Failed>
        requires { HasButton event.now }
        ensures inputs { PutsInput (Some self.old) (Some self.new) result
            (record { session = session; channel = channel; event = event.now }) }
        ensures counted { IsCountedPut 0 0 result }
        ensures no_fault { ¬ (IsErrOf result Failed.Fault) }
    {
        self.inputs.push(Input {
            session,
            channel,
            event: *event,
        })?;
        Ok(())
    }
}
