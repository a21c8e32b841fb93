//! Where a host puts the events that its clients send.

ghost use Rattle.std.specs.Prelude.{◌≤◌, List, None, Option};
ghost use Rattle.std.specs.Io.KnownBytes.{Keeps};
ghost use Rattle.gs_bytes.specs.Outside.{KeepsFlag};
ghost use Rattle.gs_input.specs.declared.sink.Input.{Input};
ghost use Rattle.gs_input.specs.Event.{HasButton};
ghost use Rattle.gs_input.specs.Sink.{IsCountedPut, PutsInput};

use crate::event::Event;
use gs_bytes::{Failed, Outside};

/// An event that a session's client sent on a channel.
#[derive(Clone, Copy, Debug, PartialEq, Eq)]
pub struct Input {
    pub session: u32,
    pub channel: u8,
    pub event: Event,
}

/// What takes the events.
pub trait InputSink: Outside {
    /// The events that were put so far, in order. An object that doesn't tell them has `None`.
    ghost inputs: { Self → Option (List Input) } = { λ _. None };

    /// Appends the event to those that were put. A call that fails appends nothing.
    fn put(&mut self, session: u32, channel: u8, event: &Event) -> Result<(), Failed>
        requires { HasButton event.now }
        ensures inputs { PutsInput (inputs self.old) (inputs self.new) result
            (record { session = session; channel = channel; event = event.now }) }
        ensures left { Keeps (Self.left self.old) (Self.left self.new) }
        ensures taken { Keeps (Self.taken self.old) (Self.taken self.new) }
        ensures end { KeepsFlag (Self.met_end self.old) (Self.met_end self.new) }
        ensures written { Keeps (Self.written self.old) (Self.written self.new) }
        ensures never_falls { Self.faults self.old ≤ Self.faults self.new }
        ensures counted { IsCountedPut (Self.faults self.old) (Self.faults self.new) result };
}
