//! What a side tells.

ghost use Rattle.std.specs.Prelude.{◌≡◌, IfOk, OnOk};
ghost use Rattle.gs_enet.specs.Record.{PeerRecord};
ghost use Rattle.gs_enet.specs.Standing.{IsPeerOf};
ghost use Rattle.gs_enet.specs.World.{Side, Time, acted};
ghost use Rattle.gs_sides.specs.Known.{HasRecord};
ghost use Rattle.gs_sides.specs.Openness.{open_after};
ghost use Rattle.gs_sides.specs.Steps.{TellsEvents};
ghost use Rattle.gs_sides.specs.Standing.{IsSideOf};
ghost use Rattle.gs_sides.specs.Outcomes.{SideTellsAll};

use crate::ControlSide;
use gs_bytes::OutOfMemory;
use gs_enet::{Peer, PeerEvent};

/// Whether messages can be given behind an event, where they could or couldn't before it.
fn open_after(was: bool, event: &PeerEvent) -> bool
    ensures { result ≡ open_after was event.now }
{
    match event {
        PeerEvent::Connected => true,
        PeerEvent::Message { .. } => was,
        PeerEvent::Closed | PeerEvent::PeerClosed | PeerEvent::Lost { .. } => false,
    }
}

/// Tells every event that waits, in place of what the vector held, and answers whether messages can be given behind
/// them.
pub fn tell_all(
    peer: &mut Peer,
    was_open: bool,
    events: &mut Vec<PeerEvent>,
) -> Result<bool, OutOfMemory>
    requires { HasRecord peer.old }
    ensures known { HasRecord peer.new }
    ensures told { IfOk result (λ is. (r : PeerRecord) → IsPeerOf peer.old r
        → TellsEvents r was_open events.new.items is peer.new) }
{
    events.clear();
    let mut is_open = was_open;
    'events: while let Some(event) = peer.next_event() {
        is_open = open_after(is_open, &event);
        events.push(event)?;
    }
    Ok(is_open)
}

impl ControlSide {
    /// Lets time pass. What was written and not acknowledged for its wait is due again, and what was written 13 times
    /// ends the connection. The events that arise are told, in order, in place of what the vector held; after an error
    /// some of them.
    pub fn timer(&mut self, now: u32, events: &mut Vec<PeerEvent>) -> Result<(), OutOfMemory>
        ensures { OnOk result ((x : Side) → IsSideOf self.old x
            → SideTellsAll (acted (Time now) x) events.new.items self.new) }
    {
        self.peer.timer(now);
        self.up = tell_all(&mut self.peer, self.up, events)?;
        Ok(())
    }
}
