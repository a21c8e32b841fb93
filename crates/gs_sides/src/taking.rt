//! What comes to a side.

ghost use Rattle.std.specs.Prelude.{IfOk, OnOk};
ghost use Rattle.gs_enet.specs.Outcomes.{PeerTakes};
ghost use Rattle.gs_sides.specs.Known.{HasRecord, IsReadable};
ghost use Rattle.gs_enet.specs.World.{Side};
ghost use Rattle.gs_sides.specs.Standing.{IsSideOf};
ghost use Rattle.gs_sides.specs.Outcomes.{SideTakes};

use crate::ControlSide;
use crate::telling::tell_all;
use gs_bytes::OutOfMemory;
use gs_enet::{Peer, PeerEvent, TakeError};

/// Gives a peer the bytes of a datagram, which are never at fault.
fn give(peer: &mut Peer, datagram: &[u8], now: u32) -> Result<(), OutOfMemory>
    requires known { HasRecord peer.old }
    requires readable { IsReadable datagram.now }
    ensures known { HasRecord peer.new }
    ensures taken { OnOk result (PeerTakes datagram.now now peer.old peer.new) }
{
    match peer.take(datagram, now) {
        Ok(()) => Ok(()),
        Err(TakeError::OutOfMemory) => Err(OutOfMemory),
        Err(TakeError::BadDatagram(_)) => unreachable!(),
    }
}

impl ControlSide {
    /// Takes the datagram of that number, from 1, of those that the other side wrote. The events that arise are told,
    /// in order, in place of what the vector held.
    ///
    /// Answers false, and does nothing, where no datagram of that number can be named. After an error the side may
    /// have read the datagram, and told some events.
    pub fn take(
        &mut self,
        other: &ControlSide,
        number: u64,
        now: u32,
        events: &mut Vec<PeerEvent>,
    ) -> Result<bool, OutOfMemory>
        ensures { IfOk result (λ took. (x y : Side) → IsSideOf self.old x → IsSideOf other.now y
            → SideTakes x y number now took events.new.items self.new) }
    {
        let Some(datagram) = other.wrote.get(number) else {
            return Ok(false);
        };
        give(&mut self.peer, datagram.as_bytes(), now)?;
        self.up = tell_all(&mut self.peer, self.up, events)?;
        Ok(true)
    }
}
