//! What is owed to the other side.

ghost use Rattle.std.specs.Prelude.{IfOk};
ghost use Rattle.gs_enet.specs.Record.{PeerRecord};
ghost use Rattle.gs_enet.specs.Standing.{IsPeerOf};
ghost use Rattle.gs_enet.specs.World.{Side};
ghost use Rattle.gs_client_core.specs.Owed.{SendsOwed};
ghost use Rattle.gs_sides.specs.Known.{HasRecord};
ghost use Rattle.gs_sides.specs.Standing.{IsSideOf};
ghost use Rattle.gs_sides.specs.Outcomes.{GivesOwed};

use crate::ControlSide;
use gs_bytes::OutOfMemory;
use gs_client_core::Asker;
use gs_enet::Peer;

/// The channel on which a client asks.
const REQUEST_CHANNEL: usize = 1;

/// Gives a peer what is owed, and answers how many went.
fn offer_owed(peer: &mut Peer, asker: &mut Asker) -> Result<u32, OutOfMemory>
    requires { HasRecord peer.old }
    ensures known { HasRecord peer.new }
    ensures sent { (r : PeerRecord) → IsPeerOf peer.old r → SendsOwed r asker.old asker.new result peer.new }
{
    asker.send_owed(peer)
}

impl ControlSide {
    /// Gives what is owed, in order on channel 1, as far as the window takes it and while messages can be given. What
    /// went is owed no more. Answers how many went. After an error some of them may have gone.
    ///
    /// `OutOfMemory` is answered too where the count of the channel's messages, of 64 bits, is at its end.
    pub fn give_owed(&mut self, asker: &mut Asker) -> Result<u32, OutOfMemory>
        ensures { IfOk result (λ count. (x : Side) → IsSideOf self.old x
            → GivesOwed x asker.old asker.new count self.new) }
    {
        let count = offer_owed(&mut self.peer, asker)?;
        let Some(given) = self.given[REQUEST_CHANNEL].checked_add(u64::from(count)) else {
            return Err(OutOfMemory);
        };
        self.given[REQUEST_CHANNEL] = given;
        Ok(count)
    }
}
