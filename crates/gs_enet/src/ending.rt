//! How a connection ends.

ghost use Rattle.std.specs.Prelude.{◌≡◌, ◌↔◌, IsTrue, []};
ghost use Rattle.gs_enet.specs.Record.{PeerRecord};
ghost use Rattle.gs_enet.specs.Receive.{leaving};
ghost use Rattle.gs_enet.specs.Steps.{closed};
ghost use Rattle.gs_enet.specs.Rooms.{Grows};
ghost use Rattle.gs_enet.specs.Standing.{IsPeerOf, held_by};

use crate::control::{Control, ControlKind};
use crate::holding::nothing_held;
use crate::{Peer, PeerState};

impl Peer {
    /// Closes the connection: a DISCONNECT, with 0 as its `data`, is due once everything that was sent is
    /// acknowledged. Where the connection isn't up, nothing happens.
    pub fn close(&mut self)
        ensures { (r : PeerRecord) → IsPeerOf self.old r → IsPeerOf self.new (closed r) }
    {
        if self.state.is_open() {
            self.state = PeerState::Closing;
            self.leave();
        }
    }

    /// A closing side disconnects once all that it sent is acknowledged.
    pub(crate) fn leave(&mut self)
        ensures stands { (r : PeerRecord) → IsPeerOf self.old r → IsPeerOf self.new (leaving r) }
        ensures grows { Grows 0 0 self.old self.new }
    {
        if !self.state.is_closing() || !self.holds_nothing() {
            return;
        }
        self.last_control += 1;
        self.control = Some(Control::new(ControlKind::Disconnect, self.last_control));
    }

    /// Whether every command is acknowledged.
    fn holds_nothing(&self) -> bool
        ensures { IsTrue result ↔ (held_by self.now ≡ []) }
    {
        self.control.is_none() && nothing_held(&self.channels)
    }
}
