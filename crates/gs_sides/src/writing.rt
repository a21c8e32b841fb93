//! What a side writes.

ghost use Rattle.std.specs.Prelude.{◌≡◌, ◌<◌, true, IfOk, OnOk, IfSome};
ghost use Rattle.gs_enet.specs.Record.{PeerRecord};
ghost use Rattle.gs_enet.specs.Standing.{IsPeerOf};
ghost use Rattle.gs_enet.specs.World.{Side};
ghost use Rattle.gs_sides.specs.Known.{HasRecord, HasList, IsWrittenBytes};
ghost use Rattle.gs_enet.specs.Sides.{written_out};
ghost use Rattle.gs_sides.specs.Steps.{items_due, WritesSome, IsPutBehind};
ghost use Rattle.gs_sides.specs.Standing.{IsSideOf};
ghost use Rattle.gs_sides.specs.Outcomes.{SideWritesNext};

use crate::ControlSide;
use gs_bytes::{OutOfMemory, Text};
use gs_enet::{DATAGRAM_ROOM, Peer};
use gs_store::Store;
use std::alloc::Global;

/// The bytes of the peer's next datagram, if anything is to be written.
fn next_bytes(alloc: Global, peer: &mut Peer, now: u32) -> Result<Option<Text>, OutOfMemory>
    requires { HasRecord peer.old }
    ensures known { HasRecord peer.new }
    ensures written { IfOk result (λ bytes. (r : PeerRecord) → IsPeerOf peer.old r
        → WritesSome r now bytes peer.new) }
    ensures spelled { IfOk result (λ bytes. IfSome bytes IsWrittenBytes) }
{
    let mut out = [0; DATAGRAM_ROOM];
    let Some(length) = peer.next_out(now, &mut out) else {
        return Ok(None);
    };
    Ok(Some(Text::copy_of(alloc, &out[..length])?))
}

/// Keeps a datagram that was written.
fn keep(wrote: &mut Store<Text>, bytes: Text) -> Result<(), OutOfMemory>
    requires known { HasList wrote.old }
    requires written { IsWrittenBytes bytes }
    ensures known { HasList wrote.new }
    ensures put { OnOk result (IsPutBehind bytes wrote.old wrote.new) }
{
    wrote.put(bytes)
}

impl ControlSide {
    /// Writes all that is due. After an error a part of it may be written.
    pub fn write_out(&mut self, now: u32) -> Result<(), OutOfMemory>
        ensures { OnOk result ((x : Side) → IsSideOf self.old x → IsSideOf self.new (written_out now x)) }
    {
        'datagrams: while self.write_next(now)? {}
        Ok(())
    }

    /// Writes the next datagram, if anything is to be written, and tells whether it did.
    fn write_next(&mut self, now: u32) -> Result<bool, OutOfMemory>
        ensures written { IfOk result
            (λ wrote. (x : Side) → IsSideOf self.old x → SideWritesNext x now wrote self.new) }
        ensures fewer { IfOk result (λ wrote. wrote ≡ true → items_due self.new.peer < items_due self.old.peer) }
    {
        let Some(bytes) = next_bytes(self.alloc, &mut self.peer, now)? else {
            return Ok(false);
        };
        keep(&mut self.wrote, bytes)?;
        Ok(true)
    }
}
