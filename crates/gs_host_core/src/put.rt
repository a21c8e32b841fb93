// The datagrams of a frame, on a link.

ghost use Rattle.std.specs.Prelude.{◌≡◌, ◌≤◌, OnErr, OnOk, length};
ghost use Rattle.gs_bytes.specs.Link.{IsCountedLink};
ghost use Rattle.gs_rtp.specs.Limits.{most_packet};
ghost use Rattle.gs_frames.specs.Datagrams.{OutgoingFrame, frame_datagrams};
ghost use Rattle.gs_split.specs.Splitting.{IsLoaded};
ghost use Rattle.gs_host_core.specs.Puts.{PutsAll, PutsFront, link_told};

use gs_bytes::{Addr, Failed, Link};
use gs_rtp::DATAGRAM_GREATEST;
use gs_split::Splitter;

// Puts the datagrams of the loaded frame, as many as it has.
pub(crate) fn put_frame<L: Link>(
    splitter: &mut Splitter,
    datagrams: u32,
    unit: &[u8],
    link: &mut L,
    to: Addr,
) -> Result<(), Failed>
    requires count { datagrams ≡ splitter.old.datagrams }
    requires unit { length unit.now ≡ splitter.old.unit_length }
    requires packet { splitter.old.settings.packet ≤ most_packet }
    ensures kept { splitter.new ≡ splitter.old }
    ensures whole { (sent : OutgoingFrame) → IsLoaded splitter.old sent → sent.unit ≡ unit.now
        → OnOk result (PutsAll (link_told L.Link link.old) (link_told L.Link link.new) to
        (frame_datagrams splitter.old.settings sent)) }
    ensures front { (sent : OutgoingFrame) → IsLoaded splitter.old sent → sent.unit ≡ unit.now
        → OnErr result (PutsFront (link_told L.Link link.old) (link_told L.Link link.new) to
        (frame_datagrams splitter.old.settings sent)) }
    ensures counted { IsCountedLink (L.faults link.old) (L.faults link.new) result }
{
    let mut out = [0; DATAGRAM_GREATEST];
    'datagrams: for k in 0..datagrams {
        let length = splitter.datagram(k, unit, &mut out);
        link.put(to, &out[..length])?;
    }
    Ok(())
}
