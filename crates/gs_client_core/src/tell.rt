// What a depack is told of a datagram.

ghost use Rattle.std.specs.Prelude.{ℕ, ◌≡◌, ◌≤◌, ◌∷◌, List, Option, None};
ghost use Rattle.gs_frames.specs.Client.{ClientSettings, HasWindow, Arrival, Datagram};
ghost use Rattle.gs_frames.specs.declared.verdict.Added.TheVariants.{FrameWhole};
ghost use Rattle.gs_frames.specs.Shards.{packet_header};
ghost use Rattle.gs_frames.specs.Verdict.{verdict};
ghost use Rattle.gs_frames.specs.Handed.{handed};
ghost use Rattle.gs_frames.specs.Asks.{newly_asked};
ghost use Rattle.gs_fecqueue.specs.declared.moved.Moved.{Moved};
ghost use Rattle.gs_fecqueue.specs.Moves.{moved_by};
ghost use Rattle.gs_fecqueue.specs.Standing.{IsQueueOf};
ghost use Rattle.gs_depack.specs.Depack.{Handing, IsDepackOf};
ghost use Rattle.gs_client_core.specs.Steps.{IsArrivalTold, IsNowWhole};

use gs_depack::{Depack, read_image};
use gs_fecqueue::{Moved, Queue};
use gs_frames::{Added, Range};
use gs_rtp::read_video;

// How much of a packet isn't payload.
pub(crate) const PACKET_HEADER: u16 = 16;

// Tells what a datagram moved, and answers the range to ask for.
pub(crate) fn tell_moved(depack: &mut Depack, moved: &Option<Moved>) -> Option<Range>
    ensures asks { (c : ClientSettings) (came : List Arrival) (bytes : List ℕ) → HasWindow c
        → IsDepackOf depack.old c came → moved.now ≡ moved_by c came bytes
        → result ≡ newly_asked c (Datagram bytes) came }
    ensures tells { (c : ClientSettings) (came : List Arrival) (bytes : List ℕ) → HasWindow c
        → IsDepackOf depack.old c came → moved.now ≡ moved_by c came bytes
        → IsArrivalTold depack.new c came bytes moved.now }
{
    match moved {
        Some(moved) => depack.moved(moved),
        None => None,
    }
}

// Notes a frame that a datagram made whole, where its image is a frame's.
fn note_frame(depack: &mut Depack, queue: &Queue, packet: u16, frame: u32)
    requires packet { packet_header ≤ packet }
    ensures { (c : ClientSettings) (came : List Arrival) (bytes : List ℕ) (moved : Option Moved) → HasWindow c
        → packet ≡ c.stream.packet → IsQueueOf queue.now c (Datagram bytes ∷ came)
        → IsArrivalTold depack.old c came bytes moved → (is : IsNowWhole c came bytes) → frame ≡ is.at.r.head.frame
        → Handing depack.new c (Datagram bytes ∷ came) None (handed c came) }
{
    match read_image(queue.image(frame), packet - PACKET_HEADER) {
        Some(image) => depack.note(frame, image.kind),
        None => (),
    }
}

// Notes the frame of a datagram that made it whole.
fn note_whole(depack: &mut Depack, queue: &Queue, packet: u16, datagram: &[u8])
    requires packet { packet_header ≤ packet }
    ensures { (c : ClientSettings) (came : List Arrival) (moved : Option Moved) → HasWindow c
        → packet ≡ c.stream.packet → IsQueueOf queue.now c (Datagram datagram.now ∷ came)
        → verdict c came datagram.now ≡ FrameWhole
        → IsArrivalTold depack.old c came datagram.now moved
        → Handing depack.new c (Datagram datagram.now ∷ came) None (handed c came) }
{
    match read_video(datagram, packet) {
        Some(head) => note_frame(depack, queue, packet, head.frame),
        None => (),
    }
}

// Tells whether a datagram made its frame complete.
pub(crate) fn tell_complete(
    depack: &mut Depack,
    queue: &Queue,
    packet: u16,
    what: Added,
    datagram: &[u8],
)
    requires packet { packet_header ≤ packet }
    ensures { (c : ClientSettings) (came : List Arrival) (moved : Option Moved) → HasWindow c
        → packet ≡ c.stream.packet → IsQueueOf queue.now c (Datagram datagram.now ∷ came)
        → what ≡ verdict c came datagram.now
        → IsArrivalTold depack.old c came datagram.now moved
        → Handing depack.new c (Datagram datagram.now ∷ came) None (handed c came) }
{
    match what {
        Added::FrameWhole => note_whole(depack, queue, packet, datagram),
        _ => (),
    }
}
