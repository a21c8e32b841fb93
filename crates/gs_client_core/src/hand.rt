// Which frames are handed, and their units.

ghost use Rattle.std.specs.Prelude.{◌≡◌, ◌≤◌, ◌+◌, List, length, Some, None};
ghost use Rattle.gs_frames.specs.Client.{ClientSettings, Arrival, most_window};
ghost use Rattle.gs_frames.specs.Shards.{packet_header};
ghost use Rattle.gs_frames.specs.Handed.{Handed, handed};
ghost use Rattle.gs_fecqueue.specs.Standing.{IsQueueOf};
ghost use Rattle.gs_depack.specs.Depack.{Handing};
ghost use Rattle.gs_client_core.specs.Given.{frames_of, handed_at, in_places, AreGiven};
ghost use Rattle.gs_client_core.specs.Steps.{HandsRest, IsHandReady, AreReady, PlaceGives};

use crate::given::Given;
use crate::tell::PACKET_HEADER;
use gs_depack::{Depack, read_image};
use gs_fecqueue::Queue;
use gs_frames::{IMAGE_HEADER_LENGTH, WINDOW_GREATEST};

// The frames that are to be handed, which are as many as a window has, at most.
pub(crate) fn next_frames(depack: &mut Depack) -> [Option<u32>; WINDOW_GREATEST]
    ensures { (c : ClientSettings) (came : List Arrival) (given : List Handed) → Handing depack.old c came None given
        → length (handed c came) ≤ length given + most_window → HandsRest depack.new c came given result }
{
    let frames = [depack.next(), depack.next(), depack.next(), depack.next()];
    // no more wait, but frames that were lost behind the last one may have to be passed by
    depack.next();
    frames
}

// The unit of a frame that is handed.
fn unit_of(queue: &Queue, packet: u16, frame: u32) -> Option<Given<'_>>
    requires packet { packet_header ≤ packet }
    ensures { (c : ClientSettings) (came : List Arrival) (h : Handed) → packet ≡ c.stream.packet
        → IsQueueOf queue.now c came → IsHandReady c came h → frame ≡ h.frame → handed_at result ≡ Some h }
{
    let image = queue.image(frame);
    match read_image(image, packet - PACKET_HEADER) {
        Some(head) => Some(Given {
            frame,
            kind: head.kind,
            bytes: &image[IMAGE_HEADER_LENGTH..IMAGE_HEADER_LENGTH + head.length as usize],
        }),
        None => None,
    }
}

// What is given in a place.
fn unit_in(queue: &Queue, packet: u16, place: Option<u32>) -> Option<Given<'_>>
    requires packet { packet_header ≤ packet }
    ensures { (c : ClientSettings) (came : List Arrival) → packet ≡ c.stream.packet → IsQueueOf queue.now c came
        → PlaceGives c came place result }
{
    match place {
        Some(frame) => unit_of(queue, packet, frame),
        None => None,
    }
}

// The units of the frames that are handed.
pub(crate) fn units_of<'a>(
    queue: &'a Queue,
    packet: u16,
    frames: &[Option<u32>; WINDOW_GREATEST],
) -> [Option<Given<'a>>; WINDOW_GREATEST]
    requires packet { packet_header ≤ packet }
    ensures { (c : ClientSettings) (came : List Arrival) (hs : List Handed) → packet ≡ c.stream.packet
        → IsQueueOf queue.now c came → AreReady c came hs → frames.now ≡ in_places (frames_of hs)
        → AreGiven result hs }
{
    [
        unit_in(queue, packet, frames[0]),
        unit_in(queue, packet, frames[1]),
        unit_in(queue, packet, frames[2]),
        unit_in(queue, packet, frames[3]),
    ]
}
