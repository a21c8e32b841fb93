// Payloads of a frame's image, cut from its unit.

ghost use Rattle.std.specs.Prelude.{◌≡◌, ◌≤◌, ◌+◌, ◌-◌, ◌*◌, ◌++◌, length, take, drop, min, replicate};
ghost use Rattle.gs_bytes.specs.Limits.{most_unit};
ghost use Rattle.gs_frames.specs.Image.{frame_image, last_length, packets};
ghost use Rattle.gs_frames.specs.Shards.{most_payload};

use gs_frames::{IMAGE_HEADER_LENGTH, write_image_header};

// Writes as many of the bytes as have room, and zeros behind them.
fn write_padded(bytes: &[u8], out: &mut [u8])
    ensures { out.new ≡ take (length out.old) bytes.now ++ replicate (length out.old - length bytes.now) 0 }
{
    let written = bytes.len().min(out.len());
    out[..written].copy_from_slice(&bytes[..written]);
    out[written..].fill(0);
}

// How much of its last payload of this size a unit takes, with its image's header.
fn last_length_of(length: usize, payload: usize) -> u16
    requires payload { 8 ≤ payload }
    requires most { payload ≤ most_payload }
    requires limit { length ≤ most_unit }
    ensures { result ≡ last_length length payload }
{
    match (IMAGE_HEADER_LENGTH + length) % payload {
        0 => payload as u16,
        rest => rest as u16,
    }
}

// Writes a payload of the image of a unit: the one of this number, from 0.
pub(crate) fn write_payload(kind: u8, unit: &[u8], number: usize, out: &mut [u8])
    requires payload { 8 ≤ length out.old }
    requires most { length out.old ≤ most_payload }
    requires limit { length unit.now ≤ most_unit }
    requires number { number + 1 ≤ packets (length unit.now) (length out.old) }
    ensures { out.new
        ≡ take (length out.old) (drop (number * length out.old) (frame_image kind unit.now (length out.old))) }
{
    if number == 0 {
        write_image_header(kind, last_length_of(unit.len(), out.len()), out);
        write_padded(unit, &mut out[IMAGE_HEADER_LENGTH..]);
    } else {
        write_padded(&unit[number * out.len() - IMAGE_HEADER_LENGTH..], out);
    }
}
