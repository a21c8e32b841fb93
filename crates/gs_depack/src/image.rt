// Reading the image of a frame.

ghost use Rattle.std.specs.Prelude.{◌≡◌, ◌≤◌, length, MatchOption};
ghost use Rattle.gs_frames.specs.Image.{frame_of, header_length, holds_frame, is_kind, kind_of, last_read};
ghost use Rattle.gs_frames.specs.Image.{unit_length};
ghost use Rattle.gs_depack.specs.ImageHead.{IsHeadOf};

use byteorder::{ByteOrder, LittleEndian};
use gs_frames::IMAGE_HEADER_LENGTH;
use gs_rtp::{BLOCKS_GREATEST, SHARDS_GREATEST};

/// The most payloads of an image.
pub const IMAGE_PACKETS_GREATEST: usize = BLOCKS_GREATEST * SHARDS_GREATEST as usize;

// The first byte of each image.
const MARK: u8 = 1;

// Where the kind and the length of the last payload stand.
const KIND: usize = 3;

const LAST_LENGTH: usize = 4;

// Another spelling of kind 1.
const KIND_FOUR: u8 = 4;

/// What the header of an image says: the frame's kind (1 a unit against the frame before, 2 an IDR unit, 5 a unit
/// against an older frame) and the length of its unit, which stands from place 8 on.
#[derive(Clone, Copy, Debug, PartialEq, Eq)]
pub struct ImageHead {
    pub kind: u8,
    pub length: u32,
}

// The length of the last payload.
fn last_length(image: &[u8]) -> u16
    requires { header_length ≤ length image.now }
    ensures { result ≡ last_read image.now }
{
    LittleEndian::read_u16(&image[LAST_LENGTH..])
}

// Whether a byte is a kind.
fn is_known(kind: u8) -> bool
    ensures { result ≡ is_kind kind }
{
    kind == 1 || kind == 2 || kind == KIND_FOUR || kind == 5
}

// The kind that a byte spells.
fn spelled(kind: u8) -> u8
    ensures { result ≡ kind_of kind }
{
    if kind == KIND_FOUR { 1 } else { kind }
}

// Whether the bytes are whole payloads of the size behind a header in order.
fn is_image(image: &[u8], payload: usize) -> bool
    ensures { result ≡ holds_frame payload image.now }
{
    if payload < IMAGE_HEADER_LENGTH || image.len() % payload != 0 {
        return false;
    }
    let packets = image.len() / payload;
    if packets < 1 || packets > IMAGE_PACKETS_GREATEST {
        return false;
    }
    let last = usize::from(last_length(image));
    image[0] == MARK
        && is_known(image[KIND])
        && last >= 1
        && last <= payload
        && (packets != 1 || last >= IMAGE_HEADER_LENGTH)
}

/// Reads the image of a frame whose packets have payloads of this size. None exactly where the bytes aren't an image:
/// whole payloads of at least 8 bytes, at most `IMAGE_PACKETS_GREATEST` of them, with a header in order. What follows
/// the unit has no meaning.
pub fn read_image(image: &[u8], payload: u16) -> Option<ImageHead>
    ensures { MatchOption result (frame_of payload image.now ≡ None) (λ head. IsHeadOf payload image.now head) }
{
    let payload = usize::from(payload);
    if !is_image(image, payload) {
        return None;
    }
    let full = image.len() / payload - 1;
    let length = full * payload + usize::from(last_length(image)) - IMAGE_HEADER_LENGTH;
    Some(ImageHead {
        kind: spelled(image[KIND]),
        length: length as u32,
    })
}
