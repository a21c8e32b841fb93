// The header of a frame's image.

ghost use Rattle.std.specs.Prelude.{◌≡◌, ◌≤◌, ◌++◌, length, drop};
ghost use Rattle.gs_frames.specs.Image.{image_header};

use byteorder::{ByteOrder, LittleEndian};

/// The length of the header that `write_image_header` writes.
pub const IMAGE_HEADER_LENGTH: usize = 8;

// The first byte of each image.
const MARK: u8 = 1;

// Where the length of the last payload stands. Before it are the mark, a latency of two bytes and the kind.
const LAST_LENGTH: usize = 4;

/// Writes the header of an image in front of its unit: the frame's kind (1 a unit against the frame
/// before, 2 an IDR unit, 5 a unit against an older frame), and how many bytes of the last payload the
/// header and the unit take.
pub fn write_image_header(kind: u8, last: u16, out: &mut [u8])
    requires room { IMAGE_HEADER_LENGTH ≤ length out.old }
    ensures { out.new ≡ image_header kind last ++ drop 8 out.old }
{
    let mut header = [MARK, 0, 0, kind, 0, 0, 0, 0];
    LittleEndian::write_u16(&mut header[LAST_LENGTH..], last);
    out[..IMAGE_HEADER_LENGTH].copy_from_slice(&header);
}
