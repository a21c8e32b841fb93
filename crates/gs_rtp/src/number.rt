// Numbers at a place of a slice.

ghost use Rattle.std.specs.Prelude.{◌≡◌, ◌≤◌, ◌+◌, length};
ghost use Rattle.byteorder.specs.Endian.{big_from, little_from};

use byteorder::{BigEndian, ByteOrder, LittleEndian};

// The number of two bytes at a place, the highest byte first.
pub(crate) fn big_u16(bytes: &[u8], place: usize) -> u16
    requires { place + 2 ≤ length bytes.now }
    ensures { result ≡ big_from place 2 bytes.now }
{
    BigEndian::read_u16(&bytes[place..])
}

// The number of four bytes at a place, the highest byte first.
pub(crate) fn big_u32(bytes: &[u8], place: usize) -> u32
    requires { place + 4 ≤ length bytes.now }
    ensures { result ≡ big_from place 4 bytes.now }
{
    BigEndian::read_u32(&bytes[place..])
}

// The number of four bytes at a place, the lowest byte first.
pub(crate) fn little_u32(bytes: &[u8], place: usize) -> u32
    requires { place + 4 ≤ length bytes.now }
    ensures { result ≡ little_from place 4 bytes.now }
{
    LittleEndian::read_u32(&bytes[place..])
}
