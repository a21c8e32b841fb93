//! Fields in network byte order: the highest byte first.

ghost use Rattle.std.specs.Prelude.{◌≡◌, ◌+◌, ◌++◌, ◌≤◌, drop, length, take};
ghost use Rattle.gs_bytes.specs.Field.{big_bytes, big_from};

use byteorder::{BigEndian, ByteOrder};

/// The number in the 2 bytes at `place`.
pub fn read_u16_be(bytes: &[u8], place: usize) -> u16
    requires { place + 2 ≤ length bytes.now }
    ensures { result ≡ big_from place 2 bytes.now }
{
    BigEndian::read_u16(&bytes[place..])
}

/// Writes the number into the 2 bytes at `place`.
pub fn write_u16_be(out: &mut [u8], place: usize, value: u16)
    requires { place + 2 ≤ length out.old }
    ensures { out.new ≡ take place out.old ++ big_bytes 2 value ++ drop (place + 2) out.old }
{
    BigEndian::write_u16(&mut out[place..], value);
}

/// The number in the 4 bytes at `place`.
pub fn read_u32_be(bytes: &[u8], place: usize) -> u32
    requires { place + 4 ≤ length bytes.now }
    ensures { result ≡ big_from place 4 bytes.now }
{
    BigEndian::read_u32(&bytes[place..])
}

/// Writes the number into the 4 bytes at `place`.
pub fn write_u32_be(out: &mut [u8], place: usize, value: u32)
    requires { place + 4 ≤ length out.old }
    ensures { out.new ≡ take place out.old ++ big_bytes 4 value ++ drop (place + 4) out.old }
{
    BigEndian::write_u32(&mut out[place..], value);
}

/// The number in the 8 bytes at `place`.
pub fn read_u64_be(bytes: &[u8], place: usize) -> u64
    requires { place + 8 ≤ length bytes.now }
    ensures { result ≡ big_from place 8 bytes.now }
{
    BigEndian::read_u64(&bytes[place..])
}

/// Writes the number into the 8 bytes at `place`.
pub fn write_u64_be(out: &mut [u8], place: usize, value: u64)
    requires { place + 8 ≤ length out.old }
    ensures { out.new ≡ take place out.old ++ big_bytes 8 value ++ drop (place + 8) out.old }
{
    BigEndian::write_u64(&mut out[place..], value);
}
