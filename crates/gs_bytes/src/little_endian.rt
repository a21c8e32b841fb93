//! Fields with the lowest byte first.

ghost use Rattle.std.specs.Prelude.{◌≡◌, ◌+◌, ◌++◌, ◌≤◌, drop, length, take};
ghost use Rattle.std.specs.Int.{cast_signed, cast_unsigned, w64};
ghost use Rattle.gs_bytes.specs.Field.{little_bytes, little_from};

use byteorder::{ByteOrder, LittleEndian};

/// The number in the 2 bytes at `place`.
pub fn read_u16_le(bytes: &[u8], place: usize) -> u16
    requires { place + 2 ≤ length bytes.now }
    ensures { result ≡ little_from place 2 bytes.now }
{
    LittleEndian::read_u16(&bytes[place..])
}

/// Writes the number into the 2 bytes at `place`.
pub fn write_u16_le(out: &mut [u8], place: usize, value: u16)
    requires { place + 2 ≤ length out.old }
    ensures { out.new ≡ take place out.old ++ little_bytes 2 value ++ drop (place + 2) out.old }
{
    LittleEndian::write_u16(&mut out[place..], value);
}

/// The number in the 4 bytes at `place`.
pub fn read_u32_le(bytes: &[u8], place: usize) -> u32
    requires { place + 4 ≤ length bytes.now }
    ensures { result ≡ little_from place 4 bytes.now }
{
    LittleEndian::read_u32(&bytes[place..])
}

/// Writes the number into the 4 bytes at `place`.
pub fn write_u32_le(out: &mut [u8], place: usize, value: u32)
    requires { place + 4 ≤ length out.old }
    ensures { out.new ≡ take place out.old ++ little_bytes 4 value ++ drop (place + 4) out.old }
{
    LittleEndian::write_u32(&mut out[place..], value);
}

/// The number in the 8 bytes at `place`.
pub fn read_u64_le(bytes: &[u8], place: usize) -> u64
    requires { place + 8 ≤ length bytes.now }
    ensures { result ≡ little_from place 8 bytes.now }
{
    LittleEndian::read_u64(&bytes[place..])
}

/// Writes the number into the 8 bytes at `place`.
pub fn write_u64_le(out: &mut [u8], place: usize, value: u64)
    requires { place + 8 ≤ length out.old }
    ensures { out.new ≡ take place out.old ++ little_bytes 8 value ++ drop (place + 8) out.old }
{
    LittleEndian::write_u64(&mut out[place..], value);
}

/// The number in two's complement in the 8 bytes at `place`.
pub fn read_i64_le(bytes: &[u8], place: usize) -> i64
    requires { place + 8 ≤ length bytes.now }
    ensures { result ≡ cast_signed w64 (little_from place 8 bytes.now) }
{
    read_u64_le(bytes, place).cast_signed()
}

/// Writes the number in two's complement into the 8 bytes at `place`.
pub fn write_i64_le(out: &mut [u8], place: usize, value: i64)
    requires { place + 8 ≤ length out.old }
    ensures { out.new ≡ take place out.old ++ little_bytes 8 (cast_unsigned w64 value) ++ drop (place + 8) out.old }
{
    LittleEndian::write_i64(&mut out[place..], value);
}
