//! The smallest parts of a text: literals, tokens and numbers.
//!
//! Each reader answers what it read and the bytes behind it, or where it stops.

ghost use Rattle.std.specs.Prelude.{◌≡◌};
ghost use Rattle.gs_rtsp_text.specs.Bytes.{class_test};
ghost use Rattle.gs_rtsp_text.specs.Reading.{StopsAlike, literal_at, token_at, decimal_at};

use crate::stop::Stop;

/// The number of a CSeq is below this.
const SEQUENCE_LIMIT: u64 = 1 << 31;

/// A class of bytes.
#[derive(Clone, Copy)]
pub(crate) enum ByteClass {
    /// A byte of a target.
    Target,
    /// A byte of a header's name.
    Name,
    /// A byte of a header's value.
    Value,
    /// The space.
    Space,
}

impl ByteClass {
    fn has(self, byte: u8) -> bool
        ensures { result ≡ class_test self byte }
    {
        match self {
            ByteClass::Target => (0x21..=0x7E).contains(&byte),
            ByteClass::Name => byte.is_ascii_alphanumeric() || byte == b'-',
            ByteClass::Value => (0x20..=0x7E).contains(&byte),
            ByteClass::Space => byte == b' ',
        }
    }
}

/// Reads these very bytes.
pub(crate) fn literal<'a>(text: &[u8], bytes: &'a [u8]) -> Result<&'a [u8], Stop>
    ensures { StopsAlike (λ rest. rest.now) result (literal_at text.now bytes.now) }
{
    for (i, want) in text.iter().enumerate() {
        match bytes.get(i) {
            None => return Err(Stop::More),
            Some(byte) => {
                if *byte != *want {
                    return Err(Stop::Bad(bytes.len() - i));
                }
            }
        }
    }
    Ok(&bytes[text.len()..])
}

/// Reads bytes of a class, to the byte behind them that ends them. There is one at least, unless
/// the end may stand first.
pub(crate) fn token(
    class: ByteClass,
    last: u8,
    may_end: bool,
    bytes: &[u8],
) -> Result<(&[u8], &[u8]), Stop>
    ensures { StopsAlike (λ x. (x.0.now, x.1.now)) result (token_at (class_test class) last may_end bytes.now) }
{
    for (i, byte) in bytes.iter().enumerate() {
        if !class.has(*byte) {
            if *byte == last && (may_end || i > 0) {
                return Ok((&bytes[..i], &bytes[i + 1..]));
            }
            return Err(Stop::Bad(bytes.len() - i));
        }
    }
    Err(Stop::More)
}

/// Reads the digits of a number below 2^31, to the byte behind them.
pub(crate) fn number(bytes: &[u8]) -> Result<(&[u8], &[u8]), Stop>
    ensures { StopsAlike (λ x. (x.0.now, x.1.now)) result (decimal_at bytes.now) }
{
    let mut value: u64 = 0;
    for (i, byte) in bytes.iter().enumerate() {
        if !byte.is_ascii_digit() {
            if i == 0 {
                return Err(Stop::Bad(bytes.len()));
            }
            return Ok((&bytes[..i], &bytes[i..]));
        }
        let next = 10 * value + u64::from(*byte - b'0');
        if i > 0 && (value == 0 || next >= SEQUENCE_LIMIT) {
            return Err(Stop::Bad(bytes.len() - i));
        }
        value = next;
    }
    Err(Stop::More)
}
