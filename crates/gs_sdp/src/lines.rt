//! Reading attribute lines.

ghost use Rattle.std.specs.Prelude.{◌≡◌};
ghost use Rattle.std.specs.Option.{option_copied};
ghost use Rattle.gs_sdp.specs.Lines.{behind_prefix, without_cr as without_cr_of, value_in as value_in_of};
ghost use Rattle.gs_sdp.specs.Lines.{later as later_of, last_value as last_value_of};

use gs_bytes::trim_end;

/// The bytes behind a prefix, where it is one.
fn behind<'a>(prefix: &[u8], bytes: &'a [u8]) -> Option<&'a [u8]>
    ensures { option_copied result ≡ behind_prefix prefix.now bytes.now }
{
    bytes.strip_prefix(prefix)
}

/// A line without the CR at its end, if there is one.
fn without_cr(line: &[u8]) -> &[u8]
    ensures { result.now ≡ without_cr_of line.now }
{
    if let [front @ .., last] = line {
        if *last == b'\r' {
            return front;
        }
    }
    line
}

/// The value of an attribute line of this name.
fn value_in<'a>(name: &[u8], line: &'a [u8]) -> Option<&'a [u8]>
    ensures { option_copied result ≡ value_in_of name.now line.now }
{
    let named = behind(b"a=", without_cr(line))?;
    let rest = behind(name, named)?;
    let value = behind(b":", rest)?;
    Some(trim_end(value))
}

/// The later of two values, where there is one.
fn later<'a>(earlier: Option<&'a [u8]>, value: Option<&'a [u8]>) -> Option<&'a [u8]>
    ensures { option_copied result ≡ later_of (option_copied earlier.entry) (option_copied value.entry) }
{
    match value {
        None => earlier,
        Some(_) => value,
    }
}

/// The last value that attribute lines of a name give, without the spaces at its end.
pub fn last_value<'a>(body: &'a [u8], name: &[u8]) -> Option<&'a [u8]>
    ensures { option_copied result ≡ last_value_of name.now body.now }
{
    let mut found = None;
    let mut start = 0;
    for (i, byte) in body.iter().enumerate() {
        if *byte == b'\n' {
            found = later(found, value_in(name, &body[start..i]));
            start = i + 1;
        }
    }
    found
}
