//! The spaces at the ends of a text.

ghost use Rattle.std.specs.Prelude.{◌≡◌};
ghost use Rattle.gs_bytes.specs.Words.{trimmed, without_first_spaces, without_last_spaces};

/// The bytes without the spaces at their front.
pub fn trim_start(bytes: &[u8]) -> &[u8]
    ensures { result.now ≡ without_first_spaces bytes.now }
{
    let mut rest = bytes;
    while let [b' ', after @ ..] = rest {
        rest = after;
    }
    rest
}

/// The bytes without the spaces at their end.
pub fn trim_end(bytes: &[u8]) -> &[u8]
    ensures { result.now ≡ without_last_spaces bytes.now }
{
    let mut rest = bytes;
    while let [before @ .., last] = rest {
        if *last != b' ' {
            return rest;
        }
        rest = before;
    }
    rest
}

/// The bytes without the spaces at their ends.
pub fn trim(bytes: &[u8]) -> &[u8]
    ensures { result.now ≡ trimmed bytes.now }
{
    trim_end(trim_start(bytes))
}
