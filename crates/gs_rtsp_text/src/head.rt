//! Heads: the header lines of a message and the empty line.

ghost use Rattle.std.specs.Prelude.{◌≡◌, ◌≤◌, ◌+◌, ◌||◌, [], IfOk, MatchResult, None, length, min, if◌then◌else◌};
ghost use Rattle.gs_bytes.specs.Numbers.{decimal_up_to};
ghost use Rattle.gs_rtsp_text.specs.Lines.{is_cseq, is_content_length, most_body};
ghost use Rattle.gs_rtsp_text.specs.Message.{count_test};
ghost use Rattle.gs_rtsp_text.specs.Reading.{GivesSize, HasRest, IsRestOf, IsStopWithin, begins_with_cr, rest_of_head};

use crate::header::Header;
use crate::limits::MOST_BODY;
use crate::lines::{HeaderParts, header_parts, names_content_length, names_cseq};
use crate::scan::literal;
use crate::stop::Stop;
use gs_bytes::{OutOfMemory, Text, parse_number};
use std::alloc::Global;

/// The kinds of message.
#[derive(Clone, Copy)]
pub(crate) enum Kind {
    /// It has exactly one CSeq.
    Request,
    /// It may lack it.
    Response,
}

/// What the header lines so far give.
#[derive(Clone, Copy)]
struct Counts {
    /// How many are a CSeq, two for more.
    sequences: u8,
    /// Whether one gives the length of the body.
    given: bool,
    /// The length of the body, where no header line is wrong about it.
    size: Option<u32>,
}

impl Counts {
    /// Counts a header line more.
    fn count(self, name: &[u8], value: &[u8]) -> Counts
        requires { self.sequences ≤ 2 }
        ensures sequences { result.sequences ≡ (if is_cseq name.now then min (self.sequences + 1) 2
            else self.sequences) }
        ensures given { result.given ≡ (self.given || is_content_length name.now) }
        ensures size { result.size ≡ (if is_content_length name.now
            then (if self.given then None else decimal_up_to most_body value.now) else self.size) }
    {
        let sequences = if names_cseq(name) {
            (self.sequences + 1).min(2)
        } else {
            self.sequences
        };
        let is_length = names_content_length(name);
        let size = if !is_length {
            self.size
        } else if self.given {
            None
        } else {
            parse_number(value, MOST_BODY)
        };
        Counts {
            sequences,
            given: self.given || is_length,
            size,
        }
    }

    /// The length of the body, where the header lines are right.
    fn size_if_right(self, kind: Kind) -> Option<u32>
        ensures { result ≡ (if count_test kind self.sequences then self.size else None) }
    {
        let is_right = match kind {
            Kind::Request => self.sequences == 1,
            Kind::Response => self.sequences <= 1,
        };
        if is_right { self.size } else { None }
    }
}

fn is_at_empty_line(bytes: &[u8]) -> bool
    ensures { result ≡ begins_with_cr bytes.now }
{
    match bytes {
        [] => false,
        [first, ..] => *first == b'\r',
    }
}

/// The length of the body by the header lines and the empty line, and the bytes behind them. It
/// copies nothing.
pub(crate) fn body_size(kind: Kind, bytes: &[u8]) -> Result<(u32, &[u8]), Stop>
    ensures size { GivesSize (λ x. (x.0, x.1.now)) result (rest_of_head (count_test kind) [] bytes.now) }
    ensures within { MatchResult result (λ x. length x.1.now ≤ length bytes.now) (λ stop. IsStopWithin bytes.now stop) }
{
    let mut counts = Counts {
        sequences: 0,
        given: false,
        size: Some(0),
    };
    let mut rest = bytes;
    'lines: while !is_at_empty_line(rest) {
        let (HeaderParts { name, value }, behind) = header_parts(rest)?;
        counts = counts.count(name, value);
        rest = behind;
    }
    let Some(size) = counts.size_if_right(kind) else {
        return Err(Stop::Bad(rest.len()));
    };
    let rest = literal(b"\r\n", rest)?;
    Ok((size, rest))
}

/// A copy of a header line.
fn copy_of(alloc: Global, name: &[u8], value: &[u8]) -> Result<Header, OutOfMemory>
    ensures { IfOk result (λ header. header ≡ record { name = name.now; value = value.now }) }
{
    let name = Text::copy_of(alloc, name)?;
    let value = Text::copy_of(alloc, value)?;
    Ok(Header { name, value })
}

/// The header lines in front of the empty line, where all of them have come.
pub(crate) fn copy_headers(alloc: Global, bytes: &[u8]) -> Result<Vec<Header>, OutOfMemory>
    requires { HasRest bytes.now }
    ensures { IfOk result (λ copies. IsRestOf bytes.now copies.items) }
{
    let mut headers = Vec::new(alloc);
    let mut rest = bytes;
    'lines: while !is_at_empty_line(rest) {
        let (HeaderParts { name, value }, behind) = match header_parts(rest) {
            Ok(parts) => parts,
            Err(_) => unreachable!(),
        };
        headers.push(copy_of(alloc, name, value)?)?;
        rest = behind;
    }
    Ok(headers)
}
