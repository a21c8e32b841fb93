//! The lines of a head.

ghost use Rattle.std.specs.Prelude.{◌≡◌, ◌<◌, IfOk};
ghost use Rattle.gs_rtsp_text.specs.Lines.{is_same_name, is_cseq, is_content_length};
ghost use Rattle.gs_rtsp_text.specs.Reading.{StopsAlike, word, sequence_at, value_at, value_of_at, header_at};
ghost use Rattle.gs_rtsp_text.specs.Reading.{this_method, method_at, request_line_at, digit_at, status_line_at};

use crate::message::Method;
use crate::scan::{ByteClass, literal, number, token};
use crate::stop::Stop;
use gs_bytes::{trim, trim_start};

/// Whether two names differ in the case of ASCII letters alone.
pub(crate) fn are_same_name(a: &[u8], b: &[u8]) -> bool
    ensures { result ≡ is_same_name a.now b.now }
{
    a.eq_ignore_ascii_case(b)
}

/// Whether a header of this name is a CSeq.
pub(crate) fn names_cseq(name: &[u8]) -> bool
    ensures { result ≡ is_cseq name.now }
{
    are_same_name(name, b"CSeq")
}

/// Whether a header of this name gives the length of the body.
pub(crate) fn names_content_length(name: &[u8]) -> bool
    ensures { result ≡ is_content_length name.now }
{
    are_same_name(name, b"Content-length")
}

/// Reads the value of a CSeq, to the end of its line.
#[tactic(auto, unfolding(crate::specs::Reading::sequence_at))]
fn sequence(bytes: &[u8]) -> Result<(&[u8], &[u8]), Stop>
    ensures { StopsAlike (λ x. (x.0.now, x.1.now)) result (sequence_at bytes.now) }
{
    let (digits, rest) = number(trim_start(bytes))?;
    let (_, rest) = token(ByteClass::Space, b'\r', true, rest)?;
    let rest = literal(b"\n", rest)?;
    Ok((digits, rest))
}

/// Reads the value of another header, to the end of its line.
#[tactic(auto, unfolding(crate::specs::Reading::value_at))]
fn text_value(bytes: &[u8]) -> Result<(&[u8], &[u8]), Stop>
    ensures { StopsAlike (λ x. (x.0.now, x.1.now)) result (value_at bytes.now) }
{
    let (raw, rest) = token(ByteClass::Value, b'\r', true, bytes)?;
    let rest = literal(b"\n", rest)?;
    Ok((trim(raw), rest))
}

fn value_of<'a>(name: &[u8], bytes: &'a [u8]) -> Result<(&'a [u8], &'a [u8]), Stop>
    ensures { StopsAlike (λ x. (x.0.now, x.1.now)) result (value_of_at name.now bytes.now) }
{
    if names_cseq(name) {
        sequence(bytes)
    } else {
        text_value(bytes)
    }
}

/// What a header line says, of which nothing is copied.
#[derive(Clone, Copy)]
pub(crate) struct HeaderParts<'a> {
    pub name: &'a [u8],
    pub value: &'a [u8],
}

/// Reads a header line.
#[tactic(auto, unfolding(crate::specs::Reading::header_at))]
pub(crate) fn header_parts(bytes: &[u8]) -> Result<(HeaderParts, &[u8]), Stop>
    ensures { StopsAlike (λ x. (record { name = x.0.name.now; value = x.0.value.now }, x.1.now)) result
        (header_at bytes.now) }
{
    let (name, rest) = token(ByteClass::Name, b':', false, bytes)?;
    let (value, rest) = value_of(name, rest)?;
    Ok((HeaderParts { name, value }, rest))
}

impl Method {
    /// The method as it stands in a request, and the space behind it.
    pub(crate) fn word(self) -> &'static [u8]
        ensures { result.now ≡ word self }
    {
        match self {
            Method::Options => b"OPTIONS ",
            Method::Describe => b"DESCRIBE ",
            Method::Setup => b"SETUP ",
            Method::Announce => b"ANNOUNCE ",
            Method::Play => b"PLAY ",
        }
    }
}

fn this_word(method: Method, bytes: &[u8]) -> Result<(Method, &[u8]), Stop>
    ensures { StopsAlike (λ x. (x.0, x.1.now)) result (this_method method bytes.now) }
{
    let rest = literal(method.word(), bytes)?;
    Ok((method, rest))
}

#[tactic(auto, unfolding(crate::specs::Reading::method_at))]
fn method(bytes: &[u8]) -> Result<(Method, &[u8]), Stop>
    ensures { StopsAlike (λ x. (x.0, x.1.now)) result (method_at bytes.now) }
{
    match bytes {
        [] => Err(Stop::More),
        [b'O', ..] => this_word(Method::Options, bytes),
        [b'D', ..] => this_word(Method::Describe, bytes),
        [b'S', ..] => this_word(Method::Setup, bytes),
        [b'A', ..] => this_word(Method::Announce, bytes),
        [b'P', ..] => this_word(Method::Play, bytes),
        [_, ..] => Err(Stop::Bad(bytes.len())),
    }
}

/// What the first line of a request says, of which nothing is copied.
#[derive(Clone, Copy)]
pub(crate) struct RequestLine<'a> {
    pub method: Method,
    pub target: &'a [u8],
}

/// Reads the first line of a request.
#[tactic(auto, unfolding(crate::specs::Reading::request_line_at))]
pub(crate) fn request_line(bytes: &[u8]) -> Result<(RequestLine, &[u8]), Stop>
    ensures { StopsAlike (λ x. ((x.0.method, x.0.target.now), x.1.now)) result (request_line_at bytes.now) }
{
    let (method, rest) = method(bytes)?;
    let (target, rest) = token(ByteClass::Target, b' ', false, rest)?;
    let rest = literal(b"RTSP/1.0\r\n", rest)?;
    Ok((RequestLine { method, target }, rest))
}

#[tactic(auto, unfolding(crate::specs::Reading::digit_at))]
fn digit(bytes: &[u8]) -> Result<(u16, &[u8]), Stop>
    ensures read { StopsAlike (λ x. (x.0, x.1.now)) result (digit_at bytes.now) }
    ensures below { IfOk result (λ x. x.0 < 10) }
{
    match bytes {
        [] => Err(Stop::More),
        [digit @ b'0'..=b'9', rest @ ..] => Ok((u16::from(*digit - b'0'), rest)),
        [_, ..] => Err(Stop::Bad(bytes.len())),
    }
}

/// Reads the first line of a response: its code.
#[tactic(auto, unfolding(crate::specs::Reading::status_line_at))]
pub(crate) fn status_line(bytes: &[u8]) -> Result<(u16, &[u8]), Stop>
    ensures { StopsAlike (λ x. (x.0, x.1.now)) result (status_line_at bytes.now) }
{
    let rest = literal(b"RTSP/1.0 ", bytes)?;
    let (a, rest) = digit(rest)?;
    let (b, rest) = digit(rest)?;
    let (c, rest) = digit(rest)?;
    let rest = literal(b" ", rest)?;
    let (_, rest) = token(ByteClass::Value, b'\r', true, rest)?;
    let rest = literal(b"\n", rest)?;
    Ok((100 * a + 10 * b + c, rest))
}
