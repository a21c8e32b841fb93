//! Reading requests and responses.

ghost use Rattle.std.specs.Prelude.{◌≡◌, ℕ, ◌+◌, ◌<◌, ◌≤◌, length, take, drop, MatchOption};
ghost use Rattle.gs_rtsp_text.specs.declared.message.Read.TheVariants.{More as more_to_come};
ghost use Rattle.gs_rtsp_text.specs.declared.message.TextError.TheVariants.{BadText};
ghost use Rattle.gs_rtsp_text.specs.Message.{TextAnswer, AnswersText, IfWhole, most_head, count_test, is_one};
ghost use Rattle.gs_rtsp_text.specs.Message.{is_at_most_one};
ghost use Rattle.gs_rtsp_text.specs.Message.{behind_message, request_message, response_message};
ghost use Rattle.gs_rtsp_text.specs.Message.{IsRequest, IsBadRequestPlace, IsOpenRequest, IsRequestAnswer};
ghost use Rattle.gs_rtsp_text.specs.Message.{IsResponse, IsBadResponsePlace, IsOpenResponse, IsResponseAnswer};
ghost use Rattle.gs_rtsp_text.specs.Reading.{IsStopWithin, text_answer, head_behind, head_by, request_line_at};
ghost use Rattle.gs_rtsp_text.specs.Reading.{status_line_at, stop_place};

use crate::head::{Kind, body_size, copy_headers};
use crate::header::Headers;
use crate::limits::MOST_HEAD;
use crate::lines::{RequestLine, request_line, status_line};
use crate::message::{Read, Request, Response, TextError};
use crate::stop::Stop;
use gs_bytes::Text;
use std::alloc::Global;

/// What stands behind the first line of a message.
#[derive(Drop)]
pub(crate) struct Behind {
    pub headers: Headers,
    pub body: Text,
}

/// The bytes that a head may take.
fn head_part(bytes: &[u8]) -> &[u8]
    ensures part { result.now ≡ take most_head bytes.now }
    ensures shorter { length result.now ≤ length bytes.now }
{
    &bytes[..MOST_HEAD.min(bytes.len())]
}

/// The place of the wrong byte, where reading the front of the bytes stopped at one.
fn wrong_place(bytes: &[u8], front: &[u8], stop: Stop) -> Option<usize>
    requires front { front.now ≡ take most_head bytes.now }
    requires left { IsStopWithin front.now stop }
    ensures { result ≡ stop_place bytes.now stop }
{
    match stop {
        Stop::Bad(left) => Some(front.len() - left),
        Stop::More => {
            if bytes.len() >= MOST_HEAD {
                Some(MOST_HEAD)
            } else {
                None
            }
        }
    }
}

/// The answer by the place of a wrong byte, or by its absence.
fn at_place<T>(place: Option<usize>) -> Result<Read<T>, TextError>
    ensures { MatchOption place (result ≡ Ok more_to_come) (λ at. result ≡ Err (BadText at)) }
{
    match place {
        None => Ok(Read::More),
        Some(place) => Err(TextError::BadText(place)),
    }
}

/// The body at a place, where it has come.
fn body_at(bytes: &[u8], place: usize, size: u32) -> Option<&[u8]>
    requires { place ≤ length bytes.now }
    ensures { MatchOption result (length bytes.now < place + size)
        (λ body. (place + size ≤ length bytes.now) × (body.now ≡ take size (drop place bytes.now))) }
{
    bytes[place..].get(..size as usize)
}

/// Reads on behind the first line. `front` is what a head may take of the bytes, and `rest` what
/// stands there behind that line. Nothing is copied before the message is whole.
fn behind_first_line(
    alloc: Global,
    kind: Kind,
    bytes: &[u8],
    front: &[u8],
    rest: &[u8],
) -> Result<Read<Behind>, TextError>
    requires front { front.now ≡ take most_head bytes.now }
    requires shorter { length front.now ≤ length bytes.now }
    requires rest { length rest.now ≤ length front.now }
    ensures { AnswersText behind_message result (text_answer bytes.now (head_behind tt (count_test kind) rest.now)) }
{
    let (size, left) = match body_size(kind, rest) {
        Ok(found) => found,
        Err(stop) => return at_place(wrong_place(bytes, front, stop)),
    };
    let place = front.len() - left.len();
    let Some(body) = body_at(bytes, place, size) else {
        return Ok(Read::More);
    };
    let headers = copy_headers(alloc, rest)?;
    let headers = Headers::from_vec(headers);
    let used = place + body.len();
    let body = Text::copy_of(alloc, body)?;
    let value = Behind { headers, body };
    Ok(Read::Whole { value, used })
}

fn request_answer(alloc: Global, bytes: &[u8]) -> Result<Read<Request>, TextError>
    ensures { AnswersText request_message result
        (text_answer bytes.now (head_by request_line_at is_one (take most_head bytes.now))) }
{
    let front = head_part(bytes);
    let (RequestLine { method, target }, rest) = match request_line(front) {
        Ok(line) => line,
        Err(stop) => return at_place(wrong_place(bytes, front, stop)),
    };
    match behind_first_line(alloc, Kind::Request, bytes, front, rest)? {
        Read::More => Ok(Read::More),
        Read::Whole { value, used } => {
            let Behind { headers, body } = value;
            let target = Text::copy_of(alloc, target)?;
            let value = Request {
                method,
                target,
                headers,
                body,
            };
            Ok(Read::Whole { value, used })
        }
    }
}

/// Reads the request at the front of the bytes, as far as they have come (RFC 2326, section 6): a
/// request line (section 6.1), headers (section 4.2), the empty line, and a body as long as its
/// Content-length header says (section 4.4).
pub fn read_request(alloc: Global, bytes: &[u8]) -> Result<Read<Request>, TextError>
    ensures whole { IfWhole result
        (λ request used. (used ≤ length bytes.now) × IsRequest (take used bytes.now) request) }
    ensures bad_text { (place : ℕ) → result ≡ Err (BadText place) → IsBadRequestPlace bytes.now place }
    ensures more { result ≡ Ok more_to_come → IsOpenRequest bytes.now }
    // What the bytes hold is answered, unless memory runs out.
    ensures only { (answer : TextAnswer _) → IsRequestAnswer bytes.now answer
        → AnswersText request_message result answer }
{
    request_answer(alloc, bytes)
}

fn response_answer(alloc: Global, bytes: &[u8]) -> Result<Read<Response>, TextError>
    ensures { AnswersText response_message result
        (text_answer bytes.now (head_by status_line_at is_at_most_one (take most_head bytes.now))) }
{
    let front = head_part(bytes);
    let (code, rest) = match status_line(front) {
        Ok(line) => line,
        Err(stop) => return at_place(wrong_place(bytes, front, stop)),
    };
    match behind_first_line(alloc, Kind::Response, bytes, front, rest)? {
        Read::More => Ok(Read::More),
        Read::Whole { value, used } => {
            let Behind { headers, body } = value;
            let value = Response {
                code,
                headers,
                body,
            };
            Ok(Read::Whole { value, used })
        }
    }
}

/// Reads the response at the front of the bytes, as far as they have come (RFC 2326, section 7): a
/// status line (section 7.1), and then headers, the empty line and a body as a request has them.
pub fn read_response(alloc: Global, bytes: &[u8]) -> Result<Read<Response>, TextError>
    ensures whole { IfWhole result
        (λ response used. (used ≤ length bytes.now) × IsResponse (take used bytes.now) response) }
    ensures bad_text { (place : ℕ) → result ≡ Err (BadText place) → IsBadResponsePlace bytes.now place }
    ensures more { result ≡ Ok more_to_come → IsOpenResponse bytes.now }
    // What the bytes hold is answered, unless memory runs out.
    ensures only { (answer : TextAnswer _) → IsResponseAnswer bytes.now answer
        → AnswersText response_message result answer }
{
    response_answer(alloc, bytes)
}
