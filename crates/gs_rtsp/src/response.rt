//! The response to a request, by what it comes to.

ghost use Rattle.std.specs.Prelude.{◌≡◌, ◌≤◌, ◌++◌, IfOk, OnOk};
ghost use Rattle.gs_rtsp.specs.Reply.{stream_headers, repeated_sequence as repeated_sequence_of};
ghost use Rattle.gs_rtsp.specs.Reply.{session_header as session_header_of};
ghost use Rattle.gs_rtsp.specs.Reply.{description as description_of, body_by, response_by};
ghost use Rattle.gs_rtsp.specs.Verdicts.{answer_of};

use crate::field::Field;
use crate::header::push_field;
use crate::stream::Stream;
use crate::verdict::Verdict;
use gs_bytes::{OutOfMemory, Text};
use gs_rtp::Settings;
use gs_rtsp_text::{Header, Headers, Request, Response};
use gs_sdp::{SettingName, push_line};
use std::alloc::Global;

/// The attribute of an audio unit's length in bytes.
pub(crate) const AUDIO_LENGTH: &[u8] = b"x-gs-audio.length";

/// What stands behind a session's number: how many seconds it lasts without a request.
const TIMEOUT: &[u8] = b";timeout = 90";

/// The header with the request's number, as it came.
fn repeated_sequence(alloc: Global, request: &Request) -> Result<Header, OutOfMemory>
    ensures { IfOk result (λ header. header ≡ repeated_sequence_of request.now) }
{
    let name = Field::Sequence.name();
    let value = request.headers.value_of(name).unwrap_or(b"");
    Ok(Header {
        name: Text::copy_of(alloc, name)?,
        value: Text::copy_of(alloc, value)?,
    })
}

/// The header of a session.
fn session_header(alloc: Global, number: u32) -> Result<Header, OutOfMemory>
    ensures { IfOk result (λ header. header ≡ session_header_of number) }
{
    let name = Text::copy_of(alloc, Field::Session.name())?;
    let mut value = Field::Session.write(alloc, number)?.into_vec();
    value.extend_from_slice(TIMEOUT)?;
    Ok(Header {
        name,
        value: Text::from_vec(value),
    })
}

/// The attributes of an offer.
fn description(alloc: Global, offer: &Settings) -> Result<Text, OutOfMemory>
    ensures { IfOk result (λ text. text ≡ description_of offer.now) }
{
    let mut out = Vec::new(alloc);
    push_line(
        &mut out,
        SettingName::Duration.attribute(),
        u32::from(offer.duration),
    )?;
    push_line(&mut out, AUDIO_LENGTH, u32::from(offer.audio))?;
    Ok(Text::from_vec(out))
}

fn body(alloc: Global, offer: &Settings, verdict: Verdict) -> Result<Text, OutOfMemory>
    ensures { IfOk result (λ text. text ≡ body_by offer.now (answer_of verdict)) }
{
    match verdict {
        Verdict::Described => description(alloc, offer),
        Verdict::Unchanged
        | Verdict::SetUp(_)
        | Verdict::Announced(_)
        | Verdict::Playing(_)
        | Verdict::Refused(_) => Ok(Text::from_vec(Vec::new(alloc))),
    }
}

/// Puts the headers of a stream that is set up behind others.
fn push_stream(
    alloc: Global,
    headers: &mut Vec<Header>,
    session: u32,
    base: u16,
    stream: Stream,
) -> Result<(), OutOfMemory>
    requires { base ≤ 65000 }
    ensures { OnOk result (headers.new.items ≡ headers.old.items ++ stream_headers session base stream) }
{
    headers.push(session_header(alloc, session)?)?;
    push_field(alloc, headers, Field::Port, u32::from(stream.port(base)))?;
    push_field(alloc, headers, stream.data_field(), session)?;
    Ok(())
}

/// The response to a request.
pub(crate) fn response(
    alloc: Global,
    offer: &Settings,
    base: u16,
    request: &Request,
    verdict: Verdict,
) -> Result<Response, OutOfMemory>
    requires { base ≤ 65000 }
    ensures { IfOk result (λ response. response ≡ response_by offer.now base request.now (answer_of verdict)) }
{
    let body = body(alloc, offer, verdict)?;
    let mut headers = Vec::new(alloc);
    headers.push(repeated_sequence(alloc, request)?)?;
    match verdict {
        Verdict::SetUp(stream) => {
            push_stream(alloc, &mut headers, offer.ssrc, base, stream)?;
        }
        Verdict::Described => {
            push_field(alloc, &mut headers, Field::ContentLength, body.len() as u32)?;
        }
        Verdict::Unchanged | Verdict::Announced(_) | Verdict::Playing(_) | Verdict::Refused(_) => {}
    }
    Ok(Response {
        code: verdict.code(),
        headers: Headers::from_vec(headers),
        body,
    })
}
