//! The requests of a client.

ghost use Rattle.std.specs.Prelude.{◌≡◌, ◌≤◌, ◌++◌, decimal, length, IfOk, OnOk};
ghost use Rattle.gs_rtp.specs.Stream.{numbers_of};
ghost use Rattle.gs_rtsp_text.specs.Writing.{IsSendableRequest};
ghost use Rattle.gs_rtsp.specs.Asking.{host_text, url_of, target_of, request_body, session_part, length_part};
ghost use Rattle.gs_rtsp.specs.Asking.{request_headers, request_for};

use crate::field::Field;
use crate::header::push_field;
use crate::question::Question;
use gs_bytes::{Addr, OutOfMemory, Text};
use gs_rtp::Settings;
use gs_rtsp_text::{Header, Headers, Request};
use gs_sdp::body_of;
use itoa::Buffer;
use std::alloc::{AllocError, Global};

/// The generation of the protocol that the client speaks.
const CLIENT_VERSION: u32 = 14;

/// The first request that names the session.
const FIRST_IN_SESSION: u8 = 4;

fn push_decimal(out: &mut Vec<u8>, number: u32) -> Result<(), AllocError>
    ensures { OnOk result (out.new.items ≡ out.old.items ++ decimal number) }
{
    let mut buffer = Buffer::new();
    out.extend_from_slice(buffer.format(number).as_bytes())
}

/// Writes an address as four numbers behind other text.
fn push_host(out: &mut Vec<u8>, ip: u32) -> Result<(), AllocError>
    ensures { OnOk result (out.new.items ≡ out.old.items ++ host_text ip) }
{
    push_decimal(out, ip >> 24)?;
    out.extend_from_slice(b".")?;
    push_decimal(out, (ip >> 16) % 256)?;
    out.extend_from_slice(b".")?;
    push_decimal(out, (ip >> 8) % 256)?;
    out.extend_from_slice(b".")?;
    push_decimal(out, ip % 256)?;
    Ok(())
}

/// The target of a request that names no stream.
fn url(alloc: Global, host: Addr) -> Result<Text, OutOfMemory>
    ensures { IfOk result (λ text. text ≡ url_of host) }
{
    let mut out = Vec::from_slice(alloc, b"rtsp://")?;
    push_host(&mut out, host.ip)?;
    out.extend_from_slice(b":")?;
    push_decimal(&mut out, u32::from(host.port))?;
    Ok(Text::from_vec(out))
}

fn target(alloc: Global, host: Addr, question: Question) -> Result<Text, OutOfMemory>
    ensures { IfOk result (λ text. text ≡ target_of host question) }
{
    match question {
        Question::SetUp(stream) => Text::copy_of(alloc, stream.target()),
        Question::Options | Question::Describe | Question::Announce | Question::Play => {
            url(alloc, host)
        }
    }
}

fn body(alloc: Global, settings: &Settings, question: Question) -> Result<Text, OutOfMemory>
    ensures body { IfOk result (λ text. text ≡ request_body (numbers_of settings.now) question) }
    ensures length { IfOk result (λ text. length text ≤ 200) }
{
    match question {
        Question::Announce => body_of(alloc, settings),
        Question::Options | Question::Describe | Question::SetUp(_) | Question::Play => {
            Ok(Text::from_vec(Vec::new(alloc)))
        }
    }
}

/// Puts the session behind other headers, where the request names it.
fn push_session(
    alloc: Global,
    headers: &mut Vec<Header>,
    number: u8,
    settings: &Settings,
) -> Result<(), OutOfMemory>
    ensures { OnOk result (headers.new.items ≡ headers.old.items ++ session_part number (numbers_of settings.now)) }
{
    if number >= FIRST_IN_SESSION {
        push_field(alloc, headers, Field::Session, settings.ssrc)?;
    }
    Ok(())
}

/// Puts the length of a body behind other headers, where it isn't empty.
fn push_length(alloc: Global, headers: &mut Vec<Header>, body: &Text) -> Result<(), OutOfMemory>
    requires { length body.now ≤ 200 }
    ensures { OnOk result (headers.new.items ≡ headers.old.items ++ length_part body.now) }
{
    if !body.is_empty() {
        push_field(alloc, headers, Field::ContentLength, body.len() as u32)?;
    }
    Ok(())
}

fn headers(
    alloc: Global,
    number: u8,
    settings: &Settings,
    body: &Text,
) -> Result<Headers, OutOfMemory>
    requires { length body.now ≤ 200 }
    ensures { IfOk result (λ headers. headers ≡ request_headers number (numbers_of settings.now) body.now) }
{
    let mut headers = Vec::new(alloc);
    push_field(alloc, &mut headers, Field::Sequence, u32::from(number))?;
    push_field(alloc, &mut headers, Field::ClientVersion, CLIENT_VERSION)?;
    push_session(alloc, &mut headers, number, settings)?;
    push_length(alloc, &mut headers, body)?;
    Ok(Headers::from_vec(headers))
}

/// The request that asks a question, under a number, with what is agreed on so far.
pub(crate) fn request(
    alloc: Global,
    host: Addr,
    settings: &Settings,
    number: u8,
    question: Question,
) -> Result<Request, OutOfMemory>
    ensures request { IfOk result (λ request. request ≡ request_for host (numbers_of settings.now) number question) }
    ensures sendable { IfOk result IsSendableRequest }
{
    let body = body(alloc, settings, question)?;
    let headers = headers(alloc, number, settings, &body)?;
    let target = target(alloc, host, question)?;
    Ok(Request {
        method: question.method(),
        target,
        headers,
        body,
    })
}
