//! Writing requests and responses.

ghost use Rattle.std.specs.Prelude.{◌≡◌, ◌<◌, ◌++◌, decimal, IfOk, OnOk};
ghost use Rattle.std.specs.List.{flat_map};
ghost use Rattle.gs_rtsp_text.specs.Lines.{three_digits};
ghost use Rattle.gs_rtsp_text.specs.Writing.{header_text, request_line_text, status_line_text, reason_of};
ghost use Rattle.gs_rtsp_text.specs.Writing.{request_text, response_text, IsSendableRequest, IsSendableResponse};

use crate::header::Header;
use crate::message::{Method, Request, Response};
use gs_bytes::{OutOfMemory, Text};
use itoa::Buffer;
use std::alloc::{AllocError, Global};

fn push_header(out: &mut Vec<u8>, header: &Header) -> Result<(), AllocError>
    ensures { OnOk result (out.new.items ≡ out.old.items ++ header_text header.now) }
{
    out.extend_from_slice(header.name.as_bytes())?;
    out.extend_from_slice(b": ")?;
    out.extend_from_slice(header.value.as_bytes())?;
    out.extend_from_slice(b"\r\n")
}

fn push_headers(out: &mut Vec<u8>, headers: &[Header]) -> Result<(), AllocError>
    ensures { OnOk result (out.new.items ≡ out.old.items ++ flat_map header_text headers.now) }
{
    for header in headers {
        push_header(out, header)?;
    }
    Ok(())
}

fn push_request_line(out: &mut Vec<u8>, method: Method, target: &[u8]) -> Result<(), AllocError>
    ensures { OnOk result (out.new.items ≡ out.old.items ++ request_line_text method target.now) }
{
    out.extend_from_slice(method.word())?;
    out.extend_from_slice(target)?;
    out.extend_from_slice(b" RTSP/1.0\r\n")
}

/// The words behind a code (RFC 2326, section 7.1.1).
fn reason(code: u16) -> &'static [u8]
    ensures { result.now ≡ reason_of code }
{
    match code {
        200 => b"OK",
        400 => b"Bad Request",
        454 => b"Session Not Found",
        455 => b"Method Not Valid in This State",
        _ => b"",
    }
}

/// The zeros before a code of one or two digits.
fn zeros_before(code: u16) -> &'static [u8]
    requires { code < 1000 }
    ensures { result.now ++ decimal code ≡ three_digits code }
{
    match code {
        0..=9 => b"00",
        10..=99 => b"0",
        _ => b"",
    }
}

fn push_code(out: &mut Vec<u8>, code: u16) -> Result<(), AllocError>
    requires { code < 1000 }
    ensures { OnOk result (out.new.items ≡ out.old.items ++ three_digits code) }
{
    let mut buffer = Buffer::new();
    let digits = buffer.format(code).as_bytes();
    out.extend_from_slice(zeros_before(code))?;
    out.extend_from_slice(digits)?;
    Ok(())
}

fn push_status_line(out: &mut Vec<u8>, code: u16) -> Result<(), AllocError>
    requires { code < 1000 }
    ensures { OnOk result (out.new.items ≡ out.old.items ++ status_line_text code) }
{
    out.extend_from_slice(b"RTSP/1.0 ")?;
    push_code(out, code)?;
    out.extend_from_slice(b" ")?;
    out.extend_from_slice(reason(code))?;
    out.extend_from_slice(b"\r\n")
}

/// The text of a request (RFC 2326, section 6).
pub fn write_request(alloc: Global, request: &Request) -> Result<Text, OutOfMemory>
    requires { IsSendableRequest request.now }
    ensures { IfOk result (λ text. text ≡ request_text request.now) }
{
    let mut out = Vec::new(alloc);
    push_request_line(&mut out, request.method, request.target.as_bytes())?;
    push_headers(&mut out, request.headers.as_slice())?;
    out.extend_from_slice(b"\r\n")?;
    out.extend_from_slice(request.body.as_bytes())?;
    Ok(Text::from_vec(out))
}

/// The text of a response (RFC 2326, section 7).
pub fn write_response(alloc: Global, response: &Response) -> Result<Text, OutOfMemory>
    requires { IsSendableResponse response.now }
    ensures { IfOk result (λ text. text ≡ response_text response.now) }
{
    let mut out = Vec::new(alloc);
    push_status_line(&mut out, response.code)?;
    push_headers(&mut out, response.headers.as_slice())?;
    out.extend_from_slice(b"\r\n")?;
    out.extend_from_slice(response.body.as_bytes())?;
    Ok(Text::from_vec(out))
}
