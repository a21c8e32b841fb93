//! The numbers that the headers of the set-up carry, spelled once for both ends.

ghost use Rattle.std.specs.Prelude.{◌≡◌, ℕ, ◌+◌, ◌^◌, ◌<◌, ◌++◌, replicate, IfOk, IfSome, OnOk, Some};
ghost use Rattle.std.specs.List.{before_first, position};
ghost use Rattle.gs_rtsp.specs.Fields.{field_name, field_prefix, least_digits as least_digits_of, field_text};
ghost use Rattle.gs_rtsp.specs.Fields.{field_number, padded};
ghost use Rattle.gs_rtsp.specs.Fields.{padded_number as padded_number_of, without_zeros as without_zeros_of};
ghost use Rattle.gs_rtsp.specs.Fields.{counted_part};
ghost use Rattle.gs_rtsp.specs.Fields.{header_number as header_number_of, is_semicolon, is_number};

use gs_bytes::{OutOfMemory, Text, parse_number, trim};
use gs_rtsp_text::Headers;
use itoa::Buffer;
use std::alloc::{AllocError, Global};

/// A header whose value is a number.
#[derive(Clone, Copy, Debug, PartialEq, Eq)]
pub enum Field {
    /// `CSeq`: the number of a request, which its response repeats (RFC 2326, section 12.17).
    Sequence,
    /// `X-GS-ClientVersion`: the client's generation of the protocol.
    ClientVersion,
    /// `Session`: `DEADBEEF` and the session's number in four digits (RFC 2326, section 12.37).
    Session,
    /// `Transport`: `server_port=` and a port of the host (RFC 2326, section 12.39).
    Port,
    /// `X-SS-Ping-Payload`: the session's number in 16 digits, which a ping repeats.
    PingPayload,
    /// `X-SS-Connect-Data`: the session's number, which a connect repeats.
    ConnectData,
    /// `Content-length`: the number of bytes of the body (RFC 2326, section 12.14).
    ContentLength,
}

impl Field {
    /// The name of the header.
    pub fn name(self) -> &'static [u8]
        ensures { result.now ≡ field_name self }
    {
        match self {
            Field::Sequence => b"CSeq",
            Field::ClientVersion => b"X-GS-ClientVersion",
            Field::Session => b"Session",
            Field::Port => b"Transport",
            Field::PingPayload => b"X-SS-Ping-Payload",
            Field::ConnectData => b"X-SS-Connect-Data",
            Field::ContentLength => b"Content-length",
        }
    }

    /// What stands before the number.
    fn prefix(self) -> &'static [u8]
        ensures { result.now ≡ field_prefix self }
    {
        match self {
            Field::Session => b"DEADBEEF",
            Field::Port => b"server_port=",
            Field::Sequence
            | Field::ClientVersion
            | Field::PingPayload
            | Field::ConnectData
            | Field::ContentLength => b"",
        }
    }

    /// How many digits the number has at least.
    fn least_digits(self) -> usize
        ensures { result ≡ least_digits_of self }
    {
        match self {
            Field::Session => 4,
            Field::PingPayload => 16,
            Field::Sequence
            | Field::ClientVersion
            | Field::Port
            | Field::ConnectData
            | Field::ContentLength => 1,
        }
    }

    /// The value of the header for a number.
    pub fn write(self, alloc: Global, number: u32) -> Result<Text, OutOfMemory>
        ensures { IfOk result (λ text. text ≡ field_text self number) }
    {
        let mut out = Vec::from_slice(alloc, self.prefix())?;
        push_padded(&mut out, self.least_digits(), number)?;
        Ok(Text::from_vec(out))
    }

    /// The number whose value this is.
    pub fn read(self, value: &[u8]) -> Option<u32>
        ensures number { result ≡ field_number self value.now }
        ensures written { IfSome result (λ n. value.now ≡ field_text self n) }
        ensures every { (n : ℕ) → n < 2 ^ 32 → value.now ≡ field_text self n → result ≡ Some n }
    {
        self.number_in(value)
    }

    fn number_in(self, value: &[u8]) -> Option<u32>
        ensures { result ≡ field_number self value.now }
    {
        let digits = value.strip_prefix(self.prefix())?;
        padded_number(self.least_digits(), digits)
    }
}

/// Writes zeros behind other text.
fn push_zeros(out: &mut Vec<u8>, count: usize) -> Result<(), AllocError>
    ensures { OnOk result (out.new.items ≡ out.old.items ++ replicate count 48) }
{
    for _i in 0..count {
        out.push(b'0')?;
    }
    Ok(())
}

/// Writes a number behind other text, with zeros before it up to the least number of digits.
#[tactic(auto, unfolding(crate::specs::Fields::padded))]
fn push_padded(out: &mut Vec<u8>, least: usize, number: u32) -> Result<(), AllocError>
    ensures { OnOk result (out.new.items ≡ out.old.items ++ padded least number) }
{
    let mut buffer = Buffer::new();
    let digits = buffer.format(number).as_bytes();
    push_zeros(out, least.saturating_sub(digits.len()))?;
    out.extend_from_slice(digits)
}

/// Digits without the zeros before the others; the last digit stays.
fn without_zeros(digits: &[u8]) -> &[u8]
    ensures { result.now ≡ without_zeros_of digits.now }
{
    let mut rest = digits;
    while let [b'0', behind @ ..] = rest {
        if behind.is_empty() {
            return rest;
        }
        rest = behind;
    }
    rest
}

/// The number that digits with zeros before them stand for.
#[tactic(auto, unfolding(crate::specs::Fields::padded_number))]
fn padded_number(least: usize, digits: &[u8]) -> Option<u32>
    ensures { result ≡ padded_number_of least digits.now }
{
    if digits.len() < least {
        return None;
    }
    if digits.len() == least {
        return parse_number(without_zeros(digits), u32::MAX);
    }
    parse_number(digits, u32::MAX)
}

/// The part of a value that counts: a session's up to its first `;`, without spaces at its ends.
fn counted(field: Field, value: &[u8]) -> &[u8]
    ensures { result.now ≡ counted_part field value.now }
{
    match field {
        Field::Session => trim(before_semicolon(value)),
        Field::Sequence
        | Field::ClientVersion
        | Field::Port
        | Field::PingPayload
        | Field::ConnectData
        | Field::ContentLength => value,
    }
}

/// The place of the first `;`.
fn semicolon(value: &[u8]) -> Option<usize>
    ensures { result ≡ position is_semicolon value.now }
{
    value.iter().position(|byte| *byte == b';')
}

/// The bytes up to the first `;`.
fn before_semicolon(value: &[u8]) -> &[u8]
    ensures { result.now ≡ before_first is_semicolon value.now }
{
    match semicolon(value) {
        Some(end) => &value[..end],
        None => value,
    }
}

/// The number of a header, where it is there and is one.
pub(crate) fn header_number(headers: &Headers, field: Field) -> Option<u32>
    ensures { result ≡ header_number_of field headers.now }
{
    let value = headers.value_of(field.name())?;
    field.read(counted(field, value))
}

/// Whether a header is there with this number.
pub(crate) fn has_number(headers: &Headers, field: Field, number: u32) -> bool
    ensures { result ≡ is_number number (header_number_of field headers.now) }
{
    match header_number(headers, field) {
        Some(found) => found == number,
        None => false,
    }
}
