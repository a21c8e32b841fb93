//! Requests and responses.

use crate::header::Headers;
use gs_bytes::{OutOfMemory, Text};
use thiserror::Error;

/// The method of a request (RFC 2326, section 10).
#[derive(Clone, Copy, Debug, PartialEq, Eq)]
pub enum Method {
    /// What can be asked for (section 10.1).
    Options,
    /// What a stream is (section 10.2).
    Describe,
    /// How a stream is carried (section 10.4).
    Setup,
    /// With which settings it is carried (section 10.3).
    Announce,
    /// Starts it (section 10.5).
    Play,
}

/// A request (RFC 2326, section 6). Its body is as long as its Content-length header says (section
/// 12.14), and it has one CSeq header (section 12.17).
#[derive(Debug, PartialEq, Eq, Drop)]
pub struct Request {
    pub method: Method,
    pub target: Text,
    pub headers: Headers,
    pub body: Text,
}

/// A response (RFC 2326, section 7): its status code, three digits (section 7.1.1), headers and
/// body. The words after its code are not kept.
#[derive(Debug, PartialEq, Eq, Drop)]
pub struct Response {
    pub code: u16,
    pub headers: Headers,
    pub body: Text,
}

/// What the bytes that have come so far hold.
#[derive(Debug, PartialEq, Eq, Drop)]
pub enum Read<T> {
    /// A whole message, and how many bytes it takes from the front.
    Whole { value: T, used: usize },
    /// The beginning of one.
    More,
}

/// Why no message is read.
#[derive(Clone, Copy, Debug, PartialEq, Eq, Error)]
pub enum TextError {
    /// The place of the first byte that can't stand there.
    #[error("no RTSP message goes on so at byte {0}")]
    BadText(usize),
    #[error("out of memory")]
    OutOfMemory,
}

impl From<OutOfMemory> for TextError {
    ghost use Rattle.std.specs.Prelude.{◌≡◌};
    ghost use Rattle.gs_rtsp_text.specs.declared.message.TextError.TheVariants.{OutOfMemory};

    ghost from_gives = { λ _ e. e ≡ OutOfMemory };

    fn from(_refused: OutOfMemory) -> TextError {
        TextError::OutOfMemory
    }
}
