//! The text of RTSP requests and responses (RFC 2326), in the profile of game streaming: the
//! methods OPTIONS, DESCRIBE, SETUP, ANNOUNCE and PLAY, lines ended by CR LF, a CSeq below 2^31, a
//! head of at most 4,096 bytes and a body of at most 8,192.
//!
//! One grammar, of requests and responses as bytes with their values, stands apart from both
//! directions. The readers are told all that has come so far, and answer the message in front with
//! its length, the place of the first byte with which no message can go on, or that neither is
//! there yet: exactly one of the three holds of any bytes, and the readers give it unless memory
//! runs out. An answer stays, whatever comes behind and in whatever pieces it comes. What the
//! writers write is read again as the same value. A call goes over what has come once, and copies
//! nothing before the message is whole, so a message that comes in single bytes is copied once.
#![tactic(auto)]

mod head;
mod header;
mod laws;
mod limits;
mod lines;
mod message;
mod read;
mod scan;
mod stop;
mod write;

pub use header::{Header, Headers};
pub use laws::{
    requests_in_any_pieces, responses_in_any_pieces, written_request_is_read,
    written_response_is_read,
};
pub use limits::{MOST_BODY, MOST_HEAD};
pub use message::{Method, Read, Request, Response, TextError};
pub use read::{read_request, read_response};
pub use write::{write_request, write_response};

#[cfg(test)]
mod tests;
