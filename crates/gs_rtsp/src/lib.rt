//! The set-up of a session over RTSP (RFC 2326), both ends, in the profile of game streaming.
//!
//! `Server` is the host's end and `Setup` the client's. Both are values: requests and responses go
//! in and come out, and no stream is read or written.
//!
//! - A server stands for the list of the requests that it answered. Its next response is the one
//!   that the table in `specs/Reply.antt` gives for that list, by the first row that holds, and it
//!   then stands for the longer list. A refusal changes nothing.
//! - A set-up stands for the list of the replies that it was given. It asks seven requests, in
//!   order, and then has the settings that both ends agreed on. The first fault of a reply ends it,
//!   and is told again by every later call.
//! - `Field` spells and reads the numbers that headers carry, for both ends: what is written is read
//!   as the same number, and only that is read.
//! - Where a request was read from bytes, its response can be written; each request of a set-up can.
#![tactic(auto)]

mod field;
mod header;
mod question;
mod request;
mod response;
mod server;
mod setup;
mod step;
mod stream;
mod told;
mod verdict;

pub use field::Field;
pub use server::Server;
pub use setup::Setup;
pub use step::{SetupError, Step};
pub use stream::Stream;

#[cfg(test)]
mod tests;
