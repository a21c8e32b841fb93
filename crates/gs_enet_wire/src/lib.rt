//! Datagrams of the ENet 1.3 protocol, read from bytes and written as bytes.
//!
//! A datagram is a header and one or more of the protocol's twelve commands, up to its end. Numbers
//! are in network byte order. The grammar is a definition on bytes and values (`specs/Grammar.antt`),
//! with the protocol's field names. `read` answers the one datagram that the bytes spell, or the
//! place of the first fault, and `read_into` does so by means of a vector that its caller keeps.
//! `write` writes the datagram's spelling with each ignored bit at 0; `write_header`,
//! `write_command` and `write_reliable` write that spelling part by part.
#![tactic(auto)]

mod command;
mod cursor;
mod datagram;
mod error;
mod laws;
mod part;
mod read_body;
mod reading;
mod write_fields;
mod writing;

pub use command::{Command, Connect};
pub use datagram::{Commands, Datagram};
pub use error::WireError;
pub use laws::{one_reading, one_spelling, written_is_read};
pub use part::{write_command, write_header, write_reliable};
pub use reading::{DatagramHeader, read, read_into};
pub use writing::write;

#[cfg(test)]
mod tests;
