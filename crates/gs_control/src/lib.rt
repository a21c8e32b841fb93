//! Messages of a GameStream control stream, in the form that is sent without encryption.
//!
//! A message is a type, u16 little-endian, and a payload. The contracts say that `Message::read`
//! answers a message exactly where the bytes are in the grammar, and else names the type and the
//! number of the bytes, and that what `Message::write` wrote is read as the same message.
#![tactic(auto)]

mod laws;
mod limits;
mod message;
mod payload;

pub use laws::{bytes_are_one_message, message_is_read};
pub use limits::{MESSAGE_ROOM, MOST_UNREAD};
pub use message::{BadMessage, Message};

#[cfg(test)]
mod tests;
