//! A buffered reader over any `Source`.
//!
//! A `BufferedReader` reads a source in pieces of `PIECE` bytes. What is still to come of a source is
//! what the reader holds and then what the source has left; each call hands on the front of that,
//! however the source cuts its bytes into reads. Bytes that lie whole in a piece are cut out of it and
//! share it. A fault comes only where the source counted one.
#![tactic(auto)]

mod buffered_reader;
mod piece;

pub use buffered_reader::{BufferedReader, handing_on_is_as_told};
pub use piece::PIECE;

#[cfg(test)]
mod tests;
