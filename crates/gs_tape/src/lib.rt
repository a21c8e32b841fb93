//! The capture file: what its bytes are and what they hold, its reading from a source, its writing to a
//! sink, and the capture that a number generates.
//!
//! A capture file has a head, ticks and an end mark; a tick has the moment of a picture, its IDR unit,
//! units against earlier ticks, and audio units. The definitions are in specs/: what the bytes of a file
//! in order are (`file`), the ticks that any bytes give and the first fault in the order of the bytes
//! (`ticks_of`, `first_fault`). They read a whole list of bytes at once, with no buffer. Contracts see a
//! `Tick` as the tick of these definitions, and a `Unit` as the list of its bytes, which a clone shares.
//!
//! - A `Tape` reads a file tick by tick, in pieces of 65,536 bytes. Its answers are the ticks of the
//!   file's bytes, in order, and then the end or their first fault with its place, however the source
//!   cuts the bytes into reads (`answers_are_the_file`). A fault of the source is answered only where the
//!   source counted one. After the end and after an error it answers the same again and reads nothing. A
//!   unit that lies whole in a piece shares it; a longer one is gathered once.
//! - `TapeWriter` writes the head, each tick and the end mark as the definition spells them. Written of
//!   ticks within the limits, they are a file that is read as these ticks.
//! - `Generator` gives exactly the ticks that its definition generates, which a capture file can hold;
//!   `write_generated` writes the file of them.
#![tactic(auto)]

mod cursor;
mod delta;
mod draws;
mod error;
mod generated_file;
mod generator;
mod head_reader;
mod laws;
mod layout;
mod limits;
mod stage;
mod tape;
mod tape_laws;
mod tick;
mod tick_reader;
mod tick_stream;
mod unit;
mod units;
mod write_error;
mod writer;

pub use delta::{Delta, Deltas};
pub use error::TapeError;
pub use generated_file::write_generated;
pub use generator::{Generator, generated_ticks_are_writable};
pub use gs_bytes::{MOST_AUDIO, MOST_GENERATED, MOST_UNIT};
pub use laws::{faultless_bytes_are_files, files_are_read, ticks_keep_limits};
pub use layout::{END_TAG, TICK_TAG};
pub use limits::{GENERATED_AUDIO, GENERATED_DURATION, MOST_BYTES, MOST_COUNT, MOST_TICKS};
pub use stage::Stage;
pub use tape::Tape;
pub use tape_laws::answers_are_the_file;
pub use tick::Tick;
pub use unit::Unit;
pub use units::Units;
pub use write_error::WriteError;
pub use writer::TapeWriter;

#[cfg(test)]
mod read_tests;
#[cfg(test)]
mod tests;
