//! The base of the crates of Condorshelf that read or write bytes: owned bytes, the fields of wire
//! formats, the numbers and words of text, and the traits through which a program reads and writes.
//!
//! - `Text` is a list of bytes to every contract.
//! - The field readers and writers are those of `byteorder` at a place in a slice, and what was
//!   written is read back. Big endian is network byte order (RFC 1700).
//! - A number in text is decimal, without a leading zero, and a word that spells none is told
//!   exactly (`parse_number`, `parse_signed`). `Words` are the parts of a line between its spaces.
//! - A `Source` gives its bytes in order and a `Sink` takes them in order. Each counts its faults:
//!   a call that answers `Failed::Fault` and a write that takes nothing raise the count, which
//!   stands still at `u64::MAX`, and every other call leaves it. An object may tell its contents to
//!   contracts, as those in memory do, or not, as a real file. `CallPlan` decides which calls of an
//!   object in memory fail.
//! - `write_all` and `read_up_to` are whole transfers over these traits: what they moved is exact
//!   where it is told; they answer a fault wherever the object's count rose, and only where it
//!   counted one.
#![tactic(auto)]

mod addr;
mod big_endian;
mod calls;
mod failed;
mod field;
mod limits;
mod link;
mod link_queue;
mod little_endian;
mod mem_link;
mod mem_sink;
mod mem_source;
mod number;
mod out_of_memory;
mod outside;
mod spaces;
mod sure_link;
mod sure_sink;
mod sure_source;
mod text;
mod unread;
mod whole;
mod words;
mod written;

pub use addr::Addr;
pub use big_endian::{
    read_u16_be, read_u32_be, read_u64_be, write_u16_be, write_u32_be, write_u64_be,
};
pub use calls::CallPlan;
pub use failed::Failed;
pub use field::field_reads_back;
pub use limits::{
    DURATION_LONG, DURATION_SHORT, MOST_AUDIO, MOST_GENERATED, MOST_ON_LINK, MOST_UNIT,
};
pub use link::{Arrived, Link, LinkEntry, Waiting};
pub use little_endian::{
    read_i64_le, read_u16_le, read_u32_le, read_u64_le, write_i64_le, write_u16_le, write_u32_le,
    write_u64_le,
};
pub use mem_link::MemLink;
pub use mem_sink::MemSink;
pub use mem_source::MemSource;
pub use number::{parse_number, parse_signed};
pub use out_of_memory::OutOfMemory;
pub use outside::{Outside, Sink, Source};
pub use spaces::{trim, trim_end, trim_start};
pub use sure_link::SureLink;
pub use sure_sink::SureSink;
pub use sure_source::SureSource;
pub use text::Text;
pub use whole::{read_up_to, write_all};
pub use words::Words;

#[cfg(test)]
mod tests;
