//! The real objects of the outside, behind the traits of `gs_bytes`: a file to read, and standard
//! output.
//!
//! Each adapter is a few lines over std. It counts a fault for each call that fails, and tells as
//! much of its contents as the object of std does: a real file and standard output tell none. That
//! the system's files and descriptors do what they should is trusted.
#![tactic(auto)]

mod counts;
mod file_source;
mod out_sink;

pub use file_source::FileSource;
pub use out_sink::OutSink;

#[cfg(test)]
mod tests;
