//! The capture file that a number generates, as a source that is read like any file.
//!
//! A `GeneratedFile` has left to read what remains of the bytes of that file (`file` of `gs_tape`). It keeps no more of
//! them than those of one tick, which it spells once the one before is read: it shares the tick's units.
#![tactic(auto)]

mod generated_file;
mod parts;
mod pieces;
mod tick_parts;
mod unspelled;

pub use generated_file::GeneratedFile;

#[cfg(test)]
mod tests;
