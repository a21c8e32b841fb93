//! A host's history as datagrams, and what joins it to what a client received.
//!
//! The definitions are in specs/: all video datagrams of a history in the order in which they went out
//! (`video_stream`), the unit of each frame (`unit_of`), all audio datagrams (`audio_stream`), and which
//! pairs of a history and a list of what a client was given can stand together (`IsPaired`). The crate's
//! functions have no body: each is a law about them, which its contract states. By one of them
//! (`handed_frames_were_sent`) a client is handed only frames that were sent, however their datagrams came.
//! By another (`frames_that_came_are_complete`) a frame of whose blocks enough datagrams came before any by
//! which it is left is complete from then on. They hold for each window, and with resets.
#![tactic(auto)]

mod laws;

pub use laws::{frames_that_came_are_complete, handed_frames_were_sent, streams_only_grow};
