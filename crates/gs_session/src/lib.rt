//! The references of a session, which a sender's thread and a control thread call in turns.
//!
//! A `Session` is the cell of `gs_turn` over the references of `gs_refs`, with two passes. Each call makes room for
//! its entry first, inside its turn, so want of memory comes before any other refusal and adds no entry.
//!
//! The definitions are in specs/: what a call may be answered behind a history and what it leaves (`MayReply`), and
//! what a contract sees of a session and its passes.
//!
//! - `choose`, `invalidate` and `ask_idr` answer what the references of one thread answer at that point of one
//!   history, which begins with what the pass knew, has the pass's own calls each once and in order, and ends with
//!   this call.
//! - `close` gives the references that one history leaves. It has of each pass just its own calls.
//!
//! Nothing is said of a turn that comes. Only the three calls may wait.
#![tactic(auto)]

mod call;
mod error;
mod pass;
mod session;
mod shared;

pub use call::{Call, Reply};
pub use error::{ChooseError, EndedError, InvalidError};
pub use pass::SessionPass;
pub use session::Session;

#[cfg(test)]
mod tests;
