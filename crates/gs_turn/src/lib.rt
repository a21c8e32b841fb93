//! A cell whose state threads change in turns: one call at a time, each in the order of its ticket.
//!
//! A `Turn` holds a state and is shared by reference; a thread calls it with a `Pass` of its own. The
//! cell has three atomic words, which count modulo 2^64: the tickets that were drawn, the tickets that
//! were served, and the calls that were made. A call draws a ticket and waits until that ticket is
//! served. It then has the state to itself, makes its step, counts it and serves the next ticket.
//!
//! Every contract speaks of one history: the calls of all passes in the order in which they were
//! counted, each with the reply that the state gave there. A pass has a front, which is a beginning of
//! that history, and under each of its numbers the calls that it made.
//!
//! - `Turn::call` answers what the state answers at that point of one history. That history begins
//!   with the pass's front, holds the pass's own calls each once and in order, and ends with this call.
//! - `Turn::join` makes one pass of two; its front begins with both fronts.
//! - `Turn::close` gives the state that one history leaves, in which the calls of each pass are its own.
//!
//! Nothing is said of a turn that comes, of fairness, or of the order of two passes that were never
//! joined. Only `Turn::call` may wait.
#![tactic(auto)]

mod pass;
mod plays;
mod rule;
mod turn;
mod turn_call;
mod turned;

pub use pass::Pass;
pub use rule::{OneHistory, Opening, PassView, Standing};
pub use turn::Turn;
pub use turn_call::TurnCall;
pub use turned::Turned;

#[cfg(test)]
mod tests;
