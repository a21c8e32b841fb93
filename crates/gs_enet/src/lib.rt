//! One side of an ENet 1.3 connection: reliable messages on `CHANNELS` channels, in order on each.
//!
//! What a side is and does is a definition on records (specs/): what it was given to send, what it
//! told, what it holds unacknowledged and which acknowledgements it owes, with a step for each call.
//! `messages_in_order` and `messages_in_order_apart` have no body: they are laws of these records, which
//! their contracts state.
//!
//! Every moment is in milliseconds (`serviceTime` of the protocol). Where the protocol has a name of its own
//! for a field or a limit, it stands in brackets behind ours.
#![tactic(auto)]

mod answer;
mod apart;
mod busy;
mod channel;
mod control;
mod ending;
mod event;
mod held;
mod holding;
mod laws;
mod limits;
mod new_channels;
mod peer;
mod receiving;
mod send_error;
mod sending;
mod state;
mod take_error;
mod taking;
mod timing;
mod window;
mod writing;
mod written;

pub use apart::messages_in_order_apart;
pub use event::PeerEvent;
pub use laws::messages_in_order;
pub use limits::{
    CHANNELS, CONTROL, DATAGRAM_ROOM, FIRST_WAIT, LONGEST_WAIT, MOST_MESSAGE, MOST_WRITES, NOBODY,
    THROTTLE_INTERVAL, THROTTLE_STEP, WINDOW_BYTES, WINDOW_SPAN,
};
pub use peer::Peer;
pub use send_error::SendError;
pub use state::PeerState;
pub use take_error::TakeError;
pub use written::written_by_repeating;

#[cfg(test)]
mod hostile_tests;
#[cfg(test)]
mod tests;
