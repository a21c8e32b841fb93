//! What the seats of a cell know, and the rule that each atomic step keeps.

use crate::turn_call::TurnCall;
use crate::turned::Turned;
use atomic_table::TableRule;
use std::collections::LinkedList;

/// The state with which a cell opens, and how many passes it has.
#[derive(Drop)]
pub struct Opening<S> {
    pub state: S,
    pub passes: u32,
}

/// Where a pass stands: it brings the opening state in, is outside, waits with a ticket, or has its turn.
pub enum Standing {
    Arriving,
    Outside,
    Waiting(u64),
    Serving(u64),
}

/// What a pass knows. No value of it is made.
pub struct PassView<S, C, R> {
    /// The state with which the cell opened. A pass that was joined into another knows nothing.
    pub opening: Option<S>,
    pub standing: Standing,
    /// How many passes were made, where this one made them, and else 0.
    pub made: u32,
    /// A beginning of the history.
    pub front: LinkedList<TurnCall<C, R>>,
    /// Its numbers, each with the calls made under it.
    pub own: LinkedList<(u32, LinkedList<TurnCall<C, R>>)>,
    /// Other beginnings of the history, each no longer than the front.
    pub olds: LinkedList<LinkedList<TurnCall<C, R>>>,
}

/// The rule of a cell: there is one history of all that its passes know.
pub struct OneHistory;

impl<S: Turned> TableRule<Option<S>, PassView<S, S::Call, S::Reply>, Opening<S>> for OneHistory {
    ghost use Rattle.gs_turn.specs.Rule.{Kept, arriving};

    ghost holds = { Kept S.steps };

    ghost first = { λ opening. arriving opening.state };
}
