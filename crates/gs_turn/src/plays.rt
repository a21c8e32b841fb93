//! What each kind of atomic step tells the pass that makes it. These types are for the proofs alone.
ghost use Rattle.std.specs.Prelude.{List, [], ◌∷◌};
ghost use Rattle.gs_turn.specs.Plays.{arrived, drew, saw_served, counted, gave_back, settled, numbered_next};
ghost use Rattle.gs_turn.specs.Plays.{with_next_made, joined, spent};

use crate::rule::PassView;
use crate::turned::Turned;
use atomic_table::{Join, Play, Split};
use std::marker::{Brand, PhantomData};

/// The call of one step. Each call of a cell picks it.
pub trait Asked<C> {
    ghost call: { List C };
}

impl<C> Asked<C> for Brand {
    ghost call = { [] };
}

/// The reply of one step. Each call of a cell picks it.
pub trait Replied<R> {
    ghost reply: { List R };
}

impl<R> Replied<R> for Brand {
    ghost reply = { [] };
}

/// The first pass takes the empty slot, to bring the opening state in.
pub struct Arrive;

impl<S: Turned> Play<Option<S>, PassView<S, S::Call, S::Reply>> for Arrive {
    ghost then = { arrived };
}

/// A ticket was drawn.
pub struct Draw;

impl<S: Turned> Play<Option<S>, PassView<S, S::Call, S::Reply>> for Draw {
    ghost then = { drew };
}

/// The ticket served was read, and where it is the pass's own, the state was taken.
pub struct Look;

impl<S: Turned> Play<Option<S>, PassView<S, S::Call, S::Reply>> for Look {
    ghost then = { saw_served S.steps };
}

/// The call joined the history.
pub struct Count<J, K> {
    of: PhantomData<(J, K)>,
}

impl<S: Turned, J: Asked<S::Call>, K: Replied<S::Reply>> Play<
    Option<S>,
    PassView<S, S::Call, S::Reply>,
> for Count<J, K> {
    ghost then = { counted J.call K.reply };
}

/// The state was given back, and the next ticket is served.
pub struct GiveBack;

impl<S: Turned> Play<Option<S>, PassView<S, S::Call, S::Reply>> for GiveBack {
    ghost then = { gave_back };
}

/// After two passes were joined: the shorter front begins the longer.
pub struct Settle;

impl<S: Turned> Play<Option<S>, PassView<S, S::Call, S::Reply>> for Settle {
    ghost then = { settled };
}

/// A pass with the next number.
pub struct Another;

impl<S, C, R> Split<PassView<S, C, R>> for Another {
    ghost left = { with_next_made };

    ghost right = { numbered_next };
}

/// One pass of two.
pub struct Both;

impl<S, C, R> Join<PassView<S, C, R>> for Both {
    ghost both = { joined };

    ghost spent = { spent };
}
