//! A pass of a cell.
ghost use Rattle.std.specs.Prelude.{◌≡◌, ◌<◌, length};
ghost use Rattle.gs_turn.specs.Standings.{is_outside};
ghost use Rattle.std.specs.Prelude.{true};

use crate::rule::PassView;
use crate::turned::Turned;
use atomic_table::Seat;

/// The right to call one cell, for one thread at a time. It has no bytes. A contract sees its front
/// (`front`), its numbers with the calls made under each (`own`), and of which cell it is (`IsPassOf`).
#[derive(Drop)]
pub struct Pass<S: Turned> {
    pub(crate) seat: Seat<Option<S>, PassView<S, S::Call, S::Reply>>,
    ghost outside: { is_outside seat.me.0.standing ≡ true },
    ghost holds_nothing: { length seat.me.1 ≡ 0 },
    ghost no_olds: { length seat.me.0.olds ≡ 0 },
    ghost numbered: { 0 < length seat.me.0.own },
}
