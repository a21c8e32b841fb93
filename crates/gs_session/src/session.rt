//! The session.

ghost use Rattle.std.specs.Prelude.{◌≡◌};
ghost use Rattle.gs_turn.specs.Cells.{passes_of};

use crate::shared::Shared;
use gs_turn::Turn;

mod calling;

/// The references of a session, which two threads call in turns. A contract sees the references with which it
/// opened (`opening_of`).
#[derive(Drop)]
pub struct Session {
    turn: Turn<Shared>,
    ghost two_passes: { passes_of turn ≡ 2 },
}
