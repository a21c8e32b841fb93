//! The cell.
ghost use Rattle.std.specs.Prelude.{◌≡◌, ◌≤◌};

use crate::rule::{OneHistory, Opening, PassView};
use crate::turned::Turned;
use atomic_table::Table;
use std::alloc::Global;

mod closing;
mod making;
mod taking;

// The words of the table, and its slot.
const DRAWN: usize = 0;

const SERVED: usize = 1;

const MADE: usize = 2;

const STATE: usize = 0;

/// A state that threads change in turns. A contract sees the state with which it opened (`opening_of`)
/// and how many passes it has (`passes_of`).
#[derive(Drop)]
pub struct Turn<S: Turned> {
    table: Table<Option<S>, PassView<S, S::Call, S::Reply>, Opening<S>, OneHistory, Global>,
    ghost three_words: { table.shared.table_id.words ≡ 3 },
    ghost one_slot: { table.shared.table_id.slots ≡ 1 },
}
