//! Units that are coded against earlier pictures.

use crate::unit::Unit;
use std::marker::Model;

/// A unit that is decoded with the picture of an earlier tick, which it names.
#[derive(Debug, Drop)]
pub struct Delta {
    pub named: u32,
    pub unit: Unit,
}

impl Model for Delta {
    ghost use Rattle.gs_tape.specs.Tick as spec;

    ghost Value = { spec.Delta };

    ghost view = { λ delta. record { named = delta.named; unit = delta.unit } };
}

/// The deltas of a tick, which a contract sees as the list of them.
#[derive(Debug, Drop)]
pub struct Deltas {
    items: Vec<Delta>,
}

impl Model for Deltas {
    ghost use Rattle.std.specs.Prelude.{List};
    ghost use Rattle.gs_tape.specs.Tick as spec;

    ghost Value = { List spec.Delta };

    ghost view = { λ deltas. deltas.items.items };
}

impl Deltas {
    ghost use Rattle.std.specs.Prelude.{◌≡◌, ◌==◌, length};

    /// The deltas of a vector. Takes no memory.
    pub fn from_vec(items: Vec<Delta>) -> Deltas
        ensures { result ≡ items.items }
    {
        Deltas { items }
    }

    /// The deltas as a vector. Takes no memory.
    pub fn into_vec(self) -> Vec<Delta>
        ensures { result.items ≡ self }
    {
        self.items
    }

    /// The deltas.
    pub fn as_slice(&self) -> &[Delta]
        ensures { result.now ≡ self.now }
    {
        self.items.as_slice()
    }

    /// The number of deltas.
    pub fn len(&self) -> usize
        ensures { result ≡ length self.now }
    {
        self.items.len()
    }

    /// Whether there is no delta.
    pub fn is_empty(&self) -> bool
        ensures { result ≡ (length self.now == 0) }
    {
        self.items.is_empty()
    }
}
