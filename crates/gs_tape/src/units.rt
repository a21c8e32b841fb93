//! Lists of units.

use crate::unit::Unit;
use std::marker::Model;

/// The audio units of a tick, which a contract sees as the list of them.
#[derive(Debug, Drop)]
pub struct Units {
    items: Vec<Unit>,
}

impl Model for Units {
    ghost use Rattle.std.specs.Prelude.{List, ℕ};

    ghost Value = { List (List ℕ) };

    ghost view = { λ units. units.items.items };
}

impl Units {
    ghost use Rattle.std.specs.Prelude.{◌≡◌, ◌==◌, length};

    /// The units of a vector. Takes no memory.
    pub fn from_vec(items: Vec<Unit>) -> Units
        ensures { result ≡ items.items }
    {
        Units { items }
    }

    /// The units as a vector. Takes no memory.
    pub fn into_vec(self) -> Vec<Unit>
        ensures { result.items ≡ self }
    {
        self.items
    }

    /// The units.
    pub fn as_slice(&self) -> &[Unit]
        ensures { result.now ≡ self.now }
    {
        self.items.as_slice()
    }

    /// The number of units.
    pub fn len(&self) -> usize
        ensures { result ≡ length self.now }
    {
        self.items.len()
    }

    /// Whether there is no unit.
    pub fn is_empty(&self) -> bool
        ensures { result ≡ (length self.now == 0) }
    {
        self.items.is_empty()
    }
}
