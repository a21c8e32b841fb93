//! Which channels may have a message that is to be written.

ghost use Rattle.std.specs.Prelude.{ℕ, ◌≡◌, ◌≤◌, ◌<◌, ◌+◌};
ghost use Rattle.gs_enet.specs.Record.{channels};

use crate::limits::CHANNELS;

/// The channels from one place up to another. No other has a message that is to be written.
#[derive(Clone, Copy)]
pub struct Busy {
    pub from: usize,
    pub to: usize,
    ghost order: { from ≤ to },
    ghost within: { to ≤ channels },
}

impl Busy {
    ghost use Rattle.gs_enet.specs.Busy.{IsIn};

    pub fn none() -> Busy
        ensures from { result.from ≡ 0 }
        ensures to { result.to ≡ 0 }
    {
        Busy { from: 0, to: 0 }
    }

    pub fn all() -> Busy
        ensures from { result.from ≡ 0 }
        ensures to { result.to ≡ channels }
    {
        Busy {
            from: 0,
            to: CHANNELS,
        }
    }

    /// Takes a channel in.
    pub fn add(&mut self, place: usize)
        requires { place < channels }
        ensures place { IsIn place self.new }
        ensures others { (i : ℕ) → IsIn i self.old → IsIn i self.new }
    {
        if self.from == self.to {
            self.from = place;
            self.to = place + 1;
        } else {
            self.from = self.from.min(place);
            self.to = self.to.max(place + 1);
        }
    }
}
