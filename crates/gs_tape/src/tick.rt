//! One moment of a capture.

ghost use Rattle.std.specs.Prelude.{◌≡◌, ◌<◌, ◌^◌, length};
ghost use Rattle.std.specs.List.{sum_by};

use crate::delta::{Delta, Deltas};
use crate::unit::Unit;
use crate::units::Units;
use std::marker::Model;

/// One moment of a capture: its number, from 1, its time in milliseconds, the unit of its picture
/// coded by itself, units of its picture coded against earlier ticks, and its audio units.
#[derive(Debug, Drop)]
pub struct Tick {
    pub number: u32,
    pub time: u32,
    pub idr: Unit,
    pub deltas: Deltas,
    pub audio: Units,
}

impl Model for Tick {
    ghost use Rattle.gs_tape.specs.Tick as spec;

    ghost Value = { spec.Tick };

    ghost view = { λ tick. record {
      number = tick.number;
      time = tick.time;
      idr = tick.idr;
      deltas = tick.deltas;
      audio = tick.audio;
    } };
}

impl Tick {
    ghost use Rattle.gs_tape.specs.Tick.{unit_bytes};

    /// The bytes of all its units.
    pub fn unit_bytes(&self) -> u64
        requires { unit_bytes self.now < 2 ^ 64 }
        ensures { result ≡ unit_bytes self.now }
    {
        self.idr.len() as u64
            + delta_bytes(self.deltas.as_slice())
            + sound_bytes(self.audio.as_slice())
    }
}

fn delta_bytes(deltas: &[Delta]) -> u64
    requires { sum_by (λ d. length d.unit) deltas.now < 2 ^ 64 }
    ensures { result ≡ sum_by (λ d. length d.unit) deltas.now }
{
    deltas.iter().map(|delta| delta.unit.len() as u64).sum()
}

fn sound_bytes(units: &[Unit]) -> u64
    requires { sum_by (λ unit. length unit) units.now < 2 ^ 64 }
    ensures { result ≡ sum_by (λ unit. length unit) units.now }
{
    units.iter().map(|unit| unit.len() as u64).sum()
}
