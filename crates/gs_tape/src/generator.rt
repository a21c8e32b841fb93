//! A capture that a number generates.

ghost use Rattle.std.specs.Prelude.{◌≡◌, ◌≤◌, ◌∷◌, [], IfNone, IfOk, IfSome, OnErr, OnOk};
ghost use Rattle.gs_tape.specs.Generated as spec;
ghost use Rattle.gs_tape.specs.GeneratedLaws.{GeneratedTicksAreWritable};
ghost use Rattle.gs_tape.specs.Limits.{most_generated};

use crate::draws::Draws;
use crate::tick::Tick;
use gs_bytes::OutOfMemory;
use std::alloc::Global;
use std::marker::Model;

/// Gives the ticks of the capture that a number generates, with audio units of `GENERATED_AUDIO` bytes and
/// `GENERATED_DURATION` ms. Contracts see its state, the number of its next tick and that of its last.
#[derive(Debug, Drop)]
pub struct Generator {
    draws: Draws,
    next: u32,
    last: u32,
}

impl Model for Generator {
    ghost use Rattle.std.specs.Prelude.{◌<◌, ◌≤◌, ◌+◌};
    ghost use Rattle.gs_tape.specs.Generated.{Generating};
    ghost use Rattle.gs_tape.specs.Limits.{most_generated};

    ghost Value = { Generating };

    ghost view = { λ g. record { state = g.draws.state; next = g.next; last = g.last } };

    ghost invariant = { λ g. (1 ≤ g.next) × (g.next ≤ g.last + 1) × (g.last ≤ most_generated) };
}

impl Generator {
    ghost use Rattle.gs_tape.specs.Generated.{generated, ticks_to_come};

    /// The generator of a number, which gives so many ticks.
    pub fn new(number: u32, ticks: u32) -> Generator
        requires { ticks ≤ most_generated }
        ensures { ticks_to_come result ≡ generated number ticks }
    {
        Generator {
            draws: Draws {
                state: u64::from(number),
            },
            next: 1,
            last: ticks,
        }
    }

    /// The next tick, None where all were given.
    pub fn next(&mut self, alloc: Global) -> Result<Option<Tick>, OutOfMemory>
        ensures tick { IfOk result
            (λ next. IfSome next (λ tick. ticks_to_come self.old ≡ tick ∷ ticks_to_come self.new)) }
        ensures none { IfOk result (λ next. IfNone next (ticks_to_come self.old ≡ [])) }
        ensures kept { IfOk result (λ next. IfNone next (self.new ≡ self.old)) }
        ensures err { OnErr result (self.new ≡ self.old) }
    {
        if self.next > self.last {
            return Ok(None);
        }
        let mut draws = self.draws;
        let tick = tick_of(alloc, &mut draws, self.next)?;
        self.draws = draws;
        self.next += 1;
        Ok(Some(tick))
    }
}

/// A law: what a number generates keeps the limits of a capture file, so that it can be written as
/// one and is then read as these ticks.
pub fn generated_ticks_are_writable()
    ensures { GeneratedTicksAreWritable }
{}

// Tick t, of what is drawn.
fn tick_of(alloc: Global, draws: &mut Draws, t: u32) -> Result<Tick, OutOfMemory>
    requires { (1 ≤ t) × (t ≤ most_generated) }
    ensures tick { IfOk result (λ tick. tick ≡ (spec.tick t draws.old.state).value) }
    ensures state { OnOk result (draws.new.state ≡ (spec.tick t draws.old.state).state) }
{
    let idr = draws.unit_from(alloc, 100_000, 20_000)?;
    let deltas = draws.deltas(alloc, t)?;
    let audio = draws.sounds(alloc, t)?;
    Ok(Tick {
        number: t,
        time: (t - 1) * 1_000 / 60,
        idr,
        deltas,
        audio,
    })
}
