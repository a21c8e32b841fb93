// The steps of a generated schedule.

ghost use Rattle.std.specs.Prelude.{◌≡◌, ◌≤◌, ◌++◌, ◌∷◌, [], IfOk, OnOk};
ghost use Rattle.gs_schedule.specs.declared.step.Step.TheVariants.{Close, Pump, Session};
ghost use Rattle.gs_run.specs.Generated as spec;
ghost use Rattle.gs_tape.specs.Limits.{most_generated};

use gs_bytes::OutOfMemory;
use gs_input::Event;
use gs_schedule::Step;
use std::alloc::Global;

/// The packet size of each session, in bytes.
const PACKET: u32 = 1_392;

/// The percentage of parity of each session.
const PERCENTAGE: u32 = 20;

/// The parity shards that each block has at least.
const MINIMUM: u32 = 2;

/// The frames of each client's window.
const WINDOW: u32 = 1;

/// The key that the user presses and lets go.
const KEY: i16 = 65;

/// Each of how many datagrams is lost.
const LOST: u32 = 50;

/// The steps of the schedule over so many generated ticks.
pub(crate) fn generated_steps(alloc: Global, ticks: u32) -> Result<Vec<Step>, OutOfMemory>
    requires few { ticks ≤ most_generated }
    ensures steps { IfOk result (λ steps. steps.items ≡ spec.generated_steps ticks) }
{
    let mut steps = Vec::new(alloc);
    push_all(&mut steps, &[open_step(), open_step()])?;
    'ticks: for tick in 0..ticks {
        push_all(&mut steps, &tick_steps(tick + 1))?;
    }
    push_all(&mut steps, &end_steps())?;
    Ok(steps)
}

fn push_all(steps: &mut Vec<Step>, more: &[Step]) -> Result<(), OutOfMemory>
    ensures { OnOk result (steps.new.items ≡ steps.old.items ++ more.now) }
{
    steps.extend_from_slice(more)?;
    Ok(())
}

// A session is opened.
fn open_step() -> Step
    ensures { result ≡ Session 1392 20 2 1 }
{
    Step::Session {
        packet: PACKET,
        percentage: PERCENTAGE,
        minimum: MINIMUM,
        window: WINDOW,
    }
}

// What is done at a tick.
fn tick_steps(tick: u32) -> [Step; 6]
    ensures { result ≡ spec.tick_steps tick }
{
    [
        Step::Cap,
        Step::Send { session: 1 },
        Step::Send { session: 2 },
        Step::Input {
            session: 1,
            event: key_event(tick),
        },
        Step::Pump {
            session: 1,
            every: LOST,
        },
        Step::Pump {
            session: 2,
            every: LOST,
        },
    ]
}

// A key goes down at odd ticks and up at even ones.
fn key_event(tick: u32) -> Event
    ensures { result ≡ spec.key_event tick }
{
    if tick % 2 == 1 {
        Event::KeyDown {
            code: KEY,
            modifiers: 0,
        }
    } else {
        Event::KeyUp {
            code: KEY,
            modifiers: 0,
        }
    }
}

// What is done behind the last tick.
fn end_steps() -> [Step; 4]
    ensures { result ≡ Close 1 ∷ Pump 1 0 ∷ Close 2 ∷ Pump 2 0 ∷ [] }
{
    [
        Step::Close { session: 1 },
        Step::Pump {
            session: 1,
            every: 0,
        },
        Step::Close { session: 2 },
        Step::Pump {
            session: 2,
            every: 0,
        },
    ]
}
