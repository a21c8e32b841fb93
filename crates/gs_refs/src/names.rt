// Whether a tick can go out against an earlier one.

ghost use Rattle.std.specs.Prelude.{◌≡◌};
ghost use Rattle.gs_refs.specs.Choice.{names};

use gs_tape::Tick;

/// Whether the tick has a unit against the tick of that number.
pub(crate) fn names(tick: &Tick, number: u32) -> bool
    ensures { result ≡ names tick.now number }
{
    tick.deltas
        .as_slice()
        .iter()
        .any(|delta| delta.named == number)
}
