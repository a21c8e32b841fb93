// Which unit of a tick a frame carries.

ghost use Rattle.std.specs.Prelude.{◌≡◌, ◌==◌, MatchOption, None, Some, IsSome, option_copied};
ghost use Rattle.std.specs.List.{find};
ghost use Rattle.gs_host_core.specs.Units.{sent_unit_of};

use gs_refs::Sent;
use gs_tape::{Delta, Tick};

// A frame of this kind carries an IDR unit.
const KIND_IDR: u8 = 2;

/// The unit of a tick that went out as a frame: the IDR unit for kind 2, else the delta against the tick of the frame
/// that it refers to, which the tick has.
pub fn unit_of<'a>(tick: &'a Tick, sent: &Sent) -> &'a [u8]
    requires { IsSome (sent_unit_of tick.now sent.now) }
    ensures { sent_unit_of tick.now sent.now ≡ Some result.now }
{
    if sent.kind == KIND_IDR {
        return tick.idr.as_bytes();
    }
    match delta_against(tick, sent.named) {
        Some(delta) => delta.unit.as_bytes(),
        None => unreachable!(),
    }
}

// The delta of a tick against the tick of that number.
fn delta_against<'a>(tick: &'a Tick, named: u32) -> Option<&'a Delta>
    ensures { MatchOption result (find (λ d. d.named == named) tick.now.deltas ≡ None)
        (λ delta. find (λ d. d.named == named) tick.now.deltas ≡ Some delta.now) }
{
    let deltas = tick.deltas.as_slice();
    find_delta(deltas, named)
}

// The first of the deltas against the tick of that number.
fn find_delta(deltas: &[Delta], named: u32) -> Option<&Delta>
    ensures { option_copied result ≡ find (λ d. d.named == named) deltas.now }
{
    deltas.iter().find(|delta| delta.named == named)
}
