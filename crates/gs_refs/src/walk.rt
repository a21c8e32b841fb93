// The choice found by walking a history.

ghost use Rattle.std.specs.Prelude.{◌≡◌, reverse};
ghost use Rattle.gs_refs.specs.Candidates.{IsGreatestNamed};
ghost use Rattle.gs_refs.specs.History.{frames};

use crate::candidate::Candidate;
use crate::entry::Entry;
use crate::names::names;
use gs_tape::Tick;

/// The greatest valid frame of the history that the tick has a unit against. The entries are the history in
/// order, and send this many frames.
pub(crate) fn walk(entries: &[Entry], sent: u32, tick: &Tick) -> Option<Candidate>
    requires { sent ≡ frames (reverse entries.now) }
    ensures { IsGreatestNamed (reverse entries.now) tick.now result }
{
    let mut frame = sent;
    let mut greatest = sent;
    for place in (0..entries.len()).rev() {
        match entries[place] {
            Entry::Sent {
                tick: number,
                kind,
                ..
            } => {
                if frame <= greatest && names(tick, number) {
                    return Some(Candidate {
                        frame,
                        tick: number,
                    });
                }
                if kind == 2 {
                    return None;
                }
                frame -= 1;
            }
            Entry::Invalid { first, .. } => greatest = greatest.min(first.saturating_sub(1)),
            Entry::IdrAsked | Entry::Ended { .. } => {}
        }
    }
    None
}
