//! The history of a capture: the ticks that its recorder gave to be published, in order. It lies in proofs
//! alone, and lasts for good; in memory there is its length.
ghost use Rattle.std.specs.Prelude.{◌≡◌, ◌<◌, ◌^◌, ◌++◌, ◌∷◌, [], length, IfSome};
ghost use Rattle.std.specs.Arc.{arc_value};
ghost use Rattle.gs_capture.specs.Histories.{book_head};

use gs_tape::Tick;
use logbook::{Gain, Offer, Plain, Play, Rule, Seen, Start, Word};
use std::sync::Arc;

/// The rule of a history: the word is its length.
pub struct Growing;

impl Rule<Tick, u64> for Growing {
    ghost use Rattle.std.specs.Prelude.{[]};
    ghost use base.Fml.{ftrue};
    ghost use Rattle.gs_capture.specs.Histories.{AreCounted};

    ghost holds = { λ cells log. AreCounted cells log };

    ghost first = { [] };

    ghost hinted = { λ n log. Unit {0} };

    ghost shows = { λ log. [] };

    ghost keeps = { λ names log. ftrue };

    ghost moves = { λ ask before after answer. Unit {0} };
}

/// Nobody trades anything.
pub struct Nothing;

impl Gain<Tick, u64> for Nothing {
    ghost use base.Fml.{ftrue};

    ghost after = { λ names about answer. ftrue };
}

/// The step that adds a tick.
pub struct Adding;

impl Play<Tick, u64> for Adding {
    ghost use Rattle.gs_capture.specs.Histories.{Adds};

    ghost then = { Adds };
}

impl Plain<Arc<Tick>, Tick, u64> for Adding {
    ghost use Rattle.std.specs.Prelude.{None};
    ghost use Rattle.std.specs.Arc.{arc_value};

    ghost ask = { arc_value };

    ghost state = { λ tick. None };
}

/// A front of a history, which was reached. It has no bytes.
pub type Front = Seen<Tick, u64, Growing>;

/// The word of a history. Its recorder alone has it.
pub type Head = Word<Tick, u64, Growing>;

/// A history with no tick.
pub(crate) fn open() -> (Head, Front)
    ensures { (result.0 ≡ book_head result.1.book) × (result.1.log ≡ []) }
{
    let (front, mut first, _second) = Seen::open(Start::alone(), 0, 0);
    (Word::tracked(0, &mut first), front)
}

/// The front and one more tick. None where the history has gone on without it.
pub(crate) fn add(head: &Head, front: &Front, count: u64, tick: &Arc<Tick>) -> Option<Front>
    requires head { head.now ≡ book_head front.now.book }
    requires count { (count ≡ length front.now.log) × (count < 2 ^ 62) }
    ensures { IfSome result (λ f. (f.book ≡ front.now.book) × (f.log ≡ front.now.log ++ arc_value tick.now ∷ [])) }
{
    let mut longer = front.again();
    let mut offer: Offer<Tick, u64, Growing, Nothing> = front.plain::<Nothing, Arc<Tick>, Adding>(
        tick,
    );
    let mut pen = front.no_pen();
    let found = head.compare_exchange::<Adding, Nothing>(
        count,
        count + 1,
        &mut longer,
        &mut offer,
        &mut pen,
    );
    if found == count { Some(longer) } else { None }
}
