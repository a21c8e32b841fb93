// How a tick goes out.

ghost use Rattle.std.specs.Prelude.{◌≡◌, ◌≤◌, ◌<◌};
ghost use Rattle.gs_refs.specs.Answers.{next_sent};
ghost use Rattle.gs_refs.specs.Candidates.{IsGreatestNamed};
ghost use Rattle.gs_refs.specs.Choice.{choice};
ghost use Rattle.gs_refs.specs.History.{frames, is_valid, last_tick};
ghost use Rattle.gs_refs.specs.Standing.{Chooses, chosen_sent, next_or_idr};

use super::Refs;
use crate::candidate::Candidate;
use crate::chosen::Chosen;
use crate::names::names;
use crate::sent::Sent;
use crate::walk::walk;
use gs_tape::Tick;

const IDR: Chosen = Chosen {
    kind: 2,
    reference: 0,
    named: 0,
};

impl Refs {
    // A later tick as the next frame.
    pub(super) fn next_sent(&self, tick: &Tick) -> Sent
        requires { last_tick self.now.history < tick.now.number }
        ensures { result ≡ next_sent self.now.history tick.now }
    {
        let chosen = self.chosen(tick);
        self.sent_as(tick.number, chosen)
    }

    // The tick of this number as the next frame.
    fn sent_as(&self, number: u32, chosen: Chosen) -> Sent
        requires { last_tick self.now.history < number }
        ensures { result ≡ chosen_sent self.now.history number chosen }
    {
        Sent {
            frame: self.frames + 1,
            tick: number,
            kind: chosen.kind,
            reference: chosen.reference,
            named: chosen.named,
        }
    }

    // The first case of the choice that applies.
    fn chosen(&self, tick: &Tick) -> Chosen
        ensures { Chooses self.now.history (choice self.now.history tick.now) result }
    {
        if self.frames == 0 || self.idr_is_owed {
            return IDR;
        }
        if self.last_is_valid() {
            return self.next_or_idr(tick);
        }
        match self.greatest_named(tick) {
            Some(candidate) => Chosen {
                kind: 5,
                reference: candidate.frame,
                named: candidate.tick,
            },
            None => IDR,
        }
    }

    // Against the last frame, where the tick has such a unit.
    fn next_or_idr(&self, tick: &Tick) -> Chosen
        ensures { Chooses self.now.history (next_or_idr self.now.history tick.now) result }
    {
        if !names(tick, self.last_tick) {
            return IDR;
        }
        Chosen {
            kind: 1,
            reference: self.frames,
            named: self.last_tick,
        }
    }

    fn last_is_valid(&self) -> bool
        requires { 1 ≤ frames self.now.history }
        ensures { result ≡ is_valid self.now.history (frames self.now.history) }
    {
        match &self.candidates {
            Some(candidates) => candidates.reaches(self.frames),
            None => false,
        }
    }

    // The greatest valid frame that the tick has a unit against. The entries are walked only where no candidate is
    // one and a valid frame may have fallen out of them.
    fn greatest_named(&self, tick: &Tick) -> Option<Candidate>
        ensures { IsGreatestNamed self.now.history tick.now result }
    {
        let Some(candidates) = &self.candidates else {
            return None;
        };
        let found = candidates.greatest_named(tick);
        if found.is_none() && candidates.has_forgotten() {
            return walk(&self.entries, self.frames, tick);
        }
        found
    }
}
