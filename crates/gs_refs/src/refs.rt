//! The references of a session.

ghost use Rattle.std.specs.Prelude.{◌≡◌, ◌+◌, ◌≤◌, ◌<◌, ◌↔◌, ℕ, List, [], ◌∷◌, Some, Err, reverse, true, false, IfOk};
ghost use Rattle.std.specs.Prelude.{OnOk, OnErr};
ghost use Rattle.gs_tape.specs.Tick.{Tick, tick_numbered};
ghost use Rattle.gs_refs.specs.Answers.{next_sent, sent_entry, choose_answer, is_range_sent, named_range};
ghost use Rattle.gs_refs.specs.Answers.{invalidate_answer, ask_answer};
ghost use Rattle.gs_refs.specs.Choice.{IsLegal};
ghost use Rattle.gs_refs.specs.History.{frames, last_tick, has_ended};
ghost use Rattle.gs_refs.specs.declared.entry.Entry.TheVariants as entry;
ghost use Rattle.gs_refs.specs.declared.error.ChooseError.TheVariants as choose_error;
ghost use Rattle.gs_refs.specs.declared.error.InvalidError.TheVariants as invalid_error;
ghost use Rattle.gs_refs.specs.declared.error.EndedError.TheVariants as ended_error;

use crate::candidates::Candidates;
use crate::entry::Entry;
use crate::error::{ChooseError, EndedError, InvalidError};
use crate::sent::Sent;
use gs_bytes::OutOfMemory;
use gs_tape::Tick;
use std::alloc::Global;
use std::marker::Model;

mod appending;
mod choosing;

/// What a host has done for one session. A contract sees its history, the newest entry first, and for how
/// many more entries there is room.
#[derive(Drop)]
pub struct Refs {
    entries: Vec<Entry>,
    candidates: Option<Candidates>,
    frames: u32,
    last_tick: u32,
    idr_is_owed: bool,
    has_ended: bool,
}

impl Model for Refs {
    ghost use Rattle.std.specs.Prelude.{reverse, vec_capacity, vec_len};
    ghost use Rattle.gs_refs.specs.Answers.{References};
    ghost use Rattle.gs_refs.specs.Standing.{spare_room, Stands};

    ghost Value = { References };

    ghost view = { λ r. record {
      history = reverse r.entries.items;
      spare = spare_room r.candidates (vec_capacity r.entries) (vec_len r.entries);
    } };

    ghost invariant = { λ r.
        Stands (reverse r.entries.items) r.frames r.last_tick r.idr_is_owed r.has_ended r.candidates };
}

impl Refs {
    /// Nothing was done. Takes no memory.
    pub fn new(alloc: Global) -> Refs
        ensures { result.history ≡ [] }
    {
        Refs {
            entries: Vec::new(alloc),
            candidates: None,
            frames: 0,
            last_tick: 0,
            idr_is_owed: false,
            has_ended: false,
        }
    }

    /// Makes room for this many more entries.
    pub fn reserve(&mut self, n: u32) -> Result<(), OutOfMemory>
        ensures history { self.new.history ≡ self.old.history }
        ensures ok { OnOk result (n ≤ self.new.spare) }
        ensures err { OnErr result (self.new.spare ≡ self.old.spare) }
    {
        if self.candidates.is_some() {
            self.entries.reserve(n as usize)?;
            return Ok(());
        }
        let candidates = Candidates::new(*self.entries.allocator())?;
        self.entries.reserve(n as usize)?;
        self.candidates = Some(candidates);
        Ok(())
    }

    /// Sends a tick: as an IDR unit, or against the frame that the choice refers to.
    pub fn choose(&mut self, tick: &Tick) -> Result<Sent, ChooseError>
        requires room { 1 ≤ self.old.spare }
        ensures answer { result ≡ choose_answer self.old.history tick.now }

        // The causes of the two refusals, which leave the history as it was.
        ensures ended { (result ≡ Err choose_error.Ended) ↔ (has_ended self.old.history ≡ true) }
        ensures old_tick { (last : ℕ) → (result ≡ Err (choose_error.OldTick last)) ↔
            ((has_ended self.old.history ≡ false) × (tick.now.number ≤ last_tick self.old.history)
            × (last ≡ last_tick self.old.history)) }
        ensures err { OnErr result (self.new.history ≡ self.old.history) }

        // Else the choice is sent, and joins the history.
        ensures sent { IfOk result (λ sent. sent ≡ next_sent self.old.history tick.now) }
        ensures ok { IfOk result (λ sent. self.new.history ≡ sent_entry sent ∷ self.old.history) }
        ensures legal { (ticks : List Tick) → tick_numbered ticks tick.now.number ≡ Some tick.now
            → IsLegal ticks self.old.history
            → IsLegal ticks self.new.history }
        ensures spare { self.old.spare ≤ self.new.spare + 1 }
    {
        if self.has_ended {
            return Err(ChooseError::Ended);
        }
        if tick.number <= self.last_tick {
            return Err(ChooseError::OldTick {
                last: self.last_tick,
            });
        }
        let sent = self.next_sent(tick);
        self.append_sent(sent);
        Ok(sent)
    }

    /// Takes a range of frames as invalid, and with them all that were sent since its first. A range that can't
    /// be right ends the session.
    pub fn invalidate(&mut self, first: i64, last: i64) -> Result<(), InvalidError>
        requires room { 1 ≤ self.old.spare }
        ensures answer { result ≡ invalidate_answer self.old.history first last }

        // The causes of the two refusals. The first leaves the history as it was.
        ensures ended { (result ≡ Err invalid_error.Ended) ↔ (has_ended self.old.history ≡ true) }
        ensures bad_range { (sent : ℕ) → (result ≡ Err (invalid_error.BadRange sent)) ↔
            ((has_ended self.old.history ≡ false) × (is_range_sent (frames self.old.history) first last ≡ false)
            × (sent ≡ frames self.old.history)) }
        ensures unchanged { has_ended self.old.history ≡ true → self.new.history ≡ self.old.history }

        // Else the range joins the history, as invalid or as its end.
        ensures named { has_ended self.old.history ≡ false
            → self.new.history ≡ named_range (frames self.old.history) first last ∷ self.old.history }
        ensures legal { (ticks : List Tick) → IsLegal ticks self.old.history → IsLegal ticks self.new.history }
        ensures spare { self.old.spare ≤ self.new.spare + 1 }
    {
        if self.has_ended {
            return Err(InvalidError::Ended);
        }
        if first < 1 || last < first || i64::from(self.frames) < last {
            self.append_end(first, last);
            return Err(InvalidError::BadRange { sent: self.frames });
        }
        self.append_invalid(first as u32, last as u32);
        Ok(())
    }

    /// Asks that the next tick goes out as an IDR unit.
    pub fn ask_idr(&mut self) -> Result<(), EndedError>
        requires room { 1 ≤ self.old.spare }
        ensures answer { result ≡ ask_answer self.old.history }
        ensures ended { (result ≡ Err ended_error.Ended) ↔ (has_ended self.old.history ≡ true) }
        ensures err { OnErr result (self.new.history ≡ self.old.history) }
        ensures ok { OnOk result (self.new.history ≡ entry.IdrAsked ∷ self.old.history) }
        ensures legal { (ticks : List Tick) → IsLegal ticks self.old.history → IsLegal ticks self.new.history }
        ensures spare { self.old.spare ≤ self.new.spare + 1 }
    {
        if self.has_ended {
            return Err(EndedError::Ended);
        }
        self.append_asked();
        Ok(())
    }

    /// The history in order, the oldest entry first.
    pub fn entries(&self) -> &[Entry]
        ensures { reverse result.now ≡ self.now.history }
    {
        self.entries.as_slice()
    }
}
