// A tick behind its tag, read from a source.

ghost use Rattle.std.specs.Prelude.{◌≡◌, ◌==◌, ◌&&◌, ◌||◌, [], not, nat_le, nat_lt, ◌+◌, ◌*◌, ◌^◌, ◌<◌, ◌≤◌, IfOk};
ghost use Rattle.std.specs.Prelude.{IsErrOf, length};
ghost use Rattle.std.specs.List.{AllByRecursion, sum_by};
ghost use Rattle.gs_reader.specs.Buffered.{to_come};
ghost use Rattle.gs_tape.specs.Limits.{AreDeltasBetween, IsWithinLimits, most_audio, most_bytes, most_count};
ghost use Rattle.gs_tape.specs.Limits.{most_ticks, most_unit};
ghost use Rattle.gs_tape.specs.Tick.{unit_bytes};
ghost use Rattle.gs_tape.specs.Steps.{delta, delta_count, deltas, before, most_tick, sound_count, sounds, tick, time};
ghost use Rattle.gs_tape.specs.Steps.{unit};
ghost use Rattle.gs_tape.specs.Streaming.{LeavesSource, ReadsStep};

use crate::cursor::Cursor;
use crate::delta::{Delta, Deltas};
use crate::error::TapeError;
use crate::limits::{MOST_BYTES, MOST_COUNT};
use crate::tick::Tick;
use crate::unit::Unit;
use crate::units::Units;
use gs_bytes::{MOST_UNIT, Source};

/// What is known before a tick: its number, the time of the one before, and how many bytes all units
/// so far have.
#[derive(Clone, Copy)]
pub struct Known {
    pub number: u32,
    pub time: u32,
    pub held: u64,
}

impl Known {
    ghost use Rattle.gs_tape.specs.Tape.{known_behind};

    // What is known behind this tick.
    pub fn behind(self, tick: &Tick) -> Known
        requires number { self.number ≤ most_ticks }
        requires room { self.held + unit_bytes tick.now ≤ most_bytes }
        ensures known { before result.number result.time result.held
            ≡ known_behind (before self.number self.time self.held) tick.now }
    {
        Known {
            number: self.number + 1,
            time: tick.time,
            held: self.held + tick.unit_bytes(),
        }
    }
}

// How many bytes so many audio units have.
fn heard_bytes(heard: u8, audio: u16) -> u64
    ensures { result ≡ heard * audio }
{
    u64::from(heard) * u64::from(audio)
}

// Whether a tick can't have so many audio units of so many bytes.
fn are_too_many(heard: u8, audio: u16) -> bool
    ensures { result ≡ (nat_lt most_count heard || (not (heard == 0) && audio == 0)) }
{
    heard > MOST_COUNT || (heard != 0 && audio == 0)
}

// Whether a delta of a tick can't name this one behind one that names `after`.
fn is_misnamed(named: u32, tick: u32, after: u32) -> bool
    ensures { result ≡ (nat_le named after || nat_le tick named) }
{
    named <= after || named >= tick
}

impl Cursor {
    // The time of a tick, no earlier than that of the one before.
    fn time<S: Source>(&mut self, source: &mut S, earliest: u32) -> Result<u32, TapeError>
        requires { self.old.place + 4 < 2 ^ 64 }
        ensures read { ReadsStep (time earliest) (to_come self.old.reader (S.left source.old))
            (to_come self.new.reader (S.left source.new)) self.old.place self.new.place result }
        ensures spent { IsErrOf result TapeError.TapeFault → self.new.reader ≡ [] }
        ensures place { self.new.place ≤ self.old.place + 4 }
        ensures not_earlier { IfOk result (λ time. earliest ≤ time) }
        ensures source { LeavesSource (S.faults source.old) (S.faults source.new) (S.met_end source.old)
            (S.met_end source.new) (S.written source.old) (S.written source.new) result }
    {
        let place = self.place;
        let time = self.u32(source)?;
        if time < earliest {
            return Err(TapeError::BadTape { kind: 3, place });
        }
        Ok(time)
    }

    // How many audio units of so many bytes a tick has, where there is room for them.
    fn sound_count<S: Source>(
        &mut self,
        source: &mut S,
        audio: u16,
        known: Known,
    ) -> Result<u8, TapeError>
        requires place { self.old.place + 1 < 2 ^ 64 }
        requires audio { audio ≤ most_audio }
        requires held { known.held ≤ most_bytes }
        ensures read { ReadsStep (sound_count audio known.number known.held)
            (to_come self.old.reader (S.left source.old))
            (to_come self.new.reader (S.left source.new)) self.old.place self.new.place result }
        ensures spent { IsErrOf result TapeError.TapeFault → self.new.reader ≡ [] }
        ensures place { self.new.place ≤ self.old.place + 1 }
        ensures most { IfOk result (λ heard. heard ≤ most_count) }
        ensures silent { IfOk result (λ heard. audio ≡ 0 → heard ≡ 0) }
        ensures room { IfOk result (λ heard. known.held + heard * audio ≤ most_bytes) }
        ensures source { LeavesSource (S.faults source.old) (S.faults source.new) (S.met_end source.old)
            (S.met_end source.new) (S.written source.old) (S.written source.new) result }
    {
        let place = self.place;
        let heard = self.u8(source)?;
        if are_too_many(heard, audio) {
            return Err(TapeError::BadTape { kind: 4, place });
        }
        if known.held + heard_bytes(heard, audio) > MOST_BYTES {
            return Err(TapeError::TapeFull { tick: known.number });
        }
        Ok(heard)
    }

    // How many deltas a tick has.
    fn delta_count<S: Source>(&mut self, source: &mut S) -> Result<u8, TapeError>
        requires { self.old.place + 1 < 2 ^ 64 }
        ensures read { ReadsStep delta_count (to_come self.old.reader (S.left source.old))
            (to_come self.new.reader (S.left source.new)) self.old.place self.new.place result }
        ensures spent { IsErrOf result TapeError.TapeFault → self.new.reader ≡ [] }
        ensures place { self.new.place ≤ self.old.place + 1 }
        ensures most { IfOk result (λ count. count ≤ most_count) }
        ensures source { LeavesSource (S.faults source.old) (S.faults source.new) (S.met_end source.old)
            (S.met_end source.new) (S.written source.old) (S.written source.new) result }
    {
        let place = self.place;
        let count = self.u8(source)?;
        if count > MOST_COUNT {
            return Err(TapeError::BadTape { kind: 4, place });
        }
        Ok(count)
    }

    // The unit of a tick behind its length, where all units before it have `held` bytes.
    fn unit<S: Source>(&mut self, source: &mut S, tick: u32, held: u64) -> Result<Unit, TapeError>
        requires room { self.old.place + 4 + most_unit < 2 ^ 64 }
        requires held { held ≤ most_bytes }
        ensures read { ReadsStep (unit tick held) (to_come self.old.reader (S.left source.old))
            (to_come self.new.reader (S.left source.new)) self.old.place self.new.place result }
        ensures spent { IsErrOf result TapeError.TapeFault → self.new.reader ≡ [] }
        ensures place { self.new.place ≤ self.old.place + 4 + most_unit }
        ensures most { IfOk result (λ unit. length unit ≤ most_unit) }
        ensures room { IfOk result (λ unit. held + length unit ≤ most_bytes) }
        ensures source { LeavesSource (S.faults source.old) (S.faults source.new) (S.met_end source.old)
            (S.met_end source.new) (S.written source.old) (S.written source.new) result }
    {
        let length = self.u32(source)?;
        if length > MOST_UNIT {
            return Err(TapeError::UnitTooLarge { tick });
        }
        if held + u64::from(length) > MOST_BYTES {
            return Err(TapeError::TapeFull { tick });
        }
        let bytes = self.take(source, length as usize)?;
        Ok(Unit::from_bytes(bytes))
    }

    // The next delta of a tick, behind one that names tick `after`.
    fn delta<S: Source>(
        &mut self,
        source: &mut S,
        tick: u32,
        after: u32,
        held: u64,
    ) -> Result<Delta, TapeError>
        requires room { self.old.place + 8 + most_unit < 2 ^ 64 }
        requires held { held ≤ most_bytes }
        ensures read { ReadsStep (delta tick after held) (to_come self.old.reader (S.left source.old))
            (to_come self.new.reader (S.left source.new)) self.old.place self.new.place result }
        ensures spent { IsErrOf result TapeError.TapeFault → self.new.reader ≡ [] }
        ensures place { self.new.place ≤ self.old.place + 8 + most_unit }
        ensures named { IfOk result (λ delta. (after < delta.named) × (delta.named < tick)) }
        ensures most { IfOk result (λ delta. length delta.unit ≤ most_unit) }
        ensures room { IfOk result (λ delta. held + length delta.unit ≤ most_bytes) }
        ensures source { LeavesSource (S.faults source.old) (S.faults source.new) (S.met_end source.old)
            (S.met_end source.new) (S.written source.old) (S.written source.new) result }
    {
        let place = self.place;
        let named = self.u32(source)?;
        if is_misnamed(named, tick, after) {
            return Err(TapeError::BadTape { kind: 5, place });
        }
        let unit = self.unit(source, tick, held)?;
        Ok(Delta { named, unit })
    }
    // So many deltas of a tick, where all units before them have `held` bytes.
    fn deltas<S: Source>(
        &mut self,
        source: &mut S,
        count: u8,
        tick: u32,
        held: u64,
    ) -> Result<Deltas, TapeError>
        requires room { self.old.place + count * (8 + most_unit) < 2 ^ 64 }
        requires held { held ≤ most_bytes }
        ensures read { ReadsStep (deltas count tick 0 held) (to_come self.old.reader (S.left source.old))
            (to_come self.new.reader (S.left source.new)) self.old.place self.new.place result }
        ensures spent { IsErrOf result TapeError.TapeFault → self.new.reader ≡ [] }
        ensures place { self.new.place ≤ self.old.place + count * (8 + most_unit) }
        ensures count { IfOk result (λ ds. length ds ≡ count) }
        ensures between { IfOk result (λ ds. AreDeltasBetween 0 tick ds) }
        ensures room { IfOk result (λ ds. held + sum_by (λ d. length d.unit) ds ≤ most_bytes) }
        ensures source { LeavesSource (S.faults source.old) (S.faults source.new) (S.met_end source.old)
            (S.met_end source.new) (S.written source.old) (S.written source.new) result }
    {
        let mut deltas = Vec::with_capacity(self.alloc, usize::from(count))?;
        let mut after = 0;
        let mut sum = held;
        for _ in 0..count {
            let delta = self.delta(source, tick, after, sum)?;
            after = delta.named;
            sum += delta.unit.len() as u64;
            deltas.push(delta)?;
        }
        Ok(Deltas::from_vec(deltas))
    }

    // So many audio units of one length.
    fn sounds<S: Source>(
        &mut self,
        source: &mut S,
        count: u8,
        each: u16,
    ) -> Result<Units, TapeError>
        requires room { self.old.place + count * most_audio < 2 ^ 64 }
        requires each { each ≤ most_audio }
        ensures read { ReadsStep (sounds count each) (to_come self.old.reader (S.left source.old))
            (to_come self.new.reader (S.left source.new)) self.old.place self.new.place result }
        ensures spent { IsErrOf result TapeError.TapeFault → self.new.reader ≡ [] }
        ensures place { self.new.place ≤ self.old.place + count * most_audio }
        ensures count { IfOk result (λ us. length us ≡ count) }
        ensures whole { IfOk result (λ us. AllByRecursion (λ u. length u ≡ each) us) }
        ensures source { LeavesSource (S.faults source.old) (S.faults source.new) (S.met_end source.old)
            (S.met_end source.new) (S.written source.old) (S.written source.new) result }
    {
        let mut units = Vec::with_capacity(self.alloc, usize::from(count))?;
        for _ in 0..count {
            let bytes = self.take(source, usize::from(each))?;
            units.push(Unit::from_bytes(bytes))?;
        }
        Ok(Units::from_vec(units))
    }

    // A tick behind its tag.
    pub fn tick<S: Source>(
        &mut self,
        source: &mut S,
        audio: u16,
        known: Known,
    ) -> Result<Tick, TapeError>
        requires place { self.old.place + most_tick < 2 ^ 64 }
        requires audio { audio ≤ most_audio }
        requires held { known.held ≤ most_bytes }
        requires number { known.number ≤ most_ticks }
        ensures read { ReadsStep (tick audio (before known.number known.time known.held))
            (to_come self.old.reader (S.left source.old))
            (to_come self.new.reader (S.left source.new)) self.old.place self.new.place result }
        ensures spent { IsErrOf result TapeError.TapeFault → self.new.reader ≡ [] }
        ensures place { self.new.place + 1 ≤ self.old.place + most_tick }
        ensures within { IfOk result (λ t. IsWithinLimits audio known.number known.time t) }
        ensures room { IfOk result (λ t. known.held + unit_bytes t ≤ most_bytes) }
        ensures source { LeavesSource (S.faults source.old) (S.faults source.new) (S.met_end source.old)
            (S.met_end source.new) (S.written source.old) (S.written source.new) result }
    {
        let time = self.time(source, known.time)?;
        let heard = self.sound_count(source, audio, known)?;
        let count = self.delta_count(source)?;
        let before_idr = known.held + heard_bytes(heard, audio);
        let idr = self.unit(source, known.number, before_idr)?;
        let before_deltas = before_idr + idr.len() as u64;
        let deltas = self.deltas(source, count, known.number, before_deltas)?;
        let audio = self.sounds(source, heard, audio)?;
        Ok(Tick {
            number: known.number,
            time,
            idr,
            deltas,
            audio,
        })
    }
}
