// The ticks of a capture file, read from a source.

ghost use Rattle.std.specs.Prelude.{◌≡◌, ◌+◌, ◌*◌, ◌≤◌, [], IfNone, IfOk, IfSome, IsErrOf};
ghost use Rattle.std.specs.Io.KnownBytes.{IsAtEnd};
ghost use Rattle.gs_bytes.specs.Outside.{KeepsFlag, SetsFlag};
ghost use Rattle.gs_reader.specs.Buffered.{to_come};
ghost use Rattle.gs_tape.specs.Cuts.{TakesTick};
ghost use Rattle.gs_tape.specs.Limits.{IsWithinLimits, most_audio, most_bytes, most_ticks};
ghost use Rattle.gs_tape.specs.Steps.{before, most_tick};
ghost use Rattle.gs_tape.specs.Streaming.{MeetsSource};
ghost use Rattle.gs_tape.specs.Tape.{IsFirstTick, known_behind, to_read};

use crate::cursor::Cursor;
use crate::error::TapeError;
use crate::layout::{END_TAG, TICK_TAG};
use crate::limits::MOST_TICKS;
use crate::tick::Tick;
use crate::tick_reader::Known;
use gs_bytes::Source;

/// The ticks of a file that are still to be read.
#[derive(Drop)]
pub struct Ticks {
    pub cursor: Cursor,
    pub audio: u16,
    pub known: Known,
}

impl Ticks {
    // The next tick, None exactly at the end mark and the end behind it.
    pub fn next<S: Source>(&mut self, source: &mut S) -> Result<Option<Tick>, TapeError>
        requires place { self.old.cursor.place ≤ self.old.known.number * most_tick }
        requires number { self.old.known.number ≤ most_ticks + 1 }
        requires held { self.old.known.held ≤ most_bytes }
        requires audio { self.old.audio ≤ most_audio }
        ensures first { IsFirstTick (to_read self.old.cursor.place self.old.audio
            (before self.old.known.number self.old.known.time self.old.known.held)
            (to_come self.old.cursor.reader (S.left source.old)))
            (to_read self.new.cursor.place self.old.audio
            (before self.new.known.number self.new.known.time self.new.known.held)
            (to_come self.new.cursor.reader (S.left source.new))) result }
        ensures takes { TakesTick self.old.cursor.place self.old.audio
            (before self.old.known.number self.old.known.time self.old.known.held)
            (to_come self.old.cursor.reader (S.left source.old)) (to_come self.new.cursor.reader (S.left source.new))
            self.new.cursor.place (before self.new.known.number self.new.known.time self.new.known.held) result }
        ensures spent { IsErrOf result TapeError.TapeFault → self.new.cursor.reader ≡ [] }
        ensures after { IfOk result (λ next. IfSome next (λ t.
            before self.new.known.number self.new.known.time self.new.known.held
            ≡ known_behind (before self.old.known.number self.old.known.time self.old.known.held) t)) }
        ensures within { IfOk result (λ next.
            IfSome next (λ t. IsWithinLimits self.old.audio self.old.known.number self.old.known.time t)) }
        ensures audio { self.new.audio ≡ self.old.audio }
        ensures place { IfOk result (λ next. IfSome next (λ _.
            self.new.cursor.place ≤ self.new.known.number * most_tick)) }
        ensures number { self.new.known.number ≤ most_ticks + 1 }
        ensures held { self.new.known.held ≤ most_bytes }
        ensures meets { MeetsSource (S.faults source.old) (S.faults source.new) (S.written source.old)
            (S.written source.new) result }
        ensures end { IfOk result (λ next. IfNone next (IsAtEnd (S.left source.new))) }
        ensures met_end { IfOk result (λ next. IfNone next (SetsFlag (S.met_end source.old) (S.met_end source.new))) }
        ensures not_met { IfOk result (λ next.
            IfSome next (λ _. KeepsFlag (S.met_end source.old) (S.met_end source.new))) }
    {
        let place = self.cursor.place;
        let Some(tag) = self.cursor.byte(source)? else {
            return Err(TapeError::BadTape { kind: 6, place });
        };
        if tag == END_TAG {
            let behind = self.cursor.place;
            let Some(_) = self.cursor.byte(source)? else {
                return Ok(None);
            };
            return Err(TapeError::BadTape {
                kind: 7,
                place: behind,
            });
        }
        if tag != TICK_TAG {
            return Err(TapeError::BadTape { kind: 2, place });
        }
        if self.known.number > MOST_TICKS {
            let tick = self.known.number;
            return Err(TapeError::TapeFull { tick });
        }
        let tick = self.cursor.tick(source, self.audio, self.known)?;
        self.known = self.known.behind(&tick);
        Ok(Some(tick))
    }
}
