//! A capture file, read tick by tick from a source.

ghost use Rattle.std.specs.Prelude.{◌≡◌, ◌≢◌, ◌≤◌, IfNone, IfOk, IfSome, IsErrOf, OnOk, []};
ghost use Rattle.std.specs.Io.KnownBytes.{IsAtEnd, Keeps};
ghost use Rattle.gs_bytes.specs.Outside.{KeepsFlag, Rose, SetsFlag};
ghost use Rattle.gs_tape.specs.Limits.{IsDuration, IsWithinLimits, most_audio};
ghost use Rattle.gs_tape.specs.Cuts.{Takes, TakesHead};
ghost use Rattle.gs_tape.specs.Reading.{before_first};
ghost use Rattle.gs_tape.specs.Tape.{IsFirstTick, Opens, known_behind, stage_of, unread_tape};

use crate::cursor::Cursor;
use crate::error::TapeError;
use crate::stage::{Stage, stage_after};
use crate::tick::Tick;
use crate::tick_reader::Known;
use crate::tick_stream::Ticks;
use gs_bytes::Source;
use std::alloc::Global;
use std::marker::Model;

/// A capture file that is read tick by tick. All its calls are given one source. What is still to be
/// read of it is what is read of the bytes that it holds and then of those that the source has left:
/// the ticks of the file that weren't answered yet, and the first fault behind them, if there is one.
#[derive(Drop)]
pub struct Tape {
    ticks: Ticks,
    duration: u8,
    stage: Stage,
}

impl Model for Tape {
    ghost use Rattle.std.specs.Prelude.{◌≡◌, ◌+◌, ◌*◌, ◌≤◌};
    ghost use Rattle.gs_tape.specs.Limits.{most_audio, most_bytes, most_ticks};
    ghost use Rattle.gs_tape.specs.Steps.{before, most_tick};
    ghost use Rattle.gs_tape.specs.Tape.{Opened};
    ghost use Rattle.gs_tape.specs.declared.stage.Stage.TheVariants.{Open};

    ghost Value = { Opened };

    ghost view = { λ t. record {
      audio = t.ticks.audio;
      duration = t.duration;
      place = t.ticks.cursor.place;
      before = before t.ticks.known.number t.ticks.known.time t.ticks.known.held;
      held = t.ticks.cursor.reader;
      stage = t.stage;
    } };

    ghost invariant = { λ t. (t.ticks.known.number ≤ most_ticks + 1) × (t.ticks.known.held ≤ most_bytes)
        × (t.ticks.audio ≤ most_audio)
        × (t.stage ≡ Open → t.ticks.cursor.place ≤ t.ticks.known.number * most_tick) };
}

impl Tape {
    ghost use Rattle.gs_tape.specs.declared.stage.Stage.TheVariants.{Open};

    /// Reads the head of the file.
    pub fn open<S: Source>(alloc: Global, source: &mut S) -> Result<Tape, TapeError>
        ensures opens { Opens (S.left source.old) (S.left source.new) result }
        ensures bytes { TakesHead (S.left source.old) (S.left source.new) result }
        ensures first { IfOk result (λ tape. (tape.before ≡ before_first) × (tape.stage ≡ Open)) }
        ensures most { IfOk result (λ tape. tape.audio ≤ most_audio) }
        ensures known { IfOk result (λ tape. IsDuration tape.duration) }
        ensures not_met { OnOk result (KeepsFlag (S.met_end source.old) (S.met_end source.new)) }
        ensures written { Keeps (S.written source.old) (S.written source.new) }
        ensures never_falls { S.faults source.old ≤ S.faults source.new }
        ensures fault { IsErrOf result TapeError.TapeFault → Rose (S.faults source.old) (S.faults source.new) }
        ensures counted { S.faults source.new ≢ S.faults source.old → result ≡ Err TapeError.TapeFault }
    {
        let mut cursor = Cursor::new(alloc);
        let (audio, duration) = cursor.head(source)?;
        let known = Known {
            number: 1,
            time: 0,
            held: 0,
        };
        Ok(Tape {
            ticks: Ticks {
                cursor,
                audio,
                known,
            },
            duration,
            stage: Stage::Open,
        })
    }

    /// The length of an audio unit, in bytes.
    pub fn audio(&self) -> u16
        ensures { result ≡ self.now.audio }
    {
        self.ticks.audio
    }

    /// The duration of an audio unit, in milliseconds.
    pub fn duration(&self) -> u8
        ensures { result ≡ self.now.duration }
    {
        self.duration
    }

    /// The next tick, None exactly where the end mark was read and the source gave its end. After None
    /// and after an error it answers the same again and reads nothing.
    pub fn next<S: Source>(&mut self, source: &mut S) -> Result<Option<Tick>, TapeError>
        ensures first { IsFirstTick (unread_tape self.old (S.left source.old))
            (unread_tape self.new (S.left source.new)) result }
        ensures bytes { self.old.stage ≡ Open → Takes self.old (S.left source.old) self.new (S.left source.new) result }
        ensures spent { self.old.stage ≡ Open → IsErrOf result TapeError.TapeFault → self.new.held ≡ [] }
        ensures stage { self.new.stage ≡ stage_of result }
        ensures again { self.old.stage ≢ Open → (self.new ≡ self.old) × (source.new ≡ source.old) }
        ensures known { IfOk result (λ next. IfSome next (λ t. self.new.before ≡ known_behind self.old.before t)) }
        ensures within { IfOk result (λ next.
            IfSome next (λ t. IsWithinLimits self.old.audio self.old.before.number self.old.before.time t)) }
        ensures kept { (self.new.audio ≡ self.old.audio) × (self.new.duration ≡ self.old.duration) }
        ensures end { self.old.stage ≡ Open → IfOk result (λ next. IfNone next (IsAtEnd (S.left source.new))) }
        ensures met_end { self.old.stage ≡ Open
            → IfOk result (λ next. IfNone next (SetsFlag (S.met_end source.old) (S.met_end source.new))) }
        ensures not_met { IfOk result (λ next.
            IfSome next (λ _. KeepsFlag (S.met_end source.old) (S.met_end source.new))) }
        ensures written { Keeps (S.written source.old) (S.written source.new) }
        ensures never_falls { S.faults source.old ≤ S.faults source.new }
        ensures fault { self.old.stage ≡ Open → IsErrOf result TapeError.TapeFault
            → Rose (S.faults source.old) (S.faults source.new) }
        ensures counted { S.faults source.new ≢ S.faults source.old → result ≡ Err TapeError.TapeFault }
    {
        match self.stage {
            Stage::Failed(error) => return Err(error),
            Stage::Ended => return Ok(None),
            Stage::Open => {}
        }
        let answer = self.ticks.next(source);
        self.stage = stage_after(&answer);
        answer
    }
}
