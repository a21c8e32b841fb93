//! A capture file, read as a run captures.

ghost use Rattle.std.specs.Prelude.{ℕ, true, false, ◌≡◌, ◌≢◌, ◌⊎◌, ◌+◌, ◌-◌, ◌*◌, ◌<◌, ◌≤◌, ◌↔◌, List, Option, length};
ghost use Rattle.std.specs.Prelude.{map, min, max, take, drop, IfOk, IfSome, IsErrOf, IsSome, IsTrue, OnOk};
ghost use Rattle.std.specs.Arc.{arc_value};
ghost use Rattle.std.specs.List.{All, range_with_len};
ghost use Rattle.std.specs.Option.{option_copied};
ghost use Rattle.std.specs.Io.KnownBytes.{IsAtEnd, Keeps};
ghost use Rattle.gs_bytes.specs.Outside.{KeepsFlag, Rose, SetsFlag};
ghost use Rattle.gs_tape.specs.Tick.{tick_numbered};
ghost use Rattle.gs_tape.specs.Tick as spec;
ghost use Rattle.gs_tape.specs.Limits.{IsDuration, IsTickWithinLimits, most_audio};
ghost use Rattle.gs_tape.specs.Reading.{Fault};
ghost use Rattle.gs_tape.specs.declared.stage.Stage.TheVariants.{Open};
ghost use Rattle.gs_feed.specs.Feeding.{Captures, EndsWithFault, IfTold, IsOf, OpensFeed, IsFeedAt, count_behind};
ghost use Rattle.gs_feed.specs.Feeding.{forgotten, stage_behind, stage_behind_rest};
ghost use Rattle.gs_feed.specs.Cuts.{CapturesBytes, HasTaken, OpensBytes, StopsInRest};

use crate::kept::keep;
use crate::rest::read_rest;
use gs_bytes::Source;
use gs_tape::{Tape, TapeError, Tick};
use std::alloc::Global;
use std::marker::Model;
use std::sync::Arc;

/// A capture file of which a tick is read for each capture, with the newest ticks captured. All its calls
/// are given one source.
#[derive(Drop)]
pub struct Feed {
    alloc: Global,
    tape: Tape,
    // a tick was read that there was no memory to keep
    lost: bool,
    // how many ticks were captured
    count: u32,
    // the newest of them, oldest first
    kept: Vec<Arc<Tick>>,
}

impl Model for Feed {
    ghost use Rattle.std.specs.Prelude.{map};
    ghost use Rattle.std.specs.Arc.{arc_value};
    ghost use Rattle.gs_feed.specs.Feeding.{Feeding, IsFeedSound};

    ghost Value = { Feeding };

    ghost view = { λ f. record { tape = f.tape; lost = f.lost; count = f.count; kept = map arc_value f.kept.items } };

    ghost invariant = { λ f. IsFeedSound (record {
      tape = f.tape;
      lost = f.lost;
      count = f.count;
      kept = map arc_value f.kept.items;
    }) };
}

impl Feed {
    /// Reads the head of the file. Nothing is captured yet.
    pub fn open<S: Source>(alloc: Global, source: &mut S) -> Result<Feed, TapeError>
        ensures opens { OpensFeed (S.left source.old) (S.left source.new) result }
        ensures bytes { OpensBytes (S.left source.old) (S.left source.new) result }
        ensures first { IfOk result (λ feed. (feed.count ≡ 0) × (feed.tape.stage ≡ Open)) }
        ensures whole { IfOk result (λ feed. feed.lost ≡ false) }
        ensures most { IfOk result (λ feed. feed.tape.audio ≤ most_audio) }
        ensures known { IfOk result (λ feed. IsDuration feed.tape.duration) }
        ensures not_met { OnOk result (KeepsFlag (S.met_end source.old) (S.met_end source.new)) }
        ensures written { Keeps (S.written source.old) (S.written source.new) }
        ensures never_falls { S.faults source.old ≤ S.faults source.new }
        ensures fault { IsErrOf result TapeError.TapeFault → Rose (S.faults source.old) (S.faults source.new) }
        ensures counted { S.faults source.new ≢ S.faults source.old → result ≡ Err TapeError.TapeFault }
    {
        let tape = Tape::open(alloc, source)?;
        Ok(Feed {
            alloc,
            tape,
            lost: false,
            count: 0,
            kept: Vec::new(alloc),
        })
    }

    /// The length of an audio unit of the file, in bytes.
    pub fn audio(&self) -> u16
        ensures { result ≡ self.now.tape.audio }
    {
        self.tape.audio()
    }

    /// The duration of an audio unit, in milliseconds.
    pub fn duration(&self) -> u8
        ensures { result ≡ self.now.tape.duration }
    {
        self.tape.duration()
    }

    /// How many ticks were captured.
    pub fn captured(&self) -> u32
        ensures { result ≡ self.now.count }
    {
        self.count
    }

    /// Captures the next tick of the file: reads it and keeps it. False at the end of the file, behind its
    /// last tick. The error is the file's fault behind its last tick, a fault of the source, or want of
    /// memory. After the end and after an error it answers the same again and reads nothing.
    pub fn capture<S: Source>(&mut self, source: &mut S) -> Result<bool, TapeError>
        // What is answered of a file, and that it stands then.
        ensures captures { (ticks : List spec.Tick) (fault : Option Fault)
            → IsFeedAt self.old (S.left source.old) ticks fault
            → Captures self.old.count ticks fault result }
        ensures stands { (ticks : List spec.Tick) (fault : Option Fault)
            → IsFeedAt self.old (S.left source.old) ticks fault
            → IfTold result (IsFeedAt self.new (S.left source.new) ticks fault) }
        // Which bytes of the file it takes, also where the source failed.
        ensures bytes { (bytes : List ℕ) → self.old.tape.stage ≡ Open
            → HasTaken bytes self.old.tape self.old.count (S.left source.old)
            → CapturesBytes bytes self.old.count self.new.tape (S.left source.new) result }

        // What any answer leaves.
        ensures count { self.new.count ≡ count_behind self.old.count result }
        ensures forgotten { forgotten self.new ≡ forgotten self.old }
        ensures same { (self.new.kept ≡ self.old.kept) ⊎ (result ≡ Ok true) }
        ensures head { (self.new.tape.audio ≡ self.old.tape.audio) × (self.new.tape.duration ≡ self.old.tape.duration) }
        ensures open { IfOk result (λ more. IsTrue more → self.new.tape.stage ≡ Open) }
        ensures stage { self.new.lost ≡ false → self.new.tape.stage ≡ stage_behind result }
        ensures memory { IsTrue self.new.lost → result ≡ Err TapeError.OutOfMemory }
        ensures again { self.old.tape.stage ≢ Open → (self.new ≡ self.old) × (source.new ≡ source.old) }
        ensures lost { IsTrue self.old.lost → (self.new ≡ self.old) × (source.new ≡ source.old)
            × (result ≡ Err TapeError.OutOfMemory) }

        // What it does to the source.
        ensures end { self.old.tape.stage ≡ Open → result ≡ Ok false → IsAtEnd (S.left source.new) }
        ensures met_end { self.old.tape.stage ≡ Open → result ≡ Ok false
            → SetsFlag (S.met_end source.old) (S.met_end source.new) }
        ensures not_met { result ≡ Ok true → KeepsFlag (S.met_end source.old) (S.met_end source.new) }
        ensures written { Keeps (S.written source.old) (S.written source.new) }
        ensures never_falls { S.faults source.old ≤ S.faults source.new }
        ensures fault { self.old.tape.stage ≡ Open → IsErrOf result TapeError.TapeFault
            → Rose (S.faults source.old) (S.faults source.new) }
        ensures counted { S.faults source.new ≢ S.faults source.old → IsErrOf result TapeError.TapeFault }
    {
        if self.lost {
            return Err(TapeError::OutOfMemory);
        }
        let Some(tick) = self.tape.next(source)? else {
            return Ok(false);
        };
        if keep(self.alloc, &mut self.kept, tick).is_err() {
            self.lost = true;
            return Err(TapeError::OutOfMemory);
        }
        self.count += 1;
        Ok(true)
    }

    /// The newest tick captured, None where there is none.
    pub fn newest(&self) -> Option<&Tick>
        ensures some { IsSome result ↔ (0 < self.now.count) }
        ensures number { IfSome result (λ t. t.now.number ≡ self.now.count) }
        ensures within { IfSome result (λ t. IsTickWithinLimits self.now.tape.audio t.now.number t.now) }
        ensures of { (ticks : List spec.Tick) → IsOf self.now ticks
            → option_copied result ≡ tick_numbered ticks self.now.count }
    {
        let newest = self.kept.last()?;
        Some(&**newest)
    }

    /// The ticks above this number and below the newest, oldest first. They are still kept if no tick above
    /// this number was forgotten.
    pub fn since(&self, last: u32) -> &[Arc<Tick>]
        requires { forgotten self.now ≤ last }
        ensures numbers { map (λ t. t.value.number) result.now
            ≡ range_with_len (last + 1) (self.now.count - (last + 1)) }
        ensures within { All (λ t. IsTickWithinLimits self.now.tape.audio t.value.number t.value) result.now }
        ensures ticks { (ticks : List spec.Tick) → IsOf self.now ticks
            → map arc_value result.now ≡ drop last (take (self.now.count - 1) ticks) }
        ensures of { (ticks : List spec.Tick) → IsOf self.now ticks
            → All (λ t. tick_numbered ticks t.number ≡ Some t) (map arc_value result.now) }
    {
        let newest = self.kept.len().saturating_sub(1);
        let start = self.place(last).min(newest);
        &self.kept[start..newest]
    }

    // How many of the ticks kept have numbers up to this one.
    fn place(&self, number: u32) -> usize
        ensures { result ≡ min (number - forgotten self.now) (length self.now.kept) }
    {
        let forgotten = self.count - self.kept.len() as u32;
        (number.saturating_sub(forgotten) as usize).min(self.kept.len())
    }

    // How many of the ticks kept have numbers up to this one and aren't the newest.
    fn unwanted(&self, up_to: u32) -> usize
        ensures { result ≡ min (min (up_to - forgotten self.now) (length self.now.kept)) (length self.now.kept - 1) }
    {
        self.place(up_to).min(self.kept.len().saturating_sub(1))
    }

    /// Says that ticks with numbers up to this one are wanted no more. They are dropped, except for the
    /// newest, as soon as they are at least as many as those that are wanted. So at most twice as many are
    /// kept as are wanted, and dropping one takes constant time on average.
    pub fn forget(&mut self, up_to: u32)
        ensures kept { self.new.kept ≡ drop (forgotten self.new - forgotten self.old) self.old.kept }
        ensures wanted { forgotten self.new ≤ max (forgotten self.old) up_to }
        ensures dropped { length self.new.kept ≤ 2 * (self.old.count - min up_to (self.old.count - 1)) }
        ensures count { self.new.count ≡ self.old.count }
        ensures tape { (self.new.tape ≡ self.old.tape) × (self.new.lost ≡ self.old.lost) }
        ensures of { (ticks : List spec.Tick) → IsOf self.old ticks → IsOf self.new ticks }
        ensures stands { (left : Option (List ℕ)) (ticks : List spec.Tick) (fault : Option Fault)
            → IsFeedAt self.old left ticks fault
            → IsFeedAt self.new left ticks fault }
    {
        let unwanted = self.unwanted(up_to);
        if unwanted >= self.kept.len() - unwanted {
            self.kept.drain(..unwanted);
        }
    }

    /// Reads the rest of the file, keeps none of it, and answers its fault if there is one. After that no
    /// tick can be captured; those kept stay. Behind an end or an error it answers the same again and reads nothing.
    pub fn finish<S: Source>(&mut self, source: &mut S) -> Result<(), TapeError>
        ensures ends { (ticks : List spec.Tick) (fault : Option Fault)
            → IsFeedAt self.old (S.left source.old) ticks fault
            → EndsWithFault fault result }
        ensures bytes { (bytes : List ℕ) → self.old.tape.stage ≡ Open
            → HasTaken bytes self.old.tape self.old.count (S.left source.old)
            → IsErrOf result TapeError.TapeFault → StopsInRest bytes (S.left source.new) self.old.count }
        ensures kept { (self.new.count ≡ self.old.count) × (self.new.kept ≡ self.old.kept) }
        ensures head { (self.new.tape.audio ≡ self.old.tape.audio) × (self.new.tape.duration ≡ self.old.tape.duration) }
        ensures done { IsTrue self.new.lost ⊎ (self.new.tape.stage ≢ Open) }
        ensures stage { self.new.lost ≡ false → self.new.tape.stage ≡ stage_behind_rest result }
        ensures again { self.old.tape.stage ≢ Open → (self.new ≡ self.old) × (source.new ≡ source.old) }
        ensures same { self.new.lost ≡ self.old.lost }
        ensures lost { IsTrue self.old.lost → (self.new ≡ self.old) × (source.new ≡ source.old)
            × (result ≡ Err TapeError.OutOfMemory) }
        ensures end { self.old.tape.stage ≡ Open → OnOk result (IsAtEnd (S.left source.new)) }
        ensures met_end { self.old.tape.stage ≡ Open
            → OnOk result (SetsFlag (S.met_end source.old) (S.met_end source.new)) }
        ensures written { Keeps (S.written source.old) (S.written source.new) }
        ensures never_falls { S.faults source.old ≤ S.faults source.new }
        ensures fault { self.old.tape.stage ≡ Open → IsErrOf result TapeError.TapeFault
            → Rose (S.faults source.old) (S.faults source.new) }
        ensures counted { S.faults source.new ≢ S.faults source.old → result ≡ Err TapeError.TapeFault }
    {
        if self.lost {
            return Err(TapeError::OutOfMemory);
        }
        read_rest(&mut self.tape, source)
    }
}
