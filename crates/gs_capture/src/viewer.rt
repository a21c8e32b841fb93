//! The reading end of a capture.
ghost use Rattle.std.specs.Prelude.{◌≡◌, true, is_some, IfOk, option_map};
ghost use Rattle.std.specs.Arc.{arc_value};
ghost use mathlib.Core.List.{IsPrefix};
ghost use Rattle.left_right.specs.Sides.{view};
ghost use Rattle.gs_tape.specs.Tick.{tick_numbered};
ghost use Rattle.gs_capture.specs.Captures.{Reads};
ghost use Rattle.gs_capture.specs.Lasts.{IsNewest};
ghost use Rattle.gs_capture.specs.Sights.{Sees, viewed};

use crate::newest::Newest;
use crate::published::Published;
use crate::sight::{Looking, Recording, Seeing, Sight};
use gs_bytes::OutOfMemory;
use gs_tape::Tick;
use left_right::reader::{Reader, Reading};
use std::marker::Model;
use std::sync::{Arc, Wait};
use std::thread;

pub(crate) type SightReader = Reader<Published, Sight, Recording>;

type SightReading = Reading<Published, Sight, Recording>;

/// Reads a capture, on one thread at a time. A contract sees which capture it is, how long its audio units
/// are, the list that it read last, and the length of each list that it read.
#[derive(Drop)]
pub struct Viewer {
    reader: Option<SightReader>,
}

impl Model for Viewer {
    ghost use Rattle.std.specs.Prelude.{◌≡◌, true, is_some};
    ghost use Rattle.gs_capture.specs.Captures.{Viewed};
    ghost use Rattle.gs_capture.specs.Held.{held_or};
    ghost use Rattle.gs_capture.specs.Sights.{unseen, viewed};

    ghost Value = { Viewed };

    ghost view = { λ v. viewed (held_or unseen (λ r. r.place.me.0.client) v.reader) };

    ghost invariant = { λ v. is_some (held_or unseen (λ r. r.place.me.0.client) v.reader).told ≡ true };
}

// Enters a read. Where there is no place for it, it tries again.
fn enter<Rt: Wait>(rt: &Rt, mut reader: SightReader) -> SightReading
    ensures { Sees (view reader.place) result.part.value result.part.value (view result.place) }
{
    for _ in rt.forever() {
        match reader.enter_as::<Seeing>() {
            Ok(reading) => return reading,
            Err(back) => reader = back,
        }
        thread::yield_now();
    }
    unreachable!()
}

fn read<Rt: Wait>(rt: &Rt, reader: SightReader) -> SightReading
    requires { is_some (view reader.place).told ≡ true }
    ensures told { is_some (view result.place).told ≡ true }
    ensures read { Reads (viewed (view reader.place)) (viewed (view result.place)) }
    ensures ticks { (view result.place).seen ≡ result.part.value.ticks }
{
    enter(rt, reader)
}

// Looks until it finds as many ticks as `published` has, another state of the capture.
#[tactic(auto, using(crate::proofs::Reading::one_book))]
fn look<Rt: Wait>(rt: &Rt, mut reader: SightReader, published: &Published) -> SightReader
    requires one { (is_some (view reader.place).told ≡ true)
        × ((viewed (view reader.place)).capture ≡ published.now.book) }
    requires whole { published.now.history ≡ published.now.ticks }
    ensures seen { IsPrefix (view reader.place).seen (view result.place).seen
        × IsPrefix published.now.ticks (view result.place).seen }
    ensures same { ((view result.place).told ≡ (view reader.place).told)
        × ((view result.place).reads ≡ (view reader.place).reads) }
{
    for _ in rt.forever() {
        match reader.enter_as::<Looking>() {
            Ok(reading) => {
                let found = reading.get().begins_with(published);
                reader = reading.leave();
                if found {
                    return reader;
                }
            }
            Err(back) => reader = back,
        }
        thread::yield_now();
    }
    unreachable!()
}

fn read_newest<Rt: Wait>(
    reader: SightReader,
    rt: &Rt,
    after: u32,
) -> (SightReader, Result<Newest, OutOfMemory>)
    requires told { is_some (view reader.place).told ≡ true }
    ensures told { is_some (view result.0.place).told ≡ true }
    ensures read { Reads (viewed (view reader.place)) (viewed (view result.0.place)) }
    ensures newest { IfOk result.1 (λ n. IsNewest after (view result.0.place).seen n) }
{
    let reading = read(rt, reader);
    let newest = reading.get().newest(after);
    (reading.leave(), newest)
}

fn read_numbered<Rt: Wait>(
    reader: SightReader,
    rt: &Rt,
    number: u32,
) -> (SightReader, Result<Option<Arc<Tick>>, OutOfMemory>)
    requires told { is_some (view reader.place).told ≡ true }
    ensures told { is_some (view result.0.place).told ≡ true }
    ensures read { Reads (viewed (view reader.place)) (viewed (view result.0.place)) }
    ensures tick { IfOk result.1 (λ found. option_map arc_value found
        ≡ tick_numbered (view result.0.place).seen number) }
{
    let reading = read(rt, reader);
    let found = reading.get().numbered(number);
    (reading.leave(), found)
}

// Looks until it finds what was published, and then reads.
#[tactic(auto, using(crate::proofs::Reading::reads_behind))]
fn read_behind<Rt: Wait>(rt: &Rt, reader: SightReader, published: &Published) -> SightReader
    requires one { (is_some (view reader.place).told ≡ true)
        × ((viewed (view reader.place)).capture ≡ published.now.book) }
    requires whole { published.now.history ≡ published.now.ticks }
    ensures told { is_some (view result.place).told ≡ true }
    ensures read { Reads (viewed (view reader.place)) (viewed (view result.place)) }
    ensures published { IsPrefix published.now.ticks (view result.place).seen }
{
    let reader = look(rt, reader, published);
    read(rt, reader).leave()
}

impl Viewer {
    pub(crate) fn new(reader: SightReader) -> Viewer
        requires { is_some (view reader.place).told ≡ true }
        ensures { result ≡ viewed (view reader.place) }
    {
        Viewer {
            reader: Some(reader),
        }
    }

    /// Reads a list that begins with the ticks of a state of its capture, once it has found one that does.
    pub(crate) fn meet<Rt: Wait>(&mut self, rt: &Rt, published: &Published)
        requires one { published.now.book ≡ self.old.capture }
        requires whole { published.now.history ≡ published.now.ticks }
        ensures read { Reads self.old self.new }
        ensures published { IsPrefix published.now.ticks self.new.read }
    {
        let reader = self.reader.take().unwrap();
        self.reader = Some(read_behind(rt, reader, published));
    }

    /// Reads the list and answers its last tick, or `NotYet` exactly where it has at most `after` ticks.
    pub fn newest<Rt: Wait>(&mut self, rt: &Rt, after: u32) -> Result<Newest, OutOfMemory>
        ensures read { Reads self.old self.new }
        ensures newest { IfOk result (λ n. IsNewest after self.new.read n) }
    {
        let reader = self.reader.take().unwrap();
        let (reader, newest) = read_newest(reader, rt, after);
        self.reader = Some(reader);
        newest
    }

    /// Reads the list and answers its tick of that number, from 1: `None` exactly where the number is 0 or above the
    /// list.
    pub fn tick<Rt: Wait>(&mut self, rt: &Rt, number: u32) -> Result<Option<Arc<Tick>>, OutOfMemory>
        ensures read { Reads self.old self.new }
        ensures tick { IfOk result (λ found. option_map arc_value found ≡ tick_numbered self.new.read number) }
    {
        let reader = self.reader.take().unwrap();
        let (reader, found) = read_numbered(reader, rt, number);
        self.reader = Some(reader);
        found
    }
}
