// A capture file, read from memory.
ghost use Rattle.std.specs.Prelude.{◌≡◌, ◌*◌, ◌<◌, ◌≤◌, length, IfErr, IfOk};
ghost use Rattle.std.specs.Arc.{arc_value};
ghost use Rattle.std.specs.List.{All, sum_by};
ghost use Rattle.gs_tape.specs.Generated.{generated};
ghost use Rattle.gs_tape.specs.Limits.{most_bytes, most_generated};
ghost use Rattle.gs_tape.specs.Reading.{ticks_of};
ghost use Rattle.gs_tape.specs.Tick.{unit_bytes};
ghost use Rattle.gsbench.specs.Amounts.{Reports, tape_amount};
ghost use Rattle.gsbench.specs.Checksum.{fnv_1a};
ghost use Rattle.gsbench.specs.Report.{IsNoUsage};
ghost use Rattle.gsbench.specs.Ticks.{last_unit};
ghost use Rattle.gsbench.specs.Workloads.{AreWordsJudged, tape_limits};

use crate::report::{Counted, Report, Stop};
use crate::sample::checksum;
use crate::shared::SharedSource;
use crate::words::{expect_end, number_at};
use gs_bytes::SureSink;
use gs_tape::{MOST_GENERATED, Tape, Tick, Unit, write_generated};
use std::alloc::Global;
use std::sync::Arc;

// The most bytes that are written at once.
const MOST_WRITTEN: usize = 1 << 20;

// How many hold a tick beside the one that read it.
const HOLDERS: usize = 8;

/// `tape N T COUNT`: the ticks are read, and dropped.
pub fn run(alloc: Global, words: &[String]) -> Result<Report, Stop>
    ensures usage { AreWordsJudged tape_limits words.now result }
    ensures amount { IfOk result (λ report. 0 < report.amount) }
    ensures reports { IfOk result (λ report. Reports Counted.Bytes (tape_amount words.now) report) }
{
    run_with(alloc, words, 0)
}

/// `tape_held N T COUNT`: each tick is handed to eight holders.
pub fn run_held(alloc: Global, words: &[String]) -> Result<Report, Stop>
    ensures usage { AreWordsJudged tape_limits words.now result }
    ensures amount { IfOk result (λ report. 0 < report.amount) }
    ensures reports { IfOk result (λ report. Reports Counted.Bytes (tape_amount words.now) report) }
{
    run_with(alloc, words, HOLDERS)
}

// The same, where each tick is handed to so many.
fn run_with(alloc: Global, words: &[String], holders: usize) -> Result<Report, Stop>
    ensures usage { AreWordsJudged tape_limits words.now result }
    ensures amount { IfOk result (λ report. 0 < report.amount) }
    ensures reports { IfOk result (λ report. Reports Counted.Bytes (tape_amount words.now) report) }
{
    let number = number_at(words, 1, 0, u32::MAX)?;
    let ticks = number_at(words, 2, 1, MOST_GENERATED)?;
    let count = number_at(words, 3, 1, u32::MAX)?;
    expect_end(words, 4)?;
    read_often(alloc, number, ticks, holders, count)
}

// Writes the file of the ticks that a number generates.
fn written(alloc: Global, number: u32, ticks: u32) -> Result<SureSink, Stop>
    requires { ticks ≤ most_generated }
    ensures ticks { IfOk result (λ sink. ticks_of sink.written ≡ generated number ticks) }
    ensures no_usage { IfErr result (λ stop. IsNoUsage stop) }
{
    let mut sink = SureSink::new(alloc, MOST_WRITTEN)?;
    write_generated(alloc, number, ticks, &mut sink)?;
    Ok(sink)
}

// The file of the ticks that a number generates.
fn generated_file(alloc: Global, number: u32, ticks: u32) -> Result<Unit, Stop>
    requires { ticks ≤ most_generated }
    ensures ticks { IfOk result (λ file. ticks_of file ≡ generated number ticks) }
    ensures no_usage { IfErr result (λ stop. IsNoUsage stop) }
{
    let sink = written(alloc, number, ticks)?;
    let file = Unit::copy_of(alloc, sink.written())?;
    Ok(file)
}

// Writes the file of the ticks that a number generates, and reads it so often.
fn read_often(
    alloc: Global,
    number: u32,
    ticks: u32,
    holders: usize,
    count: u32,
) -> Result<Report, Stop>
    requires ticks { (1 ≤ ticks) × (ticks ≤ most_generated) }
    requires count { 1 ≤ count }
    ensures amount { IfOk result (λ report. report.amount ≡ count * sum_by unit_bytes (generated number ticks)) }
    ensures counted { IfOk result (λ report. report.counted ≡ Counted.Bytes) }
    ensures some { IfOk result (λ report. 0 < report.amount) }
    ensures checksum { IfOk result (λ report. report.checksum ≡ fnv_1a (last_unit (generated number ticks))) }
    ensures no_usage { IfErr result (λ stop. IsNoUsage stop) }
{
    let file = generated_file(alloc, number, ticks)?;
    let mut seen = read_once(alloc, &file, holders)?;
    'turns: for _ in 1..count {
        seen = read_once(alloc, &file, holders)?;
    }
    Ok(Report {
        checksum: checksum(seen.last.as_bytes()),
        counted: Counted::Bytes,
        amount: seen.units * u64::from(count),
    })
}

// What was read of a file: how many bytes the units of its ticks have, and the IDR unit of the last tick.
#[derive(Drop)]
struct Seen {
    units: u64,
    last: Unit,
}

// Reads all ticks of a file, and hands each to so many.
fn read_once(alloc: Global, file: &Unit, holders: usize) -> Result<Seen, Stop>
    requires { sum_by unit_bytes (ticks_of file.now) ≤ most_bytes }
    ensures units { IfOk result (λ seen. seen.units ≡ sum_by unit_bytes (ticks_of file.now)) }
    ensures last { IfOk result (λ seen. seen.last ≡ last_unit (ticks_of file.now)) }
    ensures no_usage { IfErr result (λ stop. IsNoUsage stop) }
{
    let mut source = SharedSource::of(file)?;
    let mut tape = Tape::open(alloc, &mut source)?;
    let mut seen = Seen {
        units: 0,
        last: Unit::copy_of(alloc, &[])?,
    };
    'ticks: while let Some(tick) = tape.next(&mut source)? {
        seen = Seen {
            units: seen.units + tick.unit_bytes(),
            last: tick.idr.clone()?,
        };
        pass_on(alloc, tick, holders)?;
    }
    Ok(seen)
}

// Hands a tick to so many, and drops it for all of them. Where there are none it is dropped alone.
fn pass_on(alloc: Global, tick: Tick, holders: usize) -> Result<(), Stop>
    ensures { IfErr result (λ stop. IsNoUsage stop) }
{
    if holders > 0 {
        let _held = hand(alloc, tick, holders)?;
    }
    Ok(())
}

// Hands a tick to so many, who share it.
fn hand(alloc: Global, tick: Tick, holders: usize) -> Result<Vec<Arc<Tick>>, Stop>
    ensures holders { IfOk result (λ held. length held.items ≡ holders) }
    ensures same { IfOk result (λ held. All (λ one. arc_value one ≡ tick) held.items) }
    ensures no_usage { IfErr result (λ stop. IsNoUsage stop) }
{
    let first = Arc::new(alloc, tick).map_err(|_| Stop::OutOfMemory)?;
    let mut held = Vec::with_capacity(alloc, holders)?;
    'holders: for _ in 0..holders {
        let one = Arc::try_clone(&first)?;
        held.push(one).map_err(|_| Stop::OutOfMemory)?;
    }
    Ok(held)
}
