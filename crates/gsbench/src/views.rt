// Ticks of a capture, read by several threads.
ghost use Rattle.std.specs.Prelude.{◌≡◌, ◌+◌, ◌-◌, ◌%◌, ◌<◌, ◌≤◌, [], length, false, IfErr, IfOk, OnOk};
ghost use Rattle.std.specs.Arc.{arc_value};
ghost use Rattle.std.specs.Thread.{IsSync};
ghost use Rattle.gs_capture.specs.Limits.{most_viewers};
ghost use Rattle.gsbench.specs.Amounts.{Reports, threads_amount};
ghost use Rattle.gsbench.specs.Report.{IsNoUsage};
ghost use Rattle.gsbench.specs.Workloads.{AreWordsJudged, views_limits};

use crate::report::{Counted, Report, Stop};
use crate::sample::checksum;
use crate::words::{expect_end, number_at};
use gs_capture::{MOST_VIEWERS, Recorder, Viewer, capture};
use gs_tape::{Deltas, Tick, Unit, Units};
use std::alloc::Global;
use std::sync::{Arc, Wait};
use std::thread::{Threads, join};

// How many ticks are appended.
const TICKS: u32 = 1_000;

/// `views VIEWERS COUNT`: so many viewers of one capture each read a tick of it COUNT times, on a thread of their own.
pub fn run<R: Threads + Wait + Sync>(
    rt: &R,
    alloc: Global,
    words: &[String],
) -> Result<Report, Stop>
    ensures usage { AreWordsJudged views_limits words.now result }
    ensures amount { IfOk result (λ report. 0 < report.amount) }
    ensures reports { IfOk result (λ report. Reports Counted.Calls (threads_amount words.now) report) }
{
    let viewers = number_at(words, 1, 1, MOST_VIEWERS)?;
    let count = number_at(words, 2, 1, u32::MAX)?;
    expect_end(words, 3)?;
    let last = record_and_read(rt, alloc, viewers, count)?;
    Ok(Report {
        checksum: checksum(&last.to_le_bytes()),
        counted: Counted::Calls,
        amount: u64::from(viewers) * u64::from(count),
    })
}

// Appends all ticks, and then has so many viewers each read so often. Answers the number of the tick that was read
// last.
fn record_and_read<R: Threads + Wait + Sync>(
    rt: &R,
    alloc: Global,
    viewers: u32,
    count: u32,
) -> Result<u32, Stop>
    requires viewers { (1 ≤ viewers) × (viewers ≤ most_viewers) }
    requires count { 1 ≤ count }
    ensures last { IfOk result (λ number. number ≡ (count - 1) % 1000 + 1) }
    ensures no_usage { IfErr result (λ stop. IsNoUsage stop) }
{
    let (mut recorder, viewers) = capture(rt, alloc, TICKS, viewers, 0)?;
    let last = match append_all(rt, alloc, &mut recorder) {
        Ok(()) => read_by_all(rt, viewers, count),
        Err(stop) => Err(stop),
    };
    recorder.end(rt);
    last
}

// The tick of a number, with one unit.
fn tick(alloc: Global, number: u32) -> Result<Arc<Tick>, Stop>
    ensures tick { IfOk result (λ t. ((arc_value t).number ≡ number) × ((arc_value t).audio ≡ [])) }
    ensures no_usage { IfErr result (λ stop. IsNoUsage stop) }
{
    let tick = Tick {
        number,
        time: number,
        idr: Unit::copy_of(alloc, b"unit")?,
        deltas: Deltas::from_vec(Vec::new(alloc)),
        audio: Units::from_vec(Vec::new(alloc)),
    };
    Arc::new(alloc, tick).map_err(|_| Stop::OutOfMemory)
}

// Appends all ticks.
fn append_all<R: Wait>(rt: &R, alloc: Global, recorder: &mut Recorder) -> Result<(), Stop>
    requires empty { (recorder.old.appended ≡ []) × (recorder.old.refused ≡ false) }
    requires room { 1000 ≤ recorder.old.most }
    requires audio { recorder.old.audio ≡ 0 }
    ensures appended { OnOk result (length recorder.new.appended ≡ 1000) }
    ensures no_usage { IfErr result (λ stop. IsNoUsage stop) }
{
    'ticks: for number in 1..TICKS + 1 {
        recorder.append(rt, tick(alloc, number)?)?;
    }
    Ok(())
}

// Has each viewer read so often on a thread of its own.
fn read_by_all<R: Threads + Wait + Sync>(
    rt: &R,
    mut viewers: Vec<Viewer>,
    count: u32,
) -> Result<u32, Stop>
    requires some { 0 < length viewers.items }
    requires count { 1 ≤ count }
    ensures last { IfOk result (λ number. number ≡ (count - 1) % 1000 + 1) }
    ensures no_usage { IfErr result (λ stop. IsNoUsage stop) }
{
    let Some(mut last) = viewers.pop() else {
        unreachable!()
    };
    if viewers.is_empty() {
        return read_often(rt, &mut last, count);
    }
    let (others, own) = join(
        rt,
        || -> Result<u32, Stop>
            requires { IsSync R.row × (0 < length viewers.items) × (1 ≤ count) }
            ensures { IfErr result (λ stop. IsNoUsage stop) }
        { read_by_all(rt, viewers, count) },
        || -> Result<u32, Stop>
            requires { 1 ≤ count }
            ensures { IfOk result (λ number. number ≡ (count - 1) % 1000 + 1) × IfErr result (λ stop. IsNoUsage stop) }
        { read_often(rt, &mut last, count) },
    );
    let _number = others?;
    own
}

// Reads so often, the ticks by turns, and answers the number of the last one.
fn read_often<R: Wait>(rt: &R, viewer: &mut Viewer, count: u32) -> Result<u32, Stop>
    requires { 1 ≤ count }
    ensures last { IfOk result (λ number. number ≡ (count - 1) % 1000 + 1) }
    ensures reads { OnOk result (length viewer.new.reads ≡ length viewer.old.reads + count) }
    ensures no_usage { IfErr result (λ stop. IsNoUsage stop) }
{
    let mut last = 0;
    'reads: for turn in 0..count {
        last = turn % TICKS + 1;
        read(rt, viewer, last)?;
    }
    Ok(last)
}

// Reads the tick of a number.
fn read<R: Wait>(rt: &R, viewer: &mut Viewer, number: u32) -> Result<(), Stop>
    ensures reads { OnOk result (length viewer.new.reads ≡ length viewer.old.reads + 1) }
    ensures no_usage { IfErr result (λ stop. IsNoUsage stop) }
{
    match viewer.tick(rt, number)? {
        Some(tick) if tick.number == number => Ok(()),
        _ => Err(Stop::Untold),
    }
}
