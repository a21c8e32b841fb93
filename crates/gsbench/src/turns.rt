// Calls of one cell by several threads.
ghost use Rattle.std.specs.Prelude.{◌≡◌, ◌*◌, ◌<◌, ◌≤◌, ℕ, [], ◌∷◌, length, IfErr, IfOk};
ghost use Rattle.std.specs.Thread.{IsSync};
ghost use Rattle.gs_turn.specs.Cells.{AreNewPasses, IsPassOf, own};
ghost use Rattle.gsbench.specs.Amounts.{Reports, threads_amount};
ghost use Rattle.gsbench.specs.Calling.{HasCalled, HaveCalled};
ghost use Rattle.gsbench.specs.Report.{IsNoUsage};
ghost use Rattle.gsbench.specs.Workloads.{AreWordsJudged, turns_limits};

use crate::report::{Counted, Report, Stop};
use crate::sample::checksum;
use crate::words::{expect_end, number_at};
use gs_turn::{Pass, Turn, Turned};
use std::alloc::Global;
use std::sync::Wait;
use std::thread::{Threads, join};

// The most threads that call one cell.
const MOST_THREADS: u32 = 16;

/// How many calls were made, modulo 2^64.
#[derive(Drop)]
pub struct Counter {
    calls: u64,
}

impl Turned for Counter {
    ghost use Rattle.std.specs.Prelude.{◌≡◌, ◌+◌, ◌%◌, ◌^◌};

    type Call = ();

    type Reply = u64;

    ghost steps = { λ before call reply after. (after.calls ≡ (before.calls + 1) % 2 ^ 64) × (reply ≡ after.calls) };

    fn step(&mut self, (): ()) -> u64 {
        self.calls = self.calls.wrapping_add(1);
        self.calls
    }
}

/// `turns THREADS COUNT`: so many threads each make COUNT calls of one cell, which counts them.
pub fn run<R: Threads + Wait + Sync>(
    rt: &R,
    alloc: Global,
    words: &[String],
) -> Result<Report, Stop>
    ensures usage { AreWordsJudged turns_limits words.now result }
    ensures amount { IfOk result (λ report. 0 < report.amount) }
    ensures reports { IfOk result (λ report. Reports Counted.Calls (threads_amount words.now) report) }
{
    let threads = number_at(words, 1, 1, MOST_THREADS)?;
    let count = number_at(words, 2, 1, u32::MAX)?;
    expect_end(words, 3)?;
    let calls = count_by(rt, alloc, threads, count)?;
    Ok(Report {
        checksum: checksum(&calls.to_le_bytes()),
        counted: Counted::Calls,
        amount: calls,
    })
}

// What a counter counts that so many threads call, each so often: all calls, each once.
fn count_by<R: Threads + Wait + Sync>(
    rt: &R,
    alloc: Global,
    threads: u32,
    count: u32,
) -> Result<u64, Stop>
    requires { (1 ≤ threads) × (threads ≤ 16) }
    ensures calls { IfOk result (λ calls. calls ≡ threads * count) }
    ensures no_usage { IfErr result (λ stop. IsNoUsage stop) }
{
    let (turn, passes) = Turn::new(alloc, Counter { calls: 0 }, threads)?;
    let pass = call_by_all(rt, &turn, passes, count);
    let counter = turn.close(pass);
    Ok(counter.calls)
}

// Has each pass make so many calls on a thread of its own, and joins them.
fn call_by_all<R: Threads + Wait + Sync>(
    rt: &R,
    turn: &Turn<Counter>,
    mut passes: Vec<Pass<Counter>>,
    count: u32,
) -> Pass<Counter>
    requires some { 0 < length passes.items }
    requires new { AreNewPasses turn.now 0 passes.items }
    ensures cell { IsPassOf turn.now result }
    ensures called { HaveCalled 0 count (own result) × (length (own result) ≡ length passes.items) }
{
    let Some(last) = passes.pop() else {
        unreachable!()
    };
    if passes.is_empty() {
        return call_often(rt, turn, last, count);
    }
    let (mut keep, give) = join(
        rt,
        || -> Pass<Counter>
            requires { IsSync R.row × (0 < length passes.items) × AreNewPasses turn.now 0 passes.items }
            ensures { IsPassOf turn.entry.now result × HaveCalled 0 count (own result)
                × (length (own result) ≡ length passes.items) }
        { call_by_all(rt, turn, passes, count) },
        || -> Pass<Counter>
            requires { IsPassOf turn.now last }
            ensures { IsPassOf turn.entry.now result
                × ((number : ℕ) → own last ≡ (number, []) ∷ [] → HasCalled number count (own result)) }
        { call_often(rt, turn, last, count) },
    );
    turn.join(&mut keep, give);
    keep
}

// Makes so many calls.
fn call_often<R: Wait>(
    rt: &R,
    turn: &Turn<Counter>,
    mut pass: Pass<Counter>,
    count: u32,
) -> Pass<Counter>
    requires { IsPassOf turn.now pass }
    ensures cell { IsPassOf turn.now result }
    ensures called { (number : ℕ) → own pass ≡ (number, []) ∷ [] → HasCalled number count (own result) }
{
    'calls: for _ in 0..count {
        turn.call(rt, &mut pass, ());
    }
    pass
}
