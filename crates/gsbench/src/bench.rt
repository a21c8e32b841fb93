// The table of workloads.

ghost use Rattle.std.specs.Prelude.{◌≡◌, ◌<◌, IfOk, IfSome};
ghost use Rattle.gsbench.specs.Amounts.{ReportsOf};
ghost use Rattle.gsbench.specs.Workloads.{AreWordsJudged, IsJudgedBy, first_word, limits_of, misfit, misfit_at};
ghost use Rattle.gsbench.specs.Workloads.{workload_named};

use crate::report::{Report, Stop};
use crate::workload::{Workload, workload_named};
use crate::{choose, codes, frames, messages, new_client, receive, rows, take, tape, turns, views};
use std::alloc::Global;
use std::sync::Wait;
use std::thread::Threads;

// The first word, no bytes where there is none.
fn first_word(words: &[String]) -> &[u8]
    ensures { result.now ≡ first_word words.now }
{
    match words.first() {
        Some(word) => word.as_bytes(),
        None => b"",
    }
}

// Runs a workload.
fn run<R: Threads + Wait + Sync>(
    rt: &R,
    alloc: Global,
    workload: Workload,
    words: &[String],
) -> Result<Report, Stop>
    ensures usage { AreWordsJudged (limits_of words.now workload) words.now result }
    ensures amount { IfOk result (λ report. 0 < report.amount) }
    ensures reports { IfOk result (λ report. ReportsOf words.now workload report) }
{
    match workload {
        Workload::MulAdd => rows::run(alloc, words),
        Workload::Encode => codes::run_encode(alloc, words),
        Workload::Parity => codes::run_parity(alloc, words),
        Workload::Restore => codes::run_restore(alloc, words),
        Workload::Messages => messages::run(alloc, words),
        Workload::Receive => receive::run(alloc, words),
        Workload::Split => frames::run_split(alloc, words),
        Workload::Tape => tape::run(alloc, words),
        Workload::TapeHeld => tape::run_held(alloc, words),
        Workload::Choose => choose::run(alloc, words),
        Workload::Turns => turns::run(rt, alloc, words),
        Workload::Views => views::run(rt, alloc, words),
        Workload::Take => take::run(alloc, words),
        Workload::New => new_client::run(alloc, words),
    }
}

// Runs the workload that was named, if one was.
fn run_named<R: Threads + Wait + Sync>(
    rt: &R,
    alloc: Global,
    workload: Option<Workload>,
    words: &[String],
) -> Result<Report, Stop>
    ensures usage { IsJudgedBy (misfit_at words.now workload) result }
    ensures amount { IfOk result (λ report. 0 < report.amount) }
    ensures reports { IfOk result (λ report. IfSome workload (λ named. ReportsOf words.now named report)) }
{
    match workload {
        Some(workload) => run(rt, alloc, workload, words),
        None => Err(Stop::Usage { word: 1 }),
    }
}

/// Runs the workload that the first word names.
pub fn bench<R: Threads + Wait + Sync>(
    rt: &R,
    alloc: Global,
    words: &[String],
) -> Result<Report, Stop>
    ensures usage { IsJudgedBy (misfit words.now) result }
    ensures amount { IfOk result (λ report. 0 < report.amount) }
    ensures reports { IfOk result (λ report. IfSome (workload_named (first_word words.now))
        (λ named. ReportsOf words.now named report)) }
{
    run_named(rt, alloc, workload_named(first_word(words)), words)
}
