// Frames chosen for a session, of which its client loses some.
ghost use Rattle.std.specs.Prelude.{◌≡◌, ◌+◌, ◌<◌, ◌≤◌, IfErr, IfOk};
ghost use Rattle.gs_refs.specs.History.{frames};
ghost use Rattle.gsbench.specs.Amounts.{Reports, choose_amount};
ghost use Rattle.gsbench.specs.Report.{IsNoUsage};
ghost use Rattle.gsbench.specs.Workloads.{AreWordsJudged, choose_limits};

use crate::report::{Counted, Report, Stop};
use crate::sample::checksum;
use crate::words::{expect_end, number_at};
use gs_refs::{Refs, Sent};
use gs_rtp::FRAME_GREATEST;
use gs_tape::{Delta, Deltas, Tick, Unit, Units};
use std::alloc::Global;

// After so many frames the last ones are told as lost.
const EVERY: u32 = 30;

// How many of them are lost.
const LOST: u32 = 3;

// How far back the ticks lie against which a tick has units.
const BACK: [u32; 4] = [8, 4, 2, 1];

// The bytes of each unit.
const UNIT: [u8; 4] = *b"unit";

/// `choose COUNT`: a unit chosen of each of so many ticks, and a range of lost frames each time that 30 were sent.
pub fn run(alloc: Global, words: &[String]) -> Result<Report, Stop>
    ensures usage { AreWordsJudged choose_limits words.now result }
    ensures amount { IfOk result (λ report. 0 < report.amount) }
    ensures reports { IfOk result (λ report. Reports Counted.Calls (choose_amount words.now) report) }
{
    let count = number_at(words, 1, 1, FRAME_GREATEST)?;
    expect_end(words, 2)?;
    let tick = tick_of(alloc)?;
    let mut refs = Refs::new(alloc);
    let last = choose_often(&mut refs, tick, count)?;
    Ok(Report {
        checksum: checksum(&last.reference.to_le_bytes()),
        counted: Counted::Calls,
        amount: u64::from(count),
    })
}

// The first tick, with a unit for each of the ticks before it that later ones have.
fn tick_of(alloc: Global) -> Result<Tick, Stop>
    ensures { IfErr result (λ stop. IsNoUsage stop) }
{
    let mut deltas = Vec::with_capacity(alloc, BACK.len())?;
    for _ in BACK {
        let unit = Unit::copy_of(alloc, &UNIT)?;
        deltas
            .push(Delta { named: 1, unit })
            .map_err(|_| Stop::OutOfMemory)?;
    }
    Ok(Tick {
        number: 1,
        time: 0,
        idr: Unit::copy_of(alloc, &UNIT)?,
        deltas: Deltas::from_vec(deltas),
        audio: Units::from_vec(Vec::new(alloc)),
    })
}

// Sends so many ticks as frames, and answers as what the last one went out.
fn choose_often(refs: &mut Refs, tick: Tick, count: u32) -> Result<Sent, Stop>
    requires fresh { frames refs.old.history ≡ 0 }
    requires count { (1 ≤ count) × (count ≤ 1048576) }
    ensures frame { IfOk result (λ sent. sent.frame ≡ count) }
    ensures no_usage { IfErr result (λ stop. IsNoUsage stop) }
{
    let mut tick = tick;
    let mut last = choose_next(refs, &tick)?;
    'ticks: for number in 2..count + 1 {
        tick = numbered(tick, number);
        last = choose_next(refs, &tick)?;
    }
    Ok(last)
}

// The tick with another number, and with units against the ticks before that one.
fn numbered(tick: Tick, number: u32) -> Tick
    ensures { result.number ≡ number }
{
    let mut deltas = tick.deltas.into_vec();
    for (delta, back) in deltas.iter_mut().zip(BACK) {
        delta.named = number.saturating_sub(back).max(1);
    }
    Tick {
        number,
        time: tick.time,
        idr: tick.idr,
        deltas: Deltas::from_vec(deltas),
        audio: tick.audio,
    }
}

// Chooses for a tick, and tells the last frames as lost where it is their turn.
fn choose_next(refs: &mut Refs, tick: &Tick) -> Result<Sent, Stop>
    ensures frame { IfOk result (λ sent. sent.frame ≡ frames refs.old.history + 1) }
    ensures frames { IfOk result (λ sent. frames refs.new.history ≡ sent.frame) }
    ensures no_usage { IfErr result (λ stop. IsNoUsage stop) }
{
    refs.reserve(2)?;
    let sent = refs.choose(tick).map_err(|_| Stop::Untold)?;
    if sent.frame % EVERY == 0 {
        let last = i64::from(sent.frame);
        lose(refs, last - i64::from(LOST) + 1, last)?;
    }
    Ok(sent)
}

// Tells a range of frames as lost.
fn lose(refs: &mut Refs, first: i64, last: i64) -> Result<(), Stop>
    requires room { 1 ≤ refs.old.spare }
    ensures frames { frames refs.new.history ≡ frames refs.old.history }
    ensures no_usage { IfErr result (λ stop. IsNoUsage stop) }
{
    refs.invalidate(first, last).map_err(|_| Stop::Untold)
}
