// The video code: parity shards written, and absent shards restored.
ghost use Rattle.std.specs.Prelude.{◌≡◌, ◌-◌, ◌*◌, ◌<◌, ◌++◌, length, IfOk, MatchResult, Some};
ghost use Rattle.gs_rs.specs.Codeword.{IsBlock};
ghost use Rattle.gs_rs.specs.Shape.{shard_count, IsCode};
ghost use Rattle.gsbench.specs.Amounts.{Reports, code_amount};
ghost use Rattle.gsbench.specs.Words.{number_word};
ghost use Rattle.gsbench.specs.Workloads.{AreWordsJudged, IsStopAtCode, encode_limits, parity_limits, restore_limits};

use crate::report::{Counted, Report, Stop};
use crate::sample::{SEED, checksum, made};
use crate::words::{expect_end, number_at};
use gs_rs::{Code, MAX_SHARDS};
use std::alloc::Global;

const MAX_LEN: u32 = 1 << 16;

// The code of the words at places 1 and 2.
fn code_of(words: &[String]) -> Result<Code, Stop>
    ensures code { IfOk result (λ code. IsCode code) }
    ensures words { MatchResult result (λ code. (number_word words.now 1 1 255 ≡ Some code.data)
        × (number_word words.now 2 0 (255 - code.data) ≡ Some code.parity))
        (λ stop. IsStopAtCode words.now stop) }
{
    let data = number_at(words, 1, 1, 255)?;
    let parity = number_at(words, 2, 0, 255 - data)?;
    Code::video(data as usize, parity as usize).map_err(|_| Stop::Usage { word: 3 })
}

/// `encode D P LEN COUNT`.
pub fn run_encode(alloc: Global, words: &[String]) -> Result<Report, Stop>
    ensures usage { AreWordsJudged (encode_limits words.now) words.now result }
    ensures amount { IfOk result (λ report. 0 < report.amount) }
    ensures reports { IfOk result (λ report. Reports Counted.Bytes (code_amount words.now 4) report) }
{
    let code = code_of(words)?;
    let len = number_at(words, 3, 1, MAX_LEN)? as usize;
    let count = number_at(words, 4, 1, u32::MAX)?;
    expect_end(words, 5)?;
    let mut source = made(alloc, code.data() * len, SEED)?;
    let mut parity = made(alloc, code.parity() * len, SEED)?;
    encode_often(&code, len, &mut source, &mut parity, count);
    Ok(Report {
        checksum: checksum(&parity),
        counted: Counted::Bytes,
        amount: (code.data() * len) as u64 * u64::from(count),
    })
}

// Each turn begins with another byte.
fn encode_often(code: &Code, len: usize, source: &mut [u8], parity: &mut [u8], count: u32)
    requires source_size { length source.old ≡ code.now.data * len }
    requires parity_size { length parity.old ≡ code.now.parity * len }
    requires some { 0 < length source.old }
    ensures { 0 < count → IsBlock code.now len (source.new ++ parity.new) }
{
    for turn in 0..count {
        source[0] = (turn % 256) as u8;
        code.encode(len, source, parity);
    }
}

/// `parity D P LEN SEED COUNT`: the parity of the bytes from a seed, which other programs can print too.
pub fn run_parity(alloc: Global, words: &[String]) -> Result<Report, Stop>
    ensures usage { AreWordsJudged (parity_limits words.now) words.now result }
    ensures amount { IfOk result (λ report. 0 < report.amount) }
    ensures reports { IfOk result (λ report. Reports Counted.Bytes (code_amount words.now 5) report) }
{
    let code = code_of(words)?;
    let len = number_at(words, 3, 1, MAX_LEN)? as usize;
    let seed = number_at(words, 4, 0, u32::MAX)?;
    let count = number_at(words, 5, 1, u32::MAX)?;
    expect_end(words, 6)?;
    let source = made(alloc, code.data() * len, seed)?;
    let mut parity = made(alloc, code.parity() * len, SEED)?;
    for _ in 0..count {
        code.encode(len, &source, &mut parity);
    }
    Ok(Report {
        checksum: checksum(&parity),
        counted: Counted::Bytes,
        amount: (code.data() * len) as u64 * u64::from(count),
    })
}

/// `restore D P LEN LOST COUNT`.
pub fn run_restore(alloc: Global, words: &[String]) -> Result<Report, Stop>
    ensures usage { AreWordsJudged (restore_limits words.now) words.now result }
    ensures amount { IfOk result (λ report. 0 < report.amount) }
    ensures reports { IfOk result (λ report. Reports Counted.Bytes (code_amount words.now 5) report) }
{
    let code = code_of(words)?;
    let len = number_at(words, 3, 1, MAX_LEN)? as usize;
    let lost = number_at(words, 4, 0, code.data().min(code.parity()) as u32)? as usize;
    let count = number_at(words, 5, 1, u32::MAX)?;
    expect_end(words, 6)?;
    let mut shards = made(alloc, (code.data() + code.parity()) * len, SEED)?;
    let mut present = [true; MAX_SHARDS];
    present[..lost].fill(false);
    restore_often(
        &code,
        len,
        &mut shards,
        &present[..code.data() + code.parity()],
        count,
    );
    Ok(Report {
        checksum: checksum(&shards),
        counted: Counted::Bytes,
        amount: (code.data() * len) as u64 * u64::from(count),
    })
}

// Each turn ends with another byte in the last shard.
fn restore_often(code: &Code, len: usize, shards: &mut [u8], present: &[bool], count: u32)
    requires shards_size { length shards.old ≡ shard_count code.now * len }
    requires present_size { length present.now ≡ shard_count code.now }
    requires some { 0 < length shards.old }
    ensures { length shards.new ≡ length shards.old }
{
    let last = shards.len() - 1;
    for turn in 0..count {
        shards[last] = (turn % 256) as u8;
        let _ = code.restore(len, shards, present);
    }
}
