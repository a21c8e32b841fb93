// The row operation of the field.
ghost use Rattle.std.specs.Prelude.{◌≡◌, ◌<◌, length, IfOk};
ghost use Rattle.gsbench.specs.Amounts.{Reports, mul_add_amount};
ghost use Rattle.gsbench.specs.Workloads.{AreWordsJudged, mul_add_limits};

use crate::report::{Counted, Report, Stop};
use crate::sample::{SEED, checksum, made};
use crate::words::{expect_end, number_at};
use gs_gf256::mul_add;
use std::alloc::Global;

const MAX_LEN: u32 = 1 << 20;

/// `mul_add LEN COUNT`.
pub fn run(alloc: Global, words: &[String]) -> Result<Report, Stop>
    ensures usage { AreWordsJudged mul_add_limits words.now result }
    ensures amount { IfOk result (λ report. 0 < report.amount) }
    ensures reports { IfOk result (λ report. Reports Counted.Bytes (mul_add_amount words.now) report) }
{
    let len = number_at(words, 1, 1, MAX_LEN)?;
    let count = number_at(words, 2, 1, u32::MAX)?;
    expect_end(words, 3)?;
    let source = made(alloc, len as usize, SEED)?;
    let mut sums = made(alloc, len as usize, SEED)?;
    add_often(&mut sums, &source, count);
    Ok(Report {
        checksum: checksum(&sums),
        counted: Counted::Bytes,
        amount: u64::from(len) * u64::from(count),
    })
}

// Adds multiples of the source, by all factors in turn.
fn add_often(sums: &mut [u8], source: &[u8], count: u32)
    requires { length sums.old ≡ length source.now }
    ensures { length sums.new ≡ length sums.old }
{
    for turn in 0..count {
        mul_add(sums, source, (turn % 256) as u8);
    }
}
