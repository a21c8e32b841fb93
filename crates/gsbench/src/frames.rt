// Frames split into datagrams.
ghost use Rattle.std.specs.Prelude.{◌≡◌, ◌+◌, ◌-◌, ◌<◌, ◌≤◌, IfOk, Some, length, take};
ghost use Rattle.std.specs.List.{slice_get};
ghost use Rattle.gs_bytes.specs.Limits.{most_unit};
ghost use Rattle.gs_rtp.specs.Limits.{most_stream_datagram};
ghost use Rattle.gs_frames.specs.Datagrams.{OutgoingFrame, frame_datagrams};
ghost use Rattle.gs_split.specs.Splitting.{IsLoaded};
ghost use Rattle.gsbench.specs.Amounts.{Reports, split_amount};
ghost use Rattle.gsbench.specs.Workloads.{AreWordsJudged, split_limits};

use crate::report::{Counted, Report, Stop};
use crate::sample::{SEED, checksum, made};
use crate::settings::settings_of;
use crate::words::{expect_end, number_at};
use gs_bytes::MOST_UNIT;
use gs_rtp::{DATAGRAM_GREATEST, FRAME_GREATEST};
use gs_split::Splitter;
use std::alloc::Global;

/// The kind of a frame that is coded by itself.
pub const KIND_IDR: u8 = 2;

/// `split Z P LEN COUNT`.
pub fn run_split(alloc: Global, words: &[String]) -> Result<Report, Stop>
    ensures usage { AreWordsJudged split_limits words.now result }
    ensures amount { IfOk result (λ report. 0 < report.amount) }
    ensures reports { IfOk result (λ report. Reports Counted.Bytes (split_amount words.now) report) }
{
    let settings = settings_of(words)?;
    let len = number_at(words, 3, 1, MOST_UNIT)?;
    let count = number_at(words, 4, 1, u32::MAX)?;
    expect_end(words, 5)?;
    let unit = made(alloc, len as usize, SEED)?;
    let mut splitter = Splitter::new(alloc, &settings)?;
    let mut out = [0; DATAGRAM_GREATEST];
    split_often(&mut splitter, &unit, count, &mut out);
    Ok(Report {
        checksum: checksum(&out),
        counted: Counted::Bytes,
        amount: u64::from(len) * u64::from(count),
    })
}

// Splits so many frames with this unit, and leaves their last datagram.
fn split_often(splitter: &mut Splitter, unit: &[u8], count: u32, out: &mut [u8])
    requires limit { length unit.now ≤ most_unit }
    requires room { most_stream_datagram ≤ length out.old }
    ensures { splitter.new.settings ≡ splitter.old.settings }
{
    for turn in 0..count {
        let datagrams = splitter.load(turn % FRAME_GREATEST + 1, KIND_IDR, turn, unit);
        write_all(splitter, datagrams, unit, out);
    }
}

// Writes the datagrams of the loaded frame, one after another to the same place, and leaves the last.
fn write_all(splitter: &mut Splitter, datagrams: u32, unit: &[u8], out: &mut [u8])
    requires datagrams { splitter.old.datagrams ≡ datagrams }
    requires unit { length unit.now ≡ splitter.old.unit_length }
    requires room { most_stream_datagram ≤ length out.old }
    ensures kept { splitter.new ≡ splitter.old }
    ensures last { (sent : OutgoingFrame) → IsLoaded splitter.old sent → sent.unit ≡ unit.now → 0 < datagrams
        → slice_get (frame_datagrams splitter.old.settings sent) (datagrams - 1)
        ≡ Some (take (splitter.old.settings.packet + 16) out.new) }
{
    'datagrams: for k in 0..datagrams {
        splitter.datagram(k, unit, out);
    }
}
