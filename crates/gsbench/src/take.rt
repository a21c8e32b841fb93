// Frames taken by a client's core, which gives their units.
ghost use Rattle.std.specs.Prelude.{◌<◌, ◌≤◌, ◌^◌, ◌∷◌, ◌++◌, ℕ, List, length, map, IfOk};
ghost use Rattle.gs_frames.specs.Client.{ClientSettings, Arrival, Datagram};
ghost use Rattle.gs_client_core.specs.Standing.{IsClientOf};
ghost use Rattle.gsbench.specs.Amounts.{Reports, receive_amount};
ghost use Rattle.gsbench.specs.Sending.{arrivals_of};
ghost use Rattle.gsbench.specs.Workloads.{AreWordsJudged, take_limits};

use crate::frames::KIND_IDR;
use crate::receive::{datagrams_of, is_lost, set_frame};
use crate::report::{Counted, Report, Stop};
use crate::sample::{SEED, checksum, made};
use crate::settings::settings_of;
use crate::words::{expect_end, number_at};
use gs_bytes::MOST_UNIT;
use gs_client_core::Client;
use gs_rtp::FRAME_GREATEST;
use gs_split::Splitter;
use std::alloc::Global;

/// `take Z P LEN EVERY COUNT`: IDR frames whose unit has LEN bytes, at packet size Z and percentage P. Each EVERY-th
/// datagram is lost, none at 0.
pub fn run(alloc: Global, words: &[String]) -> Result<Report, Stop>
    ensures usage { AreWordsJudged take_limits words.now result }
    ensures amount { IfOk result (λ report. 0 < report.amount) }
    ensures reports { IfOk result (λ report. Reports Counted.Bytes (receive_amount words.now) report) }
{
    let settings = settings_of(words)?;
    let len = number_at(words, 3, 1, MOST_UNIT)?;
    let every = number_at(words, 4, 0, u32::MAX)?;
    let count = number_at(words, 5, 1, FRAME_GREATEST)?;
    expect_end(words, 6)?;
    let unit = made(alloc, len as usize, SEED)?;
    let mut splitter = Splitter::new(alloc, &settings)?;
    let number = splitter.load(1, KIND_IDR, 0, &unit);
    let mut datagrams = datagrams_of(alloc, &mut splitter, number, &unit)?;
    let mut client = Client::new(alloc, &settings, 1)?;
    let sum = take_often(&mut client, &mut datagrams, every, count);
    Ok(Report {
        checksum: sum,
        counted: Counted::Bytes,
        amount: u64::from(len) * u64::from(count),
    })
}

// Sends the frame under so many numbers, each EVERY-th datagram of which is lost. Answers the checksum of the unit that
// the last one gives, of no bytes where it gives none.
fn take_often(client: &mut Client, datagrams: &mut [Vec<u8>], every: u32, count: u32) -> u32
    requires count { count ≤ 1048576 }
    requires few { length datagrams.old < 2 ^ 32 }
    ensures { (c : ClientSettings) (came : List Arrival) (sound : List (List ℕ)) → IsClientOf client.old c came sound
        → IsClientOf client.new c (arrivals_of every count (map (λ datagram. datagram.items) datagrams.old) ++ came)
        sound }
{
    let mut sent = 0_u64;
    let mut sum = checksum(&[]);
    'frames: for frame in 1..count + 1 {
        'datagrams: for datagram in datagrams.iter_mut() {
            set_frame(datagram, frame);
            sent += 1;
            if !is_lost(every, sent) {
                sum = take(client, datagram, frame == count).unwrap_or(sum);
            }
        }
    }
    sum
}

// Takes a datagram, and answers the checksum of the unit that is given with it, where that is wanted.
fn take(client: &mut Client, datagram: &[u8], wanted: bool) -> Option<u32>
    ensures { (c : ClientSettings) (came : List Arrival) (sound : List (List ℕ)) → IsClientOf client.old c came sound
        → IsClientOf client.new c (Datagram datagram.now ∷ came) sound }
{
    let [unit, ..] = client.take(datagram).units;
    let bytes = unit?.bytes;
    if wanted { Some(checksum(bytes)) } else { None }
}
