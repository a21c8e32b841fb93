// Frames received: their datagrams through a queue, and what is handed through a depack.
ghost use Rattle.std.specs.Prelude.{◌≡◌, ◌<◌, ◌≤◌, ◌^◌, ◌∷◌, ◌++◌, List, length, map, IfErr, IfOk};
ghost use Rattle.gs_rtp.specs.Limits.{most_packet};
ghost use Rattle.gs_frames.specs.Client.{ClientSettings, Arrival, Datagram};
ghost use Rattle.gs_frames.specs.Datagrams.{OutgoingFrame, frame_datagrams};
ghost use Rattle.gs_fecqueue.specs.Standing.{IsQueueOf};
ghost use Rattle.gs_split.specs.Splitting.{IsLoaded};
ghost use Rattle.gsbench.specs.Amounts.{Reports, receive_amount};
ghost use Rattle.gsbench.specs.Report.{IsNoUsage};
ghost use Rattle.gsbench.specs.Sending.{arrivals_of, is_dropped, numbered_bytes};
ghost use Rattle.gsbench.specs.Workloads.{AreWordsJudged, receive_limits};

use crate::frames::KIND_IDR;
use crate::report::{Counted, Report, Stop};
use crate::sample::{SEED, checksum, made};
use crate::settings::settings_of;
use crate::words::{expect_end, number_at};
use byteorder::{ByteOrder, LittleEndian};
use gs_bytes::MOST_UNIT;
use gs_depack::{Depack, read_image};
use gs_fecqueue::{Outcome, Queue};
use gs_frames::Added;
use gs_rtp::{DATAGRAM_GREATEST, FRAME_GREATEST, VIDEO_HEADER_LENGTH};
use gs_split::Splitter;
use std::alloc::Global;

// How much of a packet isn't payload.
const PACKET_HEADER: u16 = 16;

// Where the number of a frame stands in its datagrams.
const FRAME: usize = 20;

/// `receive Z P LEN EVERY COUNT`: IDR frames whose unit has LEN bytes, at packet size Z and percentage P. Each EVERY-th
/// datagram is lost, none at 0.
pub fn run(alloc: Global, words: &[String]) -> Result<Report, Stop>
    ensures usage { AreWordsJudged receive_limits words.now result }
    ensures amount { IfOk result (λ report. 0 < report.amount) }
    ensures reports { IfOk result (λ report. Reports Counted.Bytes (receive_amount words.now) report) }
{
    let settings = settings_of(words)?;
    let len = number_at(words, 3, 1, MOST_UNIT)?;
    let every = number_at(words, 4, 0, u32::MAX)?;
    let count = number_at(words, 5, 1, FRAME_GREATEST)?;
    expect_end(words, 6)?;
    let unit = made(alloc, len as usize, SEED)?;
    let mut splitter = Splitter::new(alloc, &settings)?;
    let number = splitter.load(1, KIND_IDR, 0, &unit);
    let mut datagrams = datagrams_of(alloc, &mut splitter, number, &unit)?;
    let mut queue = Queue::new(alloc, &settings, 1)?;
    let payload = settings.packet - PACKET_HEADER;
    let last = receive_often(&mut queue, &mut datagrams, payload, every, count);
    Ok(Report {
        checksum: checksum(queue.image(last)),
        counted: Counted::Bytes,
        amount: u64::from(len) * u64::from(count),
    })
}

/// The datagrams of the loaded frame.
pub fn datagrams_of(
    alloc: Global,
    splitter: &mut Splitter,
    number: u32,
    unit: &[u8],
) -> Result<Vec<Vec<u8>>, Stop>
    requires number { splitter.old.datagrams ≡ number }
    requires unit { length unit.now ≡ splitter.old.unit_length }
    requires packet { splitter.old.settings.packet ≤ most_packet }
    ensures kept { splitter.new ≡ splitter.old }
    ensures no_usage { IfErr result (λ stop. IsNoUsage stop) }
    ensures number { IfOk result (λ all. length all.items ≡ number) }
    ensures datagrams { IfOk result (λ all. (sent : OutgoingFrame) → IsLoaded splitter.old sent → sent.unit ≡ unit.now
        → map (λ datagram. datagram.items) all.items ≡ frame_datagrams splitter.old.settings sent) }
{
    let mut all = Vec::new(alloc);
    let mut out = [0; DATAGRAM_GREATEST];
    'datagrams: for k in 0..number {
        let length = splitter.datagram(k, unit, &mut out);
        let datagram = out[..length].to_vec(alloc)?;
        all.push(datagram).map_err(|_| Stop::OutOfMemory)?;
    }
    Ok(all)
}

// Sends the frame under so many numbers, each EVERY-th datagram of which is lost, and answers the last one handed.
fn receive_often(
    queue: &mut Queue,
    datagrams: &mut [Vec<u8>],
    payload: u16,
    every: u32,
    count: u32,
) -> u32
    requires count { count ≤ 1048576 }
    requires few { length datagrams.old < 2 ^ 32 }
    ensures { (c : ClientSettings) (came : List Arrival) → IsQueueOf queue.old c came
        → IsQueueOf queue.new c (arrivals_of every count (map (λ datagram. datagram.items) datagrams.old) ++ came) }
{
    let mut depack = Depack::new(1);
    let mut sent = 0_u64;
    let mut last = 0;
    'frames: for frame in 1..count + 1 {
        'datagrams: for datagram in datagrams.iter_mut() {
            set_frame(datagram, frame);
            sent += 1;
            if !is_lost(every, sent) {
                last = receive(queue, &mut depack, datagram, payload, frame).unwrap_or(last);
            }
        }
    }
    last
}

/// Whether a datagram is lost, by its number from 1.
pub fn is_lost(every: u32, number: u64) -> bool
    ensures { result ≡ is_dropped every number }
{
    every != 0 && number % u64::from(every) == 0
}

/// Writes the number of the frame into its datagram, where that has a whole header.
pub fn set_frame(datagram: &mut [u8], frame: u32)
    ensures { datagram.new ≡ numbered_bytes frame datagram.old }
{
    if datagram.len() >= VIDEO_HEADER_LENGTH {
        LittleEndian::write_u32(&mut datagram[FRAME..], frame);
    }
}

// Takes a datagram, and answers the frame that it hands.
fn receive(
    queue: &mut Queue,
    depack: &mut Depack,
    datagram: &[u8],
    payload: u16,
    frame: u32,
) -> Option<u32>
    ensures { (c : ClientSettings) (came : List Arrival) → IsQueueOf queue.old c came
        → IsQueueOf queue.new c (Datagram datagram.now ∷ came) }
{
    let Outcome { moved, what } = queue.add(datagram);
    if let Some(moved) = moved {
        let _asked = depack.moved(&moved);
    }
    if what == Added::FrameWhole {
        if let Some(head) = read_image(queue.image(frame), payload) {
            depack.note(frame, head.kind);
        }
    }
    depack.next()
}
