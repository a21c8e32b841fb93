// Clients that are made, one after another.
ghost use Rattle.std.specs.Prelude.{◌≡◌, ◌<◌, ◌≤◌, List, IfErr, IfOk};
ghost use Rattle.gs_rtp.specs.Stream.{numbers_of};
ghost use Rattle.gs_frames.specs.Client.{least_window, most_window};
ghost use Rattle.gs_frames.specs.Handed.{Handed};
ghost use Rattle.gs_client_core.specs.Given.{AreGiven};
ghost use Rattle.gsbench.specs.Amounts.{Reports, new_amount};
ghost use Rattle.gsbench.specs.Making.{first_unit, sum_of_new, with_window};
ghost use Rattle.gsbench.specs.Report.{IsNoUsage};
ghost use Rattle.gsbench.specs.Workloads.{AreWordsJudged, new_limits};

use crate::frames::KIND_IDR;
use crate::receive::datagrams_of;
use crate::report::{Counted, Report, Stop};
use crate::sample::{SEED, checksum, made};
use crate::settings::settings_of;
use crate::words::{expect_end, number_at};
use gs_client_core::{Client, Given};
use gs_frames::WINDOW_GREATEST;
use gs_rtp::Settings;
use gs_split::Splitter;
use std::alloc::Global;

// The bytes of the unit that each client is given: they go out in one datagram.
const LEN: usize = 16;

/// `new Z P WINDOW COUNT`: clients at packet size Z, percentage P and a window of WINDOW frames. Each takes the first
/// datagram of an IDR frame, and is dropped before the next.
pub fn run(alloc: Global, words: &[String]) -> Result<Report, Stop>
    ensures usage { AreWordsJudged new_limits words.now result }
    ensures amount { IfOk result (λ report. 0 < report.amount) }
    ensures reports { IfOk result (λ report. Reports Counted.Calls (new_amount words.now) report) }
{
    let settings = settings_of(words)?;
    let window = number_at(words, 3, 1, WINDOW_GREATEST as u32)?;
    let count = number_at(words, 4, 1, u32::MAX)?;
    expect_end(words, 5)?;
    let unit = made(alloc, LEN, SEED)?;
    let mut splitter = Splitter::new(alloc, &settings)?;
    let number = splitter.load(1, KIND_IDR, 0, &unit);
    let datagrams = datagrams_of(alloc, &mut splitter, number, &unit)?;
    let Some(datagram) = datagrams.first() else {
        return Err(Stop::Untold);
    };
    let clients = make_often(alloc, &settings, window as u8, count, datagram)?;
    Ok(Report {
        checksum: clients.sum,
        counted: Counted::Calls,
        amount: u64::from(clients.made),
    })
}

// How many clients were made, and the checksum of the unit that the last one gave.
#[derive(Drop)]
struct Clients {
    made: u32,
    sum: u32,
}

// Makes so many clients, each of which takes the datagram.
fn make_often(
    alloc: Global,
    settings: &Settings,
    window: u8,
    count: u32,
    datagram: &[u8],
) -> Result<Clients, Stop>
    requires window { (least_window ≤ window) × (window ≤ most_window) }
    requires count { 1 ≤ count }
    ensures made { IfOk result (λ clients. clients.made ≡ count) }
    ensures sum { IfOk result (λ clients. clients.sum
        ≡ sum_of_new (with_window (numbers_of settings.now) window) datagram.now) }
    ensures no_usage { IfErr result (λ stop. IsNoUsage stop) }
{
    let mut made = 0;
    let mut sum = 0;
    'clients: for _ in 0..count {
        sum = make(alloc, settings, window, datagram)?;
        made += 1;
    }
    Ok(Clients { made, sum })
}

// Makes a client, and answers the checksum of the unit that it gives for the datagram, of no bytes where it gives none.
fn make(alloc: Global, settings: &Settings, window: u8, datagram: &[u8]) -> Result<u32, Stop>
    requires window { (least_window ≤ window) × (window ≤ most_window) }
    ensures sum { IfOk result (λ sum. sum ≡ sum_of_new (with_window (numbers_of settings.now) window) datagram.now) }
    ensures no_usage { IfErr result (λ stop. IsNoUsage stop) }
{
    let mut client = Client::new(alloc, settings, window)?;
    let taken = client.take(datagram);
    Ok(checksum(first_unit(&taken.units)))
}

// The bytes of the first unit, no bytes where there is none.
fn first_unit<'a>(units: &[Option<Given<'a>>; WINDOW_GREATEST]) -> &'a [u8]
    ensures { (hs : List Handed) → AreGiven units.now hs → result.now ≡ first_unit hs }
{
    match units[0] {
        Some(given) => given.bytes,
        None => &[],
    }
}
