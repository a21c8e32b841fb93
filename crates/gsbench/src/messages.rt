// Messages between two peers of one connection, which are joined in memory.
ghost use Rattle.std.specs.Prelude.{◌<◌, IfErr, IfOk};
ghost use Rattle.gsbench.specs.Amounts.{Reports, messages_amount};
ghost use Rattle.gsbench.specs.Report.{IsNoUsage};
ghost use Rattle.gsbench.specs.Workloads.{AreWordsJudged, messages_limits};

use crate::report::{Counted, Report, Stop};
use crate::sample::checksum;
use crate::words::{expect_end, number_at};
use gs_bytes::Text;
use gs_enet::{Peer, PeerEvent};
use gs_enet_wire::{Command, read};
use std::alloc::Global;

// The channel of the messages, the bytes of one, and how many can wait for their acknowledgement.
const CHANNEL: u8 = 2;

const LEN: usize = 16;

const MOST_BATCH: u32 = 256;
// The most bytes of a datagram, and more datagrams than one side writes at once.
const DATAGRAM: usize = 1392;

const MOST_DATAGRAMS: u32 = 1000;

/// `messages BATCH COUNT`: COUNT messages, of which BATCH are given before each writing.
pub fn run(alloc: Global, words: &[String]) -> Result<Report, Stop>
    ensures usage { AreWordsJudged messages_limits words.now result }
    ensures amount { IfOk result (λ report. 0 < report.amount) }
    ensures reports { IfOk result (λ report. Reports Counted.Bytes (messages_amount words.now) report) }
{
    let batch = number_at(words, 1, 1, MOST_BATCH)?;
    let count = number_at(words, 2, 1, u32::MAX)?;
    expect_end(words, 3)?;
    let mut line = Line::connect(alloc)?;
    for turn in 0..count / batch {
        line.carry(turn, batch)?;
    }
    line.carry(count, count % batch)?;
    if line.told != count {
        return Err(Stop::Untold);
    }
    let Some(last) = &line.last else {
        return Err(Stop::Untold);
    };
    Ok(Report {
        checksum: checksum(last.as_bytes()),
        counted: Counted::Bytes,
        amount: LEN as u64 * u64::from(count),
    })
}

// A client, a host, how many messages the host told, the last of them, and room for a datagram.
#[derive(Drop)]
struct Line {
    client: Peer,
    host: Peer,
    told: u32,
    last: Option<Text>,
    out: [u8; DATAGRAM],
}

impl Line {
    fn connect(alloc: Global) -> Result<Line, Stop>
        ensures { IfErr result (λ stop. IsNoUsage stop) }
    {
        let mut out = [0; DATAGRAM];
        let mut client = Peer::connect(alloc, 0, 1, 0, 0)?;
        let Some(length) = client.next_out(0, &mut out) else {
            return Err(Stop::Untold);
        };
        let datagram = read(alloc, &out[..length]).map_err(|_| Stop::Untold)?;
        let [Command::Connect(connect)] = datagram.commands.as_slice() else {
            return Err(Stop::Untold);
        };
        let mut host = Peer::accept(alloc, 0, connect, 0)?;
        pass(&mut host, &mut client, &mut out)?;
        pass(&mut client, &mut host, &mut out)?;
        Ok(Line {
            client,
            host,
            told: 0,
            last: None,
            out,
        })
    }

    // Gives so many messages that begin with the turn's number, and has them told and acknowledged.
    fn carry(&mut self, turn: u32, batch: u32) -> Result<(), Stop>
        ensures { IfErr result (λ stop. IsNoUsage stop) }
    {
        let mut message = [0; LEN];
        message[..4].copy_from_slice(&turn.to_le_bytes());
        for _ in 0..batch {
            self.client.send(CHANNEL, &message)?;
        }
        pass(&mut self.client, &mut self.host, &mut self.out)?;
        for _ in 0..=batch {
            let Some(event) = self.host.next_event() else {
                break;
            };
            if let PeerEvent::Message { bytes, .. } = event {
                self.told = self.told.wrapping_add(1);
                self.last = Some(bytes);
            }
        }
        pass(&mut self.host, &mut self.client, &mut self.out)
    }
}

// Hands all that one side writes to the other.
fn pass(from: &mut Peer, to: &mut Peer, out: &mut [u8; DATAGRAM]) -> Result<(), Stop>
    ensures { IfErr result (λ stop. IsNoUsage stop) }
{
    for _ in 0..MOST_DATAGRAMS {
        let Some(length) = from.next_out(0, out) else {
            break;
        };
        to.take(&out[..length], 0)?;
    }
    Ok(())
}
