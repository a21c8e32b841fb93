// A host and a client joined by hand: what the host puts on a link is given to the client, and what the client asks for
// goes to the host over a control connection.

ghost use Rattle.std.specs.Prelude.{◌≡◌};

use super::sending::{Sending, settings};
use gs_bytes::{LinkEntry, MemLink};
use gs_client_core::{Asker, Client, Given, Taken};
use gs_enet::PeerEvent;
use gs_frames::{Range, WINDOW_GREATEST};
use gs_host_core::Act;
use gs_pair::{references_held, references_held_since};
use gs_refs::{Entry, Sent};
use gs_rtp::Settings;
use gs_schedule::{Output, output_line};
use gs_sides::ControlSide;
use std::alloc::Global;
use std::test::Fail;

/// What is done next: the host sends a tick, a video datagram of a number comes, a control datagram of the client
/// comes, or the client's decoder is reset.
#[derive(Clone, Copy)]
pub enum Deed {
    Turn,
    Video(usize),
    Up(u64),
    Reset,
}

/// A frame that is handed, and the length of its unit.
#[derive(Clone, Copy)]
struct Frame {
    number: u32,
    kind: u8,
    length: u32,
}

// Each call alone, so that its contract stands in no other goal.

fn taken(
    client: &mut Client,
    datagram: &[u8],
) -> (Option<Range>, [Option<Frame>; WINDOW_GREATEST]) {
    let Taken { ask, units, .. } = client.take(datagram);
    let [a, b, c, d] = units;
    (ask, [frame_of(a), frame_of(b), frame_of(c), frame_of(d)])
}

fn frame_of(unit: Option<Given<'_>>) -> Option<Frame> {
    let unit = unit?;
    Some(Frame {
        number: unit.frame,
        kind: unit.kind,
        length: u32::try_from(unit.bytes.len()).ok()?,
    })
}

fn settle(side: &mut ControlSide) -> Result<(), Fail> {
    Ok(side.write_out(0)?)
}

fn give_owed(side: &mut ControlSide, asker: &mut Asker) -> Result<(), Fail> {
    side.give_owed(asker)?;
    settle(side)
}

/// What comes to a side with the datagram of that number.
fn come(
    alloc: Global,
    to: &mut ControlSide,
    from: &ControlSide,
    number: u64,
) -> Result<Vec<PeerEvent>, Fail> {
    let mut events = Vec::new(alloc);
    if !to.take(from, number, 0, &mut events)? {
        return Err("no datagram".into());
    }
    settle(to)?;
    Ok(events)
}

/// Whether each handed frame that refers to another has that other earlier among them.
pub fn are_held(entries: &[Entry], handed: &[u32]) -> bool {
    references_held(entries, handed)
}

/// Whether they are held with a reset behind so many handed frames.
pub fn are_held_since(entries: &[Entry], handed: &[u32], cut: u32) -> bool {
    cut as usize <= handed.len() && references_held_since(entries, handed, &[cut])
}

/// The sides of a client and of its host whose connection is up.
fn sides(alloc: Global) -> Result<(ControlSide, ControlSide), Fail> {
    let mut own = ControlSide::connect(alloc, 0, 1, 1, 0)?;
    let mut other = ControlSide::accept(alloc, 0, 0, 1, 0)?;
    settle(&mut own)?;
    settle(&mut other)?;
    come(alloc, &mut own, &other, 1)?;
    come(alloc, &mut other, &own, 2)?;
    Ok((own, other))
}

/// The entry of a frame that went out. One of which a datagram failed was sent as the first, or against the one before.
fn entry_of(sent: Option<Sent>, last: u32) -> Entry {
    match sent {
        Some(sent) => Entry::Sent {
            tick: sent.tick,
            kind: sent.kind,
            reference: sent.reference,
        },
        None => Entry::Sent {
            tick: last,
            kind: if last == 1 { 2 } else { 1 },
            reference: last.saturating_sub(1),
        },
    }
}

/// A host and a client, and what came of them.
#[derive(Drop)]
pub struct Joined {
    alloc: Global,
    host: Sending,
    client: Client,
    asker: Asker,
    pub own: ControlSide,
    pub other: ControlSide,
    pub video: MemLink,
    audio: MemLink,
    pub entries: Vec<Entry>,
    pub handed: Vec<u32>,
    pub text: Vec<u8>,
}

impl Joined {
    /// Nothing happened yet. The video link fails at the calls of these numbers.
    pub fn open(
        alloc: Global,
        settings: &Settings,
        window: u8,
        fails: &[u64],
    ) -> Result<Joined, Fail>
        requires { settings.now.audio ≡ 0 }
    {
        let (own, other) = sides(alloc)?;
        Ok(Joined {
            alloc,
            host: Sending::open(alloc, settings)?,
            client: Client::new(alloc, settings, window.clamp(1, 4))?,
            asker: Asker::new(alloc),
            own,
            other,
            video: MemLink::new(alloc, fails)?,
            audio: MemLink::new(alloc, &[])?,
            entries: Vec::new(alloc),
            handed: Vec::new(alloc),
            text: Vec::new(alloc),
        })
    }

    fn report(&mut self, output: &Output) -> Result<(), Fail> {
        let line = output_line(self.alloc, output)?;
        self.text.extend_from_slice(line.as_bytes())?;
        Ok(())
    }

    /// The host sends its next tick.
    pub fn turn(&mut self) -> Result<(), Fail> {
        let sent = self
            .host
            .next(self.alloc, &mut self.video, &mut self.audio)?;
        self.entries.push(entry_of(sent, self.host.last()))?;
        match sent {
            Some(sent) => self.report(&Output::Sent {
                session: 1,
                frame: sent.frame,
                kind: sent.kind,
                tick: sent.tick,
                reference: sent.reference,
            }),
            None => Ok(()),
        }
    }

    /// The video datagram of that number comes to the client.
    pub fn video(&mut self, number: usize) -> Result<(), Fail> {
        let Some(LinkEntry::Put { bytes, .. }) = self.video.entries().get(number.wrapping_sub(1))
        else {
            return Err("no datagram".into());
        };
        let (ask, frames) = taken(&mut self.client, bytes.as_bytes());
        if let Some(range) = ask {
            self.ask(range)?;
        }
        for frame in frames {
            if let Some(frame) = frame {
                self.hand(frame)?;
            }
        }
        Ok(())
    }

    fn ask(&mut self, range: Range) -> Result<(), Fail> {
        self.asker.owe(range)?;
        self.report(&Output::Ask {
            session: 1,
            first: range.first,
            last: range.last,
        })?;
        give_owed(&mut self.own, &mut self.asker)
    }

    fn hand(&mut self, frame: Frame) -> Result<(), Fail> {
        self.handed.push(frame.number)?;
        self.report(&Output::Hand {
            session: 1,
            frame: frame.number,
            kind: frame.kind,
            length: frame.length,
        })
    }

    /// The control datagram of that number comes to the host.
    pub fn up(&mut self, number: u64) -> Result<(), Fail> {
        for event in come(self.alloc, &mut self.other, &self.own, number)?.iter() {
            if let PeerEvent::Message { bytes, .. } = event {
                self.act(bytes.as_bytes())?;
            }
        }
        Ok(())
    }

    fn act(&mut self, message: &[u8]) -> Result<(), Fail> {
        match self.host.told(message)? {
            Act::Invalidate { first, last } => {
                self.invalidate(u32::try_from(first)?, u32::try_from(last)?)
            }
            Act::AskIdr => {
                self.entries.push(Entry::IdrAsked)?;
                self.report(&Output::Idr { session: 1 })
            }
            Act::Input(_) | Act::Nothing => Ok(()),
        }
    }

    fn invalidate(&mut self, first: u32, last: u32) -> Result<(), Fail> {
        self.entries.push(Entry::Invalid { first, last })?;
        self.report(&Output::Invalid {
            session: 1,
            first,
            last,
        })
    }

    fn reset(&mut self) -> Result<(), Fail> {
        self.client.reset();
        self.asker.owe_idr()?;
        self.report(&Output::Reset { session: 1 })?;
        give_owed(&mut self.own, &mut self.asker)
    }

    /// Does these deeds, one after the other.
    pub fn run(&mut self, deeds: &[Deed]) -> Result<(), Fail> {
        for deed in deeds {
            match *deed {
                Deed::Turn => self.turn()?,
                Deed::Video(number) => self.video(number)?,
                Deed::Up(number) => self.up(number)?,
                Deed::Reset => self.reset()?,
            }
        }
        Ok(())
    }
}

/// What comes of a session in which no link fails.
pub fn ran(alloc: Global, window: u8, deeds: &[Deed]) -> Result<Joined, Fail> {
    let mut joined = Joined::open(alloc, &settings(0, 0)?, window, &[])?;
    joined.run(deeds)?;
    Ok(joined)
}
