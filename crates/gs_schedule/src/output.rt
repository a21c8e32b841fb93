//! What a run writes, a line for each event.

ghost use Rattle.std.specs.Prelude.{◌≡◌, IfOk};
ghost use Rattle.gs_schedule.specs.Output.{output_line};

use gs_bytes::{OutOfMemory, Text};
use gs_input::Event;
use std::alloc::Global;
use std::fmt;

/// What happened in a run. A session is named by its number, from 1, a frame by its number in the
/// session, from 1, and an audio unit by its own, from 0.
#[derive(Clone, Copy, Debug, PartialEq, Eq)]
pub enum Output {
    /// The host sent a frame of this kind from a tick. The reference is a frame, or 0 for none.
    Sent {
        session: u32,
        frame: u32,
        kind: u8,
        tick: u32,
        reference: u32,
    },
    /// The client asks for what it lost, the frames from the first to the last.
    Ask {
        session: u32,
        first: u32,
        last: u32,
    },
    /// The client handed over a frame of this kind, whose unit has so many bytes.
    Hand {
        session: u32,
        frame: u32,
        kind: u8,
        length: u32,
    },
    /// The client played an audio unit of so many bytes.
    Play {
        session: u32,
        unit: u32,
        length: u32,
    },
    /// The host was told that its client lost the frames from the first to the last.
    Invalid {
        session: u32,
        first: u32,
        last: u32,
    },
    /// The host was asked for a frame that needs no other.
    Idr {
        session: u32,
    },
    /// The host was told a range of frames that it hadn't sent, and ends the session.
    Ended {
        session: u32,
        first: i64,
        last: i64,
    },
    /// The host was told an input event, on a channel.
    Input {
        session: u32,
        channel: u8,
        event: Event,
    },
    /// An event or an IDR request wasn't sent, since the window of its channel is full.
    Full {
        session: u32,
        channel: u8,
    },
    /// The host read that its client closes.
    Closed {
        session: u32,
    },
    /// A side of the session gave up a message that was never acknowledged.
    Lost {
        session: u32,
    },
    /// The client's decoder lost its state.
    Reset {
        session: u32,
    },
    /// A session's sums at the end: frames sent, frames handed, asks, input events told, audio
    /// units played.
    Total {
        session: u32,
        frames: u64,
        handed: u64,
        asks: u64,
        inputs: u64,
        units: u64,
    },
    /// The run is whole.
    Done,
}

impl fmt::Display for Output {
    ghost use Rattle.std.specs.Prelude.{Some};
    ghost use Rattle.gs_bytes.specs.Words.{line_of};
    ghost use Rattle.gs_schedule.specs.Output.{output_words};

    ghost output = { λ output. Some (line_of (output_words output)) };

    fn fmt<W: fmt::Write>(&self, f: &mut fmt::Formatter<W>) -> fmt::Result {
        match self {
            Output::Sent {
                session,
                frame,
                kind,
                tick,
                reference,
            } => write!(f, "sent {session} {frame} {kind} {tick} {reference}"),
            Output::Ask {
                session,
                first,
                last,
            } => write!(f, "ask {session} {first} {last}"),
            Output::Hand {
                session,
                frame,
                kind,
                length,
            } => write!(f, "hand {session} {frame} {kind} {length}"),
            Output::Play {
                session,
                unit,
                length,
            } => write!(f, "play {session} {unit} {length}"),
            Output::Invalid {
                session,
                first,
                last,
            } => write!(f, "invalid {session} {first} {last}"),
            Output::Idr { session } => write!(f, "idr {session}"),
            Output::Ended {
                session,
                first,
                last,
            } => write!(f, "ended {session} {first} {last}"),
            Output::Input {
                session,
                channel,
                event,
            } => write!(f, "input {session} {channel} {event}"),
            Output::Full { session, channel } => write!(f, "full {session} {channel}"),
            Output::Closed { session } => write!(f, "closed {session}"),
            Output::Lost { session } => write!(f, "lost {session}"),
            Output::Reset { session } => write!(f, "reset {session}"),
            Output::Total {
                session,
                frames,
                handed,
                asks,
                inputs,
                units,
            } => write!(
                f,
                "total {session} {frames} {handed} {asks} {inputs} {units}"
            ),
            Output::Done => write!(f, "ok"),
        }
    }
}

/// The line of what happened, with its newline.
pub fn output_line(alloc: Global, line: &Output) -> Result<Text, OutOfMemory>
    ensures { IfOk result (λ text. text ≡ output_line line.now) }
{
    Ok(Text::from_vec(format!(in alloc; "{line}\n")?.into_bytes()))
}
