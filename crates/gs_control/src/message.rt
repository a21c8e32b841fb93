//! Control messages.

ghost use Rattle.std.specs.Prelude.{◌≡◌, ◌≤◌, ◌++◌, ◌↔◌, IfErr, IfOk, Ok, drop, length};

use crate::limits::MESSAGE_ROOM;
use crate::payload::{put, put_input, range, read_payload};
use gs_bytes::read_u16_le;
use gs_input::Event;
use thiserror::Error;

pub(crate) const START_A: u16 = 0x0305;

pub(crate) const START_B: u16 = 0x0307;

pub(crate) const INVALIDATE: u16 = 0x0301;

pub(crate) const LOSS_STATS: u16 = 0x0201;

pub(crate) const INPUT: u16 = 0x0206;

pub(crate) const RUMBLE: u16 = 0x010B;

pub(crate) const TERMINATION: u16 = 0x0109;

pub(crate) const PING: u16 = 0x0200;

pub(crate) const IDR_REQUEST: u16 = 0x0302;

/// A message of the control stream, in the form without encryption. A client sends the two that
/// start a stream, pings and loss statistics on channel 0, `Invalidate` and `IdrRequest` on
/// channel 1, keys on channel 2 and other input on channel 3.
#[derive(Clone, Copy, Debug, PartialEq, Eq)]
pub enum Message {
    /// The client's first message.
    StartA,
    /// The client's second message.
    StartB,
    /// The client lost the frames from the first to the last, by their numbers from 1.
    Invalidate { first: i64, last: i64 },
    /// Statistics of losses, which aren't looked at.
    LossStats,
    /// What a user did.
    Input(Event),
    /// A gamepad is to rumble, which isn't looked at.
    Rumble,
    /// The host ends the stream: code 1 at the capture's end, 2 after a range of frames that weren't
    /// sent.
    Termination { code: u32 },
    /// The client is still there.
    Ping,
    /// The client asks for a frame that needs no other.
    IdrRequest,
    /// A message of a type that isn't among these.
    Other { kind: u16 },
}

/// The bytes are no message. `kind` is the type that they begin with, or 0 where they are fewer
/// than two, and `length` is how many they are.
#[derive(Clone, Copy, Debug, PartialEq, Eq, Error)]
#[error("no message: type {kind} in {length} bytes")]
pub struct BadMessage {
    pub kind: u16,
    pub length: usize,
}

impl Message {
    ghost use Rattle.gs_control.specs.Message.{HasInputButton, IsMessage, IsWritten, bytes_of, kind_in};

    /// The message that is all of the bytes.
    pub fn read(bytes: &[u8]) -> Result<Message, BadMessage>
        // A message is read exactly where the bytes are one of it.
        ensures message { (message : Message) → (result ≡ Ok message) ↔ IsMessage bytes.now message }
        // Else they are none.
        ensures none { IfErr result (λ _. (message : Message) → IsMessage bytes.now message → ⊥) }
        ensures bad { IfErr result (λ bad. (bad.kind ≡ kind_in bytes.now) × (bad.length ≡ length bytes.now)) }
        ensures button { IfOk result (λ message. HasInputButton message) }
    {
        let length = bytes.len();
        if length < 2 {
            return Err(BadMessage { kind: 0, length });
        }
        let kind = read_u16_le(bytes, 0);
        read_payload(kind, &bytes[2..]).ok_or(BadMessage { kind, length })
    }

    /// Writes the message to the front of `out`, and answers its length.
    pub fn write(&self, out: &mut [u8]) -> usize
        requires written { IsWritten self.now }
        requires button { HasInputButton self.now }
        requires room { MESSAGE_ROOM ≤ length out.old }
        ensures length { result ≡ length (bytes_of self.now) }
        ensures written { out.new ≡ bytes_of self.now ++ drop result out.old }
    {
        match *self {
            Message::StartA => put(out, START_A, &[0; 2]),
            Message::StartB => put(out, START_B, &[0; 1]),
            Message::Invalidate { first, last } => put(out, INVALIDATE, &range(first, last)),
            Message::Input(event) => put_input(out, &event),
            Message::Termination { code } => put(out, TERMINATION, &code.to_be_bytes()),
            Message::Ping => put(out, PING, &[0; 8]),
            Message::IdrRequest => put(out, IDR_REQUEST, &[0; 2]),
            Message::LossStats | Message::Rumble | Message::Other { .. } => unreachable!(),
        }
    }
}
