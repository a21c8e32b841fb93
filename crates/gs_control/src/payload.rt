//! The payloads of control messages.

ghost use Rattle.std.specs.Prelude.{◌≡◌, ◌≤◌, ◌+◌, ◌++◌, ◌↔◌, IfSome, Some, drop, if◌then◌else◌, length, nat_le};
ghost use Rattle.gs_bytes.specs.Field.{little_bytes};
ghost use Rattle.gs_input.specs.declared.event.Event.{Event};
ghost use Rattle.gs_input.specs.Event.{HasButton, IsKnown};
ghost use Rattle.gs_control.specs.declared.message.Message.{Message};
ghost use Rattle.gs_control.specs.Message.{HasInputButton, IsPayload, bytes_of, message_kind, most_unread};
ghost use Rattle.gs_control.specs.Message.{message_payload};

use crate::limits::{MESSAGE_ROOM, MOST_UNREAD};
use crate::message::{
    IDR_REQUEST, INPUT, INVALIDATE, LOSS_STATS, Message, PING, RUMBLE, START_A, START_B,
    TERMINATION,
};
use gs_bytes::{read_i64_le, read_u32_be, write_i64_le, write_u16_le};
use gs_input::{EVENT_ROOM, Event};

const PAYLOAD_AT: usize = 2;

const RANGE_LEN: usize = 24;

const CODE_LEN: usize = 4;

/// A message whose payload isn't looked at.
fn unread(payload: &[u8], message: Message) -> Option<Message>
    ensures { result ≡ (if nat_le (length payload.now) most_unread then Some message else None) }
{
    (payload.len() <= MOST_UNREAD).then_some(message)
}

fn read_range(payload: &[u8]) -> Option<Message>
    ensures message { (message : Message) → (result ≡ Some message)
        ↔ ((message_kind message ≡ 0x0301) × IsPayload payload.now message) }
    ensures button { IfSome result (λ message. HasInputButton message) }
{
    if payload.len() != RANGE_LEN {
        return None;
    }
    Some(Message::Invalidate {
        first: read_i64_le(payload, 0),
        last: read_i64_le(payload, 8),
    })
}

fn read_termination(payload: &[u8]) -> Option<Message>
    ensures message { (message : Message) → (result ≡ Some message)
        ↔ ((message_kind message ≡ 0x0109) × IsPayload payload.now message) }
    ensures button { IfSome result (λ message. HasInputButton message) }
{
    if payload.len() != CODE_LEN {
        return None;
    }
    Some(Message::Termination {
        code: read_u32_be(payload, 0),
    })
}

fn read_input(payload: &[u8]) -> Option<Message>
    ensures message { (message : Message) → (result ≡ Some message)
        ↔ ((message_kind message ≡ 0x0206) × IsPayload payload.now message) }
    ensures button { IfSome result (λ message. HasInputButton message) }
{
    let event = Event::read(payload).ok()?;
    Some(Message::Input(event))
}

/// The message of a type and a payload.
pub fn read_payload(kind: u16, payload: &[u8]) -> Option<Message>
    ensures message { (message : Message) → (result ≡ Some message)
        ↔ ((kind ≡ message_kind message) × IsPayload payload.now message) }
    ensures button { IfSome result (λ message. HasInputButton message) }
{
    match kind {
        START_A => unread(payload, Message::StartA),
        START_B => unread(payload, Message::StartB),
        INVALIDATE => read_range(payload),
        LOSS_STATS => unread(payload, Message::LossStats),
        INPUT => read_input(payload),
        RUMBLE => unread(payload, Message::Rumble),
        TERMINATION => read_termination(payload),
        PING => unread(payload, Message::Ping),
        IDR_REQUEST => unread(payload, Message::IdrRequest),
        _ => Some(Message::Other { kind }),
    }
}

/// The payload of lost frames.
pub fn range(first: i64, last: i64) -> [u8; RANGE_LEN]
    ensures { result ≡ message_payload (Message.Invalidate first last) }
{
    let mut payload = [0; RANGE_LEN];
    write_i64_le(&mut payload, 0, first);
    write_i64_le(&mut payload, 8, last);
    payload
}

/// Writes a type and a payload to the front of `out`, and answers how many bytes they are.
pub fn put(out: &mut [u8], kind: u16, payload: &[u8]) -> usize
    requires payload { PAYLOAD_AT + length payload.now ≤ MESSAGE_ROOM }
    requires room { MESSAGE_ROOM ≤ length out.old }
    ensures length { result ≡ length (little_bytes 2 kind ++ payload.now) }
    ensures written { out.new ≡ (little_bytes 2 kind ++ payload.now) ++ drop result out.old }
{
    let end = PAYLOAD_AT + payload.len();
    write_u16_le(out, 0, kind);
    out[PAYLOAD_AT..end].copy_from_slice(payload);
    end
}

/// Writes the message of an event.
pub fn put_input(out: &mut [u8], event: &Event) -> usize
    requires known { IsKnown event.now }
    requires button { HasButton event.now }
    requires room { MESSAGE_ROOM ≤ length out.old }
    ensures length { result ≡ length (bytes_of (Message.Input event.now)) }
    ensures written { out.new ≡ bytes_of (Message.Input event.now) ++ drop result out.old }
{
    let mut packet = [0; EVENT_ROOM];
    let length = event.write(&mut packet);
    put(out, INPUT, &packet[..length])
}
