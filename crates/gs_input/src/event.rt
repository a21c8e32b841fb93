//! Input events, and their packets.

ghost use Rattle.std.specs.Prelude.{◌≡◌, ◌≤◌, ◌++◌, ◌↔◌, IfOk, MatchResult, None, Ok, Some, drop, length};

use crate::limits::EVENT_ROOM;
use crate::packet::{
    AT, KEY_DOWN, KEY_UP, MAGIC_AT, MOVE, PRESS, RELEASE, SCROLL, SIZE_AT, has_length, has_size,
    key_body, pair_body, put, read_body, scroll_body, square_body,
};
use gs_bytes::read_u32_le;
use thiserror::Error;

/// What a user did at the client.
///
/// A `code` is a key's code as GameStream's clients send it: a Windows virtual-key code (`VK_`, one
/// byte) with bit 0x8000 set, so it is below 0 here, as -32,703 (0x8041) for the key A. It is
/// carried as it is; a host takes its low byte.
///
/// `modifiers` are the keys held with it, one bit each: 0x01 Shift (`MODIFIER_SHIFT`), 0x02 Ctrl
/// (`MODIFIER_CTRL`), 0x04 Alt (`MODIFIER_ALT`), 0x08 the Windows key (`MODIFIER_META`).
///
/// Buttons are 1 left, 2 middle, 3 right, 4 and 5 those on the side (`BUTTON_X1`, `BUTTON_X2`).
/// Places and ways of the pointer are in pixels, to the right and down.
#[derive(Clone, Copy, Debug, PartialEq, Eq)]
pub enum Event {
    /// A key was pressed.
    KeyDown {
        code: i16,
        modifiers: u8,
    },
    /// A key was let go.
    KeyUp {
        code: i16,
        modifiers: u8,
    },
    /// The pointer moved by so much.
    Move {
        dx: i16,
        dy: i16,
    },
    /// The pointer is at this place of an area of this width and height, in the client's pixels.
    At {
        x: i16,
        y: i16,
        width: i16,
        height: i16,
    },
    /// A button of the pointer, 1 to 5, was pressed.
    Press {
        button: u8,
    },
    /// A button of the pointer, 1 to 5, was let go.
    Release {
        button: u8,
    },
    /// The wheel was turned, in units of which 120 are a notch (`WHEEL_DELTA`), and a finer wheel
    /// sends fewer; above 0 is forward, away from the user.
    Scroll {
        amount: i16,
    },
    /// An event of a kind that isn't among these, with the number of its kind.
    Unknown {
        magic: u32,
    },
}

/// The bytes are no input packet. `place` is 0 for the size, 4 for a body that hasn't the length of
/// its magic, and 8 for a button that isn't 1 to 5.
#[derive(Clone, Copy, Debug, PartialEq, Eq, Error)]
#[error("no input packet: at byte {place}")]
pub struct BadEvent {
    pub place: usize,
}

impl Event {
    ghost use Rattle.gs_input.specs.Event.{HasButton, IsKnown};
    ghost use Rattle.gs_input.specs.Packet.{IsPacket, event_fault, packet_of};

    /// The event of an input packet, which is all of the bytes.
    pub fn read(bytes: &[u8]) -> Result<Event, BadEvent>
        // An event is read exactly where the bytes are a packet of it.
        ensures packet { (event : Event) → (result ≡ Ok event) ↔ IsPacket bytes.now event }
        // Else the place is that of the first fault.
        ensures fault { MatchResult result (λ _. event_fault bytes.now ≡ None) (λ bad.
            event_fault bytes.now ≡ Some bad.place) }
        ensures button { IfOk result (λ event. HasButton event) }
    {
        if !has_size(bytes) {
            return Err(BadEvent { place: SIZE_AT });
        }
        let magic = read_u32_le(bytes, MAGIC_AT);
        if !has_length(magic, bytes) {
            return Err(BadEvent { place: MAGIC_AT });
        }
        read_body(magic, bytes)
    }

    /// Writes the input packet of the event to the front of `out`, and answers its length.
    pub fn write(&self, out: &mut [u8]) -> usize
        requires known { IsKnown self.now }
        requires button { HasButton self.now }
        requires room { EVENT_ROOM ≤ length out.old }
        ensures length { result ≡ length (packet_of self.now) }
        ensures bound { result ≤ EVENT_ROOM }
        ensures written { out.new ≡ packet_of self.now ++ drop result out.old }
    {
        match *self {
            Event::KeyDown { code, modifiers } => put(out, KEY_DOWN, &key_body(code, modifiers)),
            Event::KeyUp { code, modifiers } => put(out, KEY_UP, &key_body(code, modifiers)),
            Event::At {
                x,
                y,
                width,
                height,
            } => put(out, AT, &square_body(x, y, width, height)),
            Event::Move { dx, dy } => put(out, MOVE, &pair_body(dx, dy)),
            Event::Press { button } => put(out, PRESS, &[button]),
            Event::Release { button } => put(out, RELEASE, &[button]),
            Event::Scroll { amount } => put(out, SCROLL, &scroll_body(amount)),
            Event::Unknown { .. } => unreachable!(),
        }
    }
}
