//! The parts of an input packet.
//!
//! | Place | Field |
//! |---|---|
//! | 0 | the number of bytes after these four, u32 big-endian |
//! | 4 | magic, u32 little-endian |
//! | 8 | body |

ghost use Rattle.std.specs.Prelude.{◌≡◌, ◌≤◌, ◌+◌, ◌++◌, IfOk, IfErr, IsTrue, drop, length, slice_index};
ghost use Rattle.std.specs.Int.{cast_signed, w16};
ghost use Rattle.gs_bytes.specs.Field.{big_from, little_from};
ghost use Rattle.gs_input.specs.Packet.{IsBody, StandFrom, all_written, event_length, fields_of, has_bad_button};
ghost use Rattle.gs_input.specs.Packet.{has_length, has_size, key_fields, magic_in, magic_of, packet_around};

use crate::event::{BadEvent, Event};
use crate::limits::EVENT_ROOM;
use gs_bytes::{read_u16_be, read_u16_le, read_u32_be, write_u32_be, write_u32_le};

pub const SIZE_AT: usize = 0;

pub const MAGIC_AT: usize = 4;

const BODY_AT: usize = 8;

pub const KEY_DOWN: u32 = 3;

pub const KEY_UP: u32 = 4;

pub const AT: u32 = 5;

pub const MOVE: u32 = 7;

pub const PRESS: u32 = 8;

pub const RELEASE: u32 = 9;

pub const SCROLL: u32 = 10;

const KEY_LEN: usize = 6;

const AT_LEN: usize = 10;

const MOVE_LEN: usize = 4;

const BUTTON_LEN: usize = 1;

const SCROLL_LEN: usize = 6;

/// Whether the size is that of the bytes behind it, a magic among them.
pub fn has_size(bytes: &[u8]) -> bool
    ensures { result ≡ has_size bytes.now }
{
    bytes.len() >= BODY_AT && read_u32_be(bytes, SIZE_AT) as usize == bytes.len() - MAGIC_AT
}

/// How many bytes the body of a known magic has.
fn body_length(magic: u32) -> Option<usize>
    ensures { result ≡ event_length magic }
{
    match magic {
        KEY_DOWN | KEY_UP => Some(KEY_LEN),
        AT => Some(AT_LEN),
        MOVE => Some(MOVE_LEN),
        PRESS | RELEASE => Some(BUTTON_LEN),
        SCROLL => Some(SCROLL_LEN),
        _ => None,
    }
}

/// Whether the body has the length of its magic.
pub fn has_length(magic: u32, bytes: &[u8]) -> bool
    requires { 8 ≤ length bytes.now }
    ensures { result ≡ has_length (event_length magic) bytes.now }
{
    match body_length(magic) {
        Some(body) => bytes.len() - BODY_AT == body,
        None => true,
    }
}

fn read_i16_be(bytes: &[u8], place: usize) -> i16
    requires { place + 2 ≤ length bytes.now }
    ensures { result ≡ cast_signed w16 (big_from place 2 bytes.now) }
{
    read_u16_be(bytes, place).cast_signed()
}

fn read_i16_le(bytes: &[u8], place: usize) -> i16
    requires { place + 2 ≤ length bytes.now }
    ensures { result ≡ cast_signed w16 (little_from place 2 bytes.now) }
{
    read_u16_le(bytes, place).cast_signed()
}

/// The code and the modifiers of a key.
fn read_key(bytes: &[u8]) -> (i16, u8)
    requires { length bytes.now ≡ 14 }
    ensures { StandFrom 8 bytes.now (key_fields result.0 result.1) }
{
    (read_i16_le(bytes, BODY_AT + 1), bytes[BODY_AT + 3])
}

fn read_button(bytes: &[u8]) -> Result<u8, BadEvent>
    requires { length bytes.now ≡ 9 }
    ensures ok { IfOk result (λ button. (button ≡ slice_index bytes.now 8) × (1 ≤ button) × (button ≤ 5)) }
    ensures err { IfErr result (λ bad. (bad.place ≡ 8)
        × ((1 ≤ slice_index bytes.now 8) → (slice_index bytes.now 8 ≤ 5) → ⊥)) }
{
    match bytes[BODY_AT] {
        button @ 1..=5 => Ok(button),
        _ => Err(BadEvent { place: BODY_AT }),
    }
}

/// The event of a packet whose body has the length of its magic.
pub fn read_body(magic: u32, bytes: &[u8]) -> Result<Event, BadEvent>
    requires size { 8 ≤ length bytes.now }
    requires magic { magic ≡ magic_in bytes.now }
    requires body { IsTrue (has_length (event_length magic) bytes.now) }
    ensures ok { IfOk result (λ event. (magic ≡ magic_of event) × IsBody bytes.now event) }
    ensures err { IfErr result (λ bad. (bad.place ≡ 8) × IsTrue (has_bad_button bytes.now)) }
{
    match magic {
        KEY_DOWN => {
            let (code, modifiers) = read_key(bytes);
            Ok(Event::KeyDown { code, modifiers })
        }
        KEY_UP => {
            let (code, modifiers) = read_key(bytes);
            Ok(Event::KeyUp { code, modifiers })
        }
        AT => Ok(Event::At {
            x: read_i16_be(bytes, BODY_AT),
            y: read_i16_be(bytes, BODY_AT + 2),
            width: read_i16_be(bytes, BODY_AT + 6),
            height: read_i16_be(bytes, BODY_AT + 8),
        }),
        MOVE => Ok(Event::Move {
            dx: read_i16_be(bytes, BODY_AT),
            dy: read_i16_be(bytes, BODY_AT + 2),
        }),
        PRESS => Ok(Event::Press {
            button: read_button(bytes)?,
        }),
        RELEASE => Ok(Event::Release {
            button: read_button(bytes)?,
        }),
        SCROLL => Ok(Event::Scroll {
            amount: read_i16_be(bytes, BODY_AT),
        }),
        _ => Ok(Event::Unknown { magic }),
    }
}

/// Writes the packet around a body to the front of `out`, and answers its length.
pub fn put(out: &mut [u8], magic: u32, body: &[u8]) -> usize
    requires body { BODY_AT + length body.now ≤ EVENT_ROOM }
    requires room { EVENT_ROOM ≤ length out.old }
    ensures length { result ≡ length (packet_around magic body.now) }
    ensures bound { result ≤ EVENT_ROOM }
    ensures written { out.new ≡ packet_around magic body.now ++ drop result out.old }
{
    let end = BODY_AT + body.len();
    write_u32_be(out, SIZE_AT, (end - MAGIC_AT) as u32);
    write_u32_le(out, MAGIC_AT, magic);
    out[BODY_AT..end].copy_from_slice(body);
    end
}

pub fn key_body(code: i16, modifiers: u8) -> [u8; KEY_LEN]
    ensures { result ≡ all_written (key_fields code modifiers) }
{
    let code = code.to_le_bytes();
    [0, code[0], code[1], modifiers, 0, 0]
}

pub fn pair_body(dx: i16, dy: i16) -> [u8; MOVE_LEN]
    ensures { result ≡ all_written (fields_of (Event.Move dx dy)) }
{
    let (dx, dy) = (dx.to_be_bytes(), dy.to_be_bytes());
    [dx[0], dx[1], dy[0], dy[1]]
}

pub fn square_body(x: i16, y: i16, width: i16, height: i16) -> [u8; AT_LEN]
    ensures { result ≡ all_written (fields_of (Event.At x y width height)) }
{
    let (x, y) = (x.to_be_bytes(), y.to_be_bytes());
    let (width, height) = (width.to_be_bytes(), height.to_be_bytes());
    [
        x[0], x[1], y[0], y[1], 0, 0, width[0], width[1], height[0], height[1],
    ]
}

pub fn scroll_body(amount: i16) -> [u8; SCROLL_LEN]
    ensures { result ≡ all_written (fields_of (Event.Scroll amount)) }
{
    let amount = amount.to_be_bytes();
    [amount[0], amount[1], amount[0], amount[1], 0, 0]
}
