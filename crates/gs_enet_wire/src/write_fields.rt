//! Fields, written one after the other, and those behind a command's head by the kind of command.

ghost use Rattle.std.specs.Prelude.{◌+◌, ◌≤◌, [], ◌∷◌, length, ◌≡◌, ◌⊎◌, ◌<◌};
ghost use Rattle.gs_enet_wire.specs.Grammar.{u8, u16, u32, kind, fields, fields_bytes, payload, piece_fields};
ghost use Rattle.gs_enet_wire.specs.Grammar.{shared_fields};
ghost use Rattle.gs_enet_wire.specs.Writing.{PutsText, PutsFields};

use crate::read_body::Piece;
use crate::{Command, Connect};
use gs_bytes::{write_u16_be, write_u32_be};

/// Each of these writes from the place on, and answers the place behind what it wrote.
pub fn put_u8(out: &mut [u8], place: usize, number: u8) -> usize
    requires { place + 1 ≤ length out.old }
    ensures { PutsFields (u8 number ∷ []) place result out.old out.new }
{
    out[place] = number;
    place + 1
}

pub fn put_u16(out: &mut [u8], place: usize, number: u16) -> usize
    requires { place + 2 ≤ length out.old }
    ensures { PutsFields (u16 number ∷ []) place result out.old out.new }
{
    write_u16_be(out, place, number);
    place + 2
}

pub fn put_u32(out: &mut [u8], place: usize, number: u32) -> usize
    requires { place + 4 ≤ length out.old }
    ensures { PutsFields (u32 number ∷ []) place result out.old out.new }
{
    write_u32_be(out, place, number);
    place + 4
}

pub fn put_bytes(out: &mut [u8], place: usize, bytes: &[u8]) -> usize
    requires { place + length bytes.now ≤ length out.old }
    ensures { PutsText bytes.now place result out.old out.new }
{
    let end = place + bytes.len();
    out[place..end].copy_from_slice(bytes);
    end
}

fn put_pair(out: &mut [u8], place: usize, first: u16, second: u16) -> usize
    requires { place + 4 ≤ length out.old }
    ensures { PutsFields (u16 first ∷ u16 second ∷ []) place result out.old out.new }
{
    let place = put_u16(out, place, first);
    put_u16(out, place, second)
}

fn put_rates(out: &mut [u8], place: usize, first: u32, second: u32) -> usize
    requires { place + 8 ≤ length out.old }
    ensures { PutsFields (u32 first ∷ u32 second ∷ []) place result out.old out.new }
{
    let place = put_u32(out, place, first);
    put_u32(out, place, second)
}

/// What a connect and its answer have in common.
fn put_shared(out: &mut [u8], place: usize, c: &Connect) -> usize
    requires { place + 40 ≤ length out.old }
    ensures { PutsFields (shared_fields c.now) place result out.old out.new }
{
    let place = put_u16(out, place, c.peer);
    let place = put_u8(out, place, c.incoming);
    let place = put_u8(out, place, c.outgoing);
    let place = put_u32(out, place, c.mtu);
    let place = put_u32(out, place, c.window);
    let place = put_u32(out, place, c.channels);
    let place = put_u32(out, place, c.incoming_bandwidth);
    let place = put_u32(out, place, c.outgoing_bandwidth);
    let place = put_u32(out, place, c.throttle_interval);
    let place = put_u32(out, place, c.acceleration);
    let place = put_u32(out, place, c.deceleration);
    put_u32(out, place, c.connect_id)
}

fn put_piece(out: &mut [u8], place: usize, piece: &Piece) -> usize
    requires { place + 20 ≤ length out.old }
    ensures { PutsFields (piece_fields piece.now) place result out.old out.new }
{
    let place = put_pair(out, place, piece.start, piece.length);
    let place = put_rates(out, place, piece.count, piece.fragment);
    put_rates(out, place, piece.total, piece.offset)
}

fn put_connect(out: &mut [u8], place: usize, c: &Connect) -> usize
    requires { place + 44 ≤ length out.old }
    ensures { PutsFields (fields (Command.Connect c.now)) place result out.old out.new }
{
    let place = put_shared(out, place, c);
    put_u32(out, place, c.extra)
}

/// The connect that has the same fields as its answer.
fn as_connect(command: &Command) -> Connect
    requires { kind command.now ≡ 3 }
    ensures { shared_fields result ≡ fields command.now }
{
    let Command::VerifyConnect {
        peer,
        incoming,
        outgoing,
        mtu,
        window,
        channels,
        incoming_bandwidth,
        outgoing_bandwidth,
        throttle_interval,
        acceleration,
        deceleration,
        connect_id,
        ..
    } = command
    else {
        unreachable!()
    };
    Connect {
        channel: command.channel(),
        number: command.number(),
        asks: command.asks(),
        peer: *peer,
        incoming: *incoming,
        outgoing: *outgoing,
        mtu: *mtu,
        window: *window,
        channels: *channels,
        incoming_bandwidth: *incoming_bandwidth,
        outgoing_bandwidth: *outgoing_bandwidth,
        throttle_interval: *throttle_interval,
        acceleration: *acceleration,
        deceleration: *deceleration,
        connect_id: *connect_id,
        extra: 0,
    }
}

fn put_verify_connect(out: &mut [u8], place: usize, command: &Command) -> usize
    requires kind { kind command.now ≡ 3 }
    requires room { place + 40 ≤ length out.old }
    ensures { PutsFields (fields command.now) place result out.old out.new }
{
    put_shared(out, place, &as_connect(command))
}

fn put_fragment(out: &mut [u8], place: usize, command: &Command) -> usize
    requires kind { (kind command.now ≡ 8) ⊎ (kind command.now ≡ 12) }
    requires short { length (payload command.now) < 65536 }
    requires room { place + 20 ≤ length out.old }
    ensures { PutsFields (fields command.now) place result out.old out.new }
{
    match command {
        Command::Fragment {
            start,
            count,
            fragment,
            total,
            offset,
            bytes,
            ..
        }
        | Command::UnreliableFragment {
            start,
            count,
            fragment,
            total,
            offset,
            bytes,
            ..
        } => {
            let piece = Piece {
                start: *start,
                length: bytes.len() as u16,
                count: *count,
                fragment: *fragment,
                total: *total,
                offset: *offset,
            };
            put_piece(out, place, &piece)
        }
        _ => unreachable!(),
    }
}

fn put_throttle(out: &mut [u8], place: usize, interval: u32, up: u32, down: u32) -> usize
    requires { place + 12 ≤ length out.old }
    ensures { PutsFields (u32 interval ∷ u32 up ∷ u32 down ∷ []) place result out.old out.new }
{
    let place = put_u32(out, place, interval);
    put_rates(out, place, up, down)
}

/// The fields behind the head.
pub fn put_fields(out: &mut [u8], place: usize, command: &Command) -> usize
    requires short { length (payload command.now) < 65536 }
    requires room { place + length (fields_bytes (fields command.now)) ≤ length out.old }
    ensures { PutsFields (fields command.now) place result out.old out.new }
{
    match command {
        Command::Acknowledge {
            received,
            received_sent,
            ..
        } => put_pair(out, place, *received, *received_sent),
        Command::Connect(c) => put_connect(out, place, c),
        Command::VerifyConnect { .. } => put_verify_connect(out, place, command),
        Command::Disconnect { extra, .. } => put_u32(out, place, *extra),
        Command::Ping { .. } => place,
        Command::Reliable { bytes, .. } => put_u16(out, place, bytes.len() as u16),
        Command::Unreliable {
            unreliable,
            bytes,
            ..
        } => put_pair(out, place, *unreliable, bytes.len() as u16),
        Command::Fragment { .. } | Command::UnreliableFragment { .. } => {
            put_fragment(out, place, command)
        }
        Command::Unsequenced { group, bytes, .. } => {
            put_pair(out, place, *group, bytes.len() as u16)
        }
        Command::Bandwidth {
            incoming,
            outgoing,
            ..
        } => put_rates(out, place, *incoming, *outgoing),
        Command::Throttle {
            interval,
            acceleration,
            deceleration,
            ..
        } => put_throttle(out, place, *interval, *acceleration, *deceleration),
    }
}
