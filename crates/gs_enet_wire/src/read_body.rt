//! What stands behind a command's head, read by the kind of command.

ghost use Rattle.std.specs.Prelude.{◌≡◌, ◌<◌, ◌++◌, [], ◌∷◌, length, IfOk, OnErr, IsErrOf};
ghost use Rattle.gs_enet_wire.specs.Grammar.{u16, u32, piece_fields, shared_fields};
ghost use Rattle.gs_enet_wire.specs.Reading.{TakesFields, TakesBody, BeginsNoBody};

use crate::command::Head;
use crate::cursor::{Cursor, ReadError};
use crate::{Command, Connect};
use std::alloc::Global;

/// The numbers of a fragment of a message, in the order in which they stand.
#[derive(Clone, Copy)]
pub struct Piece {
    pub start: u16,
    /// The number of bytes of data in this fragment.
    pub length: u16,
    pub count: u32,
    pub fragment: u32,
    pub total: u32,
    pub offset: u32,
}

pub fn acknowledge(head: Head, cursor: &mut Cursor<'_>) -> Result<Command, ReadError>
    ensures taken { IfOk result (λ c. TakesBody 1 head c cursor.old cursor.new) }
    ensures cut { OnErr result (length cursor.old < 4) }
{
    let received = cursor.u16()?;
    let received_sent = cursor.u16()?;
    Ok(Command::Acknowledge {
        channel: head.channel,
        number: head.number,
        asks: head.asks,
        received,
        received_sent,
    })
}

/// What a connect and its answer have in common.
fn connection(head: Head, cursor: &mut Cursor<'_>) -> Result<Connect, ReadError>
    ensures taken { IfOk result (λ c. TakesFields (shared_fields c) cursor.old cursor.new) }
    ensures channel { IfOk result (λ c. c.channel ≡ head.channel) }
    ensures number { IfOk result (λ c. c.number ≡ head.number) }
    ensures asks { IfOk result (λ c. c.asks ≡ head.asks) }
    ensures cut { OnErr result (length cursor.old < 40) }
{
    let peer = cursor.u16()?;
    let incoming = cursor.u8()?;
    let outgoing = cursor.u8()?;
    let mtu = cursor.u32()?;
    let window = cursor.u32()?;
    let channels = cursor.u32()?;
    let incoming_bandwidth = cursor.u32()?;
    let outgoing_bandwidth = cursor.u32()?;
    let throttle_interval = cursor.u32()?;
    let acceleration = cursor.u32()?;
    let deceleration = cursor.u32()?;
    let connect_id = cursor.u32()?;
    Ok(Connect {
        channel: head.channel,
        number: head.number,
        asks: head.asks,
        peer,
        incoming,
        outgoing,
        mtu,
        window,
        channels,
        incoming_bandwidth,
        outgoing_bandwidth,
        throttle_interval,
        acceleration,
        deceleration,
        connect_id,
        extra: 0,
    })
}

pub fn connect(head: Head, cursor: &mut Cursor<'_>) -> Result<Command, ReadError>
    ensures taken { IfOk result (λ c. TakesBody 2 head c cursor.old cursor.new) }
    ensures cut { OnErr result (length cursor.old < 44) }
{
    let shared = connection(head, cursor)?;
    let extra = cursor.u32()?;
    Ok(Command::Connect(Connect { extra, ..shared }))
}

pub fn verify_connect(head: Head, cursor: &mut Cursor<'_>) -> Result<Command, ReadError>
    ensures taken { IfOk result (λ c. TakesBody 3 head c cursor.old cursor.new) }
    ensures cut { OnErr result (length cursor.old < 40) }
{
    let shared = connection(head, cursor)?;
    Ok(Command::VerifyConnect {
        channel: shared.channel,
        number: shared.number,
        asks: shared.asks,
        peer: shared.peer,
        incoming: shared.incoming,
        outgoing: shared.outgoing,
        mtu: shared.mtu,
        window: shared.window,
        channels: shared.channels,
        incoming_bandwidth: shared.incoming_bandwidth,
        outgoing_bandwidth: shared.outgoing_bandwidth,
        throttle_interval: shared.throttle_interval,
        acceleration: shared.acceleration,
        deceleration: shared.deceleration,
        connect_id: shared.connect_id,
    })
}

pub fn disconnect(head: Head, cursor: &mut Cursor<'_>) -> Result<Command, ReadError>
    ensures taken { IfOk result (λ c. TakesBody 4 head c cursor.old cursor.new) }
    ensures cut { OnErr result (length cursor.old < 4) }
{
    let extra = cursor.u32()?;
    Ok(Command::Disconnect {
        channel: head.channel,
        number: head.number,
        asks: head.asks,
        extra,
    })
}

pub fn bandwidth(head: Head, cursor: &mut Cursor<'_>) -> Result<Command, ReadError>
    ensures taken { IfOk result (λ c. TakesBody 10 head c cursor.old cursor.new) }
    ensures cut { OnErr result (length cursor.old < 8) }
{
    let incoming = cursor.u32()?;
    let outgoing = cursor.u32()?;
    Ok(Command::Bandwidth {
        channel: head.channel,
        number: head.number,
        asks: head.asks,
        incoming,
        outgoing,
    })
}

pub fn throttle(head: Head, cursor: &mut Cursor<'_>) -> Result<Command, ReadError>
    ensures taken { IfOk result (λ c. TakesBody 11 head c cursor.old cursor.new) }
    ensures cut { OnErr result (length cursor.old < 12) }
{
    let interval = cursor.u32()?;
    let acceleration = cursor.u32()?;
    let deceleration = cursor.u32()?;
    Ok(Command::Throttle {
        channel: head.channel,
        number: head.number,
        asks: head.asks,
        interval,
        acceleration,
        deceleration,
    })
}

pub fn reliable(alloc: Global, head: Head, cursor: &mut Cursor<'_>) -> Result<Command, ReadError>
    ensures taken { IfOk result (λ c. TakesBody 6 head c cursor.old cursor.new) }
    ensures refused { IsErrOf result ReadError.Malformed → BeginsNoBody 6 cursor.old }
{
    let length = cursor.u16()?;
    let bytes = cursor.text(alloc, length)?;
    Ok(Command::Reliable {
        channel: head.channel,
        number: head.number,
        asks: head.asks,
        bytes,
    })
}

pub fn unreliable(alloc: Global, head: Head, cursor: &mut Cursor<'_>) -> Result<Command, ReadError>
    ensures taken { IfOk result (λ c. TakesBody 7 head c cursor.old cursor.new) }
    ensures refused { IsErrOf result ReadError.Malformed → BeginsNoBody 7 cursor.old }
{
    let unreliable = cursor.u16()?;
    let length = cursor.u16()?;
    let bytes = cursor.text(alloc, length)?;
    Ok(Command::Unreliable {
        channel: head.channel,
        number: head.number,
        asks: head.asks,
        unreliable,
        bytes,
    })
}

pub fn unsequenced(alloc: Global, head: Head, cursor: &mut Cursor<'_>) -> Result<Command, ReadError>
    ensures taken { IfOk result (λ c. TakesBody 9 head c cursor.old cursor.new) }
    ensures refused { IsErrOf result ReadError.Malformed → BeginsNoBody 9 cursor.old }
{
    let group = cursor.u16()?;
    let length = cursor.u16()?;
    let bytes = cursor.text(alloc, length)?;
    Ok(Command::Unsequenced {
        channel: head.channel,
        number: head.number,
        asks: head.asks,
        group,
        bytes,
    })
}

fn piece_of(cursor: &mut Cursor<'_>) -> Result<Piece, ReadError>
    ensures taken { IfOk result (λ p. TakesFields (piece_fields p) cursor.old cursor.new) }
    ensures cut { OnErr result (length cursor.old < 20) }
{
    let start = cursor.u16()?;
    let length = cursor.u16()?;
    let count = cursor.u32()?;
    let fragment = cursor.u32()?;
    let total = cursor.u32()?;
    let offset = cursor.u32()?;
    Ok(Piece {
        start,
        length,
        count,
        fragment,
        total,
        offset,
    })
}

pub fn fragment(alloc: Global, head: Head, cursor: &mut Cursor<'_>) -> Result<Command, ReadError>
    ensures taken { IfOk result (λ c. TakesBody 8 head c cursor.old cursor.new) }
    ensures refused { IsErrOf result ReadError.Malformed → BeginsNoBody 8 cursor.old }
{
    let piece = piece_of(cursor)?;
    let bytes = cursor.text(alloc, piece.length)?;
    Ok(Command::Fragment {
        channel: head.channel,
        number: head.number,
        asks: head.asks,
        start: piece.start,
        count: piece.count,
        fragment: piece.fragment,
        total: piece.total,
        offset: piece.offset,
        bytes,
    })
}

pub fn unreliable_fragment(
    alloc: Global,
    head: Head,
    cursor: &mut Cursor<'_>,
) -> Result<Command, ReadError>
    ensures taken { IfOk result (λ c. TakesBody 12 head c cursor.old cursor.new) }
    ensures refused { IsErrOf result ReadError.Malformed → BeginsNoBody 12 cursor.old }
{
    let piece = piece_of(cursor)?;
    let bytes = cursor.text(alloc, piece.length)?;
    Ok(Command::UnreliableFragment {
        channel: head.channel,
        number: head.number,
        asks: head.asks,
        start: piece.start,
        count: piece.count,
        fragment: piece.fragment,
        total: piece.total,
        offset: piece.offset,
        bytes,
    })
}
