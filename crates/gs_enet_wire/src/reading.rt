//! A datagram, read from all of the bytes: its header, and command after command.

ghost use Rattle.std.specs.Prelude.{◌≡◌, ◌+◌, ◌*◌, ◌/◌, ◌<◌, ◌≤◌, [], length, IfOk, IfErr, OnOk, OnErr, IsErrOf, ◌⊎◌};
ghost use Rattle.std.specs.Prelude.{ℕ, Ok, Err};
ghost use Rattle.gs_enet_wire.specs.Grammar.{IsFault, most_on_link, with_header, BeginsNoCommand, SpellsDatagram};
ghost use Rattle.gs_enet_wire.specs.Grammar.{IsFaultAt};
ghost use Rattle.gs_enet_wire.specs.Grammar.{AreCommands, spelling};
ghost use Rattle.gs_enet_wire.specs.ReadingHeader.{TakesTime, TakesHeader, StopsWith};
ghost use Rattle.gs_enet_wire.specs.Reading.{TakesHead, TakesBody, BeginsNoBody, TakesCommand};
ghost use Rattle.gs_enet_wire.specs.declared.datagram.Datagram.{Datagram};

use crate::command::{
    ACKNOWLEDGE, ASKS, BANDWIDTH, CONNECT, DISCONNECT, FRAGMENT, Head, KIND, PING, RELIABLE,
    THROTTLE, UNRELIABLE, UNRELIABLE_FRAGMENT, UNSEQUENCED, VERIFY_CONNECT,
};
use crate::cursor::{Cursor, ReadError};
use crate::{Command, Commands, Datagram, WireError, read_body};
use gs_bytes::MOST_ON_LINK;
use std::alloc::{AllocFailed, Global};

/// The bits of the first two bytes that hold the peer id.
pub const PEER: u16 = 0x0FFF;
/// The session stands above the peer id, in two bits.
pub const SESSION_SHIFT: u32 = 12;

pub const SESSION: u16 = 3;
/// The bit that says that the commands are compressed.
pub const COMPRESSED: u16 = 0x4000;
/// The bit that says that a sent time follows.
pub const SENT_TIME: u16 = 0x8000;
/// Where the sent time stands.
const TIME_PLACE: usize = 2;

/// What stands before the commands of a datagram, which has the same fields.
#[derive(Clone, Copy, Debug, PartialEq, Eq)]
pub struct DatagramHeader {
    /// The receiver's id of the connection (`peerID`), below 4,096.
    pub peer: u16,
    /// The session (`sessionID`), below 4.
    pub session: u8,
    /// The sent time (`sentTime`) in milliseconds modulo 65,536, where the header has it.
    pub sent: Option<u16>,
}

/// The sent time, where the header's first two bytes say that there is one.
fn sent_time(word: u16, cursor: &mut Cursor<'_>) -> Result<Option<u16>, ReadError>
    ensures taken { IfOk result (λ sent. TakesTime word sent cursor.old cursor.new) }
    ensures cut { OnErr result (length cursor.old < 2) }
    ensures timed { OnErr result (32768 ≤ word) }
{
    if word & SENT_TIME == 0 {
        return Ok(None);
    }
    let time = cursor.u16()?;
    Ok(Some(time))
}

pub fn read_header(cursor: &mut Cursor<'_>) -> Result<DatagramHeader, WireError>
    ensures taken { IfOk result (λ h. TakesHeader h cursor.old cursor.new) }
    ensures fault { length cursor.old ≤ most_on_link → IfErr result (IsFault cursor.old) }
{
    let Ok(word) = cursor.u16() else {
        return Err(WireError::BadDatagram(0));
    };
    if word & COMPRESSED != 0 {
        return Err(WireError::BadDatagram(0));
    }
    let Ok(sent) = sent_time(word, cursor) else {
        return Err(WireError::BadDatagram(TIME_PLACE));
    };
    Ok(DatagramHeader {
        peer: word & PEER,
        session: ((word >> SESSION_SHIFT) & SESSION) as u8,
        sent,
    })
}

/// What stands behind the head of a command of that kind.
fn body(alloc: Global, kind: u8, head: Head, cursor: &mut Cursor<'_>) -> Result<Command, ReadError>
    ensures taken { IfOk result (λ c. TakesBody kind head c cursor.old cursor.new) }
    ensures refused { IsErrOf result ReadError.Malformed → BeginsNoBody kind cursor.old }
{
    match kind {
        ACKNOWLEDGE => read_body::acknowledge(head, cursor),
        CONNECT => read_body::connect(head, cursor),
        VERIFY_CONNECT => read_body::verify_connect(head, cursor),
        DISCONNECT => read_body::disconnect(head, cursor),
        PING => Ok(Command::Ping {
            channel: head.channel,
            number: head.number,
            asks: head.asks,
        }),
        RELIABLE => read_body::reliable(alloc, head, cursor),
        UNRELIABLE => read_body::unreliable(alloc, head, cursor),
        FRAGMENT => read_body::fragment(alloc, head, cursor),
        UNSEQUENCED => read_body::unsequenced(alloc, head, cursor),
        BANDWIDTH => read_body::bandwidth(head, cursor),
        THROTTLE => read_body::throttle(head, cursor),
        UNRELIABLE_FRAGMENT => read_body::unreliable_fragment(alloc, head, cursor),
        _ => Err(ReadError::Malformed),
    }
}

/// A command's kind and head.
#[derive(Clone, Copy)]
struct Start {
    kind: u8,
    head: Head,
}

fn start_of(cursor: &mut Cursor<'_>) -> Result<Start, ReadError>
    ensures taken { IfOk result (λ s. TakesHead s.kind s.head cursor.old cursor.new) }
    ensures cut { OnErr result (length cursor.old < 4) }
{
    let first = cursor.u8()?;
    let channel = cursor.u8()?;
    let number = cursor.u16()?;
    let asks = first & ASKS != 0;
    let head = Head {
        channel,
        number,
        asks,
    };
    Ok(Start {
        kind: first & KIND,
        head,
    })
}

/// The command at the front, in a datagram that has a sent time or has none.
pub fn read_command(
    alloc: Global,
    timed: bool,
    cursor: &mut Cursor<'_>,
) -> Result<Command, ReadError>
    ensures taken { IfOk result (λ c. TakesCommand timed c cursor.old cursor.new) }
    ensures shorter { OnOk result (length cursor.new < length cursor.old) }
    ensures refused { IsErrOf result ReadError.Malformed → BeginsNoCommand timed cursor.old }
{
    let start = start_of(cursor)?;
    if start.head.asks && !timed {
        return Err(ReadError::Malformed);
    }
    body(alloc, start.kind, start.head, cursor)
}

/// Reads the commands that stand behind a header of `start` bytes, up to the end, into the vector.
fn read_commands(
    timed: bool,
    start: usize,
    cursor: &mut Cursor<'_>,
    commands: &mut Vec<Command>,
) -> Result<(), WireError>
    requires short { start + length cursor.old ≤ most_on_link }
    requires none { commands.old.items ≡ [] }
    ensures read { OnOk result (AreCommands timed cursor.old commands.new.items) }
    ensures fault { IfErr result (StopsWith timed start cursor.old) }
{
    let alloc = *commands.allocator();
    let whole = cursor.len();
    'commands: while cursor.len() > 0 {
        let place = start + (whole - cursor.len());
        match read_command(alloc, timed, cursor) {
            Ok(command) => commands.push(command)?,
            Err(ReadError::Malformed) => return Err(WireError::BadDatagram(place)),
            Err(ReadError::OutOfMemory) => return Err(WireError::OutOfMemory),
        }
    }
    Ok(())
}

/// The one datagram that the bytes spell, all of the bytes. Bits that the protocol reserves are
/// ignored.
///
/// `BadDatagram` tells where the bytes stop being a datagram: 4,096 where there are more bytes than
/// that; 0 where the header is cut or says that the commands are compressed; 2 where the sent time
/// is cut; the number of bytes where there is no command; else the place of the first command that
/// is unknown, is cut, or asks for an acknowledgement in a datagram without a sent time.
pub fn read(alloc: Global, bytes: &[u8]) -> Result<Datagram, WireError>
    // What is read is spelled so.
    ensures found { IfOk result (λ datagram. SpellsDatagram bytes.now datagram) }
    // What is spelled so is read, unless memory runs out.
    ensures found_only { (datagram : Datagram) → SpellsDatagram bytes.now datagram
        → (result ≡ Ok datagram) ⊎ (result ≡ Err WireError.OutOfMemory) }
    // Written again it takes as many bytes.
    ensures size { IfOk result (λ datagram. length (spelling datagram) ≡ length bytes.now) }

    // A place that is named is that of the first fault.
    ensures fault { IfErr result (IsFault bytes.now) }
    // The place of a fault is named, unless memory runs out.
    ensures fault_only { (place : ℕ) → IsFaultAt bytes.now place
        → (result ≡ Err (WireError.BadDatagram place)) ⊎ (result ≡ Err WireError.OutOfMemory) }
{
    whole(alloc, bytes)
}

fn whole(alloc: Global, bytes: &[u8]) -> Result<Datagram, WireError>
    ensures found { IfOk result (λ datagram. SpellsDatagram bytes.now datagram) }
    ensures fault { IfErr result (IsFault bytes.now) }
{
    let mut commands = Vec::new(alloc);
    let header = read_parts(bytes, &mut commands)?;
    Ok(Datagram {
        peer: header.peer,
        session: header.session,
        sent: header.sent,
        commands: Commands::from_vec(commands),
    })
}

/// Reads as `read` does, for a reader that keeps a vector from one datagram to the next: answers the
/// datagram's header, and leaves its commands in the vector in place of what stood there.
pub fn read_into(bytes: &[u8], commands: &mut Vec<Command>) -> Result<DatagramHeader, WireError>
    ensures found { IfOk result (λ header. SpellsDatagram bytes.now (with_header header commands.new.items)) }
    ensures fault { IfErr result (IsFault bytes.now) }
    ensures fault_only { (place : ℕ) → IsFaultAt bytes.now place
        → (result ≡ Err (WireError.BadDatagram place)) ⊎ (result ≡ Err WireError.OutOfMemory) }
{
    commands.clear();
    read_parts(bytes, commands)
}

fn read_parts(bytes: &[u8], commands: &mut Vec<Command>) -> Result<DatagramHeader, WireError>
    requires none { commands.old.items ≡ [] }
    ensures found { IfOk result (λ header. SpellsDatagram bytes.now (with_header header commands.new.items)) }
    ensures fault { IfErr result (IsFault bytes.now) }
{
    if bytes.len() > MOST_ON_LINK {
        return Err(WireError::BadDatagram(MOST_ON_LINK));
    }
    let mut cursor = Cursor::new(bytes);
    let header = read_header(&mut cursor)?;
    if cursor.len() == 0 {
        return Err(WireError::BadDatagram(bytes.len()));
    }
    let start = bytes.len() - cursor.len();
    read_commands(header.sent.is_some(), start, &mut cursor, commands)?;
    Ok(header)
}
