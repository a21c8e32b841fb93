//! The parts of a datagram, each written by itself: for a writer that holds no `Datagram`.

ghost use Rattle.std.specs.Prelude.{◌+◌, ◌<◌, ◌≤◌, [], ◌∷◌, true, length};
ghost use Rattle.gs_enet_wire.specs.Grammar.{u16, payload, all_fields, Fit, command_spelling};
ghost use Rattle.gs_enet_wire.specs.Writing.{PutsText, PutsFields};

use crate::Command;
use crate::command::{ASKS, RELIABLE};
use crate::reading::SENT_TIME;
use crate::write_fields::{put_bytes, put_u8, put_u16};
use crate::writing::put_command;

/// Writes the header of a datagram of session 0 with a sent time at the front, and answers its
/// length.
pub fn write_header(out: &mut [u8], peer: u16, sent: u16) -> usize
    requires peer { peer < 4096 }
    requires room { 4 ≤ length out.old }
    ensures { PutsFields (u16 (peer + 32768) ∷ u16 sent ∷ []) 0 result out.old out.new }
{
    let place = put_u16(out, 0, peer + SENT_TIME);
    put_u16(out, place, sent)
}

/// Writes a command from the place on, and answers the place behind it.
pub fn write_command(out: &mut [u8], place: usize, command: &Command) -> usize
    requires short { length (payload command.now) < 65536 }
    requires room { place + length (command_spelling command.now) ≤ length out.old }
    ensures put { PutsText (command_spelling command.now) place result out.old out.new }
    ensures fit { Fit (all_fields command.now) }
{
    put_command(out, place, command)
}

/// Writes a reliable message that asks for an acknowledgement from the place on, and answers the
/// place behind it.
pub fn write_reliable(out: &mut [u8], place: usize, channel: u8, number: u16, bytes: &[u8]) -> usize
    requires short { length bytes.now < 65536 }
    requires room { place + 6 + length bytes.now ≤ length out.old }
    ensures put { PutsText
        (command_spelling (Command.Reliable channel number true bytes.now)) place result out.old out.new }
    ensures fit { Fit (all_fields (Command.Reliable channel number true bytes.now)) }
{
    let place = put_u8(out, place, RELIABLE | ASKS);
    let place = put_u8(out, place, channel);
    let place = put_u16(out, place, number);
    let place = put_u16(out, place, bytes.len() as u16);
    put_bytes(out, place, bytes)
}
