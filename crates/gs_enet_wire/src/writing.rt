//! A datagram, written as bytes.

ghost use Rattle.std.specs.Prelude.{◌≡◌, ◌≢◌, ◌+◌, ◌*◌, ◌<◌, ◌≤◌, [], ◌++◌, true, length, drop, IsSome};
ghost use Rattle.std.specs.List.{flat_map};
ghost use Rattle.gs_enet_wire.specs.Grammar.{
  kind,
  command_head,
  asking,
  all_fields,
  payload,
  Fit,
  header,
  most_on_link,
  command_spelling,
  spelling,
  AreCommands,
  SpellsDatagram,
};
ghost use Rattle.gs_enet_wire.specs.Writing.{PutsText, PutsFields};

use crate::command::ASKS;
use crate::reading::SENT_TIME;
use crate::write_fields::{put_bytes, put_fields, put_u8, put_u16};
use crate::{Command, Datagram};

fn first_byte(command: &Command) -> u8
    ensures { result ≡ kind command.now + 128 * asking (command_head command.now).asks }
{
    if command.asks() {
        command.kind() | ASKS
    } else {
        command.kind()
    }
}

pub fn put_command(out: &mut [u8], place: usize, command: &Command) -> usize
    requires short { length (payload command.now) < 65536 }
    requires room { place + length (command_spelling command.now) ≤ length out.old }
    ensures put { PutsText (command_spelling command.now) place result out.old out.new }
    ensures fit { Fit (all_fields command.now) }
{
    let place = put_u8(out, place, first_byte(command));
    let place = put_u8(out, place, command.channel());
    let place = put_u16(out, place, command.number());
    let place = put_fields(out, place, command);
    put_bytes(out, place, command.payload())
}

fn put_commands(out: &mut [u8], place: usize, commands: &[Command]) -> usize
    requires short { length (flat_map command_spelling commands.now) ≤ most_on_link }
    requires room { place + length (flat_map command_spelling commands.now) ≤ length out.old }
    ensures put { PutsText (flat_map command_spelling commands.now) place result out.old out.new }
    ensures spelled { AreCommands true (flat_map command_spelling commands.now) commands.now }
{
    let mut end = place;
    for command in commands {
        end = put_command(out, end, command);
    }
    end
}

fn put_header(out: &mut [u8], datagram: &Datagram) -> usize
    requires peer { datagram.now.peer < 4096 }
    requires session { datagram.now.session ≡ 0 }
    requires timed { IsSome datagram.now.sent }
    requires room { 4 ≤ length out.old }
    ensures { PutsFields (header datagram.now) 0 result out.old out.new }
{
    let Some(time) = datagram.sent else {
        unreachable!()
    };
    let place = put_u16(out, 0, datagram.peer | SENT_TIME);
    put_u16(out, place, time)
}

/// Writes the datagram's one spelling in which each ignored bit is 0, and answers how many bytes
/// that is. The rest of `out` stays as it was.
pub fn write(datagram: &Datagram, out: &mut [u8]) -> usize
    requires peer { datagram.now.peer < 4096 }
    requires session { datagram.now.session ≡ 0 }
    requires timed { IsSome datagram.now.sent }
    requires some { datagram.now.commands ≢ [] }
    requires short { length (spelling datagram.now) ≤ most_on_link }
    requires room { length (spelling datagram.now) ≤ length out.old }
    ensures count { result ≡ length (spelling datagram.now) }
    ensures written { out.new ≡ spelling datagram.now ++ drop result out.old }
    // So what was written is read again as the same datagram.
    ensures spelled { SpellsDatagram (spelling datagram.now) datagram.now }
{
    let place = put_header(out, datagram);
    put_commands(out, place, datagram.commands.as_slice())
}
