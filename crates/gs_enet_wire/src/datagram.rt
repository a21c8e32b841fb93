//! A datagram, and the list of its commands.

ghost use Rattle.std.specs.Prelude.{◌≡◌, ◌==◌, length};
ghost use Rattle.std.specs.Cmp.Lexicographic.{pointwise, lists_per, lists_equiv};
ghost use Rattle.gs_enet_wire.specs.contracts.command.CommandPartialEq.TheImpl as partial;
ghost use Rattle.gs_enet_wire.specs.contracts.command.CommandPartialEq.TheImpl.Laws as partial_laws;
ghost use Rattle.gs_enet_wire.specs.contracts.command.CommandEq.TheImpl.Laws as whole_laws;

use crate::Command;
use std::marker::Model;

/// The commands of a datagram in order, which a contract sees as the list of them.
#[derive(Debug, Drop)]
pub struct Commands {
    items: Vec<Command>,
}

impl Model for Commands {
    ghost use Rattle.std.specs.Prelude.{List};
    ghost use Rattle.gs_enet_wire.specs.declared.command.Command.{Command};

    ghost Value = { List Command };

    ghost view = { λ commands. commands.items.items };
}

impl Commands {
    /// The commands of a vector. Takes no memory.
    pub fn from_vec(items: Vec<Command>) -> Commands
        ensures { result ≡ items.items }
    {
        Commands { items }
    }

    /// The commands as a vector. Takes no memory.
    pub fn into_vec(self) -> Vec<Command>
        ensures { result.items ≡ self }
    {
        self.items
    }

    /// The commands.
    pub fn as_slice(&self) -> &[Command]
        ensures { result.now ≡ self.now }
    {
        self.items.as_slice()
    }

    /// The number of commands.
    pub fn len(&self) -> usize
        ensures { result ≡ length self.now }
    {
        self.items.len()
    }

    /// Whether there is no command.
    pub fn is_empty(&self) -> bool
        ensures { result ≡ (length self.now == 0) }
    {
        self.items.is_empty()
    }
}

impl PartialEq for Commands {
    ghost eq = { pointwise partial.ghosts.eq };

    ghost laws = { lists_per partial_laws.laws-law };

    fn eq(&self, other: &Commands) -> bool {
        self.as_slice() == other.as_slice()
    }
}

impl Eq for Commands {
    ghost laws = { lists_equiv whole_laws.laws-law };
}

/// A header and the commands behind it.
#[derive(Debug, PartialEq, Eq, Drop)]
pub struct Datagram {
    /// The receiver's id of the connection (`peerID`), below 4,096.
    pub peer: u16,
    /// The session (`sessionID`), below 4.
    pub session: u8,
    /// The sent time (`sentTime`) in milliseconds modulo 65,536, where the header has it.
    pub sent: Option<u16>,
    pub commands: Commands,
}

impl Datagram {
    ghost use Rattle.std.specs.Prelude.{min};
    ghost use Rattle.gs_enet_wire.specs.Grammar.{spelling};

    /// How many bytes the datagram takes where it is written, or `usize::MAX` where that is more.
    pub fn written_length(&self) -> usize
        ensures { result ≡ min (length (spelling self.now)) usize.MAX }
    {
        let mut length: usize = match self.sent {
            Some(_) => 4,
            None => 2,
        };
        for command in self.commands.as_slice() {
            length = length.saturating_add(command.written_length());
        }
        length
    }
}
