//! What happened on a link in memory, and the datagrams that wait on it.

ghost use Rattle.std.specs.Prelude.{◌≡◌, ◌≤◌, ◌++◌, ◌∷◌, [], IfOk, OnErr, length, take};
ghost use Rattle.gs_bytes.specs.Link.{ends_with_nothing};

use crate::{Addr, Arrived, LinkEntry, MOST_ON_LINK, OutOfMemory, Text, Waiting};
use std::alloc::Global;
use std::marker::Model;

/// What happened on a link, in order, and the datagrams that wait, in order.
#[derive(Debug, Drop)]
pub struct LinkQueue {
    alloc: Global,
    entries: Vec<LinkEntry>,
    waiting: Vec<Waiting>,
    at: usize,
}

impl Model for LinkQueue {
    ghost use Rattle.std.specs.Prelude.{◌≤◌, All, drop, vec_len};
    ghost use Rattle.gs_bytes.specs.Link.{LinkState, IsWaiting};

    ghost Value = { LinkState };

    ghost view = { λ q. record { entries = q.entries.items; waiting = drop q.at q.waiting.items } };

    ghost invariant = { λ q. (q.at ≤ vec_len q.waiting) × All IsWaiting q.waiting.items };
}

/// Whether the last entry is that nothing waited.
fn ends_with_nothing(entries: &[LinkEntry]) -> bool
    ensures { result ≡ ends_with_nothing entries.now }
{
    matches!(entries.last(), Some(LinkEntry::Nothing))
}

impl LinkQueue {
    ghost use Rattle.gs_bytes.specs.Link.{AnswersTake, unused, with_nothing};
    ghost use Rattle.gs_bytes.specs.declared.link.LinkEntry.TheVariants.{Put};

    /// Nothing happened, and nothing waits. Takes no memory.
    pub fn new(alloc: Global) -> LinkQueue
        ensures { result ≡ unused }
    {
        LinkQueue {
            alloc,
            entries: Vec::new(alloc),
            waiting: Vec::new(alloc),
            at: 0,
        }
    }

    /// Adds a datagram behind those that wait.
    pub fn give(&mut self, from: Addr, bytes: &[u8]) -> Result<(), OutOfMemory>
        requires { length bytes.now ≤ MOST_ON_LINK }
        ensures ok { IfOk result (λ _. self.new
            ≡ record self.old { waiting = self.old.waiting ++ record { from = from; bytes = bytes.now } ∷ [] }) }
        ensures err { OnErr result (self.new ≡ self.old) }
    {
        let bytes = Text::copy_of(self.alloc, bytes)?;
        self.waiting.push(Waiting { from, bytes })?;
        Ok(())
    }

    /// Notes that a datagram was put.
    pub fn put(&mut self, to: Addr, bytes: &[u8]) -> Result<(), OutOfMemory>
        ensures ok { IfOk result (λ _. self.new
            ≡ record self.old { entries = self.old.entries ++ Put to bytes.now ∷ [] }) }
        ensures err { OnErr result (self.new ≡ self.old) }
    {
        let bytes = Text::copy_of(self.alloc, bytes)?;
        self.entries.push(LinkEntry::Put { to, bytes })?;
        Ok(())
    }

    /// Notes that nothing waited.
    fn note_nothing(&mut self) -> Result<(), OutOfMemory>
        ensures ok { IfOk result (λ _. self.new ≡ record self.old { entries = with_nothing self.old.entries }) }
        ensures err { OnErr result (self.new ≡ self.old) }
    {
        if !ends_with_nothing(&self.entries) {
            self.entries.push(LinkEntry::Nothing)?;
        }
        Ok(())
    }

    /// Moves the first datagram that waits into the front of `into`.
    pub fn take(&mut self, into: &mut [u8]) -> Result<Arrived, OutOfMemory>
        requires { length into.old ≡ MOST_ON_LINK }
        ensures ok { IfOk result (λ arrived. AnswersTake self.old self.new arrived into.new) }
        ensures err { OnErr result (self.new ≡ self.old) }
    {
        let Some(next) = self.waiting.get(self.at) else {
            self.note_nothing()?;
            return Ok(Arrived::Nothing);
        };
        let bytes = next.bytes.as_bytes();
        let (from, length) = (next.from, bytes.len());
        let copy = Text::copy_of(self.alloc, bytes)?;
        into[..length].copy_from_slice(bytes);
        self.entries.push(LinkEntry::Took { from, bytes: copy })?;
        self.at += 1;
        Ok(Arrived::Datagram { from, length })
    }

    /// What happened, in order.
    pub fn entries(&self) -> &[LinkEntry]
        ensures { result.now ≡ self.now.entries }
    {
        self.entries.as_slice()
    }
}
