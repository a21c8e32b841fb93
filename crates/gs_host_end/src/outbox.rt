// The datagrams of a turn, until they are stored.

ghost use Rattle.std.specs.Prelude.{◌≡◌, ◌++◌, [], ℕ, List, OnOk};
ghost use Rattle.gs_store.specs.Standing.{IsStoreOf};
ghost use Rattle.gs_bytes.specs.Link.{ends_with_nothing};
ghost use Rattle.gs_host_end.specs.Boxes.{put_bytes, all_put};

use gs_bytes::{Addr, Arrived, Failed, Link, LinkEntry, MOST_ON_LINK, OutOfMemory, Text};
use gs_store::Store;
use std::alloc::Global;
use std::collections::VecDeque;
use std::marker::Model;

/// A link that keeps what is put, and on which nothing waits. A contract sees what happened on it.
#[derive(Drop)]
pub struct Outbox {
    alloc: Global,
    entries: VecDeque<LinkEntry>,
}

impl Model for Outbox {
    ghost use Rattle.std.specs.Prelude.{List};
    ghost use Rattle.gs_bytes.specs.declared.link.LinkEntry.{LinkEntry};

    ghost Value = { List LinkEntry };

    ghost view = { λ outbox. outbox.entries.items };
}

/// Puts the datagram of an entry, if one was put, behind what a store has.
fn store_entry(entry: LinkEntry, store: &mut Store<Text>) -> Result<(), OutOfMemory>
    ensures { OnOk result ((all : List (List ℕ)) → IsStoreOf store.old all
        → IsStoreOf store.new (all ++ put_bytes entry)) }
{
    match entry {
        LinkEntry::Put { bytes, .. } => store.put(bytes),
        LinkEntry::Took { .. } | LinkEntry::Nothing => Ok(()),
    }
}

/// Whether the last entry is that nothing waited.
fn ends_with_nothing(entries: &VecDeque<LinkEntry>) -> bool
    ensures { result ≡ ends_with_nothing entries.now.items }
{
    matches!(entries.back(), Some(LinkEntry::Nothing))
}

impl Outbox {
    /// Nothing was put. Takes no memory.
    pub fn new(alloc: Global) -> Outbox
        ensures { result ≡ [] }
    {
        Outbox {
            alloc,
            entries: VecDeque::new(alloc),
        }
    }

    /// Moves all that was put behind what a store has. After an error a part of it may be stored.
    pub fn store(&mut self, store: &mut Store<Text>) -> Result<(), OutOfMemory>
        ensures stored { OnOk result ((all : List (List ℕ)) → IsStoreOf store.old all
            → IsStoreOf store.new (all ++ all_put self.old)) }
        ensures emptied { OnOk result (self.new ≡ []) }
    {
        'entries: while let Some(entry) = self.entries.pop_front() {
            store_entry(entry, store)?;
        }
        Ok(())
    }
}

impl Link for Outbox {
    ghost use Rattle.std.specs.Prelude.{◌≡◌, ◌≤◌, IsErrOf, Some, [], length};
    ghost use Rattle.gs_bytes.specs.Link.{HasCome, KeepsWaiting, Puts, Takes};

    ghost faults = { λ _. 0 };

    ghost entries = { λ outbox. Some outbox };

    ghost waiting = { λ _. Some [] };

    fn put(&mut self, to: Addr, bytes: &[u8]) -> Result<(), Failed>
        requires { length bytes.now ≤ MOST_ON_LINK }
        ensures entries { Puts (Some self.old) (Some self.new) result to bytes.now }
        ensures waiting { KeepsWaiting (Some []) (Some []) }
        ensures no_fault { ¬ (IsErrOf result Failed.Fault) }
    {
        let bytes = Text::copy_of(self.alloc, bytes)?;
        self.entries.push_back(LinkEntry::Put { to, bytes })?;
        Ok(())
    }

    fn take(&mut self, _into: &mut [u8]) -> Result<Arrived, Failed>
        requires { length _into.old ≡ MOST_ON_LINK }
        ensures entries { Takes (Some self.old) (Some self.new) result _into.new }
        ensures waiting { HasCome (Some []) (Some []) result _into.new }
        ensures no_fault { ¬ (IsErrOf result Failed.Fault) }
    {
        if !ends_with_nothing(&self.entries) {
            self.entries.push_back(LinkEntry::Nothing)?;
        }
        Ok(Arrived::Nothing)
    }
}
