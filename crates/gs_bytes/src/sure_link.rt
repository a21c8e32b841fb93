//! A link in memory that never fails but for want of memory.

ghost use Rattle.std.specs.Prelude.{◌≡◌, ◌≤◌, IfOk, OnErr, length};

use crate::link_queue::LinkQueue;
use crate::{Addr, Arrived, Failed, Link, LinkEntry, MOST_ON_LINK, OutOfMemory};
use std::alloc::Global;
use std::marker::Model;

/// A link in memory that tells what happened on it and what waits, and counts no fault.
#[derive(Drop)]
pub struct SureLink {
    queue: LinkQueue,
}

impl Model for SureLink {
    ghost use Rattle.gs_bytes.specs.Link.{LinkState};

    ghost Value = { LinkState };

    ghost view = { λ link. link.queue };
}

impl SureLink {
    ghost use Rattle.gs_bytes.specs.Link.{unused, with_waiting};

    /// Nothing happened, and nothing waits.
    pub fn new(alloc: Global) -> Result<SureLink, OutOfMemory>
        ensures { IfOk result (λ link. link ≡ unused) }
    {
        Ok(SureLink {
            queue: LinkQueue::new(alloc),
        })
    }

    /// Adds a datagram of at most 4,096 bytes behind those that wait.
    pub fn give(&mut self, from: Addr, bytes: &[u8]) -> Result<(), OutOfMemory>
        requires { length bytes.now ≤ MOST_ON_LINK }
        ensures ok { IfOk result (λ _. self.new ≡ with_waiting self.old from bytes.now) }
        ensures err { OnErr result (self.new ≡ self.old) }
    {
        self.queue.give(from, bytes)
    }

    /// What happened, in order.
    pub fn entries(&self) -> &[LinkEntry]
        ensures { result.now ≡ self.now.entries }
    {
        self.queue.entries()
    }
}

impl Link for SureLink {
    ghost use Rattle.std.specs.Prelude.{◌≡◌, ◌≤◌, IsErrOf, Some, length};
    ghost use Rattle.gs_bytes.specs.Link.{HasCome, KeepsWaiting, Puts, Takes};

    ghost faults = { λ _. 0 };

    ghost entries = { λ link. Some link.entries };

    ghost waiting = { λ link. Some link.waiting };

    fn put(&mut self, to: Addr, bytes: &[u8]) -> Result<(), Failed>
        requires { length bytes.now ≤ MOST_ON_LINK }
        ensures entries { Puts (Some self.old.entries) (Some self.new.entries) result to bytes.now }
        ensures waiting { KeepsWaiting (Some self.old.waiting) (Some self.new.waiting) }
        ensures no_fault { ¬ (IsErrOf result Failed.Fault) }
    {
        self.queue.put(to, bytes)?;
        Ok(())
    }

    fn take(&mut self, into: &mut [u8]) -> Result<Arrived, Failed>
        requires { length into.old ≡ MOST_ON_LINK }
        ensures entries { Takes (Some self.old.entries) (Some self.new.entries) result into.new }
        ensures waiting { HasCome (Some self.old.waiting) (Some self.new.waiting) result into.new }
        ensures no_fault { ¬ (IsErrOf result Failed.Fault) }
    {
        Ok(self.queue.take(into)?)
    }
}
