//! A link in memory, whose calls fail as planned.

ghost use Rattle.std.specs.Prelude.{◌≡◌, ◌≤◌, ◌++◌, ◌∷◌, [], IfOk, OnErr, length};

use crate::calls::CallPlan;
use crate::link_queue::LinkQueue;
use crate::{Addr, Arrived, Failed, Link, LinkEntry, MOST_ON_LINK, OutOfMemory};
use std::alloc::Global;
use std::marker::Model;

/// A link in memory that tells what happened on it and what waits.
#[derive(Drop)]
pub struct MemLink {
    queue: LinkQueue,
    plan: CallPlan,
}

impl Model for MemLink {
    ghost use Rattle.gs_bytes.specs.Link.{FailingLink};

    ghost Value = { FailingLink };

    ghost view = { λ link. record { state = link.queue; calls = link.plan } };
}

impl MemLink {
    ghost use Rattle.gs_bytes.specs.Link.{unused, with_waiting};
    ghost use Rattle.gs_bytes.specs.Memory.{no_calls};

    /// Nothing happened, and nothing waits. The calls of the numbers in `fails`, from 1, fail.
    pub fn new(alloc: Global, fails: &[u64]) -> Result<MemLink, OutOfMemory>
        ensures { IfOk result (λ link. link ≡ record { state = unused; calls = no_calls fails.now }) }
    {
        Ok(MemLink {
            queue: LinkQueue::new(alloc),
            plan: CallPlan::new(alloc, fails)?,
        })
    }

    /// Adds a datagram of at most 4,096 bytes behind those that wait.
    pub fn give(&mut self, from: Addr, bytes: &[u8]) -> Result<(), OutOfMemory>
        requires { length bytes.now ≤ MOST_ON_LINK }
        ensures ok { IfOk result (λ _. self.new.state ≡ with_waiting self.old.state from bytes.now) }
        ensures err { OnErr result (self.new.state ≡ self.old.state) }
        ensures calls { self.new.calls ≡ self.old.calls }
    {
        self.queue.give(from, bytes)
    }

    /// What happened, in order.
    pub fn entries(&self) -> &[LinkEntry]
        ensures { result.now ≡ self.now.state.entries }
    {
        self.queue.entries()
    }

    /// How many calls have failed.
    pub fn faults(&self) -> u64
        ensures { result ≡ self.now.calls.faults }
    {
        self.plan.faults()
    }
}

impl Link for MemLink {
    ghost use Rattle.std.specs.Prelude.{◌≡◌, ◌≤◌, ◌↔◌, IsErrOf, IsTrue, Some, length};
    ghost use Rattle.gs_bytes.specs.Link.{HasCome, IsCountedLink, KeepsWaiting, Puts, Takes};
    ghost use Rattle.gs_bytes.specs.Memory.{after_call, next_fails};

    ghost faults = { λ link. link.calls.faults };

    ghost entries = { λ link. Some link.state.entries };

    ghost waiting = { λ link. Some link.state.waiting };

    fn put(&mut self, to: Addr, bytes: &[u8]) -> Result<(), Failed>
        requires { length bytes.now ≤ MOST_ON_LINK }
        ensures entries { Puts (Some self.old.state.entries) (Some self.new.state.entries) result to bytes.now }
        ensures waiting { KeepsWaiting (Some self.old.state.waiting) (Some self.new.state.waiting) }
        ensures never_falls { self.old.calls.faults ≤ self.new.calls.faults }
        ensures counted { IsCountedLink self.old.calls.faults self.new.calls.faults result }
        ensures fault { IsErrOf result Failed.Fault ↔ IsTrue (next_fails self.old.calls) }
        ensures calls { self.new.calls ≡ after_call self.old.calls }
    {
        if self.plan.begin() {
            return Err(Failed::Fault);
        }
        self.queue.put(to, bytes)?;
        Ok(())
    }

    fn take(&mut self, into: &mut [u8]) -> Result<Arrived, Failed>
        requires { length into.old ≡ MOST_ON_LINK }
        ensures entries { Takes (Some self.old.state.entries) (Some self.new.state.entries) result into.new }
        ensures waiting { HasCome (Some self.old.state.waiting) (Some self.new.state.waiting) result into.new }
        ensures never_falls { self.old.calls.faults ≤ self.new.calls.faults }
        ensures counted { IsCountedLink self.old.calls.faults self.new.calls.faults result }
        ensures fault { IsErrOf result Failed.Fault ↔ IsTrue (next_fails self.old.calls) }
        ensures calls { self.new.calls ≡ after_call self.old.calls }
    {
        if self.plan.begin() {
            return Err(Failed::Fault);
        }
        Ok(self.queue.take(into)?)
    }
}
