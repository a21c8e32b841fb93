//! A source in memory, whose calls fail as planned.

ghost use Rattle.std.specs.Prelude.{◌≡◌, ◌<◌, ◌≤◌, ◌↔◌, IfOk, IsErrOf, IsTrue, None, length, min};
ghost use Rattle.std.specs.Io.KnownBytes.{Keeps, ReadConsumes, WriteAppends};
ghost use Rattle.gs_bytes.specs.Outside.{IsCounted, MeetsEnd};

use crate::calls::CallPlan;
use crate::unread::Unread;
use crate::{Failed, OutOfMemory, Outside, Source};
use std::alloc::Global;
use std::marker::Model;

/// A source in memory that tells its contents.
#[derive(Drop)]
pub struct MemSource {
    unread: Unread,
    plan: CallPlan,
}

impl Model for MemSource {
    ghost use Rattle.gs_bytes.specs.Memory.{FailingSource};

    ghost Value = { FailingSource };

    ghost view = { λ s. record { bytes = s.unread; calls = s.plan } };
}

impl MemSource {
    ghost use Rattle.gs_bytes.specs.Memory.{no_calls, unread};

    /// A source of a copy of the bytes. The reads of the numbers in `fails`, from 1, fail.
    pub fn new(alloc: Global, bytes: &[u8], fails: &[u64]) -> Result<MemSource, OutOfMemory>
        ensures { IfOk result (λ source. source ≡ record { bytes = unread bytes.now; calls = no_calls fails.now }) }
    {
        Ok(MemSource {
            unread: Unread::new(alloc, bytes)?,
            plan: CallPlan::new(alloc, fails)?,
        })
    }

    /// The bytes that are left to read.
    pub fn left(&self) -> &[u8]
        ensures { result.now ≡ self.now.bytes.left }
    {
        self.unread.left()
    }

    /// Whether a read met the end.
    pub fn met_end(&self) -> bool
        ensures { result ≡ self.now.bytes.met_end }
    {
        self.unread.met_end()
    }

    /// How many reads have failed.
    pub fn faults(&self) -> u64
        ensures { result ≡ self.now.calls.faults }
    {
        self.plan.faults()
    }
}

impl Outside for MemSource {
    ghost use Rattle.std.specs.Prelude.{Some};

    ghost faults = { λ source. source.calls.faults };

    ghost left = { λ source. Some source.bytes.left };

    ghost taken = { λ source. Some source.bytes.taken };

    ghost met_end = { λ source. Some source.bytes.met_end };
}

impl Source for MemSource {
    ghost use Rattle.std.specs.Prelude.{◌≡◌, ◌<◌, ◌≤◌, ◌↔◌, IfOk, IsErrOf, IsTrue, Some, None, length, min};
    ghost use Rattle.std.specs.Io.KnownBytes.{ReadConsumes, WriteAppends};
    ghost use Rattle.gs_bytes.specs.Memory.{after_call, next_fails};
    ghost use Rattle.gs_bytes.specs.Outside.{IsCounted, MeetsEnd};

    fn read(&mut self, into: &mut [u8]) -> Result<usize, Failed>
        requires { 0 < length into.old }
        ensures bound { IfOk result (λ n. n ≤ length into.new) }
        ensures left { ReadConsumes (Some self.old.bytes.left) (Some self.new.bytes.left) result into.new }
        ensures taken { WriteAppends (Some self.old.bytes.taken) (Some self.new.bytes.taken) result into.new }
        ensures end { MeetsEnd (Some self.old.bytes.met_end) (Some self.new.bytes.met_end) result }
        ensures never_falls { self.old.calls.faults ≤ self.new.calls.faults }
        ensures counted { IsCounted self.old.calls.faults self.new.calls.faults result }
        ensures as_much { IfOk result (λ n. n ≡ min (length into.new) (length self.old.bytes.left)) }
        ensures fault { IsErrOf result Failed.Fault ↔ IsTrue (next_fails self.old.calls) }
        ensures no_memory { ¬ (IsErrOf result Failed.NoMemory) }
        ensures calls { self.new.calls ≡ after_call self.old.calls }
    {
        if self.plan.begin() {
            return Err(Failed::Fault);
        }
        Ok(self.unread.read(into))
    }
}
