//! A sink in memory, whose calls fail as planned.

ghost use Rattle.std.specs.Prelude.{◌≡◌, IfOk};

use crate::calls::CallPlan;
use crate::written::Written;
use crate::{Failed, OutOfMemory, Outside, Sink};
use std::alloc::Global;
use std::marker::Model;

/// A sink in memory that tells its contents.
#[derive(Drop)]
pub struct MemSink {
    bytes: Written,
    plan: CallPlan,
}

impl Model for MemSink {
    ghost use Rattle.gs_bytes.specs.Memory.{FailingSink};

    ghost Value = { FailingSink };

    ghost view = { λ s. record { bytes = s.bytes; calls = s.plan } };
}

impl MemSink {
    ghost use Rattle.gs_bytes.specs.Memory.{no_calls, unwritten};

    /// A sink that takes at most `most` bytes per write. The writes of the numbers in `fails`,
    /// from 1, fail.
    pub fn new(alloc: Global, most: usize, fails: &[u64]) -> Result<MemSink, OutOfMemory>
        ensures { IfOk result (λ sink. sink ≡ record { bytes = unwritten most; calls = no_calls fails.now }) }
    {
        Ok(MemSink {
            bytes: Written::new(alloc, most),
            plan: CallPlan::new(alloc, fails)?,
        })
    }

    /// The bytes that were written.
    pub fn written(&self) -> &[u8]
        ensures { result.now ≡ self.now.bytes.written }
    {
        self.bytes.bytes()
    }

    /// How many writes have failed or taken nothing.
    pub fn faults(&self) -> u64
        ensures { result ≡ self.now.calls.faults }
    {
        self.plan.faults()
    }
}

impl Outside for MemSink {
    ghost use Rattle.std.specs.Prelude.{Some};

    ghost faults = { λ sink. sink.calls.faults };

    ghost written = { λ sink. Some sink.bytes.written };
}

impl Sink for MemSink {
    ghost use Rattle.std.specs.Prelude.{◌≡◌, ◌<◌, ◌≤◌, ◌↔◌, ◌==◌, IfOk, IsErrOf, IsTrue, OnErr, Some, if◌then◌else◌};
    ghost use Rattle.std.specs.Prelude.{length, min};
    ghost use Rattle.std.specs.Io.KnownBytes.{WriteAppends};
    ghost use Rattle.gs_bytes.specs.Memory.{after_call, next_fails, with_fault};
    ghost use Rattle.gs_bytes.specs.Outside.{IsCountedWrite};

    fn write(&mut self, piece: &[u8]) -> Result<usize, Failed>
        requires { 0 < length piece.now }
        ensures bound { IfOk result (λ n. n ≤ length piece.now) }
        ensures written { WriteAppends (Some self.old.bytes.written) (Some self.new.bytes.written) result piece.now }
        ensures never_falls { self.old.calls.faults ≤ self.new.calls.faults }
        ensures counted { IsCountedWrite self.old.calls.faults self.new.calls.faults result }
        ensures most { self.new.bytes.most ≡ self.old.bytes.most }
        ensures as_much { IfOk result (λ n. n ≡ min self.old.bytes.most (length piece.now)) }
        ensures fault { IsErrOf result Failed.Fault ↔ IsTrue (next_fails self.old.calls) }
        ensures calls_ok { IfOk result (λ n. self.new.calls
            ≡ (if n == 0 then with_fault (after_call self.old.calls) else after_call self.old.calls)) }
        ensures calls_err { OnErr result (self.new.calls ≡ after_call self.old.calls) }
    {
        if self.plan.begin() {
            return Err(Failed::Fault);
        }
        let n = self.bytes.write(piece)?;
        if n == 0 {
            self.plan.count_fault();
        }
        Ok(n)
    }
}
