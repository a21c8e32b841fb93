//! Which calls of an object in memory fail.

ghost use Rattle.std.specs.Prelude.{◌≡◌, ◌≤◌, IfOk};

use crate::OutOfMemory;
use std::alloc::Global;
use std::marker::Model;

/// What decides for an object in memory which of its calls fail: the calls that are to fail, the
/// calls made and the faults counted. Both counts stand still at their type's end.
#[derive(Drop)]
pub struct CallPlan {
    fails: Vec<u64>,
    made: u64,
    faults: u64,
}

impl Model for CallPlan {
    ghost use Rattle.gs_bytes.specs.Memory.{Calls};

    ghost Value = { Calls };

    ghost view = { λ plan. record { fails = plan.fails.items; made = plan.made; faults = plan.faults } };
}

impl CallPlan {
    ghost use Rattle.gs_bytes.specs.Memory.{after_call, next_fails, no_calls, with_fault};

    /// A plan by which the calls of these numbers, from 1, fail.
    pub fn new(alloc: Global, fails: &[u64]) -> Result<CallPlan, OutOfMemory>
        ensures { IfOk result (λ plan. plan ≡ no_calls fails.now) }
    {
        Ok(CallPlan {
            fails: Vec::from_slice(alloc, fails)?,
            made: 0,
            faults: 0,
        })
    }

    /// Counts the next call, and answers whether it fails, which is counted too.
    pub fn begin(&mut self) -> bool
        ensures fails { result ≡ next_fails self.old }
        ensures counts { self.new ≡ after_call self.old }
        ensures never_falls { self.old.faults ≤ self.new.faults }
    {
        self.made = self.made.saturating_add(1);
        let fails = self.fails.contains(&self.made);
        if fails {
            self.faults = self.faults.saturating_add(1);
        }
        fails
    }

    /// Counts one more fault.
    pub fn count_fault(&mut self)
        ensures counted { self.new ≡ with_fault self.old }
        ensures never_falls { self.old.faults ≤ self.new.faults }
    {
        self.faults = self.faults.saturating_add(1);
    }

    /// The faults counted.
    pub fn faults(&self) -> u64
        ensures { result ≡ self.now.faults }
    {
        self.faults
    }
}
