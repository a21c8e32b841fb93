ghost use Rattle.std.specs.Prelude.{◌≡◌, ◌<◌, ℕ, ⊤, true};
ghost use Rattle.gs_turn.specs.Cells.{IsPassOf, own};
ghost use Rattle.gs_turn.specs.History.{has_number};

use super::*;
use std::process::Abort;
use std::sync::Wait;
use std::test::*;
use std::thread::{Threads, join};

/// The calls so far, in order.
#[derive(Drop)]
struct Log {
    calls: Vec<u32>,
}

impl Turned for Log {
    type Call = u32;

    type Reply = bool;

    ghost steps = { λ before call reply after. ⊤ };

    fn step(&mut self, call: u32) -> bool {
        self.calls.push(call).is_ok()
    }
}

fn call_from<R: Wait>(rt: &R, turn: &Turn<Log>, mut pass: Pass<Log>, from: u32) -> (bool, Pass<Log>)
    requires { IsPassOf turn.now pass × (from < 2000) }
    ensures cell { IsPassOf turn.now result.1 }
    ensures numbers { (number : ℕ) → has_number number (own result.1) ≡ has_number number (own pass) }
{
    let mut all = true;
    for i in 0..1000u32 {
        all &= turn.call(rt, &mut pass, from + i);
    }
    (all, pass)
}

// Two threads call one cell, a thousand times each.
fn call_from_two<R: Threads + Wait + Sync>(
    rt: &R,
    turn: &Turn<Log>,
    first: Pass<Log>,
    second: Pass<Log>,
) -> (bool, Pass<Log>)
    requires first { IsPassOf turn.now first × (has_number 0 (own first) ≡ true) }
    requires second { IsPassOf turn.now second × (has_number 1 (own second) ≡ true) }
    ensures cell { IsPassOf turn.now result.1 }
    ensures numbers { (has_number 0 (own result.1) ≡ true) × (has_number 1 (own result.1) ≡ true) }
{
    let ((one, mut keep), (two, give)) = join(
        rt,
        || -> (bool, Pass<Log>)
            requires { IsPassOf turn.now first × (has_number 0 (own first) ≡ true) }
            ensures { IsPassOf turn.entry.now result.1 × (has_number 0 (own result.1) ≡ true) }
        { call_from(rt, turn, first, 0) },
        || -> (bool, Pass<Log>)
            requires { IsPassOf turn.now second × (has_number 1 (own second) ≡ true) }
            ensures { IsPassOf turn.entry.now result.1 × (has_number 1 (own result.1) ≡ true) }
        { call_from(rt, turn, second, 1000) },
    );
    turn.join(&mut keep, give);
    (one && two, keep)
}

#[test]
fn each_threads_calls_are_there_once_and_in_order(rt: HostRuntime) -> Result<(), Fail> {
    let log = Log {
        calls: Vec::new(rt.alloc()),
    };
    let (turn, mut passes) = Turn::new(rt.alloc(), log, 2)?;
    let second = passes.pop().ok_or("a second pass")?;
    let first = passes.pop().ok_or("a first pass")?;
    let (all, pass) = call_from_two(&rt, &turn, first, second);
    let log = turn.close(pass);
    assert!(rt; all);
    let of_first = log.calls.iter().filter(|call| **call < 1000);
    assert!(rt; of_first.copied().eq(0..1000u32));
    Ok(())
}
