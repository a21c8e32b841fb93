//! A cell and its passes are made.
ghost use Rattle.std.specs.Prelude.{◌≡◌, ◌+◌, ◌^◌, ◌≤◌, ◌<◌, length, IfOk};
ghost use Rattle.gs_turn.specs.Cells.{opening_of, passes_of, made_by, IsNewPass, AreNewPasses};

use super::{SERVED, Turn};
use crate::pass::Pass;
use crate::plays::{Another, Arrive};
use crate::rule::Opening;
use crate::turned::Turned;
use atomic_table::Table;
use gs_bytes::OutOfMemory;
use std::alloc::Global;

impl<S: Turned + Drop> Turn<S> {
    /// A cell with this state, and that many passes with the numbers from 0 in order.
    pub fn new(alloc: Global, state: S, passes: u32) -> Result<(Turn<S>, Vec<Pass<S>>), OutOfMemory>
        requires { (1 ≤ passes) × (passes ≤ 16) }
        ensures cell { IfOk result (λ made. (opening_of made.0 ≡ state) × (passes_of made.0 ≡ passes)) }
        ensures passes { IfOk result (λ made. (length made.1.items ≡ passes) × AreNewPasses made.0 0 made.1.items) }
    {
        let (turn, mut first) = Turn::open(alloc, Opening { state, passes })?;
        let mut all = turn.others(alloc, &mut first, passes)?;
        all.insert(0, first)?;
        Ok((turn, all))
    }

    // The cell with its first pass, which brings the state in.
    fn open(alloc: Global, opening: Opening<S>) -> Result<(Turn<S>, Pass<S>), OutOfMemory>
        requires { (1 ≤ opening.passes) × (opening.passes < 2 ^ 32) }
        ensures { IfOk result (λ made. (opening_of made.0 ≡ opening.state) × (passes_of made.0 ≡ opening.passes)
            × IsNewPass made.0 0 made.1 × (made_by made.1 ≡ 1)) }
    {
        let (table, mut seat) = Table::vacant(alloc, &[1, 0, 0], 1, &opening)?;
        let turn = Turn { table };
        turn.table.shared.load::<Arrive>(&mut seat, SERVED);
        let Opening { state, passes: _ } = opening;
        turn.give_back(&mut seat, state);
        Ok((turn, Pass { seat }))
    }
}

impl<S: Turned> Turn<S> {
    // The passes beside the first.
    fn others(
        &self,
        alloc: Global,
        first: &mut Pass<S>,
        passes: u32,
    ) -> Result<Vec<Pass<S>>, OutOfMemory>
        requires passes { (1 ≤ passes) × (passes_of self.now ≡ passes) }
        requires first { IsNewPass self.now 0 first.old × (made_by first.old ≡ 1) }
        ensures first { IfOk result (λ all. IsNewPass self.now 0 first.new) }
        ensures others { IfOk result (λ all. (length all.items + 1 ≡ passes) × AreNewPasses self.now 1 all.items) }
    {
        let mut all = Vec::with_capacity(alloc, passes as usize)?;
        let mut made = 1;
        while made < passes {
            all.push(self.another(first))?;
            made += 1;
        }
        Ok(all)
    }

    // A pass with the next number, from the one that makes them.
    fn another(&self, first: &mut Pass<S>) -> Pass<S>
        requires maker { (0 < made_by first.old) × (made_by first.old < passes_of self.now) }
        requires first { IsNewPass self.now 0 first.old }
        ensures made { made_by first.new ≡ made_by first.old + 1 }
        ensures first { IsNewPass self.now 0 first.new }
        ensures next { IsNewPass self.now (made_by first.old) result }
    {
        let seat = self.table.shared.split_seat::<Another>(&mut first.seat);
        Pass { seat }
    }
}
