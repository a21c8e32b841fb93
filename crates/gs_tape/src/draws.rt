// What is drawn from a state.

ghost use Rattle.std.specs.Prelude.{◌≡◌, ◌+◌, ◌*◌, ◌%◌, ◌^◌, ◌<◌, ◌≤◌, IfOk, OnOk, vec_len};
ghost use Rattle.gs_tape.specs.Generated as generated;

use crate::delta::{Delta, Deltas};
use crate::limits::GENERATED_AUDIO;
use crate::unit::Unit;
use crate::units::Units;
use bytes::Bytes;
use gs_bytes::OutOfMemory;
use std::alloc::Global;

const FACTOR: u64 = 6_364_136_223_846_793_005;

const SUMMAND: u64 = 1_442_695_040_888_963_407;

/// The bytes of units repeat after so many.
const PERIOD: u64 = 251;

/// Draws numbers from a state.
#[derive(Clone, Copy, Debug)]
pub struct Draws {
    pub state: u64,
}

impl Draws {
    // The next number, of 31 bits.
    fn draw(&mut self) -> u64
        ensures number { result ≡ generated.draw self.old.state }
        ensures state { self.new.state ≡ generated.next_state self.old.state }
    {
        self.state = self.state.wrapping_mul(FACTOR).wrapping_add(SUMMAND);
        self.state >> 33
    }

    // A unit of this length.
    fn unit_of(&mut self, alloc: Global, length: u64) -> Result<Unit, OutOfMemory>
        requires { length < 2 ^ 32 }
        ensures unit { IfOk result (λ unit. unit ≡ (generated.drawn_unit length self.old.state).value) }
        ensures state { OnOk result (self.new.state ≡ (generated.drawn_unit length self.old.state).state) }
    {
        let base = self.draw() % PERIOD;
        pattern(alloc, length, base)
    }

    // A unit of at least `least` bytes and of fewer than `span` more.
    pub fn unit_from(&mut self, alloc: Global, least: u64, span: u64) -> Result<Unit, OutOfMemory>
        requires least { least ≤ 100000 }
        requires span { (0 < span) × (span ≤ 20000) }
        ensures unit { IfOk result (λ unit. unit ≡ (generated.unit_from least span self.old.state).value) }
        ensures state { OnOk result (self.new.state ≡ (generated.unit_from least span self.old.state).state) }
    {
        let length = least + self.draw() % span;
        self.unit_of(alloc, length)
    }

    // One more delta of tick t against the tick so many before, where there is one.
    fn add_delta(
        &mut self,
        alloc: Global,
        deltas: &mut Vec<Delta>,
        t: u32,
        back: u32,
    ) -> Result<(), OutOfMemory>
        ensures { let drawn = generated.with_delta t back
            (record { value = deltas.old.items; state = self.old.state }) in
            OnOk result ((deltas.new.items ≡ drawn.value) × (self.new.state ≡ drawn.state)) }
    {
        if back >= t {
            return Ok(());
        }
        let unit = self.unit_from(alloc, 41_000, 2_000)?;
        deltas.push(Delta {
            named: t - back,
            unit,
        })?;
        Ok(())
    }

    // The deltas of tick t.
    pub fn deltas(&mut self, alloc: Global, t: u32) -> Result<Deltas, OutOfMemory>
        ensures deltas { IfOk result (λ deltas. deltas ≡ (generated.deltas t self.old.state).value) }
        ensures state { OnOk result (self.new.state ≡ (generated.deltas t self.old.state).state) }
    {
        let mut deltas = Vec::new(alloc);
        self.add_delta(alloc, &mut deltas, t, 8)?;
        self.add_delta(alloc, &mut deltas, t, 4)?;
        self.add_delta(alloc, &mut deltas, t, 2)?;
        self.add_delta(alloc, &mut deltas, t, 1)?;
        Ok(Deltas::from_vec(deltas))
    }

    // One more audio unit.
    fn add_sound(&mut self, alloc: Global, units: &mut Vec<Unit>) -> Result<(), OutOfMemory>
        ensures { let drawn = generated.with_sound (record { value = units.old.items; state = self.old.state }) in
            OnOk result ((units.new.items ≡ drawn.value) × (self.new.state ≡ drawn.state)) }
    {
        let unit = self.unit_of(alloc, GENERATED_AUDIO as u64)?;
        units.push(unit)?;
        Ok(())
    }

    // The audio units of tick t.
    pub fn sounds(&mut self, alloc: Global, t: u32) -> Result<Units, OutOfMemory>
        ensures units { IfOk result (λ units. units ≡ (generated.sounds t self.old.state).value) }
        ensures state { OnOk result (self.new.state ≡ (generated.sounds t self.old.state).state) }
    {
        let mut units = Vec::new(alloc);
        self.add_sound(alloc, &mut units)?;
        self.add_sound(alloc, &mut units)?;
        self.add_sound(alloc, &mut units)?;
        if t % 3 == 0 {
            self.add_sound(alloc, &mut units)?;
        }
        Ok(Units::from_vec(units))
    }
}

// Bytes that count up from a base, written period by period.
fn pattern(alloc: Global, length: u64, base: u64) -> Result<Unit, OutOfMemory>
    requires length { length < 2 ^ 32 }
    requires base { base < 251 }
    ensures { IfOk result (λ unit. unit ≡ generated.pattern length base) }
{
    let period = period_from(alloc, base)?;
    let mut bytes = Vec::with_capacity(alloc, length as usize)?;
    'periods: for _ in 0..length / PERIOD {
        bytes.extend_from_slice(period.as_slice())?;
    }
    bytes.extend_from_slice(&period[..(length % PERIOD) as usize])?;
    Ok(Unit::from_bytes(Bytes::from_vec(bytes)?))
}

// The first period of the bytes that count up from a base.
fn period_from(alloc: Global, base: u64) -> Result<Vec<u8>, OutOfMemory>
    requires { base < 251 }
    ensures bytes { IfOk result (λ period. period.items ≡ generated.pattern 251 base) }
    ensures len { IfOk result (λ period. vec_len period ≡ 251) }
{
    let mut bytes = Vec::with_capacity(alloc, PERIOD as usize)?;
    'bytes: for i in 0..PERIOD {
        bytes.push(((base + i) % PERIOD) as u8)?;
    }
    Ok(bytes)
}
