//! What a recorder publishes.
ghost use Rattle.std.specs.Prelude.{◌≡◌, [], option_map, IfOk, IsTrue};
ghost use Rattle.std.specs.Arc.{arc_value};
ghost use mathlib.Core.List.{IsPrefix};
ghost use Rattle.gs_tape.specs.Tick.{tick_numbered};
ghost use Rattle.gs_capture.specs.Captures.{Capture};
ghost use Rattle.gs_capture.specs.Growing.{grown};
ghost use Rattle.gs_capture.specs.Lasts.{IsNewest};

use crate::appended::Appended;
use crate::history::Front;
use crate::newest::Newest;
use gs_bytes::OutOfMemory;
use gs_tape::Tick;
use left_right::Absorb;
use std::alloc::{AllocError, Global};
use std::marker::Model;
use std::sync::Arc;

/// The ticks so far, the number of bytes of each of their audio units, and the history that is known.
#[derive(Drop)]
pub struct Published {
    audio: u16,
    ticks: Vec<Arc<Tick>>,
    front: Front,
}

impl Model for Published {
    ghost use Rattle.std.specs.Prelude.{map};
    ghost use Rattle.std.specs.Arc.{arc_value};
    ghost use Rattle.gs_capture.specs.Captures.{Capture};

    ghost Value = { Capture };

    ghost view = { λ p. record {
      book = p.front.book;
      audio = p.audio;
      ticks = map arc_value p.ticks.items;
      history = p.front.log;
    } };
}

impl Absorb<Appended> for Published {
    type State = Published;

    ghost state = { λ p. p };

    ghost applied = { grown };

    fn absorb_first(&mut self, operation: &Appended, _other: &Published) -> Result<(), AllocError> {
        let tick = Arc::try_clone(&operation.tick)?;
        match self.ticks.push(tick) {
            Ok(()) => {
                self.front = operation.front.again();
                Ok(())
            }
            Err(_) => Err(AllocError),
        }
    }
}

impl Published {
    /// No tick yet, with room for so many.
    pub(crate) fn empty(
        alloc: Global,
        ticks: u32,
        audio: u16,
        front: Front,
    ) -> Result<Published, OutOfMemory>
        ensures { IfOk result (λ p. p ≡ record { book = front.book; audio = audio; ticks = []; history = front.log }) }
    {
        Ok(Published {
            audio,
            ticks: Vec::with_capacity(alloc, ticks as usize)?,
            front,
        })
    }

    /// The history that is known.
    pub(crate) fn front(&self) -> &Front
        ensures { (result.now.book ≡ self.now.book) × (result.now.log ≡ self.now.history) }
    {
        &self.front
    }

    /// Whether it has as many ticks as another state of the capture, which it then begins with.
    pub(crate) fn begins_with(&self, other: &Published) -> bool
        requires one { other.now.book ≡ self.now.book }
        requires whole { (self.now.history ≡ self.now.ticks) × (other.now.history ≡ other.now.ticks) }
        ensures { IsTrue result → IsPrefix other.now.ticks self.now.ticks }
    {
        if self.ticks.len() < other.ticks.len() {
            return false;
        }
        let mut both = self.front.again();
        both.learn(&other.front);
        true
    }

    /// The last tick, or `NotYet` exactly where there are at most `after` ticks.
    pub(crate) fn newest(&self, after: u32) -> Result<Newest, OutOfMemory>
        ensures { IfOk result (λ n. IsNewest after self.now.ticks n) }
    {
        if self.ticks.len() <= after as usize {
            return Ok(Newest::NotYet);
        }
        let last = &self.ticks[self.ticks.len() - 1];
        Ok(Newest::Tick(Arc::try_clone(last)?))
    }

    /// The tick of a number, from 1.
    pub(crate) fn numbered(&self, number: u32) -> Result<Option<Arc<Tick>>, OutOfMemory>
        ensures { IfOk result (λ found. option_map arc_value found ≡ tick_numbered self.now.ticks number) }
    {
        if number == 0 {
            return Ok(None);
        }
        match self.ticks.get(number as usize - 1) {
            Some(tick) => Ok(Some(Arc::try_clone(tick)?)),
            None => Ok(None),
        }
    }
}
