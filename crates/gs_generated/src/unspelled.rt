// What isn't spelled yet of a generated file.

ghost use Rattle.std.specs.Prelude.{◌≡◌, ◌++◌, ◌≤◌, ◌<◌, [], ◌∷◌, true, false, length, None, OnOk, OnErr, IfOk};
ghost use Rattle.std.specs.List.{concat};
ghost use Rattle.gs_tape.specs.Generated.{generated};
ghost use Rattle.gs_tape.specs.Capture.{head};
ghost use Rattle.gs_tape.specs.Limits.{generated_audio, generated_duration, most_generated};
ghost use Rattle.gs_generated.specs.Remaining.{IsUnspelledSound, ticks_left, bytes_left};

use crate::tick_parts::parts_of;
use gs_bytes::{OutOfMemory, SureSink};
use gs_tape::{END_TAG, GENERATED_AUDIO, GENERATED_DURATION, Generator, TapeWriter, Tick, Unit};
use std::alloc::Global;
use std::collections::VecDeque;

/// The ticks that aren't spelled yet, and the end mark.
#[derive(Drop)]
pub(crate) struct Unspelled {
    number: u32,
    ticks: u32,
    /// How many ticks were spelled.
    spelled: u32,
    generator: Generator,
    /// A tick that was generated and isn't spelled yet.
    tick: Option<Tick>,
}

/// Bytes of a generated file, part by part, and whether they are the last.
#[derive(Drop)]
pub(crate) struct Piece {
    pub(crate) parts: VecDeque<Unit>,
    pub(crate) is_last: bool,
}

/// The head of a generated file.
pub(crate) fn file_head(alloc: Global) -> Result<Unit, OutOfMemory>
    ensures { IfOk result (λ bytes. bytes ≡ head generated_audio generated_duration) }
{
    let mut bytes = SureSink::new(alloc, usize::MAX)?;
    if TapeWriter::open(alloc, GENERATED_AUDIO, GENERATED_DURATION, &mut bytes).is_err() {
        return Err(OutOfMemory);
    }
    Unit::copy_of(alloc, bytes.written())
}

impl Unspelled {
    /// The file of so many ticks that a number generates, of which no tick is spelled.
    pub(crate) fn of(number: u32, ticks: u32) -> Unspelled
        requires { ticks ≤ most_generated }
        ensures sound { IsUnspelledSound result }
        ensures all { ticks_left result ≡ generated number ticks }
    {
        Unspelled {
            number,
            ticks,
            spelled: 0,
            generator: Generator::new(number, ticks),
            tick: None,
        }
    }

    // Has the next tick at hand, where one is left.
    fn generate(&mut self, alloc: Global) -> Result<(), OutOfMemory>
        requires { IsUnspelledSound self.old }
        ensures sound { IsUnspelledSound self.new }
        ensures same { ticks_left self.new ≡ ticks_left self.old }
        ensures none { OnOk result (self.new.tick ≡ None → ticks_left self.new ≡ []) }
    {
        if self.tick.is_none() {
            self.tick = self.generator.next(alloc)?;
        }
        Ok(())
    }

    /// Spells the next tick, or the end mark behind the last.
    pub(crate) fn next_piece(&mut self, alloc: Global) -> Result<Piece, OutOfMemory>
        requires { IsUnspelledSound self.old }
        ensures sound { IsUnspelledSound self.new }
        ensures bytes { IfOk result (λ piece. bytes_left false self.old
            ≡ concat piece.parts.items ++ bytes_left piece.is_last self.new) }
        ensures some { IfOk result (λ piece. 0 < length (concat piece.parts.items)) }
        ensures same { OnErr result (ticks_left self.new ≡ ticks_left self.old) }
    {
        self.generate(alloc)?;
        let Some(tick) = &self.tick else {
            return end_piece(alloc);
        };
        let parts = parts_of(alloc, tick)?;
        self.tick = None;
        self.spelled += 1;
        Ok(Piece {
            parts,
            is_last: false,
        })
    }
}

// The end mark.
fn end_piece(alloc: Global) -> Result<Piece, OutOfMemory>
    ensures bytes { IfOk result (λ piece. concat piece.parts.items ≡ 0x45 ∷ []) }
    ensures last { IfOk result (λ piece. piece.is_last ≡ true) }
{
    let mut parts = VecDeque::new(alloc);
    parts.push_back(Unit::copy_of(alloc, &[END_TAG])?)?;
    Ok(Piece {
        parts,
        is_last: true,
    })
}
