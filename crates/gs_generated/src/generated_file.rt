// A generated file.

ghost use Rattle.std.specs.Prelude.{◌≡◌, ◌≤◌, IfOk};
ghost use Rattle.gs_tape.specs.Generated.{generated};
ghost use Rattle.gs_tape.specs.Capture.{file};
ghost use Rattle.gs_tape.specs.Limits.{generated_audio, generated_duration, most_generated};
ghost use Rattle.gs_generated.specs.Remaining.{IsWhole};

use crate::parts::Parts;
use crate::pieces::Pieces;
use crate::unspelled::{Unspelled, file_head};
use gs_bytes::{Failed, OutOfMemory, Outside, Source};
use std::alloc::Global;
use std::collections::VecDeque;
use std::marker::Model;

/// The capture file that a number generates. Contracts see the bytes that are left to read.
#[derive(Drop)]
pub struct GeneratedFile {
    alloc: Global,
    pieces: Pieces,
    ghost whole: { IsWhole pieces },
}

impl Model for GeneratedFile {
    ghost use Rattle.gs_generated.specs.Remaining.{Remaining, pieces_left};

    ghost Value = { Remaining };

    ghost view = { λ g. record { left = pieces_left g.pieces } };
}

impl GeneratedFile {
    /// The file of so many ticks that a number generates, of which nothing was read.
    pub fn open(alloc: Global, number: u32, ticks: u32) -> Result<GeneratedFile, OutOfMemory>
        requires { ticks ≤ most_generated }
        ensures { IfOk result (λ opened. opened.left
            ≡ file generated_audio generated_duration (generated number ticks)) }
    {
        let parts = Parts {
            part: file_head(alloc)?,
            at: 0,
            more: VecDeque::new(alloc),
        };
        let pieces = Pieces {
            parts,
            ended: false,
            unspelled: Unspelled::of(number, ticks),
        };
        Ok(GeneratedFile { alloc, pieces })
    }
}

impl Outside for GeneratedFile {
    ghost use Rattle.std.specs.Prelude.{Some};

    ghost faults = { λ _. 0 };

    ghost left = { λ g. Some g.left };
}

impl Source for GeneratedFile {
    ghost use Rattle.std.specs.Prelude.{◌<◌, ◌≤◌, IfOk, Some, length};
    ghost use Rattle.std.specs.Io.KnownBytes.{ReadConsumes};
    ghost use Rattle.gs_bytes.specs.Outside.{IsCounted};

    fn read(&mut self, into: &mut [u8]) -> Result<usize, Failed>
        requires { 0 < length into.old }
        ensures bound { IfOk result (λ n. n ≤ length into.new) }
        ensures left { ReadConsumes (Some self.old.left) (Some self.new.left) result into.new }
        ensures counted { IsCounted 0 0 result }
    {
        let count = self.pieces.read(into);
        if count > 0 {
            return Ok(count);
        }
        self.pieces.refill(self.alloc)?;
        Ok(self.pieces.read(into))
    }
}
