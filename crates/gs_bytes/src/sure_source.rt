//! A source in memory that never fails.

ghost use Rattle.std.specs.Prelude.{◌≡◌, IfOk};

use crate::unread::Unread;
use crate::{Failed, OutOfMemory, Outside, Source};
use std::alloc::Global;
use std::marker::Model;

/// A source in memory that tells its contents and never fails.
#[derive(Drop)]
pub struct SureSource {
    unread: Unread,
}

impl Model for SureSource {
    ghost use Rattle.gs_bytes.specs.Memory.{Reading};

    ghost Value = { Reading };

    ghost view = { λ s. s.unread };
}

impl SureSource {
    ghost use Rattle.gs_bytes.specs.Memory.{unread};

    /// A source of a copy of the bytes.
    pub fn new(alloc: Global, bytes: &[u8]) -> Result<SureSource, OutOfMemory>
        ensures { IfOk result (λ source. source ≡ unread bytes.now) }
    {
        Ok(SureSource {
            unread: Unread::new(alloc, bytes)?,
        })
    }

    /// The bytes that are left to read.
    pub fn left(&self) -> &[u8]
        ensures { result.now ≡ self.now.left }
    {
        self.unread.left()
    }

    /// Whether a read met the end.
    pub fn met_end(&self) -> bool
        ensures { result ≡ self.now.met_end }
    {
        self.unread.met_end()
    }
}

impl Outside for SureSource {
    ghost use Rattle.std.specs.Prelude.{Some};

    ghost faults = { λ _. 0 };

    ghost left = { λ source. Some source.left };

    ghost taken = { λ source. Some source.taken };

    ghost met_end = { λ source. Some source.met_end };
}

impl Source for SureSource {
    ghost use Rattle.std.specs.Prelude.{◌≡◌, ◌<◌, ◌≤◌, IfOk, IsOk, Some, length, min};
    ghost use Rattle.std.specs.Io.KnownBytes.{ReadConsumes, WriteAppends};
    ghost use Rattle.gs_bytes.specs.Outside.{MeetsEnd};

    fn read(&mut self, into: &mut [u8]) -> Result<usize, Failed>
        requires { 0 < length into.old }
        ensures bound { IfOk result (λ n. n ≤ length into.new) }
        ensures left { ReadConsumes (Some self.old.left) (Some self.new.left) result into.new }
        ensures taken { WriteAppends (Some self.old.taken) (Some self.new.taken) result into.new }
        ensures end { MeetsEnd (Some self.old.met_end) (Some self.new.met_end) result }
        ensures as_much { IfOk result (λ n. n ≡ min (length into.new) (length self.old.left)) }
        ensures sure { IsOk result }
    {
        Ok(self.unread.read(into))
    }
}
