// A source of bytes that are shared.
ghost use Rattle.std.specs.Prelude.{◌≡◌, ◌<◌, ◌++◌, length, min, take, IfErr, IfOk};
ghost use Rattle.gsbench.specs.Report.{IsNoUsage};

use crate::report::Stop;
use gs_bytes::{Failed, Outside, Source};
use gs_tape::Unit;
use std::marker::Model;

/// A source in memory of bytes that it shares with others. It never fails, and contracts see the bytes that are left.
#[derive(Drop)]
pub struct SharedSource {
    bytes: Unit,
    at: usize,
}

impl Model for SharedSource {
    ghost use Rattle.std.specs.Prelude.{ℕ, ◌≤◌, List, drop, length};

    ghost Value = { List ℕ };

    ghost view = { λ s. drop s.at s.bytes };

    ghost invariant = { λ s. s.at ≤ length s.bytes };
}

impl SharedSource {
    /// A source of these bytes, of which none is copied.
    pub fn of(bytes: &Unit) -> Result<SharedSource, Stop>
        ensures bytes { IfOk result (λ source. source ≡ bytes.now) }
        ensures no_usage { IfErr result (λ stop. IsNoUsage stop) }
    {
        Ok(SharedSource {
            bytes: bytes.clone()?,
            at: 0,
        })
    }

    // Moves as many bytes as there are and fit into the front of `into`.
    fn take_front(&mut self, into: &mut [u8]) -> usize
        requires { 0 < length into.old }
        ensures count { result ≡ min (length into.new) (length self.old) }
        ensures left { self.old ≡ take result into.new ++ self.new }
    {
        let bytes = self.bytes.as_bytes();
        let n = into.len().min(bytes.len() - self.at);
        into[..n].copy_from_slice(&bytes[self.at..self.at + n]);
        self.at += n;
        n
    }
}

impl Outside for SharedSource {
    ghost use Rattle.std.specs.Prelude.{Some};

    ghost faults = { λ _. 0 };

    ghost left = { λ source. Some source };
}

impl Source for SharedSource {
    ghost use Rattle.std.specs.Prelude.{◌<◌, ◌≤◌, IfOk, IsOk, Some, length};
    ghost use Rattle.std.specs.Io.KnownBytes.{ReadConsumes};

    fn read(&mut self, into: &mut [u8]) -> Result<usize, Failed>
        requires { 0 < length into.old }
        ensures bound { IfOk result (λ n. n ≤ length into.new) }
        ensures left { ReadConsumes (Some self.old) (Some self.new) result into.new }
        ensures sure { IsOk result }
    {
        Ok(self.take_front(into))
    }
}
