//! Bytes in memory that grow by writes.

ghost use Rattle.std.specs.Prelude.{◌≡◌, ◌++◌, IfOk, MatchResult, OnErr, length, min, take};

use crate::OutOfMemory;
use std::alloc::Global;
use std::marker::Model;

/// Bytes that grow by writes, each of which takes at most `most` of them.
#[derive(Drop)]
pub struct Written {
    bytes: Vec<u8>,
    most: usize,
}

impl Model for Written {
    ghost use Rattle.gs_bytes.specs.Memory.{Writing};

    ghost Value = { Writing };

    ghost view = { λ w. record { written = w.bytes.items; most = w.most } };
}

impl Written {
    ghost use Rattle.gs_bytes.specs.Memory.{unwritten};

    /// No bytes yet. Takes no memory.
    pub fn new(alloc: Global, most: usize) -> Written
        ensures { result ≡ unwritten most }
    {
        Written {
            bytes: Vec::new(alloc),
            most,
        }
    }

    /// Appends the first bytes of the piece, at most `most` of them, and answers how many.
    pub fn write(&mut self, piece: &[u8]) -> Result<usize, OutOfMemory>
        ensures ok { IfOk result (λ n. n ≡ min self.old.most (length piece.now)) }
        ensures grows { IfOk result (λ n. self.new
            ≡ record self.old { written = self.old.written ++ take n piece.now }) }
        ensures err { OnErr result (self.new ≡ self.old) }
    {
        let n = self.most.min(piece.len());
        self.bytes.extend_from_slice(&piece[..n])?;
        Ok(n)
    }

    /// The bytes.
    pub fn bytes(&self) -> &[u8]
        ensures { result.now ≡ self.now.written }
    {
        self.bytes.as_slice()
    }
}
