//! Bytes in memory that are read from their front.

ghost use Rattle.std.specs.Prelude.{◌≡◌, ◌<◌, ◌++◌, ◌==◌, ◌||◌, IfOk, length, min, take};

use crate::OutOfMemory;
use std::alloc::Global;
use std::marker::Model;

/// Bytes that are read from their front.
#[derive(Drop)]
pub struct Unread {
    bytes: Vec<u8>,
    at: usize,
    met_end: bool,
}

impl Model for Unread {
    ghost use Rattle.std.specs.Prelude.{◌≤◌, drop, take, vec_len};
    ghost use Rattle.gs_bytes.specs.Memory.{Reading};

    ghost Value = { Reading };

    ghost view = { λ u. record {
      left = drop u.at u.bytes.items;
      taken = take u.at u.bytes.items;
      met_end = u.met_end;
    } };

    ghost invariant = { λ u. u.at ≤ vec_len u.bytes };
}

impl Unread {
    ghost use Rattle.gs_bytes.specs.Memory.{unread};

    /// A copy of the bytes, of which nothing is read yet.
    pub fn new(alloc: Global, bytes: &[u8]) -> Result<Unread, OutOfMemory>
        ensures { IfOk result (λ u. u ≡ unread bytes.now) }
    {
        Ok(Unread {
            bytes: Vec::from_slice(alloc, bytes)?,
            at: 0,
            met_end: false,
        })
    }

    /// Moves as many bytes as there are and fit into the front of `into`.
    pub fn read(&mut self, into: &mut [u8]) -> usize
        requires { 0 < length into.old }
        ensures count { result ≡ min (length into.new) (length self.old.left) }
        ensures left { self.old.left ≡ take result into.new ++ self.new.left }
        ensures taken { self.new.taken ≡ self.old.taken ++ take result into.new }
        ensures end { self.new.met_end ≡ (self.old.met_end || (result == 0)) }
    {
        let n = into.len().min(self.bytes.len() - self.at);
        into[..n].copy_from_slice(&self.bytes[self.at..self.at + n]);
        self.at += n;
        self.met_end = self.met_end || n == 0;
        n
    }

    /// The bytes that are left.
    pub fn left(&self) -> &[u8]
        ensures { result.now ≡ self.now.left }
    {
        &self.bytes[self.at..]
    }

    /// Whether a read met the end.
    pub fn met_end(&self) -> bool
        ensures { result ≡ self.now.met_end }
    {
        self.met_end
    }
}
