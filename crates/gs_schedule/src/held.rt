//! What was read of a source ahead of its use.

ghost use Rattle.std.specs.Prelude.{◌≡◌, ◌≢◌, ◌≤◌, ◌<◌, ◌+◌, Err, IfOk, IsErrOf, IsTrue, OnErr, OnOk, drop, false};
ghost use Rattle.std.specs.Prelude.{length, true, ⊤};
ghost use Rattle.std.specs.Io.KnownBytes.{IsAtEnd, Keeps, prepend_known};
ghost use Rattle.gs_bytes.specs.Outside.{KeepsFlag, Rose, SetsFlag};

use gs_bytes::{Failed, Source};
use gs_reader::PIECE;
use std::alloc::{AllocError, Global};
use std::marker::Model;

/// Bytes that were read and not yet used.
#[derive(Debug, Drop)]
pub struct Held {
    alloc: Global,
    bytes: Vec<u8>,
    at: usize,
}

impl Model for Held {
    ghost use Rattle.std.specs.Prelude.{◌≤◌, ℕ, List, drop, vec_len};

    ghost Value = { List ℕ };

    ghost view = { λ h. drop h.at h.bytes.items };

    ghost invariant = { λ h. h.at ≤ vec_len h.bytes };
}

impl Held {
    ghost use Rattle.std.specs.Prelude.{[]};

    /// Nothing.
    pub fn new(alloc: Global) -> Held
        ensures { result ≡ [] }
    {
        Held {
            alloc,
            bytes: Vec::new(alloc),
            at: 0,
        }
    }

    /// The bytes.
    pub fn bytes(&self) -> &[u8]
        ensures { result.now ≡ self.now }
    {
        &self.bytes[self.at..]
    }

    /// Lets the first of them go.
    pub fn skip(&mut self, count: usize)
        requires { count ≤ length self.old }
        ensures { self.new ≡ drop count self.old }
    {
        self.at += count;
    }

    /// Reads once, and answers whether the source gave more, which is false at its end. A read that
    /// fails leaves all as it was.
    pub fn fill<S: Source>(&mut self, source: &mut S) -> Result<bool, Failed>
        // What is held, and then what the source has left, is what is to come.
        ensures to_come { Keeps (prepend_known self.old (S.left source.old))
            (prepend_known self.new (S.left source.new)) }
        ensures more { IfOk result (λ more. more ≡ true → length self.old < length self.new) }
        ensures end { IfOk result (λ more. more ≡ false → IsAtEnd (S.left source.new)) }
        ensures met_end { IfOk result (λ more. more ≡ false → SetsFlag (S.met_end source.old) (S.met_end source.new)) }
        ensures not_met { IfOk result (λ more. more ≡ true → KeepsFlag (S.met_end source.old) (S.met_end source.new)) }
        ensures kept { IfOk result (λ more. more ≡ false → self.new ≡ self.old) }
        ensures err { OnErr result (self.new ≡ self.old) }
        ensures err_not_met { OnErr result (KeepsFlag (S.met_end source.old) (S.met_end source.new)) }
        ensures written { Keeps (S.written source.old) (S.written source.new) }
        ensures never_falls { S.faults source.old ≤ S.faults source.new }
        ensures fault { IsErrOf result Failed.Fault → Rose (S.faults source.old) (S.faults source.new) }
        ensures none_counted { OnOk result (S.faults source.new ≡ S.faults source.old) }
        ensures counted { S.faults source.new ≢ S.faults source.old → result ≡ Err Failed.Fault }
    {
        let mut bytes = Vec::from_slice(self.alloc, self.bytes())?;
        let start = bytes.len();
        bytes.resize(start + PIECE, 0)?;
        let count = source.read(&mut bytes[start..])?;
        bytes.truncate(start + count);
        self.bytes = bytes;
        self.at = 0;
        Ok(count > 0)
    }
}
