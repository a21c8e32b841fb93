//! A buffered reader over any source.

ghost use Rattle.std.specs.Prelude.{◌≡◌, ◌≢◌, ◌<◌, ◌≤◌, ◌+◌, ◌∷◌, ◌++◌, ◌==◌, [], true, false, not, IfNone, IfOk};
ghost use Rattle.std.specs.Prelude.{IfSome, IsErrOf, OnOk, drop, length, min, take, vec_len};
ghost use Rattle.std.specs.Io.KnownBytes.{Keeps};
ghost use Rattle.gs_reader.specs.Buffered.{HandingOnIsAsTold, HandsOn, HasNothingLeft, IsShort};
ghost use Rattle.gs_bytes.specs.Outside.{KeepsFlag, Rose, SetsFlag};

use crate::piece::{PIECE, read_piece};
use bytes::Bytes;
use gs_bytes::{Failed, Source};
use std::alloc::{AllocError, Global};
use std::marker::Model;

/// Reads a source in pieces of `PIECE` bytes. What is still to come of the source is what the
/// reader holds and then what the source has left, so all reads of one source go through one
/// reader. Contracts see a reader as the bytes that it holds.
#[derive(Drop)]
pub struct BufferedReader {
    alloc: Global,
    held: Bytes,
}

impl Model for BufferedReader {
    ghost use Rattle.std.specs.Prelude.{List, ℕ};

    ghost Value = { List ℕ };

    ghost view = { λ reader. reader.held };
}

impl BufferedReader {
    /// A reader that holds nothing. Takes no memory.
    pub fn new(alloc: Global) -> BufferedReader
        ensures { result ≡ [] }
    {
        BufferedReader {
            alloc,
            held: Bytes::new(),
        }
    }

    /// The bytes that were read and not handed on yet.
    pub fn held(&self) -> &[u8]
        ensures { result.now ≡ self.now }
    {
        self.held.as_slice()
    }

    /// Hands on the first n of the bytes that it holds.
    pub fn advance(&mut self, n: usize)
        requires { n ≤ length self.old }
        ensures { self.new ≡ drop n self.old }
    {
        self.held.advance(n);
    }

    /// Reads a piece where the reader holds nothing, and answers whether it holds something then,
    /// which it doesn't exactly at the end. A piece for which an allocation was refused is lost.
    pub fn fill<S: Source>(&mut self, source: &mut S) -> Result<bool, Failed>
        ensures more { IfOk result (λ more. more ≡ not (length self.new == 0)) }
        ensures bytes { OnOk result (HandsOn self.old self.new (S.left source.old) (S.left source.new)
            (S.taken source.old) (S.taken source.new) []) }
        ensures end { IfOk result (λ more. more ≡ false → HasNothingLeft self.new (S.left source.new)) }
        ensures met_end { IfOk result (λ more. more ≡ false → SetsFlag (S.met_end source.old) (S.met_end source.new)) }
        ensures not_met { IfOk result (λ more. more ≡ true → KeepsFlag (S.met_end source.old) (S.met_end source.new)) }
        ensures written { Keeps (S.written source.old) (S.written source.new) }
        ensures never_falls { S.faults source.old ≤ S.faults source.new }
        ensures fault { IsErrOf result Failed.Fault → Rose (S.faults source.old) (S.faults source.new) }
        ensures none_counted { OnOk result (S.faults source.new ≡ S.faults source.old) }
        ensures short { IsErrOf result Failed.Fault
            → IsShort self.old self.new (S.left source.old) (S.left source.new) (S.taken source.old)
            (S.taken source.new) 1 }
        ensures counted { S.faults source.new ≢ S.faults source.old → result ≡ Err Failed.Fault }
    {
        if !self.held.is_empty() {
            return Ok(true);
        }
        self.held = read_piece(self.alloc, source, PIECE)?;
        Ok(!self.held.is_empty())
    }

    /// Hands on the next byte, None exactly at the end.
    pub fn next_byte<S: Source>(&mut self, source: &mut S) -> Result<Option<u8>, Failed>
        ensures byte { IfOk result (λ next. IfSome next (λ b.
            HandsOn self.old self.new (S.left source.old) (S.left source.new) (S.taken source.old) (S.taken source.new)
            (b ∷ []))) }
        ensures none { IfOk result (λ next. IfNone next (HandsOn self.old self.new (S.left source.old)
            (S.left source.new) (S.taken source.old) (S.taken source.new) [])) }
        ensures end { IfOk result (λ next. IfNone next (HasNothingLeft self.new (S.left source.new))) }
        ensures met_end { IfOk result (λ next. IfNone next (SetsFlag (S.met_end source.old) (S.met_end source.new))) }
        ensures not_met { IfOk result (λ next.
            IfSome next (λ _. KeepsFlag (S.met_end source.old) (S.met_end source.new))) }
        ensures written { Keeps (S.written source.old) (S.written source.new) }
        ensures never_falls { S.faults source.old ≤ S.faults source.new }
        ensures fault { IsErrOf result Failed.Fault → Rose (S.faults source.old) (S.faults source.new) }
        ensures none_counted { OnOk result (S.faults source.new ≡ S.faults source.old) }
        ensures short { IsErrOf result Failed.Fault
            → IsShort self.old self.new (S.left source.old) (S.left source.new) (S.taken source.old)
            (S.taken source.new) 1 }
        ensures counted { S.faults source.new ≢ S.faults source.old → result ≡ Err Failed.Fault }
    {
        if !self.fill(source)? {
            return Ok(None);
        }
        let byte = self.held.as_slice()[0];
        self.held.advance(1);
        Ok(Some(byte))
    }

    /// Hands on the next n bytes, fewer only at the end. Where the reader holds all of them they
    /// are cut out of the piece and share it; else they are gathered once. What was gathered
    /// before a failure is lost.
    pub fn take<S: Source>(&mut self, source: &mut S, n: usize) -> Result<Bytes, Failed>
        ensures most { IfOk result (λ bytes. length bytes ≤ n) }
        ensures bytes { IfOk result (λ bytes. HandsOn self.old self.new (S.left source.old) (S.left source.new)
            (S.taken source.old) (S.taken source.new) bytes) }
        ensures end { IfOk result (λ bytes. length bytes < n → HasNothingLeft self.new (S.left source.new)) }
        ensures met_end { IfOk result (λ bytes. length bytes < n
            → SetsFlag (S.met_end source.old) (S.met_end source.new)) }
        ensures not_met { IfOk result (λ bytes. length bytes ≡ n
            → KeepsFlag (S.met_end source.old) (S.met_end source.new)) }
        ensures written { Keeps (S.written source.old) (S.written source.new) }
        ensures never_falls { S.faults source.old ≤ S.faults source.new }
        ensures fault { IsErrOf result Failed.Fault → Rose (S.faults source.old) (S.faults source.new) }
        ensures none_counted { OnOk result (S.faults source.new ≡ S.faults source.old) }
        ensures short { IsErrOf result Failed.Fault
            → IsShort self.old self.new (S.left source.old) (S.left source.new) (S.taken source.old)
            (S.taken source.new) n }
        ensures counted { S.faults source.new ≢ S.faults source.old → result ≡ Err Failed.Fault }
    {
        if n == 0 {
            return Ok(Bytes::new());
        }
        if !self.fill(source)? {
            return Ok(Bytes::new());
        }
        if n <= self.held.len() {
            return Ok(self.held.split_to(n)?);
        }
        self.gather(source, n)
    }

    // The next n bytes, gathered from pieces.
    fn gather<S: Source>(&mut self, source: &mut S, n: usize) -> Result<Bytes, Failed>
        ensures most { IfOk result (λ bytes. length bytes ≤ n) }
        ensures bytes { IfOk result (λ bytes. HandsOn self.old self.new (S.left source.old) (S.left source.new)
            (S.taken source.old) (S.taken source.new) bytes) }
        ensures end { IfOk result (λ bytes. length bytes < n → HasNothingLeft self.new (S.left source.new)) }
        ensures met_end { IfOk result (λ bytes. length bytes < n
            → SetsFlag (S.met_end source.old) (S.met_end source.new)) }
        ensures not_met { IfOk result (λ bytes. length bytes ≡ n
            → KeepsFlag (S.met_end source.old) (S.met_end source.new)) }
        ensures written { Keeps (S.written source.old) (S.written source.new) }
        ensures never_falls { S.faults source.old ≤ S.faults source.new }
        ensures fault { IsErrOf result Failed.Fault → Rose (S.faults source.old) (S.faults source.new) }
        ensures none_counted { OnOk result (S.faults source.new ≡ S.faults source.old) }
        ensures short { IsErrOf result Failed.Fault
            → IsShort self.old self.new (S.left source.old) (S.left source.new) (S.taken source.old)
            (S.taken source.new) n }
        ensures counted { S.faults source.new ≢ S.faults source.old → result ≡ Err Failed.Fault }
    {
        let mut bytes = Vec::with_capacity(self.alloc, n)?;
        'pieces: while bytes.len() < n {
            if !self.fill(source)? {
                return Ok(Bytes::from_vec(bytes)?);
            }
            let room = n - bytes.len();
            self.move_to(&mut bytes, room)?;
        }
        Ok(Bytes::from_vec(bytes)?)
    }

    // Moves as many of the bytes that it holds as there is room for.
    fn move_to(&mut self, bytes: &mut Vec<u8>, room: usize) -> Result<(), AllocError>
        ensures moved { OnOk result (bytes.new.items ≡ bytes.old.items ++ take room self.old) }
        ensures rest { OnOk result (self.new ≡ drop room self.old) }
        ensures len { OnOk result (vec_len bytes.new ≡ vec_len bytes.old + min room (length self.old)) }
    {
        let n = self.held.len().min(room);
        bytes.extend_from_slice(&self.held.as_slice()[..n])?;
        self.held.advance(n);
        Ok(())
    }
}

/// A law: what a reader hands on is the front of what was to come, where the source tells that.
pub fn handing_on_is_as_told()
    ensures { HandingOnIsAsTold }
{}
