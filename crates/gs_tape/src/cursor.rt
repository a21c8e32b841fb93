// Fields of a capture file, read from a source.

ghost use Rattle.std.specs.Prelude.{◌≡◌, ◌+◌, ◌^◌, ◌<◌, ◌≤◌, ◌∷◌, [], None, IfErr, IfNone, IfOk, IfSome, IsErrOf};
ghost use Rattle.std.specs.Prelude.{length};
ghost use Rattle.std.specs.Io.KnownBytes.{Consumes, IsAtEnd};
ghost use Rattle.gs_bytes.specs.Outside.{SetsFlag};
ghost use Rattle.gs_reader.specs.Buffered.{to_come};
ghost use Rattle.gs_tape.specs.Errors.{fault_of};
ghost use Rattle.gs_tape.specs.Steps.{field, number, text};
ghost use Rattle.gs_tape.specs.Streaming.{LeavesSource, MeetsSource, ReadsStep};

use crate::error::TapeError;
use bytes::Bytes;
use gs_bytes::{Source, read_u16_le, read_u32_le};
use gs_reader::BufferedReader;
use std::alloc::Global;

/// A reader, and how many bytes it handed on.
#[derive(Drop)]
pub struct Cursor {
    pub alloc: Global,
    pub reader: BufferedReader,
    pub place: u64,
}

impl Cursor {
    // At the start of a file.
    pub fn new(alloc: Global) -> Cursor
        ensures held { result.reader ≡ [] }
        ensures place { result.place ≡ 0 }
    {
        Cursor {
            alloc,
            reader: BufferedReader::new(alloc),
            place: 0,
        }
    }

    // The next byte, None exactly at the end.
    pub fn byte<S: Source>(&mut self, source: &mut S) -> Result<Option<u8>, TapeError>
        requires { self.old.place + 1 < 2 ^ 64 }
        ensures byte { IfOk result (λ next. IfSome next (λ b.
            Consumes (to_come self.old.reader (S.left source.old)) (to_come self.new.reader (S.left source.new))
            (b ∷ []))) }
        ensures none { IfOk result (λ next. IfNone next (IsAtEnd (to_come self.old.reader (S.left source.old)))) }
        ensures place { IfOk result (λ next. IfSome next (λ _. self.new.place ≡ self.old.place + 1)) }
        ensures kept { self.new.place ≤ self.old.place + 1 }
        ensures unknown { IfErr result (λ e. fault_of e ≡ None) }
        ensures stopped { IfErr result (λ e. e ≡ TapeError.TapeFault
            → Consumes (to_come self.old.reader (S.left source.old)) (to_come self.new.reader (S.left source.new)) []) }
        ensures spent { IsErrOf result TapeError.TapeFault → self.new.reader ≡ [] }
        ensures meets { MeetsSource (S.faults source.old) (S.faults source.new) (S.written source.old)
            (S.written source.new) result }
        ensures end { IfOk result (λ next. IfNone next (IsAtEnd (S.left source.new))) }
        ensures met_end { IfOk result (λ next. IfNone next (SetsFlag (S.met_end source.old) (S.met_end source.new))) }
        ensures source { IfOk result (λ next.
            IfSome next (λ b. LeavesSource (S.faults source.old) (S.faults source.new) (S.met_end source.old)
            (S.met_end source.new) (S.written source.old) (S.written source.new) result)) }
    {
        let next = self.reader.next_byte(source)?;
        if next.is_some() {
            self.place += 1;
        }
        Ok(next)
    }

    // The bytes of a field.
    pub fn take<S: Source>(&mut self, source: &mut S, n: usize) -> Result<Bytes, TapeError>
        requires { self.old.place + n < 2 ^ 64 }
        ensures read { ReadsStep (field n) (to_come self.old.reader (S.left source.old))
            (to_come self.new.reader (S.left source.new)) self.old.place self.new.place result }
        ensures spent { IsErrOf result TapeError.TapeFault → self.new.reader ≡ [] }
        ensures place { self.new.place ≤ self.old.place + n }
        ensures long { IfOk result (λ bytes. length bytes ≡ n) }
        ensures source { LeavesSource (S.faults source.old) (S.faults source.new) (S.met_end source.old)
            (S.met_end source.new) (S.written source.old) (S.written source.new) result }
    {
        let bytes = self.reader.take(source, n)?;
        self.place += bytes.len() as u64;
        if bytes.len() < n {
            return Err(TapeError::BadTape {
                kind: 6,
                place: self.place,
            });
        }
        Ok(bytes)
    }

    // A number of four bytes.
    pub fn u32<S: Source>(&mut self, source: &mut S) -> Result<u32, TapeError>
        requires { self.old.place + 4 < 2 ^ 64 }
        ensures read { ReadsStep (number 4) (to_come self.old.reader (S.left source.old))
            (to_come self.new.reader (S.left source.new)) self.old.place self.new.place result }
        ensures spent { IsErrOf result TapeError.TapeFault → self.new.reader ≡ [] }
        ensures place { self.new.place ≤ self.old.place + 4 }
        ensures source { LeavesSource (S.faults source.old) (S.faults source.new) (S.met_end source.old)
            (S.met_end source.new) (S.written source.old) (S.written source.new) result }
    {
        let bytes = self.take(source, 4)?;
        Ok(read_u32_le(bytes.as_slice(), 0))
    }

    // A number of two bytes.
    pub fn u16<S: Source>(&mut self, source: &mut S) -> Result<u16, TapeError>
        requires { self.old.place + 2 < 2 ^ 64 }
        ensures read { ReadsStep (number 2) (to_come self.old.reader (S.left source.old))
            (to_come self.new.reader (S.left source.new)) self.old.place self.new.place result }
        ensures spent { IsErrOf result TapeError.TapeFault → self.new.reader ≡ [] }
        ensures place { self.new.place ≤ self.old.place + 2 }
        ensures source { LeavesSource (S.faults source.old) (S.faults source.new) (S.met_end source.old)
            (S.met_end source.new) (S.written source.old) (S.written source.new) result }
    {
        let bytes = self.take(source, 2)?;
        Ok(read_u16_le(bytes.as_slice(), 0))
    }

    // A number of one byte.
    pub fn u8<S: Source>(&mut self, source: &mut S) -> Result<u8, TapeError>
        requires { self.old.place + 1 < 2 ^ 64 }
        ensures read { ReadsStep (number 1) (to_come self.old.reader (S.left source.old))
            (to_come self.new.reader (S.left source.new)) self.old.place self.new.place result }
        ensures spent { IsErrOf result TapeError.TapeFault → self.new.reader ≡ [] }
        ensures place { self.new.place ≤ self.old.place + 1 }
        ensures source { LeavesSource (S.faults source.old) (S.faults source.new) (S.met_end source.old)
            (S.met_end source.new) (S.written source.old) (S.written source.new) result }
    {
        let bytes = self.take(source, 1)?;
        Ok(bytes.as_slice()[0])
    }

    // Bytes that must stand there.
    pub fn text<S: Source>(&mut self, source: &mut S, bytes: &[u8]) -> Result<(), TapeError>
        requires { self.old.place + length bytes.now < 2 ^ 64 }
        ensures read { ReadsStep (text bytes.now) (to_come self.old.reader (S.left source.old))
            (to_come self.new.reader (S.left source.new)) self.old.place self.new.place result }
        ensures spent { IsErrOf result TapeError.TapeFault → self.new.reader ≡ [] }
        ensures place { self.new.place ≤ self.old.place + length bytes.now }
        ensures source { LeavesSource (S.faults source.old) (S.faults source.new) (S.met_end source.old)
            (S.met_end source.new) (S.written source.old) (S.written source.new) result }
    {
        for expected in bytes {
            let place = self.place;
            let Some(byte) = self.byte(source)? else {
                return Err(TapeError::BadTape { kind: 6, place });
            };
            if byte != *expected {
                return Err(TapeError::BadTape { kind: 1, place });
            }
        }
        Ok(())
    }
}
