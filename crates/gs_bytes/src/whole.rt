//! Whole texts through the traits.

ghost use Rattle.std.specs.Prelude.{◌≡◌, ◌≢◌, ◌<◌, ◌≤◌, IfOk, IfSome, IsErrOf, OnErr, OnOk, length, take};
ghost use Rattle.std.specs.Io.KnownBytes.{Appends, Consumes, IsAtEnd, Keeps};
ghost use Rattle.gs_bytes.specs.Outside.{AppendsPart, KeepsFlag, Rose, SetsFlag};
ghost use Rattle.gs_bytes.specs.Told.{outside_told, TakesUpTo};

use crate::{Failed, Sink, Source, Text};
use std::alloc::Global;

/// How many bytes one read asks for at most.
const CHUNK: usize = 4096;

/// Writes all of the bytes, in as many writes as it takes. Where one fails or takes nothing, a
/// part of the bytes was written.
pub fn write_all<K: Sink>(out: &mut K, bytes: &[u8]) -> Result<(), Failed>
    ensures ok { OnOk result (Appends (K.written out.old) (K.written out.new) bytes.now) }
    ensures err { OnErr result (AppendsPart (K.written out.old) (K.written out.new) bytes.now) }
    ensures left { Keeps (K.left out.old) (K.left out.new) }
    ensures taken { Keeps (K.taken out.old) (K.taken out.new) }
    ensures end { KeepsFlag (K.met_end out.old) (K.met_end out.new) }
    ensures never_falls { K.faults out.old ≤ K.faults out.new }
    ensures fault { IsErrOf result Failed.Fault → Rose (K.faults out.old) (K.faults out.new) }
    ensures none_counted { OnOk result (K.faults out.new ≡ K.faults out.old) }
    ensures counted { K.faults out.new ≢ K.faults out.old → result ≡ Err Failed.Fault }
{
    let mut at = 0;
    while at < bytes.len() {
        let n = out.write(&bytes[at..])?;
        if n == 0 {
            return Err(Failed::Fault);
        }
        at += n;
    }
    Ok(())
}

/// Reads until the end, or until `most` bytes came. Memory for a read is
/// taken before it. What was read before a failure is lost.
pub fn read_up_to<S: Source>(alloc: Global, source: &mut S, most: usize) -> Result<Text, Failed>
    ensures bound { IfOk result (λ text. length text ≤ most) }
    ensures first { IfOk result (λ text. IfSome (S.left source.old) (λ xs. text ≡ take most xs)) }
    ensures whole { IfOk result (λ text. length text < most → IfSome (S.left source.old) (λ xs. text ≡ xs)) }
    ensures left { IfOk result (λ text. Consumes (S.left source.old) (S.left source.new) text) }
    ensures taken { IfOk result (λ text. Appends (S.taken source.old) (S.taken source.new) text) }
    ensures at_end { IfOk result (λ text. length text < most → IsAtEnd (S.left source.new)) }
    ensures met_end { IfOk result (λ text. length text < most
        → SetsFlag (S.met_end source.old) (S.met_end source.new)) }
    ensures not_met { IfOk result (λ text. length text ≡ most
        → KeepsFlag (S.met_end source.old) (S.met_end source.new)) }
    ensures err { OnErr result
        (TakesUpTo most (outside_told S.Outside source.old) (outside_told S.Outside source.new)) }
    ensures err_end { OnErr result (KeepsFlag (S.met_end source.old) (S.met_end source.new)) }
    ensures written { Keeps (S.written source.old) (S.written source.new) }
    ensures never_falls { S.faults source.old ≤ S.faults source.new }
    ensures fault { IsErrOf result Failed.Fault → Rose (S.faults source.old) (S.faults source.new) }
    ensures none_counted { OnOk result (S.faults source.new ≡ S.faults source.old) }
    ensures counted { S.faults source.new ≢ S.faults source.old → result ≡ Err Failed.Fault }
{
    let mut text = Vec::new(alloc);
    let mut chunk = [0u8; CHUNK];
    'reads: while text.len() < most {
        let room = CHUNK.min(most - text.len());
        text.reserve(room)?;
        let n = source.read(&mut chunk[..room])?;
        if n == 0 {
            return Ok(Text::from_vec(text));
        }
        text.extend_from_slice(&chunk[..n])?;
    }
    Ok(Text::from_vec(text))
}
