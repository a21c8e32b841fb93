// One read of a source.

ghost use Rattle.std.specs.Prelude.{◌≡◌, ◌≢◌, ◌<◌, ◌≤◌, IfOk, IsErrOf, Ok, OnOk, length};
ghost use Rattle.std.specs.Io.KnownBytes.{Appends, Consumes, IsAtEnd, Keeps};
ghost use Rattle.gs_bytes.specs.Outside.{MeetsEnd, Rose};

use bytes::Bytes;
use gs_bytes::{Failed, Source};
use std::alloc::Global;

/// How many bytes one read asks for.
pub const PIECE: usize = 65_536;

// The bytes of one read that asks for so many, none only at the end. Bytes for which an allocation was
// refused are lost.
pub fn read_piece<S: Source>(alloc: Global, source: &mut S, most: usize) -> Result<Bytes, Failed>
    requires { 0 < most }
    ensures left { IfOk result (λ bytes. Consumes (S.left source.old) (S.left source.new) bytes) }
    ensures taken { IfOk result (λ bytes. Appends (S.taken source.old) (S.taken source.new) bytes) }
    ensures end { IfOk result (λ bytes. length bytes ≡ 0 → IsAtEnd (S.left source.new)) }
    ensures met_end { IfOk result (λ bytes. MeetsEnd (S.met_end source.old) (S.met_end source.new)
        (Ok (length bytes))) }
    ensures written { Keeps (S.written source.old) (S.written source.new) }
    ensures left_at_fault { IsErrOf result Failed.Fault → Keeps (S.left source.old) (S.left source.new) }
    ensures taken_at_fault { IsErrOf result Failed.Fault → Keeps (S.taken source.old) (S.taken source.new) }
    ensures never_falls { S.faults source.old ≤ S.faults source.new }
    ensures fault { IsErrOf result Failed.Fault → Rose (S.faults source.old) (S.faults source.new) }
    ensures none_counted { OnOk result (S.faults source.new ≡ S.faults source.old) }
    ensures counted { S.faults source.new ≢ S.faults source.old → result ≡ Err Failed.Fault }
{
    let mut piece = vec![in alloc; 0u8; most]?;
    let n = source.read(&mut piece)?;
    piece.truncate(n);
    let bytes = Bytes::from_vec(piece)?;
    Ok(bytes)
}
