//! The bytes of a picture or of sound.

ghost use Rattle.std.specs.Prelude.{◌≡◌, ◌==◌, IfOk, length, nat_eq};
ghost use Rattle.std.specs.Cmp.{partial_equiv_from_equiv};
ghost use Rattle.std.specs.Cmp.Lexicographic.{nat_list_eq_equiv, pointwise};

use bytes::Bytes;
use gs_bytes::OutOfMemory;
use std::alloc::{AllocError, Global};
use std::marker::Model;

/// A unit, which a contract sees as the list of its bytes. A clone shares them and copies none.
#[derive(Debug, Drop)]
pub struct Unit {
    bytes: Bytes,
}

impl Model for Unit {
    ghost use Rattle.std.specs.Prelude.{List, ℕ};

    ghost Value = { List ℕ };

    ghost view = { λ unit. unit.bytes };
}

impl Unit {
    /// A unit of these bytes, which it shares.
    pub fn from_bytes(bytes: Bytes) -> Unit
        ensures { result ≡ bytes }
    {
        Unit { bytes }
    }

    /// A unit of a copy of the bytes.
    pub fn copy_of(alloc: Global, bytes: &[u8]) -> Result<Unit, OutOfMemory>
        ensures { IfOk result (λ unit. unit ≡ bytes.now) }
    {
        Ok(Unit {
            bytes: Bytes::copy_from_slice(alloc, bytes)?,
        })
    }

    /// The bytes.
    pub fn as_bytes(&self) -> &[u8]
        ensures { result.now ≡ self.now }
    {
        self.bytes.as_slice()
    }

    /// The number of bytes.
    pub fn len(&self) -> usize
        ensures { result ≡ length self.now }
    {
        self.bytes.len()
    }

    /// Whether there is no byte.
    pub fn is_empty(&self) -> bool
        ensures { result ≡ (length self.now == 0) }
    {
        self.bytes.is_empty()
    }
}

impl Clone for Unit {
    ghost is_clone = { λ unit copy. copy ≡ unit };

    fn clone(&self) -> Result<Unit, AllocError> {
        Ok(Unit {
            bytes: self.bytes.clone()?,
        })
    }
}

impl PartialEq for Unit {
    ghost eq = { pointwise nat_eq };

    ghost laws = { partial_equiv_from_equiv nat_list_eq_equiv };

    fn eq(&self, other: &Unit) -> bool {
        self.as_bytes() == other.as_bytes()
    }
}

impl Eq for Unit {
    ghost laws = { nat_list_eq_equiv };
}
