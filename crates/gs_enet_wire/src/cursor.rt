//! Bytes that are read from the front.

ghost use Rattle.std.specs.Prelude.{◌≡◌, ◌==◌, ◌<◌, ◌+◌, ◌++◌, [], ◌∷◌, length, IfOk, OnOk, OnErr, IsErrOf};
ghost use Rattle.gs_enet_wire.specs.Grammar.{u8, u16, u32, field_bytes};
ghost use Rattle.gs_enet_wire.specs.Reading.{TakesFields};

use gs_bytes::{OutOfMemory, Text, read_u16_be, read_u32_be};
use std::alloc::Global;
use std::marker::Model;

/// Why a reader gave up.
#[derive(Clone, Copy, Debug, PartialEq, Eq)]
pub enum ReadError {
    /// The bytes don't begin with what was to be read.
    Malformed,
    OutOfMemory,
}

impl From<OutOfMemory> for ReadError {
    ghost use Rattle.std.specs.Prelude.{◌≡◌};
    ghost use Rattle.gs_enet_wire.specs.declared.cursor.ReadError.TheVariants.{OutOfMemory};

    ghost from_gives = { λ _ e. e ≡ OutOfMemory };

    fn from(_refused: OutOfMemory) -> ReadError {
        ReadError::OutOfMemory
    }
}

/// The bytes that are left to read, which a contract sees as the list of them.
#[derive(Drop)]
pub struct Cursor<'a> {
    rest: &'a [u8],
}

impl<'a> Model for Cursor<'a> {
    ghost use Rattle.std.specs.Prelude.{List, ℕ};

    ghost Value = { List ℕ };

    ghost view = { λ cursor. cursor.rest.now };
}

/// The number that those two bytes spell.
fn u16_of(field: &[u8]) -> u16
    requires { length field.now ≡ 2 }
    ensures { field_bytes (u16 result) ≡ field.now }
{
    read_u16_be(field, 0)
}

/// The number that those four bytes spell.
fn u32_of(field: &[u8]) -> u32
    requires { length field.now ≡ 4 }
    ensures { field_bytes (u32 result) ≡ field.now }
{
    read_u32_be(field, 0)
}

impl<'a> Cursor<'a> {
    pub fn new(rest: &'a [u8]) -> Cursor<'a>
        ensures { result ≡ rest.now }
    {
        Cursor { rest }
    }

    pub fn len(&self) -> usize
        ensures { result ≡ length self.now }
    {
        self.rest.len()
    }

    /// The next bytes, that many.
    pub fn take(&mut self, count: usize) -> Result<&'a [u8], ReadError>
        ensures taken { IfOk result (λ front. self.old ≡ front.now ++ self.new) }
        ensures count { IfOk result (λ front. length front.now ≡ count) }
        ensures cut { OnErr result (length self.old < count) }
    {
        let Some((front, rest)) = self.rest.split_at_checked(count) else {
            return Err(ReadError::Malformed);
        };
        self.rest = rest;
        Ok(front)
    }

    /// A copy of the next bytes, that many.
    pub fn text(&mut self, alloc: Global, count: u16) -> Result<Text, ReadError>
        ensures taken { IfOk result (λ text. self.old ≡ text ++ self.new) }
        ensures count { IfOk result (λ text. length text ≡ count) }
        ensures cut { IsErrOf result ReadError.Malformed → length self.old < count }
    {
        let front = self.take(usize::from(count))?;
        Ok(Text::copy_of(alloc, front)?)
    }

    pub fn u8(&mut self) -> Result<u8, ReadError>
        ensures taken { IfOk result (λ n. TakesFields (u8 n ∷ []) self.old self.new) }
        ensures count { OnOk result (length self.old ≡ length self.new + 1) }
        ensures cut { OnErr result (length self.old < 1) }
    {
        let front = self.take(1)?;
        Ok(front[0])
    }

    pub fn u16(&mut self) -> Result<u16, ReadError>
        ensures taken { IfOk result (λ n. TakesFields (u16 n ∷ []) self.old self.new) }
        ensures count { OnOk result (length self.old ≡ length self.new + 2) }
        ensures cut { OnErr result (length self.old < 2) }
    {
        let front = self.take(2)?;
        Ok(u16_of(front))
    }

    pub fn u32(&mut self) -> Result<u32, ReadError>
        ensures taken { IfOk result (λ n. TakesFields (u32 n ∷ []) self.old self.new) }
        ensures count { OnOk result (length self.old ≡ length self.new + 4) }
        ensures cut { OnErr result (length self.old < 4) }
    {
        let front = self.take(4)?;
        Ok(u32_of(front))
    }
}
