//! Headers whose value is a number.

ghost use Rattle.std.specs.Prelude.{◌≡◌, ◌++◌, ◌∷◌, [], IfOk, OnOk};
ghost use Rattle.gs_rtsp.specs.Fields.{field_header as field_header_of};

use crate::field::Field;
use gs_bytes::{OutOfMemory, Text};
use gs_rtsp_text::Header;
use std::alloc::Global;

/// The header of a number.
pub(crate) fn field_header(alloc: Global, field: Field, number: u32) -> Result<Header, OutOfMemory>
    ensures { IfOk result (λ header. header ≡ field_header_of field number) }
{
    let name = Text::copy_of(alloc, field.name())?;
    let value = field.write(alloc, number)?;
    Ok(Header { name, value })
}

/// Puts the header of a number behind others.
pub(crate) fn push_field(
    alloc: Global,
    headers: &mut Vec<Header>,
    field: Field,
    number: u32,
) -> Result<(), OutOfMemory>
    ensures { OnOk result (headers.new.items ≡ headers.old.items ++ field_header_of field number ∷ []) }
{
    headers.push(field_header(alloc, field, number)?)?;
    Ok(())
}
