//! The texts of fields.
ghost use Rattle.std.specs.Prelude.{◌≡◌, ◌++◌, ◌==◌, ◌&&◌, Some, not, IfOk, OnOk};
ghost use Rattle.std.specs.Str.{bytes_eq};
ghost use Rattle.ty_load.specs.Texts as texts;
ghost use Rattle.ty_names.specs.Definitions.{fields_of};
ghost use Rattle.ty_names.specs.Modules.{tables_at};

use crate::put::{push, push_row_if};
use crate::rows::{run_begin, run_count};
use crate::types::push_type;
use num_core::{Bytes, List, Memory};
use std::alloc::Global;
use ty_load::Names;
use ty_names::{field_name, push_name};
use ty_terms::{FieldName, Ty, TypeId};

/// Adds the text of a field of a type whose definition is known, without a row behind it.
fn push_plain_field(
    names: &Names,
    alloc: Global,
    text: &mut Bytes,
    owner: &Ty,
    id: TypeId,
    row: u32,
) -> Result<(), Memory>
    ensures { OnOk result (text.new ≡ text.old ++ texts.plain_field_text names.now owner.now (Some id) row) }
{
    push_type(names, alloc, text, owner)?;
    push(text, b"::")?;
    push_name(alloc, text, field_name(names.tables(id.module), row))
}

/// Whether a field is another than that of a row, and has this text.
fn has_text(
    names: &Names,
    alloc: Global,
    owner: &Ty,
    id: TypeId,
    other: u32,
    row: u32,
    own: &[u8],
) -> Result<bool, Memory>
    ensures { IfOk result (λ has. has ≡ (not (other == row)
        && bytes_eq (texts.plain_field_text names.now owner.now (Some id) other) own.now)) }
{
    if other == row {
        return Ok(false);
    }
    let mut text = List::new(alloc);
    push_plain_field(names, alloc, &mut text, owner, id, other)?;
    Ok(text.as_slice() == own)
}

/// Whether another field of a type has the text of one.
fn has_same_field(
    names: &Names,
    alloc: Global,
    owner: &Ty,
    id: TypeId,
    row: u32,
    own: &[u8],
) -> Result<bool, Memory>
    requires { own.now ≡ texts.plain_field_text names.now owner.now (Some id) row }
    ensures { IfOk result (λ has. has ≡ texts.has_same (texts.plain_field_text names.now owner.now (Some id))
        (fields_of (tables_at names.now id.module) id.row) row) }
{
    let begin = run_begin(names, id, 4);
    for k in 0..run_count(names, id, 4, names.field_count(id.module)) {
        if has_text(names, alloc, owner, id, begin + k, row, own)? {
            return Ok(true);
        }
    }
    Ok(false)
}

/// Adds the text of a field: `Type::name`, with `#` and the row where another field of its type has the same text.
pub fn push_field(
    names: &Names,
    alloc: Global,
    text: &mut Bytes,
    field: &FieldName,
) -> Result<(), Memory>
    ensures { OnOk result (text.new ≡ text.old ++ texts.field_text names.now field.now) }
{
    let Some(id) = names.definition_of(alloc, &field.owner)? else {
        return Ok(());
    };
    let mut own = List::new(alloc);
    push_plain_field(names, alloc, &mut own, &field.owner, id, field.row)?;
    let again = has_same_field(names, alloc, &field.owner, id, field.row, own.as_slice())?;
    push_row_if(&mut own, again, field.row)?;
    push(text, own.as_slice())
}
