//! The names of references: `Namespace.Name`, or `Enclosing+Name` (ECMA-335 II.22.38).
ghost use Rattle.std.specs.Prelude.{◌≡◌, ◌++◌, [], IfOk, OnOk};
ghost use Rattle.ty_load.specs.Refusals.{around, is_nested_reference as is_nested_in, nested_text, own_text};
ghost use Rattle.ty_load.specs.Refusals.{reference_text};
ghost use Rattle.ty_names.specs.TypeTexts.{in_encloser};
ghost use Rattle.ty_names.specs.Modules.{row_count as count_in};

use indexmap::IndexSet;
use md_tables::Table;
use num_core::{Bytes, List, Memory};
use std::alloc::Global;
use ty_names::{coded_at, name_at, push_qualified, push_type_name, row_count};

/// Whether a reference is nested in another.
fn is_nested_reference(tables: &[Table], row: u32) -> bool
    ensures { result ≡ is_nested_in tables.now row }
{
    let scope = coded_at(tables, 0x01, row, 0);
    scope.table == 0x01 && 1 <= scope.row
}

/// A reference and those around it, from the inside, up to one that isn't nested or is there already.
fn rows_around(alloc: Global, tables: &[Table], row: u32) -> Result<IndexSet<u32>, Memory>
    ensures { IfOk result (λ rows. rows.keys ≡ around (count_in tables.now 0x01) tables.now [] row) }
{
    let mut rows = IndexSet::new(alloc);
    let mut next = row;
    let mut left = row_count(tables, 0x01);
    while 0 < left {
        if rows.contains(&next) {
            return Ok(rows);
        }
        rows.insert(next)?;
        if !is_nested_reference(tables, next) {
            return Ok(rows);
        }
        next = coded_at(tables, 0x01, next, 0).row;
        left -= 1;
    }
    Ok(rows)
}

/// Adds the name of a reference without those around it.
fn push_own(alloc: Global, text: &mut Bytes, tables: &[Table], row: u32) -> Result<(), Memory>
    ensures { OnOk result (text.new ≡ text.old ++ own_text tables.now row) }
{
    let name = name_at(tables, 0x01, row, 1);
    if is_nested_reference(tables, row) {
        push_type_name(alloc, text, name)
    } else {
        push_qualified(alloc, text, name_at(tables, 0x01, row, 2), name)
    }
}

/// Puts the name of a reference behind that of the one around it, if there is one.
fn push_nested(alloc: Global, text: &mut Bytes, tables: &[Table], row: u32) -> Result<(), Memory>
    ensures { OnOk result (text.new ≡ in_encloser text.old (own_text tables.now row)) }
{
    if !text.is_empty() {
        text.extend_from_slice(b"+")?;
    }
    push_own(alloc, text, tables, row)
}

/// The name of references, each nested in the one behind it.
fn nested(alloc: Global, tables: &[Table], rows: &[u32]) -> Result<Bytes, Memory>
    ensures { IfOk result (λ text. text ≡ nested_text tables.now rows.now) }
{
    let mut text = List::new(alloc);
    let mut left = rows.len();
    while 0 < left {
        push_nested(alloc, &mut text, tables, rows[left - 1])?;
        left -= 1;
    }
    Ok(text)
}

/// Adds the name of a row of TypeRef, with those of the references around it.
pub fn push_reference(
    alloc: Global,
    text: &mut Bytes,
    tables: &[Table],
    row: u32,
) -> Result<(), Memory>
    ensures { OnOk result (text.new ≡ text.old ++ reference_text tables.now row) }
{
    let rows = rows_around(alloc, tables, row)?;
    let name = nested(alloc, tables, rows.as_slice())?;
    text.extend_from_slice(name.as_slice())
}
