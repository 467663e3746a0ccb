//! The types of a module, found by their names.
ghost use Rattle.std.specs.Prelude.{◌≡◌, ◌+◌, ◌<◌, ◌^◌, ℕ, length, slice_index, true, IfOk, OnOk, find};
ghost use Rattle.std.specs.Prelude.{option_copied};
ghost use Rattle.ty_names.specs.Definitions.{enclosing as enclosing_in, generic_count, is_nested_row, type_count};
ghost use Rattle.ty_names.specs.Modules.{rows as rows_in};
ghost use Rattle.ty_load.specs.Counting.{has_numbers};
ghost use Rattle.ty_load.specs.Implements.{indexes_in};
ghost use Rattle.ty_load.specs.Named.{IsTypeTable};
ghost use Rattle.ty_names.specs.References.{type_row};
ghost use Rattle.ty_load.specs.TypeKeys.{TellType, TellTypes, row_in};

use crate::cells::index_of;
use crate::interfaces::interfaces_by_type;
use crate::parameters::{parameter_counts, parameters_among};
use indexmap::IndexMap;
use md_tables::{Table, TableRow};
use num_core::{List, Memory};
use std::alloc::Global;
use ty_names::{RowOf, enclosers, rows, type_name, type_namespace};

/// A key of a type: the row of the type around it or 0, its namespace and its name.
type TypeKey = (u32, Vec<u8>, Vec<u8>);

/// The types of a module: the row of the type around each or 0, how many generic parameters each has, their rows by
/// their keys, and the interfaces that each names.
#[derive(Drop)]
pub(crate) struct TypeTable {
    outer: List<u32>,
    parameters: List<u32>,
    rows: IndexMap<TypeKey, u32>,
    interfaces: IndexMap<u32, Vec<RowOf>>,
}

/// The key of these parts.
fn type_key(alloc: Global, outer: u32, namespace: &[u8], name: &[u8]) -> Result<TypeKey, Memory>
    ensures around { IfOk result (λ key. key.0 ≡ outer) }
    ensures space { IfOk result (λ key. key.1.items ≡ namespace.now) }
    ensures named { IfOk result (λ key. key.2.items ≡ name.now) }
{
    let namespace = Vec::from_slice(alloc, namespace)?;
    let name = Vec::from_slice(alloc, name)?;
    Ok((outer, namespace, name))
}

/// Notes the row of a type, in place of that of a type with the same key.
fn note_type(
    rows: &mut IndexMap<TypeKey, u32>,
    alloc: Global,
    tables: &[Table],
    outer: u32,
    row: u32,
) -> Result<(), Memory>
    requires { outer ≡ enclosing_in tables.now row }
    ensures { OnOk result (TellType tables.now row rows.old.entries rows.new.entries) }
{
    let key = type_key(
        alloc,
        outer,
        type_namespace(tables, row),
        type_name(tables, row),
    )?;
    rows.insert(key, row)?;
    Ok(())
}

/// The rows of the types of a module by their keys, of several types with one key the first.
fn type_rows(
    alloc: Global,
    tables: &[Table],
    outer: &[u32],
) -> Result<IndexMap<TypeKey, u32>, Memory>
    requires count { length outer.now ≡ type_count tables.now }
    requires nested { (k : ℕ) → k < type_count tables.now → slice_index outer.now k ≡ enclosing_in tables.now (k + 1) }
    requires size { type_count tables.now < 2 ^ 32 }
    ensures { IfOk result (λ rows. TellTypes tables.now rows.entries) }
{
    let mut rows = IndexMap::new(alloc);
    let mut left = outer.len();
    while 0 < left {
        note_type(&mut rows, alloc, tables, outer[left - 1], left as u32)?;
        left -= 1;
    }
    Ok(rows)
}

/// The table of the types of a module.
pub(crate) fn type_table(alloc: Global, tables: &[Table]) -> Result<TypeTable, Memory>
    requires { has_numbers tables.now ≡ true }
    ensures { IfOk result (IsTypeTable tables.now) }
{
    let outer = enclosers(alloc, tables)?;
    let parameters = parameter_counts(alloc, tables)?;
    let named = type_rows(alloc, tables, outer.as_slice())?;
    let interfaces = interfaces_by_type(alloc, rows(tables, 0x09))?;
    Ok(TypeTable {
        outer,
        parameters,
        rows: named,
        interfaces,
    })
}

/// The first type of a module with these parts of a key.
pub(crate) fn row_named(
    table: &TypeTable,
    alloc: Global,
    outer: u32,
    namespace: &[u8],
    name: &[u8],
) -> Result<Option<u32>, Memory>
    ensures { IfOk result (λ row. row ≡ row_in table.now.rows.entries outer namespace.now name.now) }
{
    let key = type_key(alloc, outer, namespace, name)?;
    Ok(table.rows.get(&key).copied())
}

/// The first row of NestedClass that has a type, by going through all of them.
fn nested_row(tables: &[Table], row: u32) -> Option<&TableRow>
    ensures { option_copied result ≡ find (is_nested_row row) (rows_in tables.now 0x29) }
{
    rows(tables, 0x29)
        .iter()
        .find(|nested| index_of(nested, 0) == row)
}

/// The row of the type around a type or 0, by going through all nested types.
fn outer_among(tables: &[Table], row: u32) -> u32
    ensures { result ≡ enclosing_in tables.now row }
{
    match nested_row(tables, row) {
        Some(nested) => index_of(nested, 1),
        None => 0,
    }
}

/// The row of the type around a type, or 0.
pub(crate) fn outer_of(table: &TypeTable, tables: &[Table], row: u32) -> u32
    requires { IsTypeTable tables.now table.now }
    ensures { result ≡ enclosing_in tables.now row }
{
    let at = row as usize;
    if 1 <= at && at <= table.outer.len() {
        table.outer.as_slice()[at - 1]
    } else {
        outer_among(tables, row)
    }
}

/// How many generic parameters a type has.
pub(crate) fn parameters_of(table: &TypeTable, tables: &[Table], row: u32) -> u32
    requires { IsTypeTable tables.now table.now }
    ensures { result ≡ generic_count tables.now 0x02 row }
{
    let at = row as usize;
    if 1 <= at && at <= table.parameters.len() {
        table.parameters.as_slice()[at - 1]
    } else {
        parameters_among(tables, row)
    }
}

/// The interfaces that a type names.
pub(crate) fn interfaces_of(table: &TypeTable, row: u32) -> &[RowOf]
    ensures { result.now ≡ indexes_in table.now.interfaces.entries row }
{
    match table.interfaces.get(&row) {
        Some(indexes) => indexes.as_slice(),
        None => &[],
    }
}
