//! The interfaces that types name (ECMA-335 II.22.23).
ghost use Rattle.std.specs.Prelude.{◌≡◌, ℕ, ◌==◌, false, IfOk, OnOk};
ghost use Rattle.ty_load.specs.Implements.{TellImplemented, TellInterface, indexes_in};

use crate::cells::{coded_of, index_of};
use indexmap::IndexMap;
use md_tables::TableRow;
use num_core::Memory;
use std::alloc::Global;
use ty_names::RowOf;

/// Takes out what is noted of a type.
fn take_noted(found: &mut IndexMap<u32, Vec<RowOf>>, alloc: Global, row: u32) -> Vec<RowOf>
    ensures taken { result.items ≡ indexes_in found.old.entries row }
    ensures others { (other : ℕ) → (row == other) ≡ false →
        indexes_in found.new.entries other ≡ indexes_in found.old.entries other }
{
    match found.swap_remove(&row) {
        Some(indexes) => indexes,
        None => Vec::new(alloc),
    }
}

/// Notes an interface of a type, behind those that are noted of it.
fn note_interface(
    found: &mut IndexMap<u32, Vec<RowOf>>,
    alloc: Global,
    row: u32,
    index: RowOf,
) -> Result<(), Memory>
    ensures { OnOk result (TellInterface row index found.old.entries found.new.entries) }
{
    let mut indexes = take_noted(found, alloc, row);
    indexes.push(index)?;
    found.insert(row, indexes)?;
    Ok(())
}

/// The interfaces of each type, of rows of InterfaceImpl in their order.
pub(crate) fn interfaces_by_type(
    alloc: Global,
    given: &[TableRow],
) -> Result<IndexMap<u32, Vec<RowOf>>, Memory>
    ensures { IfOk result (λ found. TellImplemented given.now found.entries) }
{
    let mut found = IndexMap::new(alloc);
    for row in given {
        note_interface(&mut found, alloc, index_of(row, 0), coded_of(row, 1))?;
    }
    Ok(found)
}
