//! The type around each type.
ghost use Rattle.std.specs.Prelude.{◌≡◌, ◌+◌, ◌<◌, ℕ, length, replicate, slice_get, slice_index, IfOk};
ghost use Rattle.ty_names.specs.Definitions.{enclosing, enclosing_in, type_count};
ghost use Rattle.ty_names.specs.Modules.{index_of as index_in};
ghost use Rattle.ty_names.specs.Nesting.{noted};

use crate::cells::{row_count, rows};
use md_rows::Cell;
use md_tables::{Table, TableRow};
use num_core::{List, Memory};
use std::alloc::Global;

/// The row in a column of a row, or 0 where there is none.
fn index_of(row: &TableRow, column: usize) -> u32
    ensures { result ≡ index_in (slice_get row.now.cells column) }
{
    match row.cells.get(column) {
        Some(Cell::Index(index)) => *index,
        _ => 0,
    }
}

/// Notes what a row of NestedClass says, in place of what was noted of the type before.
fn note(outer: &mut [u32], nested: &TableRow)
    ensures { (k : ℕ) → k < length outer.old →
        slice_index outer.new k ≡ noted nested.now (k + 1) (slice_index outer.old k) }
{
    let row = index_of(nested, 0) as usize;
    if 0 < row && row <= outer.len() {
        outer[row - 1] = index_of(nested, 1);
    }
}

/// Notes what all rows of NestedClass say, the first last.
fn note_all(outer: &mut [u32], nested: &[TableRow])
    requires { outer.old ≡ replicate (length outer.old) 0 }
    ensures { (k : ℕ) → k < length outer.old → slice_index outer.new k ≡ enclosing_in nested.now (k + 1) }
{
    let mut left = nested.len();
    while 0 < left {
        left -= 1;
        note(outer, &nested[left]);
    }
}

/// The type around each type of a module, in order of rows, or 0 where a type isn't nested (ECMA-335 II.22.32).
pub fn enclosers(alloc: Global, tables: &[Table]) -> Result<List<u32>, Memory>
    ensures count { IfOk result (λ outer. length outer ≡ type_count tables.now) }
    ensures outer { IfOk result (λ outer. (k : ℕ) → k < type_count tables.now →
        slice_index outer k ≡ enclosing tables.now (k + 1)) }
{
    let mut outer = Vec::new(alloc);
    outer.resize(row_count(tables, 0x02), 0)?;
    note_all(outer.as_mut_slice(), rows(tables, 0x29));
    List::from_slice(alloc, outer.as_slice())
}
