//! The size that a value type asks for (ECMA-335 II.22.8).
ghost use Rattle.std.specs.Prelude.{◌≡◌, slice_get};
ghost use Rattle.ty_names.specs.Modules.{index_of as index_in, number_of as number_in};
ghost use Rattle.cli_layout.specs.Fields.{asked_in};

use md_rows::Cell;
use md_tables::{Table, TableRow};
use ty_names::rows;

/// The row in a column of one table, or 0.
fn index_of(row: &TableRow, column: usize) -> u32
    ensures { result ≡ index_in (slice_get row.now.cells column) }
{
    match row.cells.get(column) {
        Some(Cell::Index(row)) => *row,
        _ => 0,
    }
}

/// The number in a column, or 0.
fn number_of(row: &TableRow, column: usize) -> u32
    ensures { result ≡ number_in (slice_get row.now.cells column) }
{
    match row.cells.get(column) {
        Some(Cell::Number(number)) => *number,
        _ => 0,
    }
}

/// The size in the first row of ClassLayout of a type, or 0.
pub(crate) fn asked_size(tables: &[Table], row: u32) -> u32
    ensures { result ≡ asked_in tables.now row }
{
    for layout in rows(tables, 0x0F) {
        if index_of(layout, 2) == row {
            return number_of(layout, 1);
        }
    }
    0
}
