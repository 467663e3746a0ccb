//! What stands in the columns of a row (ECMA-335 II.22).
ghost use Rattle.std.specs.Prelude.{◌≡◌, slice_get};
ghost use Rattle.ty_names.specs.Modules.{coded_of as coded_in, index_of as index_in};

use md_rows::Cell;
use md_tables::TableRow;
use ty_names::RowOf;

/// The row in a column of one table, or 0 where there is none.
pub(crate) fn index_of(row: &TableRow, column: usize) -> u32
    ensures { result ≡ index_in (slice_get row.now.cells column) }
{
    match row.cells.get(column) {
        Some(Cell::Index(index)) => *index,
        _ => 0,
    }
}

/// The row in a column of several tables, or row 0 of table 0 where there is none.
pub(crate) fn coded_of(row: &TableRow, column: usize) -> RowOf
    ensures { result ≡ coded_in (slice_get row.now.cells column) }
{
    match row.cells.get(column) {
        Some(Cell::Coded(table, row)) => RowOf {
            table: *table,
            row: *row,
        },
        _ => RowOf { table: 0, row: 0 },
    }
}
