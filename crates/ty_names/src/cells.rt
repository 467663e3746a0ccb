//! The rows of tables, and what stands in their columns (ECMA-335 II.22).
ghost use Rattle.std.specs.Prelude.{◌≡◌, ◌==◌, find, option_copied, IsUtf8};
ghost use Rattle.ty_names.specs.Modules.{rows_of, rows as rows_in, row_count as count_in, row_at as row_in};
ghost use Rattle.ty_names.specs.Modules.{cell_of, cell_at as cell_in, number_of, name_of, blob_of, index_of};
ghost use Rattle.ty_names.specs.Modules.{coded_of};

use md_rows::Cell;
use md_tables::{Table, TableRow};

/// A row of one of several tables, counted from 1; row 0 is none.
#[derive(Clone, Copy, Debug, PartialEq, Eq)]
pub struct RowOf {
    pub table: u8,
    pub row: u32,
}

/// The table of a number.
fn table_of(tables: &[Table], number: u8) -> Option<&Table>
    ensures { option_copied result ≡ find (λ table. table.number == number) tables.now }
{
    tables.iter().find(|table| table.number == number)
}

/// The rows of the table of a number; a table that isn't there has none.
pub fn rows(tables: &[Table], number: u8) -> &[TableRow]
    ensures { result.now ≡ rows_in tables.now number }
{
    match table_of(tables, number) {
        Some(table) => table.rows.as_slice(),
        None => &[],
    }
}

/// How many rows the table of a number has.
pub fn row_count(tables: &[Table], number: u8) -> usize
    ensures { result ≡ count_in tables.now number }
{
    rows(tables, number).len()
}

/// The row of a number, counted from 1.
pub fn row_at(tables: &[Table], table: u8, row: u32) -> Option<&TableRow>
    ensures { option_copied result ≡ row_in tables.now table row }
{
    match row.checked_sub(1) {
        Some(before) => rows(tables, table).get(before as usize),
        None => None,
    }
}

/// The cell of a column of a row.
fn cell_of(row: Option<&TableRow>, column: usize) -> Option<&Cell>
    ensures { option_copied result ≡ cell_of (option_copied row.entry) column }
{
    row?.cells.get(column)
}

/// The cell of a column of the row of a number.
fn cell_at(tables: &[Table], table: u8, row: u32, column: usize) -> Option<&Cell>
    ensures { option_copied result ≡ cell_in tables.now table row column }
{
    cell_of(row_at(tables, table, row), column)
}

/// The number in a column, or 0 where there is none.
pub fn number_at(tables: &[Table], table: u8, row: u32, column: usize) -> u32
    ensures { result ≡ number_of (cell_in tables.now table row column) }
{
    match cell_at(tables, table, row, column) {
        Some(Cell::Number(number)) => *number,
        _ => 0,
    }
}

/// The name in a column, or an empty one where there is none.
pub fn name_at(tables: &[Table], table: u8, row: u32, column: usize) -> &[u8]
    ensures name { result.now ≡ name_of (cell_in tables.now table row column) }
    ensures utf8 { IsUtf8 result.now }
{
    match cell_at(tables, table, row, column) {
        Some(Cell::Name(name)) => name.bytes(),
        _ => &[],
    }
}

/// The blob in a column, or an empty one where there is none.
pub fn blob_at(tables: &[Table], table: u8, row: u32, column: usize) -> &[u8]
    ensures { result.now ≡ blob_of (cell_in tables.now table row column) }
{
    match cell_at(tables, table, row, column) {
        Some(Cell::Blob(blob)) => blob.as_slice(),
        _ => &[],
    }
}

/// The row in a column of one table, or 0 where there is none.
pub fn index_at(tables: &[Table], table: u8, row: u32, column: usize) -> u32
    ensures { result ≡ index_of (cell_in tables.now table row column) }
{
    match cell_at(tables, table, row, column) {
        Some(Cell::Index(index)) => *index,
        _ => 0,
    }
}

/// The row in a column of several tables, or row 0 of table 0 where there is none.
pub fn coded_at(tables: &[Table], table: u8, row: u32, column: usize) -> RowOf
    ensures { result ≡ coded_of (cell_in tables.now table row column) }
{
    match cell_at(tables, table, row, column) {
        Some(Cell::Coded(table, row)) => RowOf {
            table: *table,
            row: *row,
        },
        _ => RowOf { table: 0, row: 0 },
    }
}
