ghost use Rattle.std.specs.Prelude.{◌≡◌, ◌==◌, find, drop, option_copied};
ghost use Rattle.md_write.specs.Heaps.{own_cells as own_cells_in, table_rows as rows_in};

use md_rows::Cell;
use md_tables::{Table, TableRow};

/// The number of the table of methods.
pub(crate) const METHOD_DEF: u8 = 0x06;

/// The number of the table of the bytes of fields.
pub(crate) const FIELD_RVA: u8 = 0x1D;

/// The table of a number.
fn table_of(tables: &[Table], number: u8) -> Option<&Table>
    ensures { option_copied result ≡ find (λ table. table.number == number) tables.now }
{
    tables.iter().find(|table| table.number == number)
}

/// The rows of the table of a number; none where there is no such table.
pub(crate) fn table_rows(tables: &[Table], number: u8) -> &[TableRow]
    ensures { result.now ≡ rows_in tables.now number }
{
    match table_of(tables, number) {
        Some(table) => table.rows.as_slice(),
        None => &[],
    }
}

/// The cells behind the first.
fn behind_first(cells: &[Cell]) -> &[Cell]
    ensures { result.now ≡ drop 1 cells.now }
{
    if cells.is_empty() { cells } else { &cells[1..] }
}

/// The cells of a row of the table of a number that stand in columns of its own.
pub(crate) fn own_cells(number: u8, row: &TableRow) -> &[Cell]
    ensures { result.now ≡ own_cells_in number row.now }
{
    if number == FIELD_RVA {
        behind_first(row.cells.as_slice())
    } else {
        row.cells.as_slice()
    }
}
