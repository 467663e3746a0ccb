ghost use Rattle.std.specs.Prelude.{◌≡◌};
ghost use Rattle.md_write.specs.Heaps.{is_short as is_short_in, has_short_cells as has_short_cells_in};
ghost use Rattle.md_write.specs.Heaps.{has_short_rows as has_short_rows_in, are_short as are_short_in};

use crate::tables::own_cells;
use md_rows::Cell;
use md_tables::{Table, TableRow};

/// The first length that a compressed number cannot tell (ECMA-335 II.23.2).
const TOO_LONG: usize = 0x2000_0000;

/// Whether a compressed number can tell how long the bytes of a cell are.
fn is_short(cell: &Cell) -> bool
    ensures { result ≡ is_short_in cell.now }
{
    match cell {
        Cell::Blob(bytes) => bytes.len() < TOO_LONG,
        Cell::Number(_) => true,
        Cell::Name(_) => true,
        Cell::Index(_) => true,
        Cell::Coded(_, _) => true,
    }
}

/// The same of the cells of a row that stand in columns of its own.
fn has_short_cells(number: u8, row: &TableRow) -> bool
    ensures { result ≡ has_short_cells_in number row.now }
{
    own_cells(number, row).iter().all(|cell| is_short(cell))
}

/// The same of the rows of a table.
fn has_short_rows(table: &Table) -> bool
    ensures { result ≡ has_short_rows_in table.now }
{
    let number = table.number;
    table
        .rows
        .as_slice()
        .iter()
        .all(|row| has_short_cells(number, row))
}

/// Whether a compressed number can tell how long each blob of the tables is.
pub(crate) fn are_short(tables: &[Table]) -> bool
    ensures { result ≡ are_short_in tables.now }
{
    tables.iter().all(|table| has_short_rows(table))
}
