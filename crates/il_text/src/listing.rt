ghost use Rattle.std.specs.Prelude.{◌≡◌, ◌^◌, ◌<◌, ◌++◌, ◌∷◌, [], codes, map, length, All, OnOk, IfOk, Ok};
ghost use Rattle.std.specs.List.{flat_map};
ghost use Rattle.il_text.specs.Words.{line_text, text_of, spaced, table_word};
ghost use Rattle.il_text.specs.Listing.{cell_word, row_lines, table_lines, entry_line, listing_of};
ghost use Rattle.il_text.specs.Ranges.{CellInRange, RowInRange, TableInRange};
ghost use Rattle.il_text.specs.Assembling.{assembled};

use crate::body::{push_body, push_bytes_line};
use crate::words::{push, push_bytes, push_name, push_number, push_row, push_table};
use md_rows::Cell;
use md_tables::{Module, Table, TableRow};
use num_core::{Bytes, List, Memory};
use std::alloc::Global;

/// The text of a module: its entry token, its user heap, and a line for each row, in the order of tables and rows, with
/// the body of a method behind its row.
///
/// The code of a body is written as instructions exactly where it is instructions of the profile and its surroundings
/// from its begin to its end, and as bytes otherwise.
pub fn list(alloc: Global, module: &Module) -> Result<Bytes, Memory>
    ensures listing { IfOk result (λ text. text ≡ listing_of «module».now) }
    ensures read_back { IfOk result (λ text. assembled text ≡ Ok «module».now) }
{
    let mut out = List::new(alloc);
    push_entry(&mut out, module.entry())?;
    push_bytes_line(alloc, &mut out, b".user", module.user())?;
    push_tables(alloc, &mut out, module.tables())?;
    Ok(out)
}

/// Appends the line of an entry token.
fn push_entry(out: &mut Bytes, entry: u32) -> Result<(), Memory>
    ensures line { OnOk result (out.new ≡ out.old ++ line_text (entry_line entry)) }
    ensures small { OnOk result (entry < 2 ^ 32) }
{
    out.extend_from_slice(b".entry ")?;
    push_number(out, entry)?;
    push(out, b'\n')?;
    Ok(())
}

/// Appends the lines of tables.
fn push_tables(alloc: Global, out: &mut Bytes, tables: &[Table]) -> Result<(), Memory>
    ensures lines { OnOk result (out.new ≡ out.old ++ text_of (flat_map table_lines tables.now)) }
    ensures in_range { OnOk result (All TableInRange tables.now) }
{
    for table in tables {
        push_rows(alloc, out, table.number, table.rows.as_slice())?;
    }
    Ok(())
}

/// Appends the lines of the rows of a table.
fn push_rows(alloc: Global, out: &mut Bytes, table: u8, rows: &[TableRow]) -> Result<(), Memory>
    ensures lines { OnOk result (out.new ≡ out.old ++ text_of (flat_map (row_lines table) rows.now)) }
    ensures in_range { OnOk result ((table < 256) × All RowInRange rows.now) }
{
    for row in rows {
        push_table_row(alloc, out, table, row)?;
    }
    Ok(())
}

/// Appends the lines of a row: its own, and those of its body.
fn push_table_row(alloc: Global, out: &mut Bytes, table: u8, row: &TableRow) -> Result<(), Memory>
    ensures lines { OnOk result (out.new ≡ out.old ++ text_of (row_lines table row.now)) }
    ensures in_range { OnOk result (RowInRange row.now) }
{
    push_row_line(alloc, out, table, row.cells.as_slice())?;
    match &row.body {
        Some(body) => push_body(alloc, out, body.as_slice()),
        None => Ok(()),
    }
}

/// Appends the line of a row.
fn push_row_line(alloc: Global, out: &mut Bytes, table: u8, cells: &[Cell]) -> Result<(), Memory>
    ensures line { OnOk result (out.new ≡ out.old
        ++ line_text (codes ".row" ∷ table_word table ∷ map cell_word cells.now)) }
    ensures in_range { OnOk result (All CellInRange cells.now) }
{
    out.extend_from_slice(b".row ")?;
    push_table(alloc, out, table)?;
    push_cells(alloc, out, cells)?;
    push(out, b'\n')?;
    Ok(())
}

/// Appends cells, each behind a space.
fn push_cells(alloc: Global, out: &mut Bytes, cells: &[Cell]) -> Result<(), Memory>
    ensures words { OnOk result (out.new ≡ out.old ++ flat_map spaced (map cell_word cells.now)) }
    ensures in_range { OnOk result (All CellInRange cells.now) }
{
    for cell in cells {
        push(out, b' ')?;
        push_cell(alloc, out, cell)?;
    }
    Ok(())
}

/// Appends a cell.
fn push_cell(alloc: Global, out: &mut Bytes, cell: &Cell) -> Result<(), Memory>
    ensures word { OnOk result (out.new ≡ out.old ++ cell_word cell.now) }
    ensures in_range { OnOk result (CellInRange cell.now) }
{
    match cell {
        Cell::Number(number) => push_number(out, *number),
        Cell::Name(text) => push_name(alloc, out, text.bytes()),
        Cell::Blob(bytes) => push_bytes(alloc, out, bytes.as_slice()),
        Cell::Index(row) => push_number(out, *row),
        Cell::Coded(table, row) => push_row(alloc, out, *table, *row),
    }
}
