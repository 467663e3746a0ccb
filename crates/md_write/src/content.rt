ghost use Rattle.std.specs.Prelude.{◌≡◌, ◌++◌, ◌<◌, ◌≤◌, OnOk, IfOk};
ghost use Rattle.md_write.specs.Contents.{bytes_in as bytes_of, first_bytes as first_of, led_to as led, part_of};
ghost use Rattle.md_write.specs.Contents.{parts_of, alignment as alignment_of, code_of, data_of, or_empty};
ghost use Rattle.md_write.specs.Heaps.{table_rows as rows_in};

use crate::put::{pad, put_padded};
use crate::tables::{FIELD_RVA, METHOD_DEF, table_rows};
use md_rows::Cell;
use md_tables::{Table, TableRow};
use num_core::{Bytes, Memory};
use std::alloc::Global;

/// The bytes that a cell has.
fn bytes_in(cell: &Cell) -> &[u8]
    ensures { result.now ≡ bytes_of cell.now }
{
    match cell {
        Cell::Blob(bytes) => bytes.as_slice(),
        Cell::Number(_) => b"",
        Cell::Name(_) => b"",
        Cell::Index(_) => b"",
        Cell::Coded(_, _) => b"",
    }
}

/// The bytes that the first of the cells has.
fn first_bytes(cells: &[Cell]) -> &[u8]
    ensures { result.now ≡ first_of cells.now }
{
    match cells.first() {
        Some(cell) => bytes_in(cell),
        None => b"",
    }
}

/// The body of a method that has CIL.
fn body_of(row: &TableRow) -> &[u8]
    ensures { result.now ≡ or_empty row.now.body }
{
    match &row.body {
        Some(body) => body.as_slice(),
        None => b"",
    }
}

/// What a row of the table of a number leads to: the body of a method, or the bytes of a field.
pub(crate) fn led_to(number: u8, row: &TableRow) -> &[u8]
    ensures { result.now ≡ led number row.now }
{
    if number == METHOD_DEF {
        body_of(row)
    } else if number == FIELD_RVA {
        first_bytes(row.cells.as_slice())
    } else {
        b""
    }
}

/// What the begins of that to which rows of a table lead are multiples of.
pub(crate) fn alignment(number: u8) -> usize
    ensures value { result ≡ alignment_of number }
    ensures some { 0 < result }
    ensures small { result ≤ 0x2000 }
{
    if number == METHOD_DEF { 4 } else { 8 }
}

/// Adds what the rows of a table lead to, one behind another.
fn put_parts(bytes: &mut Bytes, number: u8, rows: &[TableRow]) -> Result<(), Memory>
    ensures { OnOk result (bytes.new ≡ bytes.old ++ parts_of number rows.now) }
{
    for row in rows {
        match put_padded(bytes, alignment(number), led_to(number, row)) {
            Ok(()) => {}
            Err(memory) => return Err(memory),
        }
    }
    Ok(())
}

/// What the rows of the table of a number lead to.
fn parts(alloc: Global, tables: &[Table], number: u8) -> Result<Bytes, Memory>
    ensures { IfOk result (λ bytes. bytes ≡ parts_of number (rows_in tables.now number)) }
{
    let mut bytes = Bytes::new(alloc);
    match put_parts(&mut bytes, number, table_rows(tables, number)) {
        Ok(()) => Ok(bytes),
        Err(memory) => Err(memory),
    }
}

/// The bodies of all methods.
pub(crate) fn code(alloc: Global, tables: &[Table]) -> Result<Bytes, Memory>
    ensures { IfOk result (λ bytes. bytes ≡ code_of tables.now) }
{
    match parts(alloc, tables, METHOD_DEF) {
        Ok(mut bytes) => match pad(&mut bytes, 8) {
            Ok(()) => Ok(bytes),
            Err(memory) => Err(memory),
        },
        Err(memory) => Err(memory),
    }
}

/// The bytes of all fields.
pub(crate) fn data(alloc: Global, tables: &[Table]) -> Result<Bytes, Memory>
    ensures { IfOk result (λ bytes. bytes ≡ data_of tables.now) }
{
    parts(alloc, tables, FIELD_RVA)
}
