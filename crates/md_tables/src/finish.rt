ghost use Rattle.std.specs.Prelude.{◌≡◌, ◌<◌, ◌^◌, ◌∷◌, All, Ok, IfOk, IfErr};
ghost use Rattle.std.specs.List.Sorted.{IsNonDecreasingBy};
ghost use Rattle.md_tables.specs.Finished.{Refuses, method_row as method_row_in, field_row as field_row_in};
ghost use Rattle.md_tables.specs.Finished.{rank_of, finished_row, finished_rows, finished_table, finished_tables};

use crate::body::body_at;
use crate::data::{FIELD_RVA, Held, data_at};
use crate::fault::TableFault;
use crate::module::{Table, TableRow};
use md_rows::{Cell, Row};
use num_core::{List, Memory};
use pe_image::Image;
use std::alloc::Global;
use std::collections::VecDeque;

/// The number of the table of methods.
pub(crate) const METHOD_DEF: u8 = 0x06;

/// The row of a method, with its body.
fn method_row(alloc: Global, image: &Image<'_>, row: Row) -> Result<TableRow, TableFault>
    ensures read { IfOk result (λ done. method_row_in image.now row ≡ Ok done) }
    ensures refused { IfErr result (Refuses (method_row_in image.now row)) }
{
    let Row { address, cells } = row;
    if address == 0 {
        return Ok(TableRow { cells, body: None });
    }
    let Some(body) = body_at(image, address) else {
        return Err(TableFault::BadHeader(address));
    };
    match List::from_slice(alloc, body) {
        Ok(body) => Ok(TableRow {
            cells,
            body: Some(body),
        }),
        Err(_) => Err(TableFault::Memory),
    }
}

/// A cell in front of others.
fn in_front(alloc: Global, first: Cell, rest: List<Cell>) -> Result<List<Cell>, Memory>
    ensures { IfOk result (λ cells. cells ≡ first ∷ rest) }
{
    let mut cells = List::new(alloc);
    match cells.push(first) {
        Ok(()) => {}
        Err(_) => return Err(Memory),
    }
    let mut left = VecDeque::from_vec(rest.into_vec());
    while let Some(cell) = left.pop_front() {
        match cells.push(cell) {
            Ok(()) => {}
            Err(_) => return Err(Memory),
        }
    }
    Ok(cells)
}

/// The row of the bytes of a field.
fn field_row(alloc: Global, image: &Image<'_>, held: &[Held], row: Row) -> Result<TableRow, Memory>
    requires rising { IsNonDecreasingBy rank_of held.now }
    requires few { All (λ one. one.address < 2 ^ 32) held.now }
    ensures { IfOk result (λ done. done ≡ field_row_in image.now held.now row) }
{
    let Row { address, cells } = row;
    match List::from_slice(alloc, data_at(image, held, address)) {
        Ok(bytes) => match in_front(alloc, Cell::Blob(bytes), cells) {
            Ok(cells) => Ok(TableRow { cells, body: None }),
            Err(memory) => Err(memory),
        },
        Err(memory) => Err(memory),
    }
}

/// A row of the table of a number, with what it leads to.
fn finish_row(
    alloc: Global,
    image: &Image<'_>,
    held: &[Held],
    number: u8,
    row: Row,
) -> Result<TableRow, TableFault>
    requires rising { IsNonDecreasingBy rank_of held.now }
    requires few { All (λ one. one.address < 2 ^ 32) held.now }
    ensures read { IfOk result (λ done. finished_row image.now held.now number row ≡ Ok done) }
    ensures refused { IfErr result (Refuses (finished_row image.now held.now number row)) }
{
    if number == METHOD_DEF {
        method_row(alloc, image, row)
    } else if number == FIELD_RVA {
        match field_row(alloc, image, held, row) {
            Ok(done) => Ok(done),
            Err(_) => Err(TableFault::Memory),
        }
    } else {
        Ok(TableRow {
            cells: row.cells,
            body: None,
        })
    }
}

/// The rows of the table of a number, with what they lead to.
fn finish_rows(
    alloc: Global,
    image: &Image<'_>,
    held: &[Held],
    number: u8,
    rows: List<Row>,
) -> Result<List<TableRow>, TableFault>
    requires rising { IsNonDecreasingBy rank_of held.now }
    requires few { All (λ one. one.address < 2 ^ 32) held.now }
    ensures read { IfOk result (λ done. finished_rows image.now held.now number rows ≡ Ok done) }
    ensures refused { IfErr result (Refuses (finished_rows image.now held.now number rows)) }
{
    let mut left = VecDeque::from_vec(rows.into_vec());
    let mut done = List::new(alloc);
    while let Some(row) = left.pop_front() {
        match finish_row(alloc, image, held, number, row) {
            Ok(row) => match done.push(row) {
                Ok(()) => {}
                Err(_) => return Err(TableFault::Memory),
            },
            Err(fault) => return Err(fault),
        }
    }
    Ok(done)
}

/// The tables, with what their rows lead to.
pub(crate) fn finish_tables(
    alloc: Global,
    image: &Image<'_>,
    held: &[Held],
    tables: List<md_rows::Table>,
) -> Result<List<Table>, TableFault>
    requires rising { IsNonDecreasingBy rank_of held.now }
    requires few { All (λ one. one.address < 2 ^ 32) held.now }
    ensures read { IfOk result (λ done. finished_tables image.now held.now tables ≡ Ok done) }
    ensures refused { IfErr result (Refuses (finished_tables image.now held.now tables)) }
{
    let mut left = VecDeque::from_vec(tables.into_vec());
    let mut done = List::new(alloc);
    while let Some(table) = left.pop_front() {
        match finish_table(alloc, image, held, table) {
            Ok(table) => match done.push(table) {
                Ok(()) => {}
                Err(_) => return Err(TableFault::Memory),
            },
            Err(fault) => return Err(fault),
        }
    }
    Ok(done)
}

/// A table, with what its rows lead to.
fn finish_table(
    alloc: Global,
    image: &Image<'_>,
    held: &[Held],
    table: md_rows::Table,
) -> Result<Table, TableFault>
    requires rising { IsNonDecreasingBy rank_of held.now }
    requires few { All (λ one. one.address < 2 ^ 32) held.now }
    ensures read { IfOk result (λ done. finished_table image.now held.now table ≡ Ok done) }
    ensures refused { IfErr result (Refuses (finished_table image.now held.now table)) }
{
    let md_rows::Table { number, rows } = table;
    match finish_rows(alloc, image, held, number, rows) {
        Ok(rows) => Ok(Table { number, rows }),
        Err(fault) => Err(fault),
    }
}
