ghost use Rattle.std.specs.Prelude.{◌≡◌, ◌+◌, ◌≤◌, ◌∷◌, ◌++◌, [], length, IfOk, IfSome, IfErr, OnOk, OnErr};
ghost use Rattle.std.specs.Option.{option_map};
ghost use Rattle.md_rows.specs.Tables.{schema_of};
ghost use Rattle.md_rows.specs.Widths.{row_size as row_size_in, columns_size, rows_of, address_size as address_size_in};
ghost use Rattle.md_rows.specs.Cells.{bytes_of, cells_at};
ghost use Rattle.md_rows.specs.Reading.{row_of, address_at as address_in, row_from as row_from_in};
ghost use Rattle.md_rows.specs.Reading.{back_of as back_of_in, kept, rows_in, rows_end, Refuses};

use crate::cell::{Cell, column_cell};
use crate::fault::RowFault;
use crate::layout::Layout;
use crate::schema::{Column, Schema};
use crate::streams::Streams;
use crate::width::{Width, address_size, number, row_size, width_of};
use num_core::{List, Memory};
use std::alloc::Global;

/// A row of a table (ECMA-335 II.22).
#[derive(Debug, Drop)]
pub struct Row {
    /// The address that it begins with: that of a method's body, or of a field's bytes. It is 0 in other tables.
    pub address: u32,
    /// What it holds in its other columns.
    pub cells: List<Cell>,
}

/// The cells of columns that stand from a place on; none where one is bad. The row in front stands `back` bytes before.
fn cells(
    alloc: Global,
    streams: &Streams<'_>,
    layout: &Layout,
    columns: &[Column],
    at: usize,
    back: usize,
) -> Result<Option<List<Cell>>, Memory>
    requires { at + columns_size layout.now columns.now ≤ length streams.now.tables.now }
    ensures { IfOk result (λ found. found ≡ cells_at (bytes_of streams.now) layout.now columns.now at back) }
{
    let mut cells = List::new(alloc);
    let mut place = at;
    for column in columns {
        match column_cell(alloc, streams, layout, *column, place, back) {
            Ok(Some(cell)) => match cells.push(cell) {
                Ok(()) => {}
                Err(_) => return Err(Memory),
            },
            Ok(None) => return Ok(None),
            Err(memory) => return Err(memory),
        }
        place += width_of(layout, *column).size();
    }
    Ok(Some(cells))
}

/// The address that a row at a place begins with.
fn address_at(streams: &Streams<'_>, schema: &Schema, at: usize) -> u32
    requires { at + address_size_in (schema_of schema.now) ≤ length streams.now.tables.now }
    ensures { result ≡ address_in (bytes_of streams.now) (schema_of schema.now) at }
{
    if schema.has_address {
        number(streams.tables, at, Width::Four)
    } else {
        0
    }
}

/// The row of a table that is held, at a place where it is whole; none where it is bad.
fn held_row(
    alloc: Global,
    streams: &Streams<'_>,
    layout: &Layout,
    schema: &Schema,
    at: usize,
    back: usize,
) -> Result<Option<Row>, Memory>
    requires { at + row_size_in layout.now (schema_of schema.now) ≤ length streams.now.tables.now }
    ensures { IfOk result (λ found. found
        ≡ option_map (row_of (address_in (bytes_of streams.now) (schema_of schema.now) at))
        (cells_at (bytes_of streams.now) layout.now schema.now.columns.now
        (at + address_size_in (schema_of schema.now)) back)) }
{
    let address = address_at(streams, schema, at);
    let place = at + address_size(schema);
    match cells(alloc, streams, layout, schema.columns, place, back) {
        Ok(Some(cells)) => Ok(Some(Row { address, cells })),
        Ok(None) => Ok(None),
        Err(memory) => Err(memory),
    }
}

/// The row at a place, whose size is `size`; none where it is bad. The row in front stands `back` bytes before.
fn row_from(
    alloc: Global,
    streams: &Streams<'_>,
    layout: &Layout,
    schema: &Schema,
    size: usize,
    at: usize,
    back: usize,
) -> Result<Option<Row>, Memory>
    requires size { size ≡ row_size_in layout.now (schema_of schema.now) }
    requires at { at ≤ length streams.now.tables.now }
    ensures value { IfOk result (λ found. found ≡ row_from_in (bytes_of streams.now) layout.now (schema_of schema.now)
        at back) }
    ensures within { IfOk result (λ found. IfSome found (λ row. at + size ≤ length streams.now.tables.now)) }
{
    if size > streams.tables.len() - at {
        return Ok(None);
    }
    if !schema.is_held {
        return Ok(Some(Row {
            address: 0,
            cells: List::new(alloc),
        }));
    }
    held_row(alloc, streams, layout, schema, at, back)
}

/// How far in front of a row another stands.
fn back_of(size: usize, row: u32) -> usize
    ensures { result ≡ back_of_in size row }
{
    if row == 0 { 0 } else { size }
}

/// Keeps a row of a table that is held.
fn keep(rows: &mut List<Row>, is_held: bool, row: Row) -> Result<(), Memory>
    ensures { OnOk result (rows.new ≡ rows.old ++ kept is_held row) }
{
    if is_held {
        match rows.push(row) {
            Ok(()) => Ok(()),
            Err(_) => Err(Memory),
        }
    } else {
        drop(row);
        Ok(())
    }
}

/// The rows of the table that begins at a place, and the place behind them.
pub(crate) fn rows(
    alloc: Global,
    streams: &Streams<'_>,
    layout: &Layout,
    schema: &Schema,
    start: usize,
) -> Result<(List<Row>, usize), RowFault>
    requires { start ≤ length streams.now.tables.now }
    ensures read { IfOk result (λ read. rows_in (bytes_of streams.now) layout.now (schema_of schema.now) start
        ≡ Ok read.0) }
    ensures end { IfOk result (λ read. read.1 ≡ rows_end layout.now (schema_of schema.now) start) }
    ensures within { IfOk result (λ read. read.1 ≤ length streams.now.tables.now) }
    ensures refused { IfErr result (Refuses (rows_in (bytes_of streams.now) layout.now (schema_of schema.now) start)) }
{
    let size = row_size(layout, schema);
    let count = layout.rows_of(schema.number as usize);
    let mut rows = List::new(alloc);
    let mut at = start;
    for index in 0..count {
        match row_from(
            alloc,
            streams,
            layout,
            schema,
            size,
            at,
            back_of(size, index),
        ) {
            Ok(Some(row)) => match keep(&mut rows, schema.is_held, row) {
                Ok(()) => {}
                Err(_) => return Err(RowFault::Memory),
            },
            Ok(None) => return Err(RowFault::BadTable(schema.number, index + 1)),
            Err(_) => return Err(RowFault::Memory),
        }
        at += size;
    }
    Ok((rows, at))
}
