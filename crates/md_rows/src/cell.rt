ghost use Rattle.std.specs.Prelude.{◌≡◌, ◌+◌, ◌≤◌, ◌==◌, ◌&&◌, not, length, IfOk};
ghost use Rattle.std.specs.List.{list_any};
ghost use Rattle.std.specs.Option.{option_map};
ghost use Rattle.md_rows.specs.Tables.{is_skipped as is_skipped_of};
ghost use Rattle.md_rows.specs.Widths.{column_size};
ghost use Rattle.md_rows.specs.Cells.{bytes_of, text_at as text_in, name_of, blob_of, index_cell as index_cell_in};
ghost use Rattle.md_rows.specs.Cells.{row_of_table as row_of_table_in, coded_cell as coded_cell_in, cell_of, cell_at};

use crate::coding::Coding;
use crate::layout::Layout;
use crate::schema::{Column, Schema, schemas};
use crate::streams::Streams;
use crate::width::{number, width_of};
use md_heaps::{blob_at, guid_at, string_at};
use num_core::{Bytes, List, Memory, Text};
use std::alloc::Global;

/// What a row holds in a column.
#[derive(Debug, Drop)]
pub enum Cell {
    /// A number, as wide as its column.
    Number(u32),
    /// A name of the heap of strings.
    Name(Text),
    /// A blob, or the 16 bytes of a GUID, or no byte where there is no GUID.
    Blob(Bytes),
    /// A row of the column's table, counted from 1, or 0; in a run's column the first row of the run, which may be the
    /// one behind the last.
    Index(u32),
    /// A table, and a row of it, or 0. A row of a table that isn't held is told as 0.
    Coded(u8, u32),
}

/// The text at an index of the heap of strings.
fn text_at(heap: &[u8], at: u32) -> Option<&[u8]>
    ensures { option_map (λ text. text.now) result ≡ text_in heap.now at }
{
    string_at(heap, at)
}

/// The name at an index of the heap of strings; index 0 of an empty heap is the empty name.
fn name(heap: &[u8], at: u32) -> Option<&[u8]>
    ensures { option_map (λ text. text.now) result ≡ name_of heap.now at }
{
    if at == 0 && heap.is_empty() {
        Some(heap)
    } else {
        text_at(heap, at)
    }
}

/// The blob at an index of its heap; index 0 of an empty heap is the empty blob.
fn blob(heap: &[u8], at: u32) -> Option<&[u8]>
    ensures { option_map (λ blob. blob.now) result ≡ blob_of heap.now at }
{
    if at == 0 && heap.is_empty() {
        Some(heap)
    } else {
        blob_at(heap, at)
    }
}

/// The cell of a name.
fn name_cell(alloc: Global, text: Option<&[u8]>) -> Result<Option<Cell>, Memory>
    ensures { IfOk result (λ found. found ≡ option_map Cell.Name (option_map (λ t. t.now) text.entry)) }
{
    match text {
        Some(text) => match Text::new(alloc, text) {
            Ok(text) => Ok(Some(Cell::Name(text))),
            Err(_) => Err(Memory),
        },
        None => Ok(None),
    }
}

/// The cell of a blob.
fn blob_cell(alloc: Global, blob: Option<&[u8]>) -> Result<Option<Cell>, Memory>
    ensures { IfOk result (λ found. found ≡ option_map Cell.Blob (option_map (λ b. b.now) blob.entry)) }
{
    match blob {
        Some(blob) => match List::from_slice(alloc, blob) {
            Ok(blob) => Ok(Some(Cell::Blob(blob))),
            Err(memory) => Err(memory),
        },
        None => Ok(None),
    }
}

/// The cell of an index that lies between two numbers.
fn index_cell(least: u64, most: u64, index: u32) -> Option<Cell>
    ensures { result ≡ index_cell_in least most index }
{
    if least <= index as u64 && index as u64 <= most {
        Some(Cell::Index(index))
    } else {
        None
    }
}

/// Whether a table is only skipped by its width (ECMA-335 II.22): its rows are not held.
pub fn is_skipped(table: u8) -> bool
    ensures { result ≡ is_skipped_of table }
{
    is_skipped_among(schemas(), table)
}

/// Whether a table is one of these that are only skipped.
fn is_skipped_among(schemas: &[Schema], table: u8) -> bool
    ensures { result ≡ list_any (λ schema. schema.number == table && not schema.is_held) schemas.now }
{
    schemas
        .iter()
        .any(|schema| schema.number == table && !schema.is_held)
}

/// The cell of a row of a table that a tag names.
fn row_of_table(layout: &Layout, row: u32, table: u8) -> Option<Cell>
    ensures { result ≡ row_of_table_in layout.now row table }
{
    if row > layout.rows_of(table as usize) {
        None
    } else if is_skipped(table) {
        Some(Cell::Coded(table, 0))
    } else {
        Some(Cell::Coded(table, row))
    }
}

/// The cell of a coded index.
fn coded_cell(layout: &Layout, coding: Coding, index: u32) -> Option<Cell>
    ensures { result ≡ coded_cell_in layout.now coding index }
{
    let tags = coding.tags();
    let tables = coding.tables();
    match tables.get((index % tags) as usize) {
        Some(Some(table)) => row_of_table(layout, index / tags, *table),
        Some(None) => None,
        None => None,
    }
}

/// The cell of a column whose number is `value`; none where it is bad. The first row of a run is at least `least`.
fn value_cell(
    alloc: Global,
    streams: &Streams<'_>,
    layout: &Layout,
    column: Column,
    least: u32,
    value: u32,
) -> Result<Option<Cell>, Memory>
    ensures { IfOk result (λ found. found ≡ cell_of (bytes_of streams.now) layout.now column least value) }
{
    match column {
        Column::U8 => Ok(Some(Cell::Number(value))),
        Column::U16 => Ok(Some(Cell::Number(value))),
        Column::U32 => Ok(Some(Cell::Number(value))),
        Column::StringIndex => name_cell(alloc, name(streams.strings, value)),
        Column::GuidIndex => blob_cell(alloc, guid_at(streams.guid, value)),
        Column::BlobIndex => blob_cell(alloc, blob(streams.blob, value)),
        Column::RowIndex(table) => Ok(index_cell(0, layout.rows_of(table) as u64, value)),
        Column::RunIndex(table) => Ok(index_cell(
            least as u64,
            layout.rows_of(table) as u64 + 1,
            value,
        )),
        Column::CodedIndex(coding) => Ok(coded_cell(layout, coding, value)),
    }
}

/// The cell of the column that stands at a place; none where it is bad. The row in front of its own stands `back` bytes
/// before.
pub(crate) fn column_cell(
    alloc: Global,
    streams: &Streams<'_>,
    layout: &Layout,
    column: Column,
    at: usize,
    back: usize,
) -> Result<Option<Cell>, Memory>
    requires { at + column_size layout.now column ≤ length streams.now.tables.now }
    ensures { IfOk result (λ found. found ≡ cell_at (bytes_of streams.now) layout.now column at back) }
{
    let width = width_of(layout, column);
    let least = number(streams.tables, at.saturating_sub(back), width);
    let value = number(streams.tables, at, width);
    value_cell(alloc, streams, layout, column, least, value)
}
