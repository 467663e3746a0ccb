ghost use Rattle.std.specs.Prelude.{◌≡◌, ◌++◌, ◌+◌, ◌<◌, ◌^◌, length, map, position, IfOk, OnOk};
ghost use Rattle.md_rows.specs.Tables.{schema_of};
ghost use Rattle.md_rows.specs.Widths.{column_size};
ghost use Rattle.byteorder.specs.Endian.{little_bytes};
ghost use Rattle.md_write.specs.Contents.{part_of, address_of as address_in};
ghost use Rattle.md_write.specs.Rows.{bytes_index as bytes_index_in, names as names_in, tag_of as tag_in};
ghost use Rattle.md_write.specs.Rows.{coded_number as coded_number_in, coded_index as coded_index_in};
ghost use Rattle.md_write.specs.Rows.{cell_number as cell_number_in, cells_bytes, address_bytes, row_bytes, rows_bytes};
ghost use Rattle.md_write.specs.Rows.{start_of as start_in, tables_bytes};

use crate::content::{alignment, led_to};
use crate::heaps::Heaps;
use crate::put::{behind, padded_size, put_number, put_word};
use crate::tables::{METHOD_DEF, own_cells, table_rows};
use md_rows::{Cell, Coding, Column, Layout, Schema, width_of};
use md_tables::{Table, TableRow};
use num_core::{Bytes, Memory};

/// The index of the bytes of a column of GUIDs or of blobs.
fn bytes_index(heaps: &Heaps, column: Column, bytes: &[u8]) -> usize
    ensures { result ≡ bytes_index_in heaps.now column bytes.now }
{
    match column {
        Column::GuidIndex => heaps.guids.index_of(bytes),
        Column::BlobIndex => heaps.blobs.index_of(bytes),
        Column::U8 => 0,
        Column::U16 => 0,
        Column::U32 => 0,
        Column::StringIndex => 0,
        Column::RowIndex(_) => 0,
        Column::RunIndex(_) => 0,
        Column::CodedIndex(_) => 0,
    }
}

/// Whether a tag names a table.
fn names(table: u8, tag: Option<u8>) -> bool
    ensures { result ≡ names_in table tag }
{
    match tag {
        Some(other) => other == table,
        None => false,
    }
}

/// The place of the first tag that names a table.
fn tag_place(tables: &[Option<u8>], table: u8) -> Option<usize>
    ensures { result ≡ position (names_in table) tables.now }
{
    tables.iter().position(|tag| names(table, *tag))
}

/// The tag of a table in a coded index.
fn tag_of(coding: Coding, table: u8) -> usize
    ensures { result ≡ tag_in coding table }
{
    match tag_place(coding.tables(), table) {
        Some(tag) => tag,
        None => 0,
    }
}

/// A row of a table, with the table's tag in the low bits (ECMA-335 II.24.2.6).
fn coded_number(coding: Coding, table: u8, row: u32) -> u64
    ensures { result ≡ coded_number_in coding table row }
{
    row as u64 * coding.tags() as u64 + tag_of(coding, table) as u64
}

/// The number of a row of a table in a column of coded indexes.
fn coded_index(column: Column, table: u8, row: u32) -> u64
    ensures { result ≡ coded_index_in column table row }
{
    match column {
        Column::CodedIndex(coding) => coded_number(coding, table, row),
        Column::U8 => 0,
        Column::U16 => 0,
        Column::U32 => 0,
        Column::StringIndex => 0,
        Column::GuidIndex => 0,
        Column::BlobIndex => 0,
        Column::RowIndex(_) => 0,
        Column::RunIndex(_) => 0,
    }
}

/// The number that stands in a column for what it holds.
fn cell_number(heaps: &Heaps, column: Column, cell: &Cell) -> u64
    ensures { result ≡ cell_number_in heaps.now column cell.now }
{
    match cell {
        Cell::Number(number) => *number as u64,
        Cell::Name(text) => heaps.strings.index_of(text.bytes()) as u64,
        Cell::Blob(bytes) => bytes_index(heaps, column, bytes.as_slice()) as u64,
        Cell::Index(row) => *row as u64,
        Cell::Coded(table, row) => coded_index(column, *table, *row),
    }
}

/// Adds a column.
fn put_cell(
    bytes: &mut Bytes,
    heaps: &Heaps,
    layout: &Layout,
    column: Column,
    cell: &Cell,
) -> Result<(), Memory>
    ensures { OnOk result (bytes.new ≡ bytes.old
        ++ little_bytes (column_size layout.now column) (cell_number_in heaps.now column cell.now)) }
{
    put_number(
        bytes,
        width_of(layout, column),
        cell_number(heaps, column, cell),
    )
}

/// Adds columns, one cell for each.
fn put_cells(
    bytes: &mut Bytes,
    heaps: &Heaps,
    layout: &Layout,
    columns: &[Column],
    cells: &[Cell],
) -> Result<(), Memory>
    ensures { OnOk result (bytes.new ≡ bytes.old ++ cells_bytes heaps.now layout.now columns.now cells.now) }
{
    for (index, column) in columns.iter().enumerate() {
        match cells.get(index) {
            Some(cell) => match put_cell(bytes, heaps, layout, *column, cell) {
                Ok(()) => {}
                Err(memory) => return Err(memory),
            },
            None => return Ok(()),
        }
    }
    Ok(())
}

/// The address of what stands at one; 0 stands for nothing.
fn address_of(at: u64, part: &[u8]) -> u64
    ensures { result ≡ address_in at part.now }
{
    if part.is_empty() { 0 } else { at }
}

/// Adds the address that a row may begin with.
fn put_address(bytes: &mut Bytes, schema: &Schema, at: u64, row: &TableRow) -> Result<(), Memory>
    ensures { OnOk result (bytes.new ≡ bytes.old ++ address_bytes (schema_of schema.now) at row.now) }
{
    if schema.has_address {
        put_word(bytes, address_of(at, led_to(schema.number, row)))
    } else {
        Ok(())
    }
}

/// Adds a row, of which what it leads to stands at an address.
fn put_row(
    bytes: &mut Bytes,
    heaps: &Heaps,
    layout: &Layout,
    schema: &Schema,
    at: u64,
    row: &TableRow,
) -> Result<(), Memory>
    ensures { OnOk result (bytes.new ≡ bytes.old ++ row_bytes heaps.now layout.now (schema_of schema.now) at row.now) }
{
    match put_address(bytes, schema, at, row) {
        Ok(()) => put_cells(
            bytes,
            heaps,
            layout,
            schema.columns,
            own_cells(schema.number, row),
        ),
        Err(memory) => Err(memory),
    }
}

/// The address behind what a row leads to, which begins at one.
fn behind_row(number: u8, at: u64, row: &TableRow) -> Result<u64, Memory>
    ensures { IfOk result (λ next. next ≡ at + length (part_of number row.now)) }
{
    behind(at, padded_size(alignment(number), led_to(number, row)))
}

/// Adds the rows of a table, of which what they lead to stands from an address on.
fn put_rows(
    bytes: &mut Bytes,
    heaps: &Heaps,
    layout: &Layout,
    schema: &Schema,
    start: u64,
    rows: &[TableRow],
) -> Result<(), Memory>
    ensures { OnOk result (bytes.new ≡ bytes.old
        ++ rows_bytes heaps.now layout.now (schema_of schema.now) start rows.now) }
{
    let mut at = start;
    for row in rows {
        match put_row(bytes, heaps, layout, schema, at, row) {
            Ok(()) => {}
            Err(memory) => return Err(memory),
        }
        match behind_row(schema.number, at, row) {
            Ok(next) => at = next,
            Err(memory) => return Err(memory),
        }
    }
    Ok(())
}

/// Where that begins to which the rows of a table lead.
fn start_of(code_at: u64, data_at: u64, number: u8) -> u64
    ensures { result ≡ start_in code_at data_at number }
{
    if number == METHOD_DEF {
        code_at
    } else {
        data_at
    }
}

/// Adds the rows of the tables of schemas, one table behind another.
pub(crate) fn put_tables(
    bytes: &mut Bytes,
    heaps: &Heaps,
    layout: &Layout,
    places: (u64, u64),
    tables: &[Table],
    schemas: &[Schema],
) -> Result<(), Memory>
    ensures { OnOk result (bytes.new ≡ bytes.old
        ++ tables_bytes heaps.now layout.now places.0 places.1 tables.now (map schema_of schemas.now)) }
{
    for schema in schemas {
        let start = start_of(places.0, places.1, schema.number);
        let rows = table_rows(tables, schema.number);
        match put_rows(bytes, heaps, layout, schema, start, rows) {
            Ok(()) => {}
            Err(memory) => return Err(memory),
        }
    }
    Ok(())
}
