ghost use Rattle.std.specs.Prelude.{◌≡◌, ◌==◌, not, map, find, length, option_copied};
ghost use Rattle.std.specs.List.{list_any, list_all, filter};
ghost use Rattle.il_code.specs.Headers.{body_length as body_length_of};
ghost use Rattle.md_rows.specs.Tables.{schema_of};
ghost use Rattle.md_rows.specs.Fits.{is_number as is_number_in, is_name as is_name_in, is_guid as is_guid_in};
ghost use Rattle.md_rows.specs.Fits.{is_blob as is_blob_in, is_row as is_index_in, is_run as is_run_in};
ghost use Rattle.md_rows.specs.Fits.{names as names_in};
ghost use Rattle.md_rows.specs.Fits.{is_coded as is_coded_in, is_cell as is_cell_in, are_cells as are_cells_in};
ghost use Rattle.md_rows.specs.Fits.{is_behind as is_behind_in, are_behind as are_behind_in, rise as rise_in};
ghost use Rattle.md_rows.specs.Fits.{first_row};
ghost use Rattle.md_tables.specs.Modules.{rows_in, columns_of, is_length, is_body as is_body_in, is_row as is_row_in};
ghost use Rattle.md_tables.specs.Modules.{is_table as is_table_in, are_tables as are_tables_in, is_module};

use crate::data::FIELD_RVA;
use crate::finish::METHOD_DEF;
use crate::module::{Table, TableRow};
use il_code::body_length;
use md_rows::{Cell, Coding, Column, Schema, is_skipped, schemas};
use num_core::Bytes;

/// The table of a number.
fn numbered(tables: &[Table], number: usize) -> Option<&Table>
    ensures { option_copied result ≡ find (λ table. table.number == number) tables.now }
{
    tables.iter().find(|table| table.number as usize == number)
}

/// How many rows the table of a number has; one that isn't there has none.
fn row_count(tables: &[Table], number: usize) -> usize
    ensures { result ≡ rows_in tables.now number }
{
    match numbered(tables, number) {
        Some(table) => table.rows.len(),
        None => 0,
    }
}

/// Whether a cell is a number below another.
fn is_number(most: u64, cell: &Cell) -> bool
    ensures { result ≡ is_number_in most cell.now }
{
    match cell {
        Cell::Number(number) => (*number as u64) < most,
        Cell::Name(_) | Cell::Blob(_) | Cell::Index(_) | Cell::Coded(_, _) => false,
    }
}

/// Whether no byte is 0.
fn has_no_zero(bytes: &[u8]) -> bool
    ensures { result ≡ list_all (λ byte. not (byte == 0)) bytes.now }
{
    bytes.iter().all(|byte| *byte != 0)
}

/// Whether a cell is a name without a zero byte.
fn is_name(cell: &Cell) -> bool
    ensures { result ≡ is_name_in cell.now }
{
    match cell {
        Cell::Name(text) => has_no_zero(text.bytes()),
        Cell::Number(_) | Cell::Blob(_) | Cell::Index(_) | Cell::Coded(_, _) => false,
    }
}

/// Whether a cell has the 16 bytes of a GUID, or none.
fn is_guid(cell: &Cell) -> bool
    ensures { result ≡ is_guid_in cell.now }
{
    match cell {
        Cell::Blob(bytes) => bytes.len() == 0 || bytes.len() == 16,
        Cell::Number(_) | Cell::Name(_) | Cell::Index(_) | Cell::Coded(_, _) => false,
    }
}

/// Whether a cell is a blob.
fn is_blob(cell: &Cell) -> bool
    ensures { result ≡ is_blob_in cell.now }
{
    match cell {
        Cell::Blob(_) => true,
        Cell::Number(_) | Cell::Name(_) | Cell::Index(_) | Cell::Coded(_, _) => false,
    }
}

/// Whether a cell is a row of a table of so many, or 0.
fn is_index(count: usize, cell: &Cell) -> bool
    ensures { result ≡ is_index_in count cell.now }
{
    match cell {
        Cell::Index(row) => *row as usize <= count,
        Cell::Number(_) | Cell::Name(_) | Cell::Blob(_) | Cell::Coded(_, _) => false,
    }
}

/// Whether a cell may be the first row of a run of a table of so many.
fn is_run(count: usize, cell: &Cell) -> bool
    ensures { result ≡ is_run_in count cell.now }
{
    match cell {
        Cell::Index(row) => {
            *row as u128 <= count as u128 + 1 && !(count == 0xFFFF && *row == 0x1_0000)
        }
        Cell::Number(_) | Cell::Name(_) | Cell::Blob(_) | Cell::Coded(_, _) => false,
    }
}

/// Whether a tag names a table.
fn names(table: u8, tag: Option<u8>) -> bool
    ensures { result ≡ names_in table tag }
{
    match tag {
        Some(other) => other == table,
        None => false,
    }
}

/// Whether one of the tags names a table.
fn is_named(table: u8, tags: &[Option<u8>]) -> bool
    ensures { result ≡ list_any (names_in table) tags.now }
{
    tags.iter().any(|tag| names(table, *tag))
}

/// Whether a cell is a row of a table that a tag names, or 0.
fn is_coded(tables: &[Table], coding: Coding, cell: &Cell) -> bool
    ensures { result ≡ is_coded_in (rows_in tables.now) coding cell.now }
{
    match cell {
        Cell::Coded(table, row) => {
            is_named(*table, coding.tables())
                && if is_skipped(*table) {
                    *row == 0
                } else {
                    *row as usize <= row_count(tables, *table as usize)
                }
        }
        Cell::Number(_) | Cell::Name(_) | Cell::Blob(_) | Cell::Index(_) => false,
    }
}

/// Whether a column may hold a cell.
fn is_cell(tables: &[Table], column: Column, cell: &Cell) -> bool
    ensures { result ≡ is_cell_in (rows_in tables.now) column cell.now }
{
    match column {
        Column::U8 => is_number(0x100, cell),
        Column::U16 => is_number(0x1_0000, cell),
        Column::U32 => is_number(0x1_0000_0000, cell),
        Column::StringIndex => is_name(cell),
        Column::GuidIndex => is_guid(cell),
        Column::BlobIndex => is_blob(cell),
        Column::RowIndex(table) => is_index(row_count(tables, table), cell),
        Column::RunIndex(table) => is_run(row_count(tables, table), cell),
        Column::CodedIndex(coding) => is_coded(tables, coding, cell),
    }
}

/// Whether there is a cell for each column, which it may hold.
fn are_cells(tables: &[Table], columns: &[Column], cells: &[Cell]) -> bool
    ensures { result ≡ are_cells_in (rows_in tables.now) columns.now cells.now }
{
    match columns.split_first() {
        None => cells.is_empty(),
        Some((column, columns)) => match cells.split_first() {
            None => false,
            Some((cell, cells)) => {
                is_cell(tables, *column, cell) && are_cells(tables, columns, cells)
            }
        },
    }
}

/// Whether a table's row may have these cells.
fn are_cells_of(tables: &[Table], schema: &Schema, cells: &[Cell]) -> bool
    ensures { result ≡ are_cells_in (rows_in tables.now) (columns_of (schema_of schema.now)) cells.now }
{
    if schema.number == FIELD_RVA {
        match cells.split_first() {
            None => false,
            Some((bytes, cells)) => is_blob(bytes) && are_cells(tables, schema.columns, cells),
        }
    } else {
        are_cells(tables, schema.columns, cells)
    }
}

/// Whether a body has as many bytes as its header and its sections tell.
fn is_whole(body: &[u8]) -> bool
    ensures { result ≡ is_length (length body.now) (body_length_of body.now) }
{
    match body_length(body) {
        Some(length) => length == body.len(),
        None => false,
    }
}

/// Whether a row of a table may have a body, or none.
fn is_body(number: u8, body: &Option<Bytes>) -> bool
    ensures { result ≡ is_body_in number body.now }
{
    match body {
        None => true,
        Some(body) => number == METHOD_DEF && is_whole(body.as_slice()),
    }
}

/// Whether a table may have a row.
fn is_row(tables: &[Table], schema: &Schema, row: &TableRow) -> bool
    ensures { result ≡ is_row_in (rows_in tables.now) (schema_of schema.now) row.now }
{
    are_cells_of(tables, schema, row.cells.as_slice()) && is_body(schema.number, &row.body)
}

/// Whether a table may have each of the rows.
fn are_rows(tables: &[Table], schema: &Schema, rows: &[TableRow]) -> bool
    ensures { result ≡ list_all (is_row_in (rows_in tables.now) (schema_of schema.now)) rows.now }
{
    rows.iter().all(|row| is_row(tables, schema, row))
}

/// Whether the run of a row begins no earlier than that of the row in front.
fn is_behind(column: Column, front: &Cell, cell: &Cell) -> bool
    ensures { result ≡ is_behind_in column front.now cell.now }
{
    match (column, front, cell) {
        (Column::RunIndex(_), Cell::Index(front), Cell::Index(row)) => *front <= *row,
        _ => true,
    }
}

/// Whether no run of a row begins earlier than that of the row in front.
fn are_behind(columns: &[Column], front: &[Cell], cells: &[Cell]) -> bool
    ensures { result ≡ are_behind_in columns.now front.now cells.now }
{
    match (
        columns.split_first(),
        front.split_first(),
        cells.split_first(),
    ) {
        (Some((column, columns)), Some((first, front)), Some((cell, cells))) => {
            is_behind(*column, first, cell) && are_behind(columns, front, cells)
        }
        _ => true,
    }
}

/// The same of a table's rows.
fn are_behind_of(schema: &Schema, front: &[Cell], cells: &[Cell]) -> bool
    ensures { result ≡ are_behind_in (columns_of (schema_of schema.now)) front.now cells.now }
{
    if schema.number == FIELD_RVA {
        match (front.split_first(), cells.split_first()) {
            (Some((_, front)), Some((_, cells))) => are_behind(schema.columns, front, cells),
            _ => true,
        }
    } else {
        are_behind(schema.columns, front, cells)
    }
}

/// The cells of the first row.
fn first_cells(rows: &[TableRow]) -> &[Cell]
    ensures { result.now ≡ first_row (map (λ row. row.cells) rows.now) }
{
    match rows.first() {
        Some(row) => row.cells.as_slice(),
        None => &[],
    }
}

/// Whether no run begins earlier than that of the row in front.
fn rise(schema: &Schema, rows: &[TableRow]) -> bool
    ensures { result ≡ rise_in (columns_of (schema_of schema.now)) (first_row (map (λ row. row.cells) rows.now))
        (map (λ row. row.cells) rows.now) }
{
    let mut front = first_cells(rows);
    for row in rows {
        if !are_behind_of(schema, front, row.cells.as_slice()) {
            return false;
        }
        front = row.cells.as_slice();
    }
    true
}

/// Whether a table is one of a module.
fn is_table(tables: &[Table], schema: &Schema, table: &Table) -> bool
    ensures { result ≡ is_table_in (rows_in tables.now) (schema_of schema.now) table.now }
{
    table.number == schema.number
        && are_rows(tables, schema, table.rows.as_slice())
        && rise(schema, table.rows.as_slice())
}

/// Whether the tables are those of the schemas that are held.
fn are_tables_of(all: &[Table], schemas: &[Schema], tables: &[Table]) -> bool
    ensures { result ≡ are_tables_in (rows_in all.now) (filter (λ schema. schema.is_held) (map schema_of schemas.now))
        tables.now }
{
    match schemas.split_first() {
        None => tables.is_empty(),
        Some((schema, schemas)) => {
            if !schema.is_held {
                return are_tables_of(all, schemas, tables);
            }
            match tables.split_first() {
                None => false,
                Some((table, tables)) => {
                    is_table(all, schema, table) && are_tables_of(all, schemas, tables)
                }
            }
        }
    }
}

/// Whether tables are those of a module: each that is held, in the order of their numbers, with rows whose cells its
/// columns may hold, and with whole bodies (ECMA-335 II.22).
pub fn are_tables(tables: &[Table]) -> bool
    ensures { result ≡ is_module tables.now }
{
    are_tables_of(tables, schemas(), tables)
}
