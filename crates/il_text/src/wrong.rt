ghost use Rattle.std.specs.Prelude.{◌≡◌, ◌==◌, not, map, drop, [], IfOk, if◌then◌else◌};
ghost use Rattle.std.specs.List.{list_any, list_all, filter};
ghost use Rattle.std.specs.Str.{is_utf8};
ghost use Rattle.md_rows.specs.Tables.{schema_of};
ghost use Rattle.md_rows.specs.Fits.{is_number as is_number_in, is_name as is_name_in, is_guid as is_guid_in};
ghost use Rattle.md_rows.specs.Fits.{is_blob as is_blob_in, is_row as is_index_in, is_run as is_run_in};
ghost use Rattle.md_rows.specs.Fits.{is_coded as is_coded_in, is_cell as is_cell_in, is_behind as is_behind_in};
ghost use Rattle.md_rows.specs.Fits.{names as names_in};
ghost use Rattle.md_tables.specs.Modules.{columns_of};
ghost use Rattle.il_text.specs.Assembling.{cell_of, rows_of_table, is_behind_first as is_behind_first_in};
ghost use Rattle.il_text.specs.Assembling.{is_right as is_right_in, wrong_cell as wrong_cell_in, wrong_row};
ghost use Rattle.il_text.specs.Assembling.{first_wrong as first_wrong_in};
ghost use Rattle.il_text.specs.Counting.{counted, wrong_of as wrong_of_in, wrong_among};

use crate::counting::{TableCount, push_counts, row_count};
use crate::draft::{DraftCell, DraftRow, Value};
use crate::row::FIELD_RVA;
use md_rows::{Coding, Column, Schema, is_skipped, schemas};
use num_core::{List, Memory};
use std::alloc::Global;

/// Whether a value is a number below another.
fn is_number(most: u64, value: &Value) -> bool
    ensures { result ≡ is_number_in most (cell_of value.now) }
{
    match value {
        Value::Number(number) => (*number as u64) < most,
        Value::Name(_) | Value::Blob(_) | Value::Index(_) | Value::Coded(_, _) => false,
    }
}

/// Whether bytes are UTF-8.
fn is_text(bytes: &[u8]) -> bool
    ensures { result ≡ is_utf8 bytes.now }
{
    match std::str::from_utf8(bytes) {
        Ok(_) => true,
        Err(_) => false,
    }
}

/// Whether no byte is 0.
fn has_no_zero(bytes: &[u8]) -> bool
    ensures { result ≡ list_all (λ byte. not (byte == 0)) bytes.now }
{
    bytes.iter().all(|byte| *byte != 0)
}

/// Whether a value is a name: UTF-8 without a zero byte.
fn is_name(value: &Value) -> bool
    ensures { result ≡ is_name_in (cell_of value.now) }
{
    match value {
        Value::Name(name) => is_text(name.as_slice()) && has_no_zero(name.as_slice()),
        Value::Number(_) | Value::Blob(_) | Value::Index(_) | Value::Coded(_, _) => false,
    }
}

/// Whether a value has the 16 bytes of a GUID, or none.
fn is_guid(value: &Value) -> bool
    ensures { result ≡ is_guid_in (cell_of value.now) }
{
    match value {
        Value::Blob(bytes) => bytes.len() == 0 || bytes.len() == 16,
        Value::Number(_) | Value::Name(_) | Value::Index(_) | Value::Coded(_, _) => false,
    }
}

/// Whether a value is a blob.
fn is_blob(value: &Value) -> bool
    ensures { result ≡ is_blob_in (cell_of value.now) }
{
    match value {
        Value::Blob(_) => true,
        Value::Number(_) | Value::Name(_) | Value::Index(_) | Value::Coded(_, _) => false,
    }
}

/// Whether a value is a row of a table of so many, or 0.
fn is_index(count: usize, value: &Value) -> bool
    ensures { result ≡ is_index_in count (cell_of value.now) }
{
    match value {
        Value::Index(row) => *row as usize <= count,
        Value::Number(_) | Value::Name(_) | Value::Blob(_) | Value::Coded(_, _) => false,
    }
}

/// Whether a value may be the first row of a run of a table of so many.
fn is_run(count: usize, value: &Value) -> bool
    ensures { result ≡ is_run_in count (cell_of value.now) }
{
    match value {
        Value::Index(row) => {
            *row as u128 <= count as u128 + 1 && !(count == 0xFFFF && *row == 0x1_0000)
        }
        Value::Number(_) | Value::Name(_) | Value::Blob(_) | Value::Coded(_, _) => false,
    }
}

/// Whether a tag names a table.
fn names(table: u8, tag: Option<u8>) -> bool
    ensures { result ≡ names_in table tag }
{
    match tag {
        Some(other) => other == table,
        None => false,
    }
}

/// Whether one of the tags names a table.
fn is_named(table: u8, tags: &[Option<u8>]) -> bool
    ensures { result ≡ list_any (names_in table) tags.now }
{
    tags.iter().any(|tag| names(table, *tag))
}

/// Whether a value is a row of a table that a tag names, or 0.
fn is_coded(counts: &[TableCount], coding: Coding, value: &Value) -> bool
    ensures { result ≡ is_coded_in (counted counts.now) coding (cell_of value.now) }
{
    match value {
        Value::Coded(table, row) => {
            is_named(*table, coding.tables())
                && if is_skipped(*table) {
                    *row == 0
                } else {
                    *row as usize <= row_count(counts, *table as usize)
                }
        }
        Value::Number(_) | Value::Name(_) | Value::Blob(_) | Value::Index(_) => false,
    }
}

/// Whether a column may hold a value.
fn is_cell(counts: &[TableCount], column: Column, value: &Value) -> bool
    ensures { result ≡ is_cell_in (counted counts.now) column (cell_of value.now) }
{
    match column {
        Column::U8 => is_number(0x100, value),
        Column::U16 => is_number(0x1_0000, value),
        Column::U32 => is_number(0x1_0000_0000, value),
        Column::StringIndex => is_name(value),
        Column::GuidIndex => is_guid(value),
        Column::BlobIndex => is_blob(value),
        Column::RowIndex(table) => is_index(row_count(counts, table), value),
        Column::RunIndex(table) => is_run(row_count(counts, table), value),
        Column::CodedIndex(coding) => is_coded(counts, coding, value),
    }
}

/// Whether the run of a row begins no earlier than that of the row in front.
fn is_behind(column: Column, front: &Value, value: &Value) -> bool
    ensures { result ≡ is_behind_in column (cell_of front.now) (cell_of value.now) }
{
    match (column, front, value) {
        (Column::RunIndex(_), Value::Index(front), Value::Index(row)) => *front <= *row,
        _ => true,
    }
}

/// The same, where there may be no row in front.
fn is_behind_first(column: Column, front: &[DraftCell], value: &Value) -> bool
    ensures { result ≡ is_behind_first_in column front.now (cell_of value.now) }
{
    match front.split_first() {
        Some((first, _)) => is_behind(column, &first.value, value),
        None => true,
    }
}

/// Whether a value is right in its column, behind the cells of the row in front from this column on.
fn is_right(counts: &[TableCount], column: Column, front: &[DraftCell], value: &Value) -> bool
    ensures { result ≡ is_right_in (counted counts.now) column front.now (cell_of value.now) }
{
    is_cell(counts, column, value) && is_behind_first(column, front, value)
}

/// The cells behind the first.
fn behind_first(cells: &[DraftCell]) -> &[DraftCell]
    ensures { result.now ≡ drop 1 cells.now }
{
    match cells.split_first() {
        Some((_, rest)) => rest,
        None => cells,
    }
}

/// The column of the line at which the first wrong one of cells stands.
fn wrong_cell(
    counts: &[TableCount],
    columns: &[Column],
    front: &[DraftCell],
    cells: &[DraftCell],
) -> Option<usize>
    ensures { result ≡ wrong_cell_in (counted counts.now) columns.now front.now cells.now }
{
    match columns.split_first() {
        None => None,
        Some((column, columns)) => match cells.split_first() {
            None => None,
            Some((cell, cells)) => {
                if is_right(counts, *column, front, &cell.value) {
                    wrong_cell(counts, columns, behind_first(front), cells)
                } else {
                    Some(cell.column)
                }
            }
        },
    }
}

/// The same of a row of a table.
fn wrong_in_row(
    counts: &[TableCount],
    schema: &Schema,
    front: &[DraftCell],
    cells: &[DraftCell],
) -> Option<usize>
    ensures { result ≡ wrong_cell_in (counted counts.now) (columns_of (schema_of schema.now)) front.now cells.now }
{
    if schema.number != FIELD_RVA {
        return wrong_cell(counts, schema.columns, front, cells);
    }
    match cells.split_first() {
        None => None,
        Some((bytes, cells)) => {
            if is_right(counts, Column::BlobIndex, front, &bytes.value) {
                wrong_cell(counts, schema.columns, behind_first(front), cells)
            } else {
                Some(bytes.column)
            }
        }
    }
}

/// The place of the first wrong cell of a row, if it is one of the table.
fn wrong_of(
    counts: &[TableCount],
    schema: &Schema,
    front: &[DraftCell],
    row: &DraftRow,
) -> Option<(usize, usize)>
    ensures { result ≡ wrong_of_in (counted counts.now) (schema_of schema.now) front.now row.now }
{
    if row.table != schema.number {
        return None;
    }
    let column = wrong_in_row(counts, schema, front, row.cells.as_slice())?;
    Some((row.line, column))
}

/// The cells of a row, if it is one of the table, and else those of the row in front.
fn next_front<'a>(table: u8, front: &'a [DraftCell], row: &'a DraftRow) -> &'a [DraftCell]
    ensures { result.now ≡ (if row.now.table == table then row.now.cells else front.now) }
{
    if row.table == table {
        row.cells.as_slice()
    } else {
        front
    }
}

/// The line and the column of the first wrong cell of a table.
fn wrong_in_table(
    counts: &[TableCount],
    rows: &[DraftRow],
    schema: &Schema,
) -> Option<(usize, usize)>
    ensures { result ≡ wrong_row (counted counts.now) (columns_of (schema_of schema.now)) []
        (rows_of_table rows.now schema.now.number) }
{
    let mut front: &[DraftCell] = &[];
    for row in rows {
        if let Some(place) = wrong_of(counts, schema, front, row) {
            return Some(place);
        }
        front = next_front(schema.number, front, row);
    }
    None
}

/// The line and the column of the first wrong cell of tables.
fn wrong_in_tables(
    counts: &[TableCount],
    rows: &[DraftRow],
    schemas: &[Schema],
) -> Option<(usize, usize)>
    ensures { result ≡ wrong_among (counted counts.now) rows.now
        (filter (λ schema. schema.is_held) (map schema_of schemas.now)) }
{
    match schemas.split_first() {
        None => None,
        Some((schema, schemas)) => {
            if !schema.is_held {
                return wrong_in_tables(counts, rows, schemas);
            }
            match wrong_in_table(counts, rows, schema) {
                Some(place) => Some(place),
                None => wrong_in_tables(counts, rows, schemas),
            }
        }
    }
}

/// The line and the column of the first wrong cell of rows.
pub(crate) fn first_wrong(
    alloc: Global,
    rows: &[DraftRow],
) -> Result<Option<(usize, usize)>, Memory>
    ensures { IfOk result (λ place. place ≡ first_wrong_in rows.now) }
{
    let schemas = schemas();
    let mut counts = List::new(alloc);
    match push_counts(&mut counts, rows, schemas) {
        Ok(()) => Ok(wrong_in_tables(counts.as_slice(), rows, schemas)),
        Err(memory) => Err(memory),
    }
}
