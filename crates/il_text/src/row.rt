ghost use Rattle.std.specs.Prelude.{◌≡◌, ◌+◌, ◌^◌, ◌≤◌, ◌==◌, ◌&&◌, ◌++◌, length, find, IfOk, MatchResult, Ok};
ghost use Rattle.std.specs.Option.{option_map, option_and_then, option_copied, option_to_list};
ghost use Rattle.md_rows.specs.Tables.{schema_of};
ghost use Rattle.md_tables.specs.Modules.{columns_of};
ghost use Rattle.il_text.specs.Lines.{parts_of};
ghost use Rattle.il_text.specs.Values.{number_below as number_below_in, byte_in};
ghost use Rattle.il_text.specs.Reading.{Reads, Refuses, read, value_in, cell_in, cells_from, in_front, held_from};
ghost use Rattle.il_text.specs.Reading.{row_of_table, table_of_last, with_row as with_row_of};
ghost use Rattle.il_text.specs.declared.draft.Value.TheVariants.{Number as NumberOf, Index as IndexOf};

use crate::draft::{Draft, DraftCell, DraftRow, Value};
use crate::fault::IlTextFault;
use crate::line::Line;
use crate::reading::{bad, ends, keyword};
use crate::values::{byte, bytes, name, number_below, row};
use md_rows::{Column, Schema, schemas};
use num_core::{List, Memory};
use std::alloc::Global;

/// The number of the table of the bytes of fields.
pub(crate) const FIELD_RVA: u8 = 0x1D;

/// The number below a bound that a word is, as a value.
fn number_value(bound: u64, word: &[u8]) -> Option<Value>
    requires { bound ≤ 2 ^ 32 }
    ensures { result ≡ option_map NumberOf (number_below_in bound word.now) }
{
    let number = number_below(bound, word)?;
    Some(Value::Number(number as u32))
}

/// The row that a word is, as a value.
fn index_value(word: &[u8]) -> Option<Value>
    ensures { result ≡ option_map IndexOf (number_below_in (2 ^ 32) word.now) }
{
    let number = number_below(1 << 32, word)?;
    Some(Value::Index(number as u32))
}

/// What a word is in a column.
fn value(alloc: Global, column: Column, word: &[u8]) -> Result<Option<Value>, Memory>
    ensures { IfOk result (λ value. value ≡ value_in column word.now) }
{
    match column {
        Column::U8 => Ok(number_value(0x100, word)),
        Column::U16 => Ok(number_value(0x1_0000, word)),
        Column::U32 => Ok(number_value(0x1_0000_0000, word)),
        Column::StringIndex => match name(alloc, word) {
            Ok(Some(name)) => Ok(Some(Value::Name(name))),
            Ok(None) => Ok(None),
            Err(memory) => Err(memory),
        },
        Column::GuidIndex | Column::BlobIndex => match bytes(alloc, word) {
            Ok(Some(bytes)) => Ok(Some(Value::Blob(bytes))),
            Ok(None) => Ok(None),
            Err(memory) => Err(memory),
        },
        Column::RowIndex(_) | Column::RunIndex(_) => Ok(index_value(word)),
        Column::CodedIndex(_) => match row(word) {
            Some(row) => Ok(Some(Value::Coded(row.0, row.1))),
            None => Ok(None),
        },
    }
}

/// The value of the word of a number in a column.
fn value_at(
    alloc: Global,
    line: &Line<'_>,
    index: usize,
    column: Column,
) -> Result<Value, IlTextFault>
    ensures { Reads result (read (value_in column) (parts_of line.now) index) }
{
    let Some(word) = line.word(index) else {
        return Err(bad(line, index));
    };
    match value(alloc, column, word) {
        Ok(Some(value)) => Ok(value),
        Ok(None) => Err(bad(line, index)),
        Err(_) => Err(IlTextFault::Memory),
    }
}

/// The cell of a column, at the word of a number.
fn cell_at(
    alloc: Global,
    line: &Line<'_>,
    index: usize,
    column: Column,
) -> Result<DraftCell, IlTextFault>
    ensures { Reads result (cell_in (parts_of line.now) index column) }
{
    let value = value_at(alloc, line, index, column)?;
    Ok(DraftCell {
        column: line.column(index),
        value,
    })
}

/// Cells, and behind them those of columns, from the word of a number on.
fn with_cells(
    alloc: Global,
    line: &Line<'_>,
    first: usize,
    columns: &[Column],
    front: List<DraftCell>,
) -> Result<List<DraftCell>, IlTextFault>
    requires { first ≤ 3 }
    ensures { Reads result (in_front front (cells_from (parts_of line.now) first columns.now)) }
{
    let mut cells = front;
    let mut index = first;
    let mut rest = columns;
    while let Some((column, behind)) = rest.split_first() {
        match cell_at(alloc, line, index, *column) {
            Ok(cell) => match cells.push(cell) {
                Ok(()) => {}
                Err(_) => return Err(IlTextFault::Memory),
            },
            Err(fault) => return Err(fault),
        }
        index += 1;
        rest = behind;
    }
    Ok(cells)
}

/// The cells of a row of a table.
fn row_cells(
    alloc: Global,
    line: &Line<'_>,
    schema: &Schema,
) -> Result<List<DraftCell>, IlTextFault>
    ensures { Reads result (cells_from (parts_of line.now) 2 (columns_of (schema_of schema.now))) }
{
    let mut cells = List::new(alloc);
    if schema.number != FIELD_RVA {
        return with_cells(alloc, line, 2, schema.columns, cells);
    }
    let bytes = cell_at(alloc, line, 2, Column::BlobIndex)?;
    match cells.push(bytes) {
        Ok(()) => with_cells(alloc, line, 3, schema.columns, cells),
        Err(_) => Err(IlTextFault::Memory),
    }
}

/// How many columns of a table are written.
fn column_count(schema: &Schema) -> usize
    ensures { result ≡ length (columns_of (schema_of schema.now)) }
{
    if schema.number == FIELD_RVA {
        schema.columns.len() + 1
    } else {
        schema.columns.len()
    }
}

/// The row of a table that a line is.
fn row_of(alloc: Global, line: &Line<'_>, schema: &Schema) -> Result<DraftRow, IlTextFault>
    ensures { Reads result (row_of_table (parts_of line.now) (schema_of schema.now)) }
{
    let cells = row_cells(alloc, line, schema)?;
    ends(line, column_count(schema) + 2)?;
    Ok(DraftRow {
        table: schema.number,
        line: line.number,
        cells,
        body: None,
    })
}

/// The table of a number among these, if its rows are held.
fn held_among(schemas: &'static [Schema], table: u8) -> Option<&'static Schema>
    ensures { option_copied result ≡ find (λ schema. schema.number == table && schema.is_held) schemas.now }
{
    schemas
        .iter()
        .find(|schema| schema.number == table && schema.is_held)
}

/// The table of a number that is held and isn't in front of another.
fn held(least: u8, table: u8) -> Option<&'static Schema>
    ensures { option_map schema_of (option_copied result) ≡ held_from least table }
{
    if least <= table {
        held_among(schemas(), table)
    } else {
        None
    }
}

/// The table that word 1 names, which isn't in front of another.
fn table_at(line: &Line<'_>, least: u8) -> Result<&'static Schema, IlTextFault>
    ensures { MatchResult result
        (λ schema. read (λ word. option_and_then (held_from least) (byte_in word)) (parts_of line.now) 1
        ≡ Ok (schema_of schema.now))
        (Refuses (read (λ word. option_and_then (held_from least) (byte_in word)) (parts_of line.now) 1)) }
{
    let Some(word) = line.word(1) else {
        return Err(bad(line, 1));
    };
    let Some(table) = byte(word) else {
        return Err(bad(line, 1));
    };
    match held(least, table) {
        Some(schema) => Ok(schema),
        None => Err(bad(line, 1)),
    }
}

/// The table of the row that was read last, or the first where there is none.
fn last_table(last: &Option<DraftRow>) -> u8
    ensures { result ≡ table_of_last last.now }
{
    match last {
        Some(row) => row.table,
        None => 0,
    }
}

/// Rows, and behind them one more, if there is one.
pub(crate) fn all_rows(
    rows: List<DraftRow>,
    last: Option<DraftRow>,
) -> Result<List<DraftRow>, Memory>
    ensures { IfOk result (λ all. all ≡ rows ++ option_to_list last) }
{
    let mut all = rows;
    match last {
        Some(row) => match all.push(row) {
            Ok(()) => Ok(all),
            Err(_) => Err(Memory),
        },
        None => Ok(all),
    }
}

/// Reads the line of a row, behind the row that was read last.
pub(crate) fn with_row(alloc: Global, draft: Draft, line: &Line<'_>) -> Result<Draft, IlTextFault>
    ensures { Reads result (with_row_of draft (parts_of line.now)) }
{
    keyword(line, b".row")?;
    let Draft {
        entry,
        user,
        rows,
        row: last,
        body,
    } = draft;
    let schema = table_at(line, last_table(&last))?;
    let row = row_of(alloc, line, schema)?;
    match all_rows(rows, last) {
        Ok(rows) => Ok(Draft {
            entry,
            user,
            rows,
            row: Some(row),
            body,
        }),
        Err(_) => Err(IlTextFault::Memory),
    }
}
