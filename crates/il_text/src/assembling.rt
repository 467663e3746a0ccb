ghost use Rattle.std.specs.Prelude.{◌≡◌, ◌++◌, ◌∷◌, [], map, true, None, Ok, IfOk, IfErr, OnOk};
ghost use Rattle.std.specs.List.{filter};
ghost use Rattle.md_rows.specs.Tables.{schema_of};
ghost use Rattle.md_tables.specs.Modules.{is_module};
ghost use Rattle.il_text.specs.Reading.{Reads, Refuses};
ghost use Rattle.il_text.specs.Assembling.{cell_of, table_row as table_row_of, rows_of_table, table_of, tables_of};
ghost use Rattle.il_text.specs.Assembling.{module_parts, unless_wrong, first_wrong as first_wrong_in};
ghost use Rattle.il_text.specs.Assembling.{all_rows as all_rows_of};
ghost use Rattle.il_text.specs.Assembling.{or_empty as or_empty_of, module_of as module_of_in, assembled};

use crate::draft::{Draft, DraftCell, DraftRow, Value};
use crate::fault::IlTextFault;
use crate::row::all_rows;
use crate::text::read_text;
use crate::wrong::first_wrong;
use md_rows::{Schema, schemas};
use md_tables::{Cell, Module, Table, TableRow};
use num_core::{Bytes, List, Memory, Text};
use std::alloc::Global;

/// The cell that a value is.
fn cell(alloc: Global, value: &Value) -> Result<Cell, Memory>
    ensures { IfOk result (λ cell. cell ≡ cell_of value.now) }
{
    match value {
        Value::Number(number) => Ok(Cell::Number(*number)),
        Value::Name(name) => match Text::new(alloc, name.as_slice()) {
            Ok(name) => Ok(Cell::Name(name)),
            Err(_) => Err(Memory),
        },
        Value::Blob(bytes) => match List::from_slice(alloc, bytes.as_slice()) {
            Ok(bytes) => Ok(Cell::Blob(bytes)),
            Err(memory) => Err(memory),
        },
        Value::Index(row) => Ok(Cell::Index(*row)),
        Value::Coded(table, row) => Ok(Cell::Coded(*table, *row)),
    }
}

/// The cells of a row.
fn cells_of(alloc: Global, cells: &[DraftCell]) -> Result<List<Cell>, Memory>
    ensures { IfOk result (λ done. done ≡ map (λ cell. cell_of cell.value) cells.now) }
{
    let mut done = List::new(alloc);
    for one in cells {
        let cell = cell(alloc, &one.value)?;
        match done.push(cell) {
            Ok(()) => {}
            Err(_) => return Err(Memory),
        }
    }
    Ok(done)
}

/// A row of a table.
fn table_row(alloc: Global, row: &DraftRow) -> Result<TableRow, Memory>
    ensures { IfOk result (λ done. done ≡ table_row_of row.now) }
{
    let cells = cells_of(alloc, row.cells.as_slice())?;
    match &row.body {
        Some(body) => match List::from_slice(alloc, body.as_slice()) {
            Ok(body) => Ok(TableRow {
                cells,
                body: Some(body),
            }),
            Err(memory) => Err(memory),
        },
        None => Ok(TableRow { cells, body: None }),
    }
}

/// Adds a row, if it is one of the table.
fn push_row(
    alloc: Global,
    done: &mut List<TableRow>,
    table: u8,
    row: &DraftRow,
) -> Result<(), Memory>
    ensures { OnOk result (done.new ≡ done.old ++ map table_row_of (rows_of_table (row.now ∷ []) table)) }
{
    if row.table != table {
        return Ok(());
    }
    let row = table_row(alloc, row)?;
    match done.push(row) {
        Ok(()) => Ok(()),
        Err(_) => Err(Memory),
    }
}

/// The rows of a table.
fn table_rows(alloc: Global, rows: &[DraftRow], table: u8) -> Result<List<TableRow>, Memory>
    ensures { IfOk result (λ done. done ≡ map table_row_of (rows_of_table rows.now table)) }
{
    let mut done = List::new(alloc);
    for row in rows {
        push_row(alloc, &mut done, table, row)?;
    }
    Ok(done)
}

/// Adds each of the tables that is held, with its rows.
fn push_tables(
    alloc: Global,
    tables: &mut List<Table>,
    rows: &[DraftRow],
    schemas: &[Schema],
) -> Result<(), Memory>
    ensures { OnOk result (tables.new ≡ tables.old ++ map (table_of rows.now)
        (filter (λ schema. schema.is_held) (map schema_of schemas.now))) }
{
    match schemas.split_first() {
        None => Ok(()),
        Some((schema, schemas)) => {
            if !schema.is_held {
                return push_tables(alloc, tables, rows, schemas);
            }
            let table = Table {
                number: schema.number,
                rows: table_rows(alloc, rows, schema.number)?,
            };
            match tables.push(table) {
                Ok(()) => push_tables(alloc, tables, rows, schemas),
                Err(_) => Err(Memory),
            }
        }
    }
}

/// Each table that is held, with its rows.
fn tables(alloc: Global, rows: &[DraftRow]) -> Result<List<Table>, Memory>
    ensures { IfOk result (λ tables. tables ≡ tables_of rows.now) }
{
    let mut tables = List::new(alloc);
    push_tables(alloc, &mut tables, rows, schemas())?;
    Ok(tables)
}

// ---- the module

/// The module of rows, if none of their columns is wrong.
fn module_of_rows(
    alloc: Global,
    entry: u32,
    user: Bytes,
    rows: &[DraftRow],
) -> Result<Module, IlTextFault>
    requires { first_wrong_in rows.now ≡ None → is_module (tables_of rows.now) ≡ true }
    ensures { Reads result (unless_wrong (module_parts entry user (tables_of rows.now)) (first_wrong_in rows.now)) }
{
    match first_wrong(alloc, rows) {
        Ok(Some(place)) => Err(IlTextFault::BadText(place.0, place.1)),
        Ok(None) => match tables(alloc, rows) {
            Ok(tables) => Ok(Module::new(entry, user, tables)),
            Err(_) => Err(IlTextFault::Memory),
        },
        Err(_) => Err(IlTextFault::Memory),
    }
}

/// Bytes, or none.
fn or_empty(alloc: Global, bytes: Option<Bytes>) -> Bytes
    ensures { result ≡ or_empty_of bytes }
{
    match bytes {
        Some(bytes) => bytes,
        None => List::new(alloc),
    }
}

/// The module of what was read.
fn module_of(alloc: Global, draft: Draft) -> Result<Module, IlTextFault>
    requires { first_wrong_in (all_rows_of draft) ≡ None → is_module (tables_of (all_rows_of draft)) ≡ true }
    ensures { Reads result (module_of_in draft) }
{
    let entry = draft.entry.unwrap_or(0);
    let user = or_empty(alloc, draft.user);
    match all_rows(draft.rows, draft.row) {
        Ok(rows) => module_of_rows(alloc, entry, user, rows.as_slice()),
        Err(_) => Err(IlTextFault::Memory),
    }
}

/// The module that a text means: each line goes on with what stands before it, and the rows are those of a module
/// (ECMA-335 II.22).
///
/// `BadText` tells the first line that can't go on, and the column of its first word that can't stand there; where a
/// word is missing, one past the line's last byte, and where a line is missing, column 1 of the line behind the last. A
/// body that isn't one is told at its first line. A column that no module has is looked for last.
pub fn assemble(alloc: Global, text: &[u8]) -> Result<Module, IlTextFault>
    ensures module { IfOk result (λ m. assembled text.now ≡ Ok m) }
    ensures bad_text { IfErr result (Refuses (assembled text.now)) }
{
    match read_text(alloc, text) {
        Ok(draft) => module_of(alloc, draft),
        Err(fault) => Err(fault),
    }
}
