ghost use Rattle.std.specs.Prelude.{◌≡◌, OnOk, IfOk};
ghost use Rattle.md_rows.specs.Tables.{schema_of};
ghost use Rattle.md_write.specs.Heaps.{first_heaps, with_bytes, with_cell, with_cells, with_row, with_rows};
ghost use Rattle.md_write.specs.Heaps.{with_table, heaps_of as heaps_in};

use crate::heap::Heap;
use crate::kind::HeapKind;
use crate::tables::{own_cells, table_rows};
use md_rows::{Cell, Column, Schema, schemas};
use md_tables::{Table, TableRow};
use num_core::Memory;
use std::alloc::Global;

/// The heaps that the rows of a module lead to.
#[derive(Drop)]
pub(crate) struct Heaps {
    pub(crate) strings: Heap,
    pub(crate) guids: Heap,
    pub(crate) blobs: Heap,
}

/// The heaps that have the empty item alone.
fn first_heaps_of(alloc: Global) -> Result<Heaps, Memory>
    ensures { IfOk result (λ heaps. heaps ≡ first_heaps) }
{
    let strings = match Heap::new(alloc, HeapKind::Strings) {
        Ok(heap) => heap,
        Err(memory) => return Err(memory),
    };
    let guids = match Heap::new(alloc, HeapKind::Guids) {
        Ok(heap) => heap,
        Err(memory) => return Err(memory),
    };
    match Heap::new(alloc, HeapKind::Blobs) {
        Ok(blobs) => Ok(Heaps {
            strings,
            guids,
            blobs,
        }),
        Err(memory) => Err(memory),
    }
}

/// Adds the bytes of a column of GUIDs or of blobs.
fn add_bytes(heaps: &mut Heaps, alloc: Global, column: Column, bytes: &[u8]) -> Result<(), Memory>
    ensures { OnOk result (heaps.new ≡ with_bytes heaps.old column bytes.now) }
{
    match column {
        Column::GuidIndex => heaps.guids.add(alloc, bytes),
        Column::BlobIndex => heaps.blobs.add(alloc, bytes),
        Column::U8 => Ok(()),
        Column::U16 => Ok(()),
        Column::U32 => Ok(()),
        Column::StringIndex => Ok(()),
        Column::RowIndex(_) => Ok(()),
        Column::RunIndex(_) => Ok(()),
        Column::CodedIndex(_) => Ok(()),
    }
}

/// Adds what a column holds.
fn add_cell(heaps: &mut Heaps, alloc: Global, column: Column, cell: &Cell) -> Result<(), Memory>
    ensures { OnOk result (heaps.new ≡ with_cell heaps.old column cell.now) }
{
    match cell {
        Cell::Name(text) => heaps.strings.add(alloc, text.bytes()),
        Cell::Blob(bytes) => add_bytes(heaps, alloc, column, bytes.as_slice()),
        Cell::Number(_) => Ok(()),
        Cell::Index(_) => Ok(()),
        Cell::Coded(_, _) => Ok(()),
    }
}

/// Adds what columns hold, one cell for each.
fn add_cells(
    heaps: &mut Heaps,
    alloc: Global,
    columns: &[Column],
    cells: &[Cell],
) -> Result<(), Memory>
    ensures { OnOk result (heaps.new ≡ with_cells heaps.old columns.now cells.now) }
{
    for (index, column) in columns.iter().enumerate() {
        match cells.get(index) {
            Some(cell) => match add_cell(heaps, alloc, *column, cell) {
                Ok(()) => {}
                Err(memory) => return Err(memory),
            },
            None => return Ok(()),
        }
    }
    Ok(())
}

/// Adds what a row holds.
fn add_row(heaps: &mut Heaps, alloc: Global, schema: &Schema, row: &TableRow) -> Result<(), Memory>
    ensures { OnOk result (heaps.new ≡ with_row (schema_of schema.now) heaps.old row.now) }
{
    add_cells(heaps, alloc, schema.columns, own_cells(schema.number, row))
}

/// Adds what the rows of a table hold.
fn add_rows(
    heaps: &mut Heaps,
    alloc: Global,
    schema: &Schema,
    rows: &[TableRow],
) -> Result<(), Memory>
    ensures { OnOk result (heaps.new ≡ with_rows (schema_of schema.now) heaps.old rows.now) }
{
    for row in rows {
        match add_row(heaps, alloc, schema, row) {
            Ok(()) => {}
            Err(memory) => return Err(memory),
        }
    }
    Ok(())
}

/// Adds what the table of a schema holds.
fn add_table(
    heaps: &mut Heaps,
    alloc: Global,
    tables: &[Table],
    schema: &Schema,
) -> Result<(), Memory>
    ensures { OnOk result (heaps.new ≡ with_table tables.now heaps.old (schema_of schema.now)) }
{
    add_rows(heaps, alloc, schema, table_rows(tables, schema.number))
}

/// The heaps of a module's tables.
pub(crate) fn heaps_of(alloc: Global, tables: &[Table]) -> Result<Heaps, Memory>
    ensures { IfOk result (λ heaps. heaps ≡ heaps_in tables.now) }
{
    let mut heaps = match first_heaps_of(alloc) {
        Ok(heaps) => heaps,
        Err(memory) => return Err(memory),
    };
    for schema in schemas() {
        match add_table(&mut heaps, alloc, tables, schema) {
            Ok(()) => {}
            Err(memory) => return Err(memory),
        }
    }
    Ok(heaps)
}
