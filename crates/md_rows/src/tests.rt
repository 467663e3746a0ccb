use crate::{Cell, RowFault, Streams, Table, read_rows};
use num_core::List;
use std::alloc::{AllocError, Global};

/// The stream of the tables of a module with the types `<Module>` and `N.P`, a field `x`, two methods `f`, and a
/// property with an attribute.
static TABLES: &[u8] = b"\
    \0\0\0\0\x02\0\0\x01\x55\x10\x80\0\0\0\0\0\0\0\0\0\0\0\0\0\
    \x01\0\0\0\x02\0\0\0\x01\0\0\0\x02\0\0\0\x01\0\0\0\x01\0\0\0\
    \0\0\x0A\0\x01\0\0\0\0\0\
    \0\0\0\0\x01\0\0\0\0\0\x01\0\x01\0\
    \x01\0\x10\0\x0A\0\x0C\0\x04\0\x01\0\x01\0\
    \x06\0\x0E\0\x01\0\
    \x50\x20\0\0\0\0\x96\0\x10\0\x01\0\x01\0\
    \0\0\0\0\0\0\0\0\x10\0\0\0\x01\0\
    \x29\0\x0A\0\0\0\
    \0\0\x0E\0\x01\0";

static STRINGS: &[u8] = b"\0<Module>\0P\0N\0x\0f\0";

static GUIDS: &[u8] = b"0123456789ABCDEF";

static BLOBS: &[u8] = b"\0\x02\x06\x08";

/// The tables of the module, whose stream of tables is this one.
fn read(alloc: Global, tables: &[u8]) -> Result<List<Table>, RowFault> {
    let streams = Streams {
        tables,
        strings: STRINGS,
        guid: GUIDS,
        blob: BLOBS,
    };
    read_rows(alloc, &streams)
}

/// The number in a cell, or how many bytes it has.
fn number(cell: &Cell) -> u64 {
    match cell {
        Cell::Number(number) => *number as u64,
        Cell::Index(row) => *row as u64,
        Cell::Coded(table, row) => *table as u64 * 0x100 + *row as u64,
        Cell::Name(text) => text.bytes().len() as u64,
        Cell::Blob(blob) => blob.len() as u64,
    }
}

/// The number in a cell of the module.
fn cell(tables: &List<Table>, table: usize, row: usize, column: usize) -> Option<u64> {
    let rows = &tables.get(table)?.rows;
    let row = rows.get(row)?;
    Some(number(row.cells.get(column)?))
}

/// The address in a row of the module.
fn address(tables: &List<Table>, table: usize, row: usize) -> Option<u32> {
    let rows = &tables.get(table)?.rows;
    Some(rows.get(row)?.address)
}

/// The refusal of the stream with one byte changed.
fn changed(alloc: Global, at: usize, byte: u8) -> Result<Option<RowFault>, AllocError> {
    let mut stream = Vec::from_slice(alloc, TABLES)?;
    if at < stream.len() {
        stream[at] = byte;
    }
    Ok(read(alloc, stream.as_slice()).err())
}

/// Each kind of cell, by the table's place among those that are held, the row and the column.
#[test]
fn reads_cells(rt: HostRuntime) {
    if let Ok(tables) = read(rt.alloc(), TABLES) {
        assert_eq!(rt; tables.len(), 21);
        for (table, row, column, value) in [
            (0, 0, 1, Some(1)),
            (0, 0, 2, Some(16)),
            (0, 0, 3, Some(0)),
            (2, 0, 1, Some(8)),
            (2, 1, 0, Some(0x0010_0001)),
            (2, 1, 3, Some(0x201)),
            (2, 1, 5, Some(1)),
            (2, 2, 0, None),
            (3, 0, 2, Some(2)),
            (4, 0, 1, Some(0x96)),
            (4, 1, 4, Some(1)),
            (9, 0, 0, Some(0x1700)),
            (9, 0, 1, Some(0x601)),
            (9, 1, 0, None),
        ] {
            assert_eq!(rt; cell(&tables, table, row, column), value);
        }
        assert_eq!(rt; address(&tables, 4, 0), Some(0x2050));
        assert_eq!(rt; address(&tables, 4, 1), Some(0));
    } else {
        assert!(rt; false);
    }
}

/// One byte each: the width of names, a table that is refused, a name and a GUID that aren't there, a row and a tag
/// that aren't there, a run behind the table and one that falls, a blob, and two tags that name no table.
#[test]
fn refuses_changes(rt: HostRuntime) -> Result<(), std::test::Fail> {
    for (at, byte, fault) in [
        (6, 1, Some(RowFault::BadTable(0, 1))),
        (8, 0x5D, Some(RowFault::RefusedTable(3))),
        (15, 0x80, Some(RowFault::RefusedTable(63))),
        (50, 18, Some(RowFault::BadTable(0, 1))),
        (52, 2, Some(RowFault::BadTable(0, 1))),
        (80, 0x0C, Some(RowFault::BadTable(2, 2))),
        (80, 0x03, Some(RowFault::BadTable(2, 2))),
        (68, 3, Some(RowFault::BadTable(2, 1))),
        (68, 2, Some(RowFault::BadTable(2, 2))),
        (84, 3, None),
        (84, 4, Some(RowFault::BadTable(2, 2))),
        (90, 4, Some(RowFault::BadTable(4, 1))),
        (120, 0x36, Some(RowFault::BadTable(0x0C, 1))),
        (122, 0x08, Some(RowFault::BadTable(0x0C, 1))),
        (122, 0x1A, Some(RowFault::BadTable(0x0C, 1))),
    ] {
        assert_eq!(rt; changed(rt.alloc(), at, byte)?, fault);
    }
    Ok(())
}

/// Each prefix ends within the header, or within a row.
#[test]
fn refuses_prefixes(rt: HostRuntime) {
    for (size, fault) in [
        (0, RowFault::BadTable(0, 0)),
        (23, RowFault::BadTable(0, 0)),
        (47, RowFault::BadTable(0, 0)),
        (48, RowFault::BadTable(0, 1)),
        (85, RowFault::BadTable(2, 2)),
        (131, RowFault::BadTable(0x17, 1)),
    ] {
        if size <= TABLES.len() {
            assert_eq!(rt; read(rt.alloc(), &TABLES[..size]).err(), Some(fault));
        }
    }
}
