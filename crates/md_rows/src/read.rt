ghost use Rattle.std.specs.Prelude.{◌≡◌, ◌<◌, ◌≤◌, ◌∷◌, ◌++◌, [], true, map, length, All, Ok, IfOk, IfErr, OnOk};
ghost use Rattle.md_rows.specs.Tables.{schema_of};
ghost use Rattle.md_rows.specs.Cells.{bytes_of};
ghost use Rattle.md_rows.specs.Reading.{kept, table_of, tables_from, reading, Refuses};
ghost use Rattle.md_rows.specs.Fits.{fit_together};

use crate::fault::RowFault;
use crate::header::{first_refused, read_layout, valid};
use crate::layout::Layout;
use crate::row::{Row, rows};
use crate::schema::{Schema, schemas};
use crate::streams::Streams;
use crate::table::Table;
use num_core::{List, Memory};
use std::alloc::Global;

/// The tables whose rows are held, empty ones too, in the order of their numbers (ECMA-335 II.22 and II.24.2.6).
///
/// A header that is cut is `BadTable(0, 0)`; a table that no assembly of this kind has is `RefusedTable`, the least of
/// them; `BadTable` tells the first bad row, in the order of tables and rows. A row is bad that passes the stream, that
/// has an index past its table or heap, a tag that names no table, or an index at which no text, blob or GUID stands,
/// or where a run begins in front of that of the row before.
pub fn read_rows(alloc: Global, streams: &Streams<'_>) -> Result<List<Table>, RowFault>
    ensures read { IfOk result (λ tables. reading (bytes_of streams.now) ≡ Ok tables) }
    ensures fit { IfOk result (λ tables. fit_together tables ≡ true) }
    ensures refused { IfErr result (Refuses (reading (bytes_of streams.now))) }
{
    are_bytes(streams.tables);
    let layout = match read_layout(alloc, streams.tables) {
        Ok(Some(layout)) => layout,
        Ok(None) => return Err(RowFault::BadTable(0, 0)),
        Err(_) => return Err(RowFault::Memory),
    };
    match first_refused(valid(streams.tables)) {
        Some(table) => Err(RowFault::RefusedTable(table)),
        None => all_tables(alloc, streams, &layout, schemas()),
    }
}

/// The numbers in a slice of bytes are those of bytes.
fn are_bytes(bytes: &[u8])
    ensures { All (λ byte. byte < 256) bytes.now }
{
    for byte in bytes {
        let _byte = *byte;
    }
}

/// Keeps a table that is held.
fn keep(tables: &mut List<Table>, schema: &Schema, rows: List<Row>) -> Result<(), Memory>
    ensures { OnOk result (tables.new ≡ tables.old
        ++ kept schema.now.is_held (table_of schema.now.number rows)) }
{
    if schema.is_held {
        match tables.push(Table {
            number: schema.number,
            rows,
        }) {
            Ok(()) => Ok(()),
            Err(_) => Err(Memory),
        }
    } else {
        drop(rows);
        Ok(())
    }
}

/// The tables of these schemas, one behind another.
fn all_tables(
    alloc: Global,
    streams: &Streams<'_>,
    layout: &Layout,
    schemas: &[Schema],
) -> Result<List<Table>, RowFault>
    requires { layout.now.place ≤ length streams.now.tables.now }
    ensures read { IfOk result (λ tables. tables_from (bytes_of streams.now) layout.now layout.now.place
        (map schema_of schemas.now) ≡ Ok tables) }
    ensures refused { IfErr result (Refuses (tables_from (bytes_of streams.now) layout.now layout.now.place
        (map schema_of schemas.now))) }
{
    let mut tables = List::new(alloc);
    let mut at = layout.place;
    for schema in schemas {
        match rows(alloc, streams, layout, schema, at) {
            Ok((rows, end)) => {
                at = end;
                match keep(&mut tables, schema, rows) {
                    Ok(()) => {}
                    Err(_) => return Err(RowFault::Memory),
                }
            }
            Err(fault) => return Err(fault),
        }
    }
    Ok(tables)
}
