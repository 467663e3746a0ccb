//! Rows of tables from those that the code holds.
ghost use Rattle.std.specs.Prelude.{◌≡◌, map, IfOk};
ghost use Rattle.core_lib.specs.Rows.{of_class, of_field, of_method, of_interface, of_blob, variable_row as row_of};
ghost use Rattle.core_lib.specs.Rows.{if_some, module_rows as rows_of_module, row as row_with};

use crate::rows::{ClassRow, FieldRow, InterfaceRow, MethodRow};
use md_tables::{Cell, TableRow};
use num_core::{Bytes, List, Memory, Text};
use std::alloc::Global;
use std::collections::VecDeque;

/// The list of these items.
pub(crate) fn listed<T: Drop>(alloc: Global, items: Vec<T>) -> Result<List<T>, Memory>
    ensures { IfOk result (λ list. list ≡ items.items) }
{
    let mut left = VecDeque::from_vec(items);
    let mut list = List::new(alloc);
    while let Some(item) = left.pop_front() {
        match list.push(item) {
            Ok(()) => {}
            Err(_) => return Err(Memory),
        }
    }
    Ok(list)
}

/// The cell of a name.
fn name(alloc: Global, name: &[u8]) -> Result<Cell, Memory>
    ensures { IfOk result (λ cell. cell ≡ Cell.Name name.now) }
{
    match Text::new(alloc, name) {
        Ok(text) => Ok(Cell::Name(text)),
        Err(_) => Err(Memory),
    }
}

/// The cell of a blob.
fn blob(alloc: Global, bytes: &[u8]) -> Result<Cell, Memory>
    ensures { IfOk result (λ cell. cell ≡ Cell.Blob bytes.now) }
{
    Ok(Cell::Blob(List::from_slice(alloc, bytes)?))
}

/// The body of a method that has one.
fn body(alloc: Global, bytes: &[u8]) -> Result<Option<Bytes>, Memory>
    ensures { IfOk result (λ body. body ≡ if_some bytes.now) }
{
    if bytes.is_empty() {
        Ok(None)
    } else {
        Ok(Some(List::from_slice(alloc, bytes)?))
    }
}

/// The row of these cells.
fn plain(alloc: Global, cells: Vec<Cell>) -> Result<TableRow, Memory>
    ensures { IfOk result (λ made. made ≡ row_with cells.items) }
{
    Ok(TableRow {
        cells: listed(alloc, cells)?,
        body: None,
    })
}

/// A row of TypeDef.
fn class_row(alloc: Global, row: ClassRow) -> Result<TableRow, Memory>
    ensures { IfOk result (λ made. made ≡ of_class row) }
{
    let cells = Vec::from_array(
        alloc,
        [
            Cell::Number(row.attributes),
            name(alloc, row.name)?,
            name(alloc, row.namespace)?,
            Cell::Coded(0x02, row.base),
            Cell::Index(row.fields),
            Cell::Index(row.methods),
        ],
    )?;
    plain(alloc, cells)
}

/// The rows of TypeDef.
pub(crate) fn class_rows(alloc: Global, rows: &[ClassRow]) -> Result<List<TableRow>, Memory>
    ensures { IfOk result (λ made. made ≡ map of_class rows.now) }
{
    let mut made = List::new(alloc);
    for row in rows {
        match made.push(class_row(alloc, *row)?) {
            Ok(()) => {}
            Err(_) => return Err(Memory),
        }
    }
    Ok(made)
}

/// A row of Field.
fn field_row(alloc: Global, row: FieldRow) -> Result<TableRow, Memory>
    ensures { IfOk result (λ made. made ≡ of_field row) }
{
    let cells = Vec::from_array(
        alloc,
        [
            Cell::Number(row.attributes),
            name(alloc, row.name)?,
            blob(alloc, row.signature)?,
        ],
    )?;
    plain(alloc, cells)
}

/// The rows of Field.
pub(crate) fn field_rows(alloc: Global, rows: &[FieldRow]) -> Result<List<TableRow>, Memory>
    ensures { IfOk result (λ made. made ≡ map of_field rows.now) }
{
    let mut made = List::new(alloc);
    for row in rows {
        match made.push(field_row(alloc, *row)?) {
            Ok(()) => {}
            Err(_) => return Err(Memory),
        }
    }
    Ok(made)
}

/// A row of MethodDef, with the body of the method.
fn method_row(alloc: Global, row: MethodRow) -> Result<TableRow, Memory>
    ensures { IfOk result (λ made. made ≡ of_method row) }
{
    let cells = Vec::from_array(
        alloc,
        [
            Cell::Number(row.implementation),
            Cell::Number(row.attributes),
            name(alloc, row.name)?,
            blob(alloc, row.signature)?,
            Cell::Index(1),
        ],
    )?;
    Ok(TableRow {
        cells: listed(alloc, cells)?,
        body: body(alloc, row.body)?,
    })
}

/// The rows of MethodDef, with the bodies of methods.
pub(crate) fn method_rows(alloc: Global, rows: &[MethodRow]) -> Result<List<TableRow>, Memory>
    ensures { IfOk result (λ made. made ≡ map of_method rows.now) }
{
    let mut made = List::new(alloc);
    for row in rows {
        match made.push(method_row(alloc, *row)?) {
            Ok(()) => {}
            Err(_) => return Err(Memory),
        }
    }
    Ok(made)
}

/// A row of InterfaceImpl.
fn interface_row(alloc: Global, row: InterfaceRow) -> Result<TableRow, Memory>
    ensures { IfOk result (λ made. made ≡ of_interface row) }
{
    let cells = [Cell::Index(row.class), Cell::Coded(row.table, row.row)];
    plain(alloc, Vec::from_array(alloc, cells)?)
}

/// The rows of InterfaceImpl.
pub(crate) fn interface_rows(alloc: Global, rows: &[InterfaceRow]) -> Result<List<TableRow>, Memory>
    ensures { IfOk result (λ made. made ≡ map of_interface rows.now) }
{
    let mut made = List::new(alloc);
    for row in rows {
        match made.push(interface_row(alloc, *row)?) {
            Ok(()) => {}
            Err(_) => return Err(Memory),
        }
    }
    Ok(made)
}

/// A row that is one blob, as those of StandAloneSig and TypeSpec are.
fn blob_row(alloc: Global, bytes: &[u8]) -> Result<TableRow, Memory>
    ensures { IfOk result (λ made. made ≡ of_blob bytes.now) }
{
    plain(alloc, Vec::from_array(alloc, [blob(alloc, bytes)?])?)
}

/// Rows that are one blob each.
pub(crate) fn blob_rows(alloc: Global, rows: &[&[u8]]) -> Result<List<TableRow>, Memory>
    ensures { IfOk result (λ made. made ≡ map (λ blob. of_blob blob.now) rows.now) }
{
    let mut made = List::new(alloc);
    for row in rows {
        match made.push(blob_row(alloc, row)?) {
            Ok(()) => {}
            Err(_) => return Err(Memory),
        }
    }
    Ok(made)
}

/// A row of GenericParam, of a generic class.
fn variable_row(alloc: Global, class: u32) -> Result<TableRow, Memory>
    ensures { IfOk result (λ made. made ≡ row_of class) }
{
    let cells = Vec::from_array(
        alloc,
        [
            Cell::Number(0),
            Cell::Number(0),
            Cell::Coded(0x02, class),
            name(alloc, b"T")?,
        ],
    )?;
    plain(alloc, cells)
}

/// The rows of GenericParam.
pub(crate) fn variable_rows(alloc: Global, rows: &[u32]) -> Result<List<TableRow>, Memory>
    ensures { IfOk result (λ made. made ≡ map row_of rows.now) }
{
    let mut made = List::new(alloc);
    for row in rows {
        match made.push(variable_row(alloc, *row)?) {
            Ok(()) => {}
            Err(_) => return Err(Memory),
        }
    }
    Ok(made)
}

/// The rows of Module (ECMA-335 II.22.30).
pub(crate) fn module_rows(alloc: Global) -> Result<List<TableRow>, Memory>
    ensures { IfOk result (λ made. made ≡ rows_of_module) }
{
    let cells = Vec::from_array(
        alloc,
        [
            Cell::Number(0),
            name(alloc, b"core.dll")?,
            blob(alloc, b"Fodrelic's core.")?,
            blob(alloc, b"")?,
            blob(alloc, b"")?,
        ],
    )?;
    listed(alloc, Vec::from_array(alloc, [plain(alloc, cells)?])?)
}
