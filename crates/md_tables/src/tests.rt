use crate::{Cell, Module, TableFault, read_tables};
use pe_image::open_image;
use std::alloc::{AllocError, Global};

/// An assembly with the types `<Module>` and `P`, three fields `x`, of which two lead to the bytes "GH" and "ABCDEF"
/// and one to an address that no section holds, and three methods `f`, of which the second has no CIL.
static IMAGE: &[u8] = b"\
    MZ\0\0\0\0\0\0\0\0\0\0\0\0\0\0\0\0\0\0\0\0\0\0\0\0\0\0\0\0\0\0\0\0\0\0\0\0\0\0\0\0\0\0\0\0\0\0\0\0\0\0\0\0\0\
    \0\0\0\0\0@\0\0\0PE\0\0L\x01\x01\0\0\0\0\0\0\0\0\0\0\0\0\0\xE0\0\x02!\x0B\x01\0\0\0\0\0\0\0\0\0\0\0\0\0\0\0\
    \0\0\0\0\0\0\0\0\0\0\0\0\0\0\0\0\0\0\0\0\0\0\0\0\0\0\0\0\0\0\0\0\0\0\0\0\0\0\0\0\0\0\0\0\0\0\0\0\0\0\0\0\0\0\
    \0\0\0\0\0\0\0\0\0\0\0\0\0\0\0\0\0\0\0\0\0\x10\0\0\0\0\0\0\0\0\0\0\0\0\0\0\0\0\0\0\0\0\0\0\0\0\0\0\0\0\0\0\0\
    \0\0\0\0\0\0\0\0\0\0\0\0\0\0\0\0\0\0\0\0\0\0\0\0\0\0\0\0\0\0\0\0\0\0\0\0\0\0\0\0\0\0\0\0\0\0\0\0\0\0\0\0\0\0\
    \0\0\0\0\0\0\0\0\0\0\0\0\0\0\0\0\0\0\0\0\0\0\0\0\0\0\0\0\0\0\0\x20\0\0H\0\0\0\0\0\0\0\0\0\0\0.text\0\0\0\x90\
    \x01\0\0\0\x20\0\0\x90\x01\0\0`\x01\0\0\0\0\0\0\0\0\0\0\0\0\0\0\0\0\0\0H\0\0\0\x02\0\x05\0H\x20\0\08\x01\0\0\
    \x01\0\0\0\x01\0\0\x06\0\0\0\0\0\0\0\0\0\0\0\0\0\0\0\0\0\0\0\0\0\0\0\0\0\0\0\0\0\0\0\0\0\0\0\0\0\0\0\0\0\0\0\
    \0\0\0\0\0BSJB\x01\0\x01\0\0\0\0\0\x04\0\0\0v1\0\0\0\0\x05\0d\0\0\0\xA0\0\0\0#~\0\0\x04\x01\0\0\x10\0\0\0#St\
    rings\0\0\0\0\x14\x01\0\0\x08\0\0\0#US\0\x1C\x01\0\0\x10\0\0\0#GUID\0\0\0,\x01\0\0\x0C\0\0\0#Blob\0\0\0\0\0\
    \0\0\x02\0\0\x01U\0\0\x20\0\0\0\0\0\0\0\0\0\0\0\0\x01\0\0\0\x02\0\0\0\x03\0\0\0\x03\0\0\0\x03\0\0\0\0\0\x0A\
    \0\x01\0\0\0\0\0\0\0\0\0\x01\0\0\0\0\0\x01\0\x01\0\x01\0\0\0\x0A\0\0\0\0\0\x01\0\x01\0\0\x01\x0E\0\x01\0\0\
    \x01\x0E\0\x01\0\0\x01\x0E\0\x01\0\x80!\0\0\0\0\x16\0\x0C\0\x04\0\x01\0\0\0\0\0\0\0\x16\0\x0C\0\x04\0\x01\0\
    \x84!\0\0\0\0\x16\0\x0C\0\x04\0\x01\0\x8E!\0\0\x01\0\x88!\0\0\x02\0\0\x90\0\0\x03\0\0<Module>\0P\0f\0x\0\0\
    \x03A\0\0\0\0\00123456789ABCDEF\0\x02\x06\x08\x03\0\0\x01\0\0\0\0\x0A\x17*\0\x06*\0\0ABCDEFGH";

/// The module in the bytes.
fn read(alloc: Global, bytes: &[u8]) -> Option<Result<Module, TableFault>> {
    if bytes.len() > 4096 {
        return None;
    }
    let image = open_image(bytes).ok()?;
    Some(read_tables(alloc, &image))
}

/// How many bytes the body of a method has.
fn body_size(module: &Module, row: usize) -> Option<usize> {
    let rows = &module.tables().get(4)?.rows;
    match &rows.get(row)?.body {
        Some(body) => Some(body.len()),
        None => None,
    }
}

/// How many bytes a field has, and the first of them.
fn field(module: &Module, row: usize) -> Option<(usize, u8)> {
    let rows = &module.tables().get(14)?.rows;
    let row = rows.get(row)?;
    match row.cells.get(0)? {
        Cell::Blob(bytes) => match bytes.get(0) {
            Some(byte) => Some((bytes.len(), *byte)),
            None => Some((0, 0)),
        },
        _ => None,
    }
}

/// The refusal of the image with two bytes changed.
fn changed(
    alloc: Global,
    first: (usize, u8),
    second: (usize, u8),
) -> Result<Option<TableFault>, AllocError> {
    let mut file = Vec::from_slice(alloc, IMAGE)?;
    if first.0 < file.len() {
        file[first.0] = first.1;
    }
    if second.0 < file.len() {
        file[second.0] = second.1;
    }
    match read(alloc, file.as_slice()) {
        Some(read) => Ok(read.err()),
        None => Ok(None),
    }
}

/// Bodies, and the bytes of fields, of which the first row's come last.
#[test]
fn reads_a_module(rt: HostRuntime) {
    if let Some(Ok(module)) = read(rt.alloc(), IMAGE) {
        assert_eq!(rt; module.entry(), 0x0600_0001);
        assert_eq!(rt; module.user().len(), 8);
        assert_eq!(rt; module.tables().len(), 21);
        assert_eq!(rt; body_size(&module, 0), Some(3));
        assert_eq!(rt; body_size(&module, 1), None);
        assert_eq!(rt; body_size(&module, 2), Some(2));
        assert_eq!(rt; field(&module, 0), Some((2, b'G')));
        assert_eq!(rt; field(&module, 1), Some((6, b'A')));
        assert_eq!(rt; field(&module, 2), Some((0, 0)));
    } else {
        assert!(rt; false);
    }
}

/// A table that is refused, a bad row, a body that isn't whole, and one beside a bad row of a later table.
#[test]
fn refuses_changes(rt: HostRuntime) -> Result<(), std::test::Fail> {
    for (first, second, fault) in [
        ((532, 0x5D), (736, 0x0A), TableFault::RefusedTable(3)),
        ((570, 0xFF), (736, 0x0A), TableFault::BadTable(0, 1)),
        ((736, 0x03), (736, 0x03), TableFault::BadHeader(0x2180)),
        ((740, 0xFE), (740, 0xFE), TableFault::BadHeader(0x2184)),
        ((736, 0x03), (682, 0x04), TableFault::BadTable(0x1D, 3)),
    ] {
        assert_eq!(rt; changed(rt.alloc(), first, second)?, Some(fault));
    }
    Ok(())
}
