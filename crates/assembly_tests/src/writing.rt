use md_tables::{Cell, Module, Table, TableRow, are_tables, read_tables};
use md_write::write_image;
use num_core::{Bytes, List, Memory, Text};
use pe_image::open_image;
use std::alloc::{AllocError, Global};

/// The file of a module without rows and user strings, as a program of another language lays it out, without the
/// zeros behind it.
static EMPTY: &[u8] = b"\
    MZ\x90\0\x03\0\0\0\x04\0\0\0\xFF\xFF\0\0\xB8\0\0\0\0\0\0\0@\0\0\0\0\0\0\0\0\0\0\0\0\0\0\0\0\0\0\0\0\0\0\0\0\0\0\
    \0\0\0\0\0\0\0\0\0\x80\0\0\0\x0E\x1F\xBA\x0E\0\xB4\x09\xCD!\xB8\x01L\xCD!This program cannot be run in DOS mode.\
    \x0D\x0D\x0A$\0\0\0\0\0\0\0PE\0\0L\x01\x01\0\0\0\0\0\0\0\0\0\0\0\0\0\xE0\0\x02 \x0B\x01\x06\0\0\x02\0\0\0\0\0\0\
    \0\0\0\0\0\0\0\0\0 \0\0\0\0\0\0\0\0@\0\0 \0\0\0\x02\0\0\x05\0\0\0\0\0\0\0\x05\0\0\0\0\0\0\0\0@\0\0\0\x02\0\0\0\0\
    \0\0\x03\0\0\0\0\0\x10\0\0\x10\0\0\0\0\x10\0\0\x10\0\0\0\0\0\0\x10\0\0\0\0\0\0\0\0\0\0\0\0\0\0\0\0\0\0\0\0\0\0\0\
    \0\0\0\0\0\0\0\0\0\0\0\0\0\0\0\0\0\0\0\0\0\0\0\0\0\0\0\0\0\0\0\0\0\0\0\0\0\0\0\0\0\0\0\0\0\0\0\0\0\0\0\0\0\0\0\0\
    \0\0\0\0\0\0\0\0\0\0\0\0\0\0\0\0\0\0\0\0\0\0\0\0\0\0\0\0\0\0\0\0\0\0\0\0\0 \0\0H\0\0\0\0\0\0\0\0\0\0\0.text\0\0\
    \0\xD4\0\0\0\0 \0\0\0\x02\0\0\0\x02\0\0\0\0\0\0\0\0\0\0\0\0\0\0 \0\0`\0\0\0\0\0\0\0\0\0\0\0\0\0\0\0\0\0\0\0\0\0\
    \0\0\0\0\0\0\0\0\0\0\0\0\0\0\0\0\0\0\0\0\0\0\0\0\0\0\0\0\0\0\0\0\0\0\0\0\0\0\0\0\0\0\0\0\0\0\0\0\0\0\0\0\0\0\0\0\
    \0\0\0\0\0\0\0\0\0\0\0\0\0\0\0\0\0\0\0H\0\0\0\x02\0\x05\0H \0\0\x8C\0\0\0\x01\0\0\0\0\0\0\0\0\0\0\0\0\0\0\0\0\0\
    \0\0\0\0\0\0\0\0\0\0\0\0\0\0\0\0\0\0\0\0\0\0\0\0\0\0\0\0\0\0\0\0\0\0\0\0\0\0BSJB\x01\0\x01\0\0\0\0\0\x0C\0\0\0v4\
    .0.30319\0\0\0\0\x05\0l\0\0\0\x18\0\0\0#~\0\0\x84\0\0\0\x04\0\0\0#Strings\0\0\0\0\x88\0\0\0\0\0\0\0#US\0\x88\0\0\
    \0\0\0\0\0#GUID\0\0\0\x88\0\0\0\x04\0\0\0#Blob\0\0\0\0\0\0\0\x02\0\0\x01\0\0\0\0\0\0\0\0\0\xFA\x013\0\x16";

/// The same of a module with a row of each table, and of methods one with a tiny header, one with a fat one, and one
/// without CIL; of fields with bytes there is none.
static ROWS: &[u8] = b"\
    MZ\x90\0\x03\0\0\0\x04\0\0\0\xFF\xFF\0\0\xB8\0\0\0\0\0\0\0@\0\0\0\0\0\0\0\0\0\0\0\0\0\0\0\0\0\0\0\0\0\0\0\0\0\0\
    \0\0\0\0\0\0\0\0\0\x80\0\0\0\x0E\x1F\xBA\x0E\0\xB4\x09\xCD!\xB8\x01L\xCD!This program cannot be run in DOS mode.\
    \x0D\x0D\x0A$\0\0\0\0\0\0\0PE\0\0L\x01\x01\0\0\0\0\0\0\0\0\0\0\0\0\0\xE0\0\x02\0\x0B\x01\x06\0\0\x04\0\0\0\0\0\0\
    \0\0\0\0\0\0\0\0\0 \0\0\0\0\0\0\0\0@\0\0 \0\0\0\x02\0\0\x05\0\0\0\0\0\0\0\x05\0\0\0\0\0\0\0\0@\0\0\0\x02\0\0\0\0\
    \0\0\x03\0\0\0\0\0\x10\0\0\x10\0\0\0\0\x10\0\0\x10\0\0\0\0\0\0\x10\0\0\0\0\0\0\0\0\0\0\0\0\0\0\0\0\0\0\0\0\0\0\0\
    \0\0\0\0\0\0\0\0\0\0\0\0\0\0\0\0\0\0\0\0\0\0\0\0\0\0\0\0\0\0\0\0\0\0\0\0\0\0\0\0\0\0\0\0\0\0\0\0\0\0\0\0\0\0\0\0\
    \0\0\0\0\0\0\0\0\0\0\0\0\0\0\0\0\0\0\0\0\0\0\0\0\0\0\0\0\0\0\0\0\0\0\0\0\0 \0\0H\0\0\0\0\0\0\0\0\0\0\0.text\0\0\
    \0l\x02\0\0\0 \0\0\0\x04\0\0\0\x02\0\0\0\0\0\0\0\0\0\0\0\0\0\0 \0\0`\0\0\0\0\0\0\0\0\0\0\0\0\0\0\0\0\0\0\0\0\0\0\
    \0\0\0\0\0\0\0\0\0\0\0\0\0\0\0\0\0\0\0\0\0\0\0\0\0\0\0\0\0\0\0\0\0\0\0\0\0\0\0\0\0\0\0\0\0\0\0\0\0\0\0\0\0\0\0\0\
    \0\0\0\0\0\0\0\0\0\0\0\0\0\0\0\0\0\0H\0\0\0\x02\0\x05\0` \0\0\x0C\x02\0\0\x01\0\0\0\x01\0\0\x06\0\0\0\0\0\0\0\0\
    \0\0\0\0\0\0\0\0\0\0\0\0\0\0\0\0\0\0\0\0\0\0\0\0\0\0\0\0\0\0\0\0\0\0\0\0\0\0\0\0\x0A\x17*\0\x130\x08\0\x02\0\0\0\
    \0\0\0\0\0*\0\0\0\0\0\0BSJB\x01\0\x01\0\0\0\0\0\x0C\0\0\0v4.0.30319\0\0\0\0\x05\0l\0\0\0$\x01\0\0#~\0\0\x90\x01\
    \0\08\0\0\0#Strings\0\0\0\0\xC8\x01\0\0\x08\0\0\0#US\0\xD0\x01\0\0\x10\0\0\0#GUID\0\0\0\xE0\x01\0\0,\0\0\0#Blob\
    \0\0\0\0\0\0\0\x02\0\0\x01W\x9F\x02\x0A\x09\x1E\0\0\0\xFA\x013\0\x16\0\0\x01\0\0\0\x01\0\0\0\x01\0\0\0\x01\0\0\0\
    \x03\0\0\0\x01\0\0\0\x01\0\0\0\x01\0\0\0\x01\0\0\0\x01\0\0\0\x01\0\0\0\x01\0\0\0\x01\0\0\0\x01\0\0\0\x01\0\0\0\
    \x01\0\0\0\x01\0\0\0\x01\0\0\0\x01\0\0\0\x01\0\0\0\0\0\x01\0\x01\0\0\0\0\0\x06\0\x07\0\x0E\0\x01\0\x10\0\x15\0\0\
    \0\x05\0\x01\0\x01\0\x16\0\x17\0\x01\0H \0\0\0\0\x96\0\x19\0\x04\0\x01\0L \0\0\0\0\x96\0\x1E\0\x09\0\x02\0\0\0\0\
    \0\0\0\x16\x04 \0\x09\0\x02\0\0\0\x01\0\x22\0\x01\0\x06\0\x09\0$\0\x0D\0\x08\0\x04\0\x11\0.\0\x0B\0\x11\0\x04\0\
    \x10\0\0\0\x01\0\x16\0\x01\0\x02\0\x03\0\x1A\0\x04\x80\0\0\x01\0\x02\0\x03\0\x04\0\0\0\0\0\0\0*\0\0\0\x04\0\0\0\
    \0\0\0\0\0\0\0\0\x1D\0,\0\0\0\0\0\x01\0\x01\0\0\0\0\0\x02\05\0\x02\0&\0\x01\0\x05\0\0\0\0m.dll\0Object\0System\0\
    P\0f\0Main\0g\0h\0x\0.ctor\0m\0mscorlib\0T\0\0\0\x05H\0i\0\0\00123456789ABCDEF\0\x02\x06\x08\x04\0\x01\x08\x08\
    \x03\0\0\x01\x03 \0\x01\x04\x01\0\0\0\x03\x07\x01\x08\x02\x1D\x08\x08\xB7z\x5CV\x194\xE0\x89\x03\x0A\x01\x08";

/// The same of a module with three fields, of which the second has the bytes "ABCDEF", the first "GH", in the other
/// order, and the last none.
static FIELDS: &[u8] = b"\
    MZ\x90\0\x03\0\0\0\x04\0\0\0\xFF\xFF\0\0\xB8\0\0\0\0\0\0\0@\0\0\0\0\0\0\0\0\0\0\0\0\0\0\0\0\0\0\0\0\0\0\0\0\0\0\
    \0\0\0\0\0\0\0\0\0\x80\0\0\0\x0E\x1F\xBA\x0E\0\xB4\x09\xCD!\xB8\x01L\xCD!This program cannot be run in DOS mode.\
    \x0D\x0D\x0A$\0\0\0\0\0\0\0PE\0\0L\x01\x01\0\0\0\0\0\0\0\0\0\0\0\0\0\xE0\0\x02 \x0B\x01\x06\0\0\x02\0\0\0\0\0\0\
    \0\0\0\0\0\0\0\0\0 \0\0\0\0\0\0\0\0@\0\0 \0\0\0\x02\0\0\x05\0\0\0\0\0\0\0\x05\0\0\0\0\0\0\0\0@\0\0\0\x02\0\0\0\0\
    \0\0\x03\0\0\0\0\0\x10\0\0\x10\0\0\0\0\x10\0\0\x10\0\0\0\0\0\0\x10\0\0\0\0\0\0\0\0\0\0\0\0\0\0\0\0\0\0\0\0\0\0\0\
    \0\0\0\0\0\0\0\0\0\0\0\0\0\0\0\0\0\0\0\0\0\0\0\0\0\0\0\0\0\0\0\0\0\0\0\0\0\0\0\0\0\0\0\0\0\0\0\0\0\0\0\0\0\0\0\0\
    \0\0\0\0\0\0\0\0\0\0\0\0\0\0\0\0\0\0\0\0\0\0\0\0\0\0\0\0\0\0\0\0\0\0\0\0\0 \0\0H\0\0\0\0\0\0\0\0\0\0\0.text\0\0\
    \0\x18\x01\0\0\0 \0\0\0\x02\0\0\0\x02\0\0\0\0\0\0\0\0\0\0\0\0\0\0 \0\0`\0\0\0\0\0\0\0\0\0\0\0\0\0\0\0\0\0\0\0\0\
    \0\0\0\0\0\0\0\0\0\0\0\0\0\0\0\0\0\0\0\0\0\0\0\0\0\0\0\0\0\0\0\0\0\0\0\0\0\0\0\0\0\0\0\0\0\0\0\0\0\0\0\0\0\0\0\0\
    \0\0\0\0\0\0\0\0\0\0\0\0\0\0\0\0\0\0\0\0H\0\0\0\x02\0\x05\0X \0\0\xC0\0\0\0\x01\0\0\0\0\0\0\0\0\0\0\0\0\0\0\0\0\
    \0\0\0\0\0\0\0\0\0\0\0\0\0\0\0\0\0\0\0\0\0\0\0\0\0\0\0\0\0\0\0\0\0\0\0\0\0\0\0GH\0\0\0\0\0\0ABCDEF\0\0BSJB\x01\0\
    \x01\0\0\0\0\0\x0C\0\0\0v4.0.30319\0\0\0\0\x05\0l\0\0\0D\0\0\0#~\0\0\xB0\0\0\0\x08\0\0\0#Strings\0\0\0\0\xB8\0\0\
    \0\0\0\0\0#US\0\xB8\0\0\0\0\0\0\0#GUID\0\0\0\xB8\0\0\0\x08\0\0\0#Blob\0\0\0\0\0\0\0\x02\0\0\x01\x10\0\0 \0\0\0\0\
    \0\xFA\x013\0\x16\0\0\x03\0\0\0\x03\0\0\0\x16\x01\x01\0\x01\0\x16\x01\x03\0\x01\0\x16\x01\x05\0\x01\0H \0\0\x02\
    \0P \0\0\x01\0\0\0\0\0\x03\0\0a\0b\0c\0\0\0\x03\x06\x5C8";

/// The module in the bytes.
fn read(alloc: Global, bytes: &[u8]) -> Option<Module> {
    if bytes.len() > 0x100_0000 {
        return None;
    }
    let image = open_image(bytes).ok()?;
    read_tables(alloc, &image).ok()
}

/// Whether the module in a file of a size is written as that file. The file's last zeros are left out.
fn is_written_back(alloc: Global, front: &[u8], size: usize) -> Result<bool, AllocError> {
    let mut file = Vec::from_slice(alloc, front)?;
    file.resize(size, 0)?;
    match read(alloc, file.as_slice()) {
        Some(module) => match write_image(alloc, &module) {
            Ok(written) => Ok(written.as_slice() == file.as_slice()),
            Err(_) => Ok(false),
        },
        None => Ok(false),
    }
}

/// The file of each module is the one that another program lays out.
#[test]
fn writes_what_was_read(rt: HostRuntime) -> Result<(), std::test::Fail> {
    assert!(rt; is_written_back(rt.alloc(), EMPTY, 1024)?);
    assert!(rt; is_written_back(rt.alloc(), ROWS, 1536)?);
    Ok(())
}

/// The first bytes of a field.
fn field(module: &Module, row: usize) -> Option<&[u8]> {
    let row = module.tables().get(14)?.rows.get(row)?;
    match row.cells.get(0)? {
        Cell::Blob(bytes) => Some(bytes.as_slice()),
        _ => None,
    }
}

/// Whether the first two fields of a module begin with their bytes, and the last has none.
fn has_fields(module: &Module) -> bool {
    match (field(module, 0), field(module, 1), field(module, 2)) {
        (Some(first), Some(second), Some(third)) => {
            first.starts_with(b"GH") && second.starts_with(b"ABCDEF") && third.is_empty()
        }
        _ => false,
    }
}

/// The bytes of fields begin where they are told to, before and after.
#[test]
fn keeps_fields(rt: HostRuntime) -> Result<(), std::test::Fail> {
    let mut file = Vec::from_slice(rt.alloc(), FIELDS)?;
    file.resize(1024, 0)?;
    if let Some(module) = read(rt.alloc(), file.as_slice())
        && let Ok(written) = write_image(rt.alloc(), &module)
        && let Some(again) = read(rt.alloc(), written.as_slice())
    {
        assert!(rt; has_fields(&module));
        assert!(rt; has_fields(&again));
    } else {
        assert!(rt; false);
    }
    Ok(())
}

/// The tables of a module, by their numbers.
const NUMBERS: [u8; 21] = [
    0x00, 0x01, 0x02, 0x04, 0x06, 0x08, 0x09, 0x0A, 0x0B, 0x0C, 0x0F, 0x11, 0x19, 0x1B, 0x1D, 0x20,
    0x23, 0x29, 0x2A, 0x2B, 0x2C,
];

/// A row with these cells.
fn row_of(alloc: Global, cells: Vec<Cell>) -> Result<TableRow, Memory> {
    let mut list = List::new(alloc);
    for cell in cells {
        list.push(cell).map_err(|_| Memory)?;
    }
    Ok(TableRow {
        cells: list,
        body: None,
    })
}

/// So many equal bytes.
fn bytes_of(alloc: Global, size: usize, byte: u8) -> Result<Bytes, Memory> {
    let mut bytes = Bytes::new(alloc);
    bytes.resize(size, byte)?;
    Ok(bytes)
}

/// A row of the table of modules, whose GUID has a number in it.
fn module_row(alloc: Global, number: u8, page: u8) -> Result<TableRow, Memory> {
    let guid = [number, page, 1, 2, 3, 4, 5, 6, 7, 8, 9, 10, 11, 12, 13, 14];
    let guid = Bytes::from_slice(alloc, &guid)?;
    let name = Text::new(alloc, b"").map_err(|_| Memory)?;
    let none = Bytes::new(alloc);
    let cells = vec![in alloc;
        Cell::Number(0),
        Cell::Name(name),
        Cell::Blob(guid),
        Cell::Blob(none),
        Cell::Blob(Bytes::new(alloc)),
    ]?;
    row_of(alloc, cells)
}

/// The rows of a table: 4,096 GUIDs, a name and a blob of 65,535 bytes.
fn wide_rows(alloc: Global, table: u8) -> Result<List<TableRow>, Memory> {
    let mut rows = List::new(alloc);
    if table == 0x00 {
        for page in 0..16 {
            for number in 0..=255 {
                rows.push(module_row(alloc, number, page)?)
                    .map_err(|_| Memory)?;
            }
        }
    } else if table == 0x08 {
        let name = bytes_of(alloc, 0xFFFF, b'n')?;
        let name = Text::new(alloc, name.as_slice()).map_err(|_| Memory)?;
        let cells = vec![in alloc; Cell::Number(0), Cell::Number(1), Cell::Name(name)]?;
        rows.push(row_of(alloc, cells)?).map_err(|_| Memory)?;
    } else if table == 0x11 {
        let blob = bytes_of(alloc, 0xFFFF, 7)?;
        let cells = vec![in alloc; Cell::Blob(blob)]?;
        rows.push(row_of(alloc, cells)?).map_err(|_| Memory)?;
    }
    Ok(rows)
}

/// The file of a module with a heap of each kind that is too large for indexes of two bytes.
fn wide_file(alloc: Global) -> Result<Option<Bytes>, Memory> {
    let mut tables = List::new(alloc);
    for number in NUMBERS {
        let rows = wide_rows(alloc, number)?;
        tables.push(Table { number, rows }).map_err(|_| Memory)?;
    }
    if !are_tables(tables.as_slice()) {
        return Ok(None);
    }
    let module = Module::new(0, Bytes::new(alloc), tables);
    Ok(write_image(alloc, &module).ok())
}

/// HeapSizes says that all indexes into heaps have four bytes, and the file reads back and is written as it was.
#[test]
fn writes_wide_indexes(rt: HostRuntime) {
    if let Ok(Some(file)) = wide_file(rt.alloc())
        && let Some(module) = read(rt.alloc(), file.as_slice())
        && let Ok(again) = write_image(rt.alloc(), &module)
    {
        assert_eq!(rt; file.get(0x200 + 72 + 108 + 6), Some(&7));
        assert!(rt; again.as_slice() == file.as_slice());
    } else {
        assert!(rt; false);
    }
}

/// A row of the table of parameters, whose name is a number.
fn numbered_row(alloc: Global, number: u32) -> Result<TableRow, Memory> {
    let name = format!(in alloc; "{number}").map_err(|_| Memory)?;
    let name = Text::new(alloc, name.as_bytes()).map_err(|_| Memory)?;
    let cells = vec![in alloc; Cell::Number(0), Cell::Number(1), Cell::Name(name)]?;
    row_of(alloc, cells)
}

/// The rows of a table: 100,000 parameters.
fn many_rows(alloc: Global, table: u8) -> Result<List<TableRow>, Memory> {
    let mut rows = List::new(alloc);
    if table == 0x08 {
        for number in 0..100_000 {
            rows.push(numbered_row(alloc, number)?).map_err(|_| Memory)?;
        }
    }
    Ok(rows)
}

/// The file of a module of 100,000 rows, each with a name of its own.
fn many_file(alloc: Global) -> Result<Option<Bytes>, Memory> {
    let mut tables = List::new(alloc);
    for number in NUMBERS {
        let rows = many_rows(alloc, number)?;
        tables.push(Table { number, rows }).map_err(|_| Memory)?;
    }
    if !are_tables(tables.as_slice()) {
        return Ok(None);
    }
    let module = Module::new(0, Bytes::new(alloc), tables);
    Ok(write_image(alloc, &module).ok())
}

/// The file reads back and is written as it was.
#[test]
fn writes_many_rows(rt: HostRuntime) {
    if let Ok(Some(file)) = many_file(rt.alloc())
        && let Some(module) = read(rt.alloc(), file.as_slice())
        && let Ok(again) = write_image(rt.alloc(), &module)
    {
        assert!(rt; again.as_slice() == file.as_slice());
    } else {
        assert!(rt; false);
    }
}
