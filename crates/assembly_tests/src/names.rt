//! Names as they are printed. The expected texts were computed with Python.
use md_tables::{Cell, Table, TableRow};
use num_core::{Bytes, List, Text};
use std::alloc::Global;
use std::test::Fail;
use ty_names::{push_name, push_qualified, push_type_name, row_count, type_name, type_namespace};

/// A name, its text, and its text as the name of a type.
static NAMES: &str = "\
Main|Main|Main
List`1|List`1|List`1
<Main>b__0<T>|<Main>b__0\\u003CT\\u003E|<Main>b__0\\u003CT\\u003E
<x|<x|<x
a b|a\\u0020b|a\\u0020b
A+B|A\\u002BB|A\\u002BB
\u{E9}\u{10000}|\\u00E9\\uD800\\uDC00|\\u00E9\\uD800\\uDC00
.ctor|.ctor|.ctor
A.|A.|A\\u002E
<>c.|<>c.|<>c\\u002E
x\"y\\z|x\\u0022y\\u005Cz|x\\u0022y\\u005Cz
||\\u0000";

fn name_text(alloc: Global, name: &str) -> Result<Bytes, Fail> {
    let mut text = List::new(alloc);
    push_name(alloc, &mut text, name.as_bytes())?;
    Ok(text)
}

fn type_name_text(alloc: Global, name: &str) -> Result<Bytes, Fail> {
    let mut text = List::new(alloc);
    push_type_name(alloc, &mut text, name.as_bytes())?;
    Ok(text)
}

fn qualified(alloc: Global, namespace: &str, name: &str) -> Result<Bytes, Fail> {
    let mut text = List::new(alloc);
    push_qualified(alloc, &mut text, namespace.as_bytes(), name.as_bytes())?;
    Ok(text)
}

fn is_line_right(alloc: Global, line: &str) -> Result<bool, Fail> {
    let (name, rest) = line.split_once('|').ok_or("a name")?;
    let (text, of_type) = rest.split_once('|').ok_or("a text")?;
    let found = name_text(alloc, name)?;
    let found_of_type = type_name_text(alloc, name)?;
    Ok(found.as_slice() == text.as_bytes() && found_of_type.as_slice() == of_type.as_bytes())
}

#[test]
fn names(rt: HostRuntime) -> Result<(), Fail> {
    for line in NAMES.lines() {
        assert!(rt; is_line_right(rt.alloc(), line)?);
    }
    assert!(rt; qualified(rt.alloc(), "N.M", "A")?.as_slice() == b"N.M.A".as_slice());
    assert!(rt; qualified(rt.alloc(), "", "A")?.as_slice() == b"A".as_slice());
    Ok(())
}

fn type_row(alloc: Global) -> Result<TableRow, Fail> {
    let mut cells = List::new(alloc);
    cells.push(Cell::Number(1))?;
    cells.push(Cell::Name(Text::new(alloc, b"A")?))?;
    cells.push(Cell::Name(Text::new(alloc, b"N")?))?;
    Ok(TableRow { cells, body: None })
}

fn types(alloc: Global) -> Result<Vec<Table>, Fail> {
    let mut rows = List::new(alloc);
    rows.push(type_row(alloc)?)?;
    let mut tables = Vec::new(alloc);
    tables.push(Table { number: 2, rows })?;
    Ok(tables)
}

#[test]
fn columns(rt: HostRuntime) -> Result<(), Fail> {
    let tables = types(rt.alloc())?;
    assert_eq!(rt; row_count(tables.as_slice(), 2), 1);
    assert!(rt; type_name(tables.as_slice(), 1) == b"A".as_slice());
    assert!(rt; type_namespace(tables.as_slice(), 1) == b"N".as_slice());
    assert!(rt; type_name(tables.as_slice(), 2).is_empty());
    Ok(())
}
