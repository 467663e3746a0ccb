//! The core module: how many rows its tables have, and its bodies, which are read as those of any other assembly.
use core_lib::{RuntimeCall, core_image, core_module, runtime_call};
use il_code::{reached, read_body};
use md_tables::{Module, Table, read_tables};
use pe_image::open_image;
use std::alloc::Global;
use std::test::Fail;

/// The tables that have rows: Module, TypeDef, Field, MethodDef, InterfaceImpl, TypeSpec and GenericParam.
static ROWS: &str = "0 1, 2 67, 4 10, 6 95, 9 7, 27 4, 42 5, ";

/// The tables that have rows, each with their number.
fn rows(alloc: Global, module: &Module) -> Result<String, Fail> {
    let mut text = String::new(alloc);
    for table in module.tables() {
        if !table.rows.is_empty() {
            let (number, count) = (table.number, table.rows.len());
            text.push_str(format!(in alloc; "{number} {count}, ")?.as_str())?;
        }
    }
    Ok(text)
}

/// Whether a body is one, all of whose instructions are reached.
fn is_whole(alloc: Global, bytes: &[u8]) -> bool {
    if bytes.len() > 1000 {
        return false;
    }
    let Ok(body) = read_body(alloc, bytes) else {
        return false;
    };
    match reached(alloc, &body) {
        Ok(offsets) => offsets.len() == body.code.len(),
        Err(_) => false,
    }
}

/// How many of a table's rows have a body that is whole.
fn whole_bodies(alloc: Global, table: &Table) -> u32 {
    let mut count: u32 = 0;
    for row in table.rows.as_slice() {
        if let Some(bytes) = &row.body
            && is_whole(alloc, bytes.as_slice())
        {
            count = count.saturating_add(1);
        }
    }
    count
}

#[test]
fn rows_of_the_core(rt: HostRuntime) -> Result<(), Fail> {
    let core = core_module(rt.alloc())?;
    assert!(rt; rows(rt.alloc(), &core)?.as_str() == ROWS);
    Ok(())
}

/// The module in the bytes.
fn read(alloc: Global, bytes: &[u8]) -> Option<Module> {
    if bytes.len() > 0x10_0000 {
        return None;
    }
    let image = open_image(bytes).ok()?;
    read_tables(alloc, &image).ok()
}

#[test]
fn image_of_the_core(rt: HostRuntime) -> Result<(), Fail> {
    let image = core_image(rt.alloc())?;
    let core = read(rt.alloc(), image.as_slice()).ok_or("a module")?;
    assert!(rt; rows(rt.alloc(), &core)?.as_str() == ROWS);
    Ok(())
}

#[test]
fn bodies_of_the_core(rt: HostRuntime) -> Result<(), Fail> {
    let core = core_module(rt.alloc())?;
    let mut count: u32 = 0;
    for table in core.tables() {
        count = count.saturating_add(whole_bodies(rt.alloc(), table));
    }
    assert_eq!(rt; count, 78);
    Ok(())
}

#[test]
fn calls_of_the_runtime(rt: HostRuntime) {
    assert_eq!(rt; runtime_call(4), Some(RuntimeCall::ObjectGetHashCode));
    assert_eq!(rt; runtime_call(12), Some(RuntimeCall::ConsoleRead));
    assert_eq!(rt; runtime_call(13), None);
    assert_eq!(rt; runtime_call(0), None);
}
