//! The names of a world: which module and which type a name of a program leads to. What they lead to is told by
//! `monodis`, and the rows of the core by their names.
use crate::images::IMAGE;
use core_lib::core_module;
use md_tables::{Module, read_tables};
use num_core::List;
use pe_image::open_image;
use std::alloc::Global;
use std::test::Fail;
use ty_load::{Names, are_numbered, assembly_name, primitive_name};
use ty_names::{RowOf, type_name, type_namespace};
use ty_terms::{Boxed, Primitive, Ty, TypeId};
use ty_walks::{Values, base_type, fitting};

/// The module in the bytes.
fn read(alloc: Global, bytes: &[u8]) -> Option<Module> {
    if bytes.len() > 0x10_0000 {
        return None;
    }
    let image = open_image(bytes).ok()?;
    read_tables(alloc, &image).ok()
}

/// The world of the program `p` and the core.
pub(crate) fn world(alloc: Global) -> Result<Names, Fail> {
    let mut modules = List::new(alloc);
    modules
        .push(read(alloc, IMAGE).ok_or("a module")?)
        .ok()
        .ok_or("memory")?;
    modules.push(core_module(alloc)?).ok().ok_or("memory")?;
    if are_numbered(modules.as_slice()) {
        Ok(Names::new(alloc, modules)?)
    } else {
        Err(Fail::from("numbers"))
    }
}

/// Whether this is a type of a module with this namespace and name.
fn is_type(names: &Names, id: Option<TypeId>, module: u32, namespace: &str, name: &str) -> bool {
    match id {
        Some(id) => {
            let tables = names.tables(id.module);
            id.module == module
                && type_namespace(tables, id.row) == namespace.as_bytes()
                && type_name(tables, id.row) == name.as_bytes()
        }
        None => false,
    }
}

#[test]
fn names_of_assemblies(rt: HostRuntime) -> Result<(), Fail> {
    let names = world(rt.alloc())?;
    assert!(rt; assembly_name(names.tables(0)).ok_or("a name")? == b"p".as_slice());
    assert!(rt; assembly_name(names.tables(1)).is_none());
    assert_eq!(rt; names.core(), 1);
    assert_eq!(rt; names.module_named(b"p"), Some(0));
    assert_eq!(rt; names.module_named(b"mscorlib"), Some(1));
    assert_eq!(rt; names.module_named(b"System.Runtime"), Some(1));
    assert_eq!(rt; names.module_named(b"Systems"), None);
    Ok(())
}

#[test]
fn types_of_references(rt: HostRuntime) -> Result<(), Fail> {
    let names = world(rt.alloc())?;
    let object = names.reference(rt.alloc(), 0, 1)?;
    assert!(rt; is_type(&names, object, 1, "System", "Object"));
    let program = names.type_named(rt.alloc(), 0, 0, b"", b"P")?;
    assert!(rt; is_type(&names, program, 0, "", "P"));
    let same = names.definition(rt.alloc(), 0, 0x02, 2)?;
    assert!(rt; is_type(&names, same, 0, "", "P"));
    assert!(rt; names.type_named(rt.alloc(), 0, 1, b"", b"P")?.is_none());
    assert!(rt; names.definition(rt.alloc(), 0, 0x02, 3)?.is_none());
    Ok(())
}

/// A type of the core with its number of parameters, by its name, without arguments.
fn core_type(alloc: Global, names: &Names, namespace: &str, name: &str) -> Result<(Ty, u32), Fail> {
    let found = names.type_named(alloc, 1, 0, namespace.as_bytes(), name.as_bytes())?;
    let id = found.ok_or("a type")?;
    Ok((names.type_of(id, List::new(alloc)), names.parameters(id)))
}

#[test]
fn types_of_the_core(rt: HostRuntime) -> Result<(), Fail> {
    let names = world(rt.alloc())?;
    let (object, none) = core_type(rt.alloc(), &names, "System", "Object")?;
    assert!(rt; object == Ty::Prim(Primitive::Object));
    assert_eq!(rt; none, 0);
    let (list, one) = core_type(rt.alloc(), &names, "System.Collections.Generic", "List`1")?;
    assert!(rt; matches!(list, Ty::Named(_, _)));
    assert_eq!(rt; one, 1);
    assert!(rt; primitive_name(Primitive::I4) == b"Int32".as_slice());
    Ok(())
}

/// A vector of a type of the core in the namespace System.
fn vector(alloc: Global, names: &Names, name: &str) -> Result<Ty, Fail> {
    let (element, _) = core_type(alloc, names, "System", name)?;
    Ok(Ty::Vector(Boxed::new(alloc, element)?))
}

/// Whether a type of the namespace System fits another, and a vector of it one of the other.
fn fits(alloc: Global, names: &Names, from: &str, to: &str) -> Result<(bool, bool), Fail> {
    let (a, _) = core_type(alloc, names, "System", from)?;
    let (b, _) = core_type(alloc, names, "System", to)?;
    let plain = fitting(names, alloc, &a, &b).ok().ok_or("an answer")?;
    let (a, b) = (vector(alloc, names, from)?, vector(alloc, names, to)?);
    let vectors = fitting(names, alloc, &a, &b).ok().ok_or("an answer")?;
    Ok((plain, vectors))
}

#[test]
fn types_that_fit(rt: HostRuntime) -> Result<(), Fail> {
    let names = world(rt.alloc())?;
    assert_eq!(rt; fits(rt.alloc(), &names, "String", "Object")?, (true, true));
    assert_eq!(rt;
        fits(rt.alloc(), &names, "Object", "String")?,
        (false, false)
    );
    assert_eq!(rt;
        fits(rt.alloc(), &names, "Int32", "ValueType")?,
        (true, false)
    );
    let above = base_type(&names, rt.alloc(), &vector(rt.alloc(), &names, "Int32")?);
    let (array, _) = core_type(rt.alloc(), &names, "System", "Array")?;
    assert!(rt; above.ok().ok_or("an answer")? == Some(array));
    Ok(())
}

#[test]
fn types_of_rows(rt: HostRuntime) -> Result<(), Fail> {
    let names = world(rt.alloc())?;
    let none = List::new(rt.alloc());
    let object = RowOf {
        table: 0x01,
        row: 1,
    };
    let found = names.type_by(rt.alloc(), 0, object, &none, &none, object);
    assert!(rt; found.ok().ok_or("a type")? == Ty::Prim(Primitive::Object));
    assert!(rt;
        names
            .interface_indexes(TypeId { module: 0, row: 1 })
            .is_empty()
    );
    let int = names.system_type(rt.alloc(), b"Int32")?.ok_or("a type")?;
    let values = Values::new(rt.alloc(), &names)?;
    assert!(rt; values.has(int));
    assert!(rt; !values.has(TypeId { module: 0, row: 1 }));
    assert!(rt; !values.list().is_empty());
    Ok(())
}
