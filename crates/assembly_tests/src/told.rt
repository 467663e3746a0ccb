//! The texts by which definitions, types, methods, fields and nodes are told: those of the program `p` and of modules
//! that are written by hand. What is expected follows from the rules of texts, by hand.
use crate::world::world;
use core_lib::core_module;
use il_text::assemble;
use num_core::{Bytes, List, Units};
use std::alloc::Global;
use std::test::Fail;
use ty_load::{Names, are_numbered};
use ty_terms::{Boxed, FieldName, MethodId, MethodName, Node, Primitive, Ty, TypeId};
use ty_texts::{find_type, full_names, node_text, push_definition, push_type, repeated_type};

/// The world of a module that a text means and the core. A semicolon stands for the end of a line.
fn written(alloc: Global, lines: &str) -> Result<Names, Fail> {
    let mut text: Bytes = List::new(alloc);
    for byte in lines.as_bytes() {
        text.push(if *byte == b';' { b'\n' } else { *byte })?;
    }
    let mut modules = List::new(alloc);
    let Ok(module) = assemble(alloc, text.as_slice()) else {
        return Err(Fail::from("a module"));
    };
    modules.push(module).ok().ok_or("memory")?;
    modules.push(core_module(alloc)?).ok().ok_or("memory")?;
    if are_numbered(modules.as_slice()) {
        Ok(Names::new(alloc, modules)?)
    } else {
        Err(Fail::from("numbers"))
    }
}

/// The text of the definition of a row of the first module.
fn definition(alloc: Global, names: &Names, row: u32) -> Result<Bytes, Fail> {
    let mut text = List::new(alloc);
    push_definition(names, alloc, &mut text, TypeId { module: 0, row })?;
    Ok(text)
}

/// Types, one nested in another, with names that have to be escaped, in an assembly whose name has to be as well.
static NESTED: &str = "\
.entry 0;.user x;\
.row 02 0 \"A\" \"N\" 02:0 1 1;.row 02 0 \"B+C\" \"M\" 02:0 1 1;.row 02 0 \"\" \"\" 02:0 1 1;\
.row 02 0 \"D.\" \"N.M\" 02:0 1 1;.row 02 0 \"<E>f<G>\" \"\" 02:0 1 1;\
.row 20 0 0 0 0 0 0 x \"a,b\" \"\";.row 29 2 1;.row 29 5 2;";

/// The rows of their definitions, and their texts.
static NESTED_TEXTS: &str = "\
1|[a\\u002Cb]N.A
2|[a\\u002Cb]N.A+B\\u002BC
3|[a\\u002Cb]\\u0000
4|[a\\u002Cb]N.M.D\\u002E
5|[a\\u002Cb]N.A+B\\u002BC+<E>f\\u003CG\\u003E";

fn is_definition_right(alloc: Global, names: &Names, line: &str) -> Result<bool, Fail> {
    let (row, text) = line.split_once('|').ok_or("a text")?;
    let row = row.parse::<u32>().ok().ok_or("a row")?;
    Ok(definition(alloc, names, row)?.as_slice() == text.as_bytes())
}

/// Whether a text names the type of a row of the first module, or none where the row is 0.
fn is_found(alloc: Global, names: &Names, text: &str, row: u32) -> Result<bool, Fail> {
    let found = full_names(names, alloc)?;
    Ok(match find_type(&found, text.as_bytes()) {
        Some(id) => id.module == 0 && id.row == row,
        None => row == 0,
    })
}

#[test]
fn texts_of_definitions(rt: HostRuntime) -> Result<(), Fail> {
    let nested = written(rt.alloc(), NESTED)?;
    assert!(rt; is_found(rt.alloc(), &nested, "N.A+B+C+<E>f<G>, a,b", 5)?);
    assert!(rt; is_found(rt.alloc(), &nested, "N.A+B", 0)?);
    for line in NESTED_TEXTS.lines() {
        assert!(rt; is_definition_right(rt.alloc(), &nested, line)?);
    }
    let program = world(rt.alloc())?;
    assert!(rt; is_definition_right(rt.alloc(), &program, "1|[p]<Module>")?);
    assert!(rt; is_definition_right(rt.alloc(), &program, "2|[p]P")?);
    Ok(())
}

/// Types of one module, with the row of the first whose text an earlier one has too.
static REPEATED: &str = "\
0|.row 02 0 \"A\" \"\" 02:0 1 1;.row 02 0 \"A\" \"N\" 02:0 1 1;
2|.row 02 0 \"B\" \"A\" 02:0 1 1;.row 02 0 \"A.B\" \"\" 02:0 1 1;
3|.row 02 0 \"A\" \"\" 02:0 1 1;.row 02 0 \"B\" \"\" 02:0 1 1;.row 02 0 \"B\" \"\" 02:0 1 1;.row 29 3 1;.row 29 2 1;
0|.row 02 0 \"A\" \"\" 02:0 1 1;.row 02 0 \"B\" \"\" 02:0 1 1;.row 02 0 \"B\" \"\" 02:0 1 1;.row 29 3 1;
3|.row 02 0 \"X\" \"\" 02:0 1 1;.row 02 0 \"N\" \"\" 02:0 1 1;.row 02 0 \"X\" \"\" 02:0 1 1;\
.row 02 0 \"N\" \"\" 02:0 1 1;.row 29 1 2;.row 29 3 4;
0|.row 02 0 \"A\" \"\" 02:0 1 1;.row 02 0 \"A\" \"\" 02:0 1 1;.row 29 1 1;
4|.row 02 0 \"A\" \"\" 02:0 1 1;.row 02 0 \"A\" \"\" 02:0 1 1;.row 02 0 \"X\" \"\" 02:0 1 1;\
.row 02 0 \"X\" \"\" 02:0 1 1;.row 29 1 1;.row 29 2 2;.row 29 3 1;.row 29 4 2;";

fn is_repeated_right(alloc: Global, line: &str) -> Result<bool, Fail> {
    let (row, rows) = line.split_once('|').ok_or("rows")?;
    let row = row.parse::<u32>().ok().ok_or("a row")?;
    let lines = format!(in alloc; ".entry 0;.user x;{rows}")?;
    let names = written(alloc, lines.as_str())?;
    let found = repeated_type(&names, alloc)?;
    Ok(match found {
        Some(id) => id.module == 0 && id.row == row,
        None => row == 0,
    })
}

#[test]
fn texts_that_stand_twice(rt: HostRuntime) -> Result<(), Fail> {
    for line in REPEATED.lines() {
        assert!(rt; is_repeated_right(rt.alloc(), line)?);
    }
    Ok(())
}

fn list(alloc: Global, first: Ty, second: Ty) -> Result<Ty, Fail> {
    let mut args = List::new(alloc);
    args.push(first)?;
    args.push(second)?;
    Ok(Ty::Named(TypeId { module: 0, row: 2 }, args))
}

fn is_type_right(alloc: Global, names: &Names, ty: &Ty, text: &str) -> Result<bool, Fail> {
    let mut told = List::new(alloc);
    push_type(names, alloc, &mut told, ty)?;
    Ok(told.as_slice() == text.as_bytes())
}

#[test]
fn texts_of_types(rt: HostRuntime) -> Result<(), Fail> {
    let names = world(rt.alloc())?;
    let vector = Ty::Vector(Boxed::new(rt.alloc(), Ty::Prim(Primitive::String))?);
    assert!(rt; is_type_right(rt.alloc(), &names, &vector, "System.String[]")?);
    let by_ref = Ty::ByRef(Boxed::new(rt.alloc(), Ty::Prim(Primitive::I4))?);
    assert!(rt; is_type_right(rt.alloc(), &names, &by_ref, "System.Int32&")?);
    let pair = list(
        rt.alloc(),
        vector,
        list(rt.alloc(), Ty::Var(10), Ty::MVar(0))?,
    )?;
    assert!(rt;
        is_type_right(
            rt.alloc(),
            &names,
            &pair,
            "[p]P<System.String[],[p]P<!10,!!0>>"
        )?
    );
    Ok(())
}

/// A type with two fields of one name and four methods, of which two have one text, one has no signature, and one is
/// generic.
static MEMBERS: &str = "\
.entry 0;.user x;.row 02 0 \"A\" \"\" 02:0 1 1;.row 04 0 \"f\" x0608;.row 04 0 \"f\" x060E;\
.row 06 0 16 \"m\" x00010108 1;.row 06 0 16 \"m\" x00010108 1;.row 06 0 16 \"n\" x00 1;\
.row 06 0 16 \"g\" x100101011E00 1;";

/// The rows of the methods, and their texts with System.String as argument.
static METHODS: &str = "\
1|Method []A::m<System.String>(System.Int32)->System.Void#1
2|Method []A::m<System.String>(System.Int32)->System.Void#2
3|Method []A::n<System.String>(?)
4|Method []A::g<System.String>(System.String)->System.Void";

fn own(alloc: Global, row: u32) -> Ty {
    Ty::Named(TypeId { module: 0, row }, List::new(alloc))
}

fn is_node_right(alloc: Global, names: &Names, node: Node, text: &str) -> Result<bool, Fail> {
    Ok(node_text(names, alloc, &node)?.bytes() == text.as_bytes())
}

fn is_method_right(alloc: Global, names: &Names, line: &str) -> Result<bool, Fail> {
    let (row, text) = line.split_once('|').ok_or("a text")?;
    let row = row.parse::<u32>().ok().ok_or("a row")?;
    let mut args = List::new(alloc);
    args.push(Ty::Prim(Primitive::String))?;
    let node = Node::Method(MethodName {
        owner: own(alloc, 1),
        method: MethodId { module: 0, row },
        args,
    });
    is_node_right(alloc, names, node, text)
}

#[test]
fn texts_of_members(rt: HostRuntime) -> Result<(), Fail> {
    let names = written(rt.alloc(), MEMBERS)?;
    for line in METHODS.lines() {
        assert!(rt; is_method_right(rt.alloc(), &names, line)?);
    }
    let field = Node::Blob(FieldName {
        owner: own(rt.alloc(), 1),
        row: 2,
    });
    assert!(rt; is_node_right(rt.alloc(), &names, field, "Blob []A::f#2")?);
    Ok(())
}

#[test]
fn texts_of_nodes(rt: HostRuntime) -> Result<(), Fail> {
    let names = world(rt.alloc())?;
    let main = Node::Method(MethodName {
        owner: own(rt.alloc(), 2),
        method: MethodId { module: 0, row: 2 },
        args: List::new(rt.alloc()),
    });
    assert!(rt;
        is_node_right(
            rt.alloc(),
            &names,
            main,
            "Method [p]P::Main()->System.Int32"
        )?
    );
    assert!(rt;
        is_node_right(
            rt.alloc(),
            &names,
            Node::TypeOf(own(rt.alloc(), 2)),
            "Type [p]P"
        )?
    );
    let units: Units = List::from_slice(rt.alloc(), &[0x48, 0x2C, 0x20, 0x22, 0x5C, 0x0A, 0xD800])?;
    let text = "Str \"H, \\u0022\\u005C\\u000A\\uD800\"";
    assert!(rt; is_node_right(rt.alloc(), &names, Node::Str(units), text)?);
    Ok(())
}
