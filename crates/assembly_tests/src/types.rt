//! Types by hand: `Pair` is a value type and the first of its table, and `List` is the second.
use num_core::List;
use std::alloc::Global;
use std::test::Fail;
use ty_terms::{
    Boxed, DictEntry, FieldName, MethodId, MethodName, Node, Part, PartKind, Primitive, Slot, Ty,
    TypeId, Warning, canon, canon_method, depth, node_depth, subst, variables_below,
};

const I4: Ty = Ty::Prim(Primitive::I4);

const STRING: Ty = Ty::Prim(Primitive::String);

fn one(alloc: Global, ty: Ty) -> Result<List<Ty>, Fail> {
    let mut types = List::new(alloc);
    types.push(ty)?;
    Ok(types)
}

fn list(alloc: Global, ty: Ty) -> Result<Ty, Fail> {
    Ok(Ty::Named(TypeId { module: 0, row: 2 }, one(alloc, ty)?))
}

fn pair(alloc: Global, first: Ty, second: Ty) -> Result<Ty, Fail> {
    let mut args = one(alloc, first)?;
    args.push(second)?;
    Ok(Ty::Named(TypeId { module: 0, row: 1 }, args))
}

fn vector(alloc: Global, ty: Ty) -> Result<Ty, Fail> {
    Ok(Ty::Vector(Boxed::new(alloc, ty)?))
}

fn method(alloc: Global, owner: Ty, arg: Ty) -> Result<MethodName, Fail> {
    Ok(MethodName {
        owner,
        method: MethodId { module: 0, row: 7 },
        args: one(alloc, arg)?,
    })
}

/// What `List<!0>[]` is with this type for its variable.
fn put(alloc: Global, ty: Ty) -> Result<Option<Ty>, Fail> {
    let open = vector(alloc, list(alloc, Ty::Var(0))?)?;
    let owner = one(alloc, ty)?;
    let method = List::new(alloc);
    if !variables_below(&open, owner.len(), method.len()) {
        return Ok(None);
    }
    Ok(Some(subst(alloc, &open, &owner, &method)?))
}

/// The canonical form of a type, where `Pair` alone is a value type.
fn shared(alloc: Global, ty: Ty) -> Result<Ty, Fail> {
    let values = List::from_slice(alloc, &[TypeId { module: 0, row: 1 }])?;
    Ok(canon(alloc, &ty, &values)?)
}

/// The same of a method.
fn shared_method(alloc: Global, name: MethodName) -> Result<MethodName, Fail> {
    let values = List::from_slice(alloc, &[TypeId { module: 0, row: 1 }])?;
    Ok(canon_method(alloc, &name, &values)?)
}

#[test]
fn substitution(rt: HostRuntime) -> Result<(), Fail> {
    let alloc = rt.alloc();
    let found = put(alloc, vector(alloc, Ty::MVar(0))?)?.ok_or("a variable")?;
    assert_eq!(rt; depth(&found), 4);
    assert!(rt; found == vector(alloc, list(alloc, vector(alloc, Ty::MVar(0))?)?)?);
    Ok(())
}

/// Arguments that are reference types are shared, and a vector's element is no argument.
#[test]
fn canonical_forms(rt: HostRuntime) -> Result<(), Fail> {
    let alloc = rt.alloc();
    let vectors = shared(alloc, vector(alloc, STRING)?)?;
    assert!(rt; vectors == vector(alloc, STRING)?);
    let deep = shared(alloc, list(alloc, pair(alloc, STRING, I4)?)?)?;
    assert!(rt; deep == list(alloc, pair(alloc, Ty::Canon, I4)?)?);
    let name = shared_method(
        alloc,
        method(alloc, list(alloc, STRING)?, vector(alloc, I4)?)?,
    )?;
    assert!(rt; name == method(alloc, list(alloc, Ty::Canon)?, Ty::Canon)?);
    Ok(())
}

fn node_is_copied(alloc: Global) -> Result<bool, Fail> {
    let node = Node::Blob(FieldName {
        owner: list(alloc, STRING)?,
        row: 3,
    });
    Ok(node_depth(&node) == 2 && node.copy(alloc)? == node)
}

fn entry_is_copied(alloc: Global) -> Result<bool, Fail> {
    let entry = DictEntry::OfSlot(Slot {
        owner: I4,
        method: MethodId { module: 0, row: 7 },
        args: one(alloc, STRING)?,
    });
    Ok(entry.copy(alloc)? == entry)
}

fn part_is_copied(alloc: Global) -> Result<bool, Fail> {
    let part = Part {
        at: 120,
        size: 8,
        kind: PartKind::Constant,
        nodes: List::from_slice(alloc, &[4])?,
    };
    Ok(part.copy(alloc)? == part)
}

fn warning_is_copied(alloc: Global) -> Result<bool, Fail> {
    let warning = Warning {
        number: 1,
        method: method(alloc, STRING, I4)?,
        offset: 5,
    };
    Ok(warning.copy(alloc)? == warning)
}

#[test]
fn copies(rt: HostRuntime) -> Result<(), Fail> {
    let alloc = rt.alloc();
    assert!(rt; node_is_copied(alloc)?);
    assert!(rt; entry_is_copied(alloc)?);
    assert!(rt; part_is_copied(alloc)?);
    assert!(rt; warning_is_copied(alloc)?);
    Ok(())
}
