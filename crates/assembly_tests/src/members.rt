//! The members of a world: the entry, what tokens lead to, and that no type leads back to itself. What they lead to is
//! told by `monodis`.
use crate::world::world;
use num_core::List;
use std::alloc::Global;
use std::test::Fail;
use ty_load::{Item, TypeFault};
use ty_members::Members;
use ty_world::{Relation, first_cyclic, repeated_name};

/// The members of the program `p` and the core.
fn members(alloc: Global) -> Result<Members, Fail> {
    Ok(Members::new(alloc, world(alloc)?)?)
}

/// What a token of the program leads to: a type (1), a method by its module and row (2), a field (3) or a text by its
/// length (4); or the table and the row of one that leads to nothing (5).
fn led(alloc: Global, members: &Members, token: u32) -> (u8, u32, u32) {
    let none = List::new(alloc);
    match members.resolved(alloc, 0, token, &none, &none) {
        Ok(Item::OfType(_)) => (1, 0, 0),
        Ok(Item::OfMethod(method)) => (2, method.method.module, method.method.row),
        Ok(Item::OfField(_)) => (3, 0, 0),
        Ok(Item::OfText(units)) => (4, if units.len() == 1 { 1 } else { 0 }, 0),
        Err(TypeFault::Unresolved(_, index)) => (5, index.table as u32, index.row),
        Err(_) => (6, 0, 0),
    }
}

#[test]
fn entry_of_a_program(rt: HostRuntime) -> Result<(), Fail> {
    let members = members(rt.alloc())?;
    let entry = members.entry(rt.alloc())?.ok_or("an entry")?;
    assert_eq!(rt; entry.method.module, 0);
    assert_eq!(rt; entry.method.row, 2);
    Ok(())
}

#[test]
fn tokens_of_a_program(rt: HostRuntime) -> Result<(), Fail> {
    let members = members(rt.alloc())?;
    let (kind, module, _) = led(rt.alloc(), &members, 0x0A00_0001);
    assert_eq!(rt; (kind, module), (2, 1));
    assert_eq!(rt; led(rt.alloc(), &members, 0x0A00_0002), (5, 0x0A, 2));
    assert_eq!(rt; led(rt.alloc(), &members, 0x0600_0002), (2, 0, 2));
    assert_eq!(rt; led(rt.alloc(), &members, 0x0100_0001), (1, 0, 0));
    assert_eq!(rt; led(rt.alloc(), &members, 0x7000_0001), (4, 1, 0));
    assert_eq!(rt; led(rt.alloc(), &members, 0x0400_0001), (5, 0x04, 1));
    Ok(())
}

#[test]
fn no_type_leads_back(rt: HostRuntime) -> Result<(), Fail> {
    let names = world(rt.alloc())?;
    assert!(rt; first_cyclic(rt.alloc(), &names, Relation::Inheritance)?.is_none());
    assert!(rt; first_cyclic(rt.alloc(), &names, Relation::Nesting)?.is_none());
    assert!(rt; repeated_name(&names).is_none());
    Ok(())
}
