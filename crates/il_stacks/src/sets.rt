ghost use Rattle.std.specs.Prelude.{◌≡◌, ◌++◌, [], IfOk, OnOk};
ghost use Rattle.std.specs.List.{cons_option};
ghost use Rattle.il_stacks.specs.Types.{element_of, elements_of, has_type, is_subset, union, with_type};

use crate::copy::add;
use num_core::{List, Memory};
use std::alloc::Global;
use std::cmp::Ordering;
use ty_terms::{Ty, copy_all};

/// Whether a type is among types.
pub(crate) fn contains(types: &[Ty], ty: &Ty) -> bool
    ensures { result ≡ has_type types.now ty.now }
{
    types.iter().any(|other| *ty == *other)
}

/// Whether each type is among others.
pub(crate) fn are_contained(types: &[Ty], others: &[Ty]) -> bool
    ensures { result ≡ is_subset types.now others.now }
{
    types.iter().all(|ty| contains(others, ty))
}

/// Adds copies of types at the end of a list.
fn add_types(alloc: Global, list: &mut List<Ty>, types: &[Ty]) -> Result<(), Memory>
    ensures { OnOk result (list.new ≡ list.old ++ types.now) }
{
    for ty in types {
        add(list, ty.copy(alloc)?)?;
    }
    Ok(())
}

/// The set with a type.
pub(crate) fn insert(alloc: Global, ty: &Ty, types: &[Ty]) -> Result<List<Ty>, Memory>
    ensures { IfOk result (λ set. set ≡ with_type ty.now types.now) }
{
    let mut set = List::new(alloc);
    for (i, other) in types.iter().enumerate() {
        let rest = &types[i..];
        match ty.cmp(other) {
            Ordering::Less => {
                add(&mut set, ty.copy(alloc)?)?;
                add_types(alloc, &mut set, rest)?;
                return Ok(set);
            }
            Ordering::Equal => {
                add_types(alloc, &mut set, rest)?;
                return Ok(set);
            }
            Ordering::Greater => add(&mut set, other.copy(alloc)?)?,
        }
    }
    add(&mut set, ty.copy(alloc)?)?;
    Ok(set)
}

/// The set with each of these types.
pub(crate) fn unite(alloc: Global, types: &[Ty], others: &[Ty]) -> Result<List<Ty>, Memory>
    ensures { IfOk result (λ set. set ≡ union types.now others.now) }
{
    let mut set = copy_all(alloc, others)?;
    for ty in types {
        set = insert(alloc, ty, set.as_slice())?;
    }
    Ok(set)
}

/// The set of the types of the elements of vector types.
pub(crate) fn elements(alloc: Global, types: &[Ty]) -> Result<List<Ty>, Memory>
    ensures { IfOk result (λ set. set ≡ elements_of types.now) }
{
    let mut set = List::new(alloc);
    for ty in types {
        set = with_element(alloc, ty, set)?;
    }
    Ok(set)
}

/// The set with the type of the elements of a type, if it is one of vectors.
fn with_element(alloc: Global, ty: &Ty, set: List<Ty>) -> Result<List<Ty>, Memory>
    ensures { IfOk result (λ set'. set' ≡ union (cons_option (element_of ty.now) []) set) }
{
    match ty {
        Ty::Vector(element) => insert(alloc, element.get(), set.as_slice()),
        Ty::Prim(_) | Ty::Named(_, _) | Ty::ByRef(_) | Ty::Var(_) | Ty::MVar(_) | Ty::Canon => Ok(
            set,
        ),
    }
}
