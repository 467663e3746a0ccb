//! The types that elements spell, made from the last element to the first, with no recursion.
ghost use Rattle.std.specs.Prelude.{◌≡◌, ◌∷◌, [], ◌<◌, length, IfOk, OnOk, take, drop};
ghost use Rattle.md_sigs.specs.Grammar.{in_front, types_of};

use crate::element::Element;
use num_core::{List, Memory};
use std::alloc::Global;
use std::collections::VecDeque;
use ty_terms::{Boxed, Ty};

/// Puts a type in front of others.
fn put(types: &mut VecDeque<Ty>, ty: Ty) -> Result<(), Memory>
    ensures { OnOk result (types.new.items ≡ ty ∷ types.old.items) }
{
    types.push_front(ty)?;
    Ok(())
}

/// Takes so many types off the front, or all where there are fewer.
fn take_front(alloc: Global, types: &mut VecDeque<Ty>, count: u32) -> Result<List<Ty>, Memory>
    ensures taken { IfOk result (λ front. front ≡ take count types.old.items) }
    ensures left { OnOk result (types.new.items ≡ drop count types.old.items) }
{
    let mut front = List::new(alloc);
    while front.len() < count as usize {
        match types.pop_front() {
            Some(ty) => front.push(ty).map_err(|_| Memory)?,
            None => return Ok(front),
        }
    }
    Ok(front)
}

/// The vector of a type.
fn vector(alloc: Global, element: Ty) -> Result<Ty, Memory>
    ensures { IfOk result (λ ty. ty ≡ Ty.Vector element) }
{
    Ok(Ty::Vector(Boxed::new(alloc, element)?))
}

/// The managed pointer to a type.
fn by_ref(alloc: Global, target: Ty) -> Result<Ty, Memory>
    ensures { IfOk result (λ ty. ty ≡ Ty.ByRef target) }
{
    Ok(Ty::ByRef(Boxed::new(alloc, target)?))
}

/// Puts an element in front of types: it takes what belongs to it off their front.
fn put_element(alloc: Global, element: Element, types: &mut VecDeque<Ty>) -> Result<(), Memory>
    ensures { OnOk result (types.new.items ≡ in_front element types.old.items) }
{
    match element {
        Element::Primitive(primitive) => put(types, Ty::Prim(primitive)),
        Element::Named(id) => put(types, Ty::Named(id, List::new(alloc))),
        Element::Instance(id, count) => {
            let args = take_front(alloc, types, count)?;
            put(types, Ty::Named(id, args))
        }
        Element::Vector => match types.pop_front() {
            Some(ty) => put(types, vector(alloc, ty)?),
            None => Ok(()),
        },
        Element::ByRef => match types.pop_front() {
            Some(ty) => put(types, by_ref(alloc, ty)?),
            None => Ok(()),
        },
        Element::Var(number) => put(types, Ty::Var(number)),
        Element::MVar(number) => put(types, Ty::MVar(number)),
        Element::Modifier => Ok(()),
    }
}

/// The types that elements spell.
pub(crate) fn make_types(alloc: Global, elements: Vec<Element>) -> Result<VecDeque<Ty>, Memory>
    ensures { IfOk result (λ types. types.items ≡ types_of elements.items) }
{
    let mut elements = elements;
    let mut types = VecDeque::new(alloc);
    while let Some(element) = elements.pop() {
        put_element(alloc, element, &mut types)?;
    }
    Ok(types)
}

/// Takes the first type off.
pub(crate) fn first(types: &mut VecDeque<Ty>) -> Ty
    requires { 0 < length types.old.items }
    ensures { types.old.items ≡ result ∷ types.new.items }
{
    match types.pop_front() {
        Some(ty) => ty,
        None => unreachable!(),
    }
}

/// The one type that there is.
pub(crate) fn only(types: VecDeque<Ty>) -> Ty
    requires { length types.items ≡ 1 }
    ensures { types.items ≡ result ∷ [] }
{
    let mut types = types;
    first(&mut types)
}

/// The types as a list.
pub(crate) fn list_of(alloc: Global, types: VecDeque<Ty>) -> Result<List<Ty>, Memory>
    ensures { IfOk result (λ list. list ≡ types.items) }
{
    let mut types = types;
    let mut list = List::new(alloc);
    while let Some(ty) = types.pop_front() {
        list.push(ty).map_err(|_| Memory)?;
    }
    Ok(list)
}
