//! Which types fit others: where a value of one is wanted, a value of the other may stand (ECMA-335 I.8.7.1).
ghost use Rattle.std.specs.Prelude.{◌≡◌, ◌+◌, ◌^◌, ◌<◌, ◌&&◌, IfOk, length, option_copied};
ghost use Rattle.ty_terms.specs.declared.ty.Ty.TheViews.{out-Ty};
ghost use Rattle.ty_load.specs.Bases.{interface_indexes};
ghost use Rattle.ty_load.specs.Cycles.{all_ids};
ghost use Rattle.ty_load.specs.Told.{IsToldIn};
ghost use Rattle.ty_load.specs.Tokens.{and_then};
ghost use Rattle.ty_load.specs.Walks as walks;
ghost use Rattle.ty_walks.specs.Above as above;
ghost use Rattle.ty_walks.specs.Steps.{IsStep};

use crate::bases::is_value_type;
use crate::steps::{base_type, implementer, interface_type};
use num_core::{List, Memory};
use std::alloc::Global;
use ty_load::{Names, TypeFault};
use ty_names::RowOf;
use ty_terms::{Primitive, Ty, TypeId, depth, is_reference};

/// Whether a type is System.Object.
fn is_object(ty: &Ty) -> bool
    ensures { result ≡ walks.is_object_layer (out-Ty ty.now) }
{
    matches!(ty, Ty::Prim(Primitive::Object))
}

/// Whether a value of a type can be a reference or be boxed.
fn is_object_like(ty: &Ty) -> bool
    ensures { result ≡ walks.is_object_like_layer (out-Ty ty.now) }
{
    !matches!(ty, Ty::Prim(Primitive::Void) | Ty::ByRef(_))
}

/// Whether a type fits with no walk: it is the same, or System.Object is wanted.
fn fits_at_once(from: &Ty, to: &Ty) -> bool
    ensures { result ≡ above.fits_at_once from.now to.now }
{
    from.cmp(to).is_eq() || (is_object(to) && is_object_like(from))
}

/// The element type of a vector.
fn element_of(ty: &Ty) -> Option<&Ty>
    ensures { option_copied result ≡ above.element_of ty.now }
{
    match ty {
        Ty::Vector(element) => Some(element.get()),
        Ty::Prim(_) | Ty::Named(_, _) | Ty::ByRef(_) | Ty::Var(_) | Ty::MVar(_) | Ty::Canon => None,
    }
}

/// Whether a type is a reference type (ECMA-335 I.8.2.1).
fn is_reference_in(names: &Names, alloc: Global, ty: &Ty) -> Result<bool, Memory>
    ensures { IfOk result (λ is. is ≡ walks.is_reference_in names.now (out-Ty ty.now)) }
{
    match ty {
        Ty::Named(id, _) => Ok(!is_value_type(names, alloc, *id)?),
        Ty::Prim(_) | Ty::Vector(_) | Ty::ByRef(_) | Ty::Var(_) | Ty::MVar(_) | Ty::Canon => {
            Ok(is_reference(ty, &List::new(alloc)))
        }
    }
}

/// Whether two types are reference types.
fn are_references(names: &Names, alloc: Global, a: &Ty, b: &Ty) -> Result<bool, Memory>
    ensures { IfOk result (λ are. are ≡ (walks.is_reference_in names.now (out-Ty a.now)
        && walks.is_reference_in names.now (out-Ty b.now))) }
{
    let first = is_reference_in(names, alloc, a)?;
    let second = is_reference_in(names, alloc, b)?;
    Ok(first && second)
}

/// What a type at which a walk stands says: the answer, or the type above it.
#[derive(Drop)]
enum Step {
    Answer(bool),
    Above(Ty),
}

/// Whether a vector fits another by their elements, with walks over so many types at most.
#[cycle(fits)]
fn vectors_fit(
    names: &Names,
    alloc: Global,
    left: usize,
    from: &Ty,
    to: &Ty,
) -> Result<bool, TypeFault>
    ensures { IsToldIn names.now result (above.vectors_fit left names.now from.now to.now) }
{
    let Some(a) = element_of(from) else {
        return Ok(false);
    };
    let Some(b) = element_of(to) else {
        return Ok(false);
    };
    match are_references(names, alloc, a, b) {
        Ok(true) => match a.copy(alloc) {
            Ok(a) => fits(names, alloc, left, a, b),
            Err(_) => Err(TypeFault::Memory),
        },
        Ok(false) => Ok(false),
        Err(_) => Err(TypeFault::Memory),
    }
}

/// Whether an interface of a type fits another type.
#[cycle(fits)]
fn interface_fits(
    names: &Names,
    alloc: Global,
    left: usize,
    from: &Ty,
    to: &Ty,
    id: TypeId,
    index: RowOf,
) -> Result<bool, TypeFault>
    ensures { IsToldIn names.now result (and_then (above.interface_at names.now from.now id index)
        (λ interface. walks.fits_within left names.now interface to.now)) }
{
    match interface_type(names, alloc, from, id, index) {
        Ok(interface) => fits(names, alloc, left, interface, to),
        Err(fault) => Err(fault),
    }
}

/// Whether one of the interfaces of a definition fits, with the arguments of a type.
#[cycle(fits)]
fn one_fits(
    names: &Names,
    alloc: Global,
    left: usize,
    from: &Ty,
    to: &Ty,
    id: TypeId,
) -> Result<bool, TypeFault>
    ensures { IsToldIn names.now result
        (above.one_fits left names.now from.now to.now id (interface_indexes names.now id)) }
{
    for index in names.interface_indexes(id) {
        match interface_fits(names, alloc, left, from, to, id, *index) {
            Ok(true) => return Ok(true),
            Ok(false) => {}
            Err(fault) => return Err(fault),
        }
    }
    Ok(false)
}

/// Whether one of the interfaces of a type fits.
#[cycle(fits)]
fn interfaces_fit(
    names: &Names,
    alloc: Global,
    left: usize,
    from: &Ty,
    to: &Ty,
) -> Result<bool, TypeFault>
    ensures { IsToldIn names.now result (above.interfaces_fit left names.now from.now to.now) }
{
    match implementer(names, alloc, from) {
        Ok(Some(id)) => one_fits(names, alloc, left, from, to, id),
        Ok(None) => Ok(false),
        Err(_) => Err(TypeFault::Memory),
    }
}

/// Whether a type fits but for its base.
#[cycle(fits)]
fn fits_beside(
    names: &Names,
    alloc: Global,
    left: usize,
    from: &Ty,
    to: &Ty,
) -> Result<bool, TypeFault>
    ensures { IsToldIn names.now result (above.fits_beside left names.now from.now to.now) }
{
    if fits_at_once(from, to) {
        return Ok(true);
    }
    match vectors_fit(names, alloc, left, from, to) {
        Ok(true) => Ok(true),
        Ok(false) => interfaces_fit(names, alloc, left, from, to),
        Err(fault) => Err(fault),
    }
}

/// One type of a walk.
#[cycle(fits)]
fn walk(names: &Names, alloc: Global, left: usize, from: &Ty, to: &Ty) -> Result<Step, TypeFault>
    ensures { IsStep names.now left to.now result (walks.fits_within (left + 1) names.now from.now to.now) }
{
    match fits_beside(names, alloc, left, from, to) {
        Ok(true) => Ok(Step::Answer(true)),
        Ok(false) => match base_type(names, alloc, from) {
            Ok(Some(base)) => Ok(Step::Above(base)),
            Ok(None) => Ok(Step::Answer(false)),
            Err(fault) => Err(fault),
        },
        Err(fault) => Err(fault),
    }
}

/// Whether a type fits another, by a walk over so many types at most.
#[cycle(fits)]
fn fits(names: &Names, alloc: Global, left: usize, from: Ty, to: &Ty) -> Result<bool, TypeFault>
    ensures { IsToldIn names.now result (walks.fits_within left names.now from to.now) }
{
    let mut at = from;
    let mut left = left;
    while 0 < left {
        match walk(names, alloc, left - 1, &at, to) {
            Ok(Step::Answer(fits)) => return Ok(fits),
            Ok(Step::Above(base)) => at = base,
            Err(fault) => return Err(fault),
        }
        left -= 1;
    }
    Ok(false)
}

/// How many definitions the modules have.
pub fn definition_count(names: &Names) -> usize
    ensures count { result ≡ length (all_ids names.now) }
    ensures few { result + 2 ^ 32 < 2 ^ 64 }
{
    let mut count = 0;
    for module in 0..names.module_count() {
        count += names.type_count(module) as usize;
    }
    count
}

/// Whether a type, boxed where it is a value type, fits another; or the first fault of the walk over its interfaces and
/// bases (ECMA-335 I.8.7.1).
pub fn fitting(names: &Names, alloc: Global, from: &Ty, to: &Ty) -> Result<bool, TypeFault>
    ensures { IsToldIn names.now result (walks.fitting names.now from.now to.now) }
{
    let depth = depth(from);
    if depth == u32::MAX {
        return Err(TypeFault::Memory);
    }
    let bound = depth as usize + definition_count(names) + 1;
    match from.copy(alloc) {
        Ok(from) => fits(names, alloc, bound, from, to),
        Err(_) => Err(TypeFault::Memory),
    }
}
