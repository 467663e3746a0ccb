ghost use Rattle.std.specs.Prelude.{◌≡◌, [], ◌∷◌, IfOk, IfSome, IfNone};
ghost use Rattle.std.specs.List.{list_all};
ghost use Rattle.ty_terms.specs.Canon.{is_reference_type};
ghost use Rattle.il_stacks.specs.Effects.{agreed, behind as behind_of, element_slot, given as given_of, has_objects};
ghost use Rattle.il_stacks.specs.Effects.{if_object, number_of, of_one, of_two, reference_behind, twice};
ghost use Rattle.il_stacks.specs.declared.slot.StackSlot.{StackSlot};
ghost use Rattle.il_stacks.specs.declared.slot.StackSlot.TheVariants.{Conflict};

use crate::copy::{add, add_copies, copies};
use crate::effect::{Effect, Results};
use crate::sets::elements;
use crate::slot::StackSlot;
use crate::stack::Stack;
use num_core::{List, Memory};
use std::alloc::Global;
use ty_terms::{Ty, TypeId, is_reference};

/// The kind of a number.
fn number(slot: &StackSlot) -> StackSlot
    ensures { result ≡ number_of slot.now }
{
    match slot {
        StackSlot::Int32 => StackSlot::Int32,
        StackSlot::Int64 => StackSlot::Int64,
        StackSlot::NativeInt => StackSlot::NativeInt,
        StackSlot::Refs(_)
        | StackSlot::Pointer(_)
        | StackSlot::View(_)
        | StackSlot::Value(_)
        | StackSlot::Conflict => StackSlot::Conflict,
    }
}

/// What two numbers give.
fn agreement(a: &StackSlot, b: &StackSlot) -> StackSlot
    ensures { result ≡ agreed a.now b.now }
{
    match (a, b) {
        (StackSlot::Int32, StackSlot::Int32) => StackSlot::Int32,
        (StackSlot::Int64, StackSlot::Int64) => StackSlot::Int64,
        (StackSlot::NativeInt, StackSlot::NativeInt)
        | (StackSlot::Int32, StackSlot::NativeInt)
        | (StackSlot::NativeInt, StackSlot::Int32) => StackSlot::NativeInt,
        _ => StackSlot::Conflict,
    }
}

/// A reference of a type, if its values are references.
fn object(alloc: Global, values: &List<TypeId>, ty: &Ty) -> Result<StackSlot, Memory>
    ensures { IfOk result (λ slot. slot ≡ if_object (is_reference_type values.now) ty.now) }
{
    if !is_reference(ty, values) {
        return Ok(StackSlot::Conflict);
    }
    let mut types = List::new(alloc);
    add(&mut types, ty.copy(alloc)?)?;
    Ok(StackSlot::Refs(types))
}

/// The reference that stands behind a pointer or a view.
fn behind_pointer(
    alloc: Global,
    values: &List<TypeId>,
    slot: &StackSlot,
) -> Result<StackSlot, Memory>
    ensures { IfOk result (λ found. found ≡ reference_behind (is_reference_type values.now) slot.now) }
{
    match slot {
        StackSlot::Pointer(ty) | StackSlot::View(ty) => object(alloc, values, ty),
        StackSlot::Int32
        | StackSlot::Int64
        | StackSlot::NativeInt
        | StackSlot::Refs(_)
        | StackSlot::Value(_)
        | StackSlot::Conflict => Ok(StackSlot::Conflict),
    }
}

/// Whether a type is one of vectors of references.
fn holds_objects(values: &List<TypeId>, ty: &Ty) -> bool
    ensures { result ≡ has_objects (is_reference_type values.now) ty.now }
{
    match ty {
        Ty::Vector(element) => is_reference(element.get(), values),
        Ty::Prim(_) | Ty::Named(_, _) | Ty::ByRef(_) | Ty::Var(_) | Ty::MVar(_) | Ty::Canon =>
            false,
    }
}

/// Whether each of the types is one of vectors of references.
fn all_hold_objects(values: &List<TypeId>, types: &[Ty]) -> bool
    ensures { result ≡ list_all (has_objects (is_reference_type values.now)) types.now }
{
    types.iter().all(|ty| holds_objects(values, ty))
}

/// An element of vectors of references.
fn element(alloc: Global, values: &List<TypeId>, slot: &StackSlot) -> Result<StackSlot, Memory>
    ensures { IfOk result (λ found. found ≡ element_slot (is_reference_type values.now) slot.now) }
{
    match slot {
        StackSlot::Refs(types) => {
            if all_hold_objects(values, types.as_slice()) {
                Ok(StackSlot::Refs(elements(alloc, types.as_slice())?))
            } else {
                Ok(StackSlot::Conflict)
            }
        }
        StackSlot::Int32
        | StackSlot::Int64
        | StackSlot::NativeInt
        | StackSlot::Pointer(_)
        | StackSlot::View(_)
        | StackSlot::Value(_)
        | StackSlot::Conflict => Ok(StackSlot::Conflict),
    }
}

/// The one slot, where there is one alone.
fn single(operands: &[StackSlot]) -> Option<&StackSlot>
    ensures some { IfSome result (λ slot. operands.now ≡ slot.now ∷ []) }
    ensures none { IfNone result ((f : StackSlot → StackSlot) → of_one f operands.now ≡ Conflict ∷ []) }
    ensures stays { IfNone result (twice operands.now ≡ operands.now) }
{
    let (first, rest) = operands.split_first()?;
    if rest.is_empty() { Some(first) } else { None }
}

/// The two slots, where there are two.
fn pair(operands: &[StackSlot]) -> Option<(&StackSlot, &StackSlot)>
    ensures some { IfSome result (λ both. operands.now ≡ both.0.now ∷ both.1.now ∷ []) }
    ensures none { IfNone result ((f : StackSlot → StackSlot → StackSlot) → of_two f operands.now ≡ Conflict ∷ []) }
{
    let (first, rest) = operands.split_first()?;
    match single(rest) {
        Some(second) => Some((first, second)),
        None => None,
    }
}

/// A list of one slot.
pub(crate) fn one(alloc: Global, slot: StackSlot) -> Result<List<StackSlot>, Memory>
    ensures { IfOk result (λ list. list ≡ slot ∷ []) }
{
    let mut list = List::new(alloc);
    add(&mut list, slot)?;
    Ok(list)
}

/// The one operand, twice.
fn doubled(alloc: Global, operands: &[StackSlot]) -> Result<List<StackSlot>, Memory>
    ensures { IfOk result (λ list. list ≡ twice operands.now) }
{
    let mut list = copies(alloc, operands)?;
    if let Some(slot) = single(operands) {
        add(&mut list, slot.copy(alloc)?)?;
    }
    Ok(list)
}

/// What an operation leaves in place of its operands.
fn given(
    alloc: Global,
    values: &List<TypeId>,
    results: &Results,
    operands: &[StackSlot],
) -> Result<List<StackSlot>, Memory>
    ensures { IfOk result (λ list. list ≡ given_of (is_reference_type values.now) results.now operands.now) }
{
    match results {
        Results::Nothing => Ok(List::new(alloc)),
        Results::Always(slot) => one(alloc, slot.copy(alloc)?),
        Results::Twice => doubled(alloc, operands),
        Results::SameNumber => match single(operands) {
            Some(slot) => one(alloc, number(slot)),
            None => one(alloc, StackSlot::Conflict),
        },
        Results::ReferenceBehind => match single(operands) {
            Some(slot) => one(alloc, behind_pointer(alloc, values, slot)?),
            None => one(alloc, StackSlot::Conflict),
        },
        Results::AgreedNumber => match pair(operands) {
            Some((a, b)) => one(alloc, agreement(a, b)),
            None => one(alloc, StackSlot::Conflict),
        },
        Results::FirstNumber => match pair(operands) {
            Some((a, _)) => one(alloc, number(a)),
            None => one(alloc, StackSlot::Conflict),
        },
        Results::Element => match pair(operands) {
            Some((a, _)) => one(alloc, element(alloc, values, a)?),
            None => one(alloc, StackSlot::Conflict),
        },
    }
}

/// The stack behind an operation that takes so many operands.
fn taken(
    alloc: Global,
    values: &List<TypeId>,
    count: usize,
    results: &Results,
    slots: &[StackSlot],
) -> Result<Stack, Memory>
    ensures { IfOk result (λ stack.
        stack ≡ behind_of (is_reference_type values.now) (Effect.Takes count results.now) (Stack.Slots slots.now)) }
{
    if slots.len() < count {
        return Ok(Stack::Clash);
    }
    let (below, operands) = slots.split_at(slots.len() - count);
    let mut list = copies(alloc, below)?;
    let found = given(alloc, values, results, operands)?;
    add_copies(alloc, &mut list, found.as_slice())?;
    Ok(Stack::Slots(list))
}

/// The stack behind an operation.
pub(crate) fn behind(
    alloc: Global,
    values: &List<TypeId>,
    effect: &Effect,
    stack: &Stack,
) -> Result<Stack, Memory>
    ensures { IfOk result (λ after. after ≡ behind_of (is_reference_type values.now) effect.now stack.now) }
{
    let Stack::Slots(slots) = stack else {
        return Ok(Stack::Clash);
    };
    match effect {
        Effect::Empties => Ok(Stack::Slots(List::new(alloc))),
        Effect::Takes(count, results) => taken(alloc, values, *count, results, slots.as_slice()),
        Effect::Unknown => Ok(Stack::Clash),
    }
}
