ghost use Rattle.std.specs.Prelude.{◌≡◌, IfOk, length};
ghost use Rattle.il_stacks.specs.Slots.{if_same, joined as joined_of, joined_slot as joined_slot_of};
ghost use Rattle.il_stacks.specs.Slots.{joined_slots as joined_slots_of};

use crate::copy::add;
use crate::sets::unite;
use crate::slot::StackSlot;
use crate::stack::Stack;
use num_core::{List, Memory};
use std::alloc::Global;
use ty_terms::Ty;

/// The slot, where two types are one, or else a conflict.
fn when_same(a: &Ty, b: &Ty, slot: StackSlot) -> StackSlot
    ensures { result ≡ if_same a.now b.now slot }
{
    if *a == *b { slot } else { StackSlot::Conflict }
}

/// What is known of a slot where one or the other is.
fn joined_slot(alloc: Global, a: &StackSlot, b: &StackSlot) -> Result<StackSlot, Memory>
    ensures { IfOk result (λ slot. slot ≡ joined_slot_of a.now b.now) }
{
    match (a, b) {
        (StackSlot::Int32, StackSlot::Int32) => Ok(StackSlot::Int32),
        (StackSlot::Int64, StackSlot::Int64) => Ok(StackSlot::Int64),
        (StackSlot::NativeInt, StackSlot::NativeInt) => Ok(StackSlot::NativeInt),
        (StackSlot::Refs(types), StackSlot::Refs(others)) => {
            let set = unite(alloc, types.as_slice(), others.as_slice())?;
            Ok(StackSlot::Refs(set))
        }
        (StackSlot::Pointer(a), StackSlot::Pointer(b)) => {
            let pointer = StackSlot::Pointer(a.copy(alloc)?);
            Ok(when_same(a, b, pointer))
        }
        (StackSlot::Pointer(a), StackSlot::View(b))
        | (StackSlot::View(a), StackSlot::Pointer(b))
        | (StackSlot::View(a), StackSlot::View(b)) => {
            let view = StackSlot::View(a.copy(alloc)?);
            Ok(when_same(a, b, view))
        }
        (StackSlot::Value(a), StackSlot::Value(b)) => {
            let value = StackSlot::Value(a.copy(alloc)?);
            Ok(when_same(a, b, value))
        }
        _ => Ok(StackSlot::Conflict),
    }
}

/// The same of slots, one by one.
fn joined_slots(
    alloc: Global,
    slots: &[StackSlot],
    others: &[StackSlot],
) -> Result<List<StackSlot>, Memory>
    requires { length slots.now ≡ length others.now }
    ensures { IfOk result (λ list. list ≡ joined_slots_of slots.now others.now) }
{
    let mut list = List::new(alloc);
    for (i, slot) in slots.iter().enumerate() {
        add(&mut list, joined_slot(alloc, slot, &others[i])?)?;
    }
    Ok(list)
}

/// What is known where one stack or the other is.
pub(crate) fn joined(alloc: Global, stack: &Stack, other: &Stack) -> Result<Stack, Memory>
    ensures { IfOk result (λ both. both ≡ joined_of stack.now other.now) }
{
    let (Stack::Slots(slots), Stack::Slots(others)) = (stack, other) else {
        return Ok(Stack::Clash);
    };
    if slots.len() == others.len() {
        Ok(Stack::Slots(joined_slots(alloc, slots.as_slice(), others.as_slice())?))
    } else {
        Ok(Stack::Clash)
    }
}
