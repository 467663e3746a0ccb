ghost use Rattle.std.specs.Prelude.{◌≡◌};
ghost use Rattle.il_stacks.specs.Slots.{are_slots_below, is_below, is_slot_below};

use crate::sets::are_contained;
use crate::slot::StackSlot;
use crate::stack::Stack;

/// Whether a slot tells all that another does.
pub(crate) fn tells_slot(slot: &StackSlot, other: &StackSlot) -> bool
    ensures { result ≡ is_slot_below slot.now other.now }
{
    match (slot, other) {
        (_, StackSlot::Conflict) => true,
        (StackSlot::Int32, StackSlot::Int32)
        | (StackSlot::Int64, StackSlot::Int64)
        | (StackSlot::NativeInt, StackSlot::NativeInt) => true,
        (StackSlot::Refs(types), StackSlot::Refs(others)) => are_contained(
            types.as_slice(),
            others.as_slice(),
        ),
        (StackSlot::Pointer(a), StackSlot::Pointer(b))
        | (StackSlot::Pointer(a), StackSlot::View(b))
        | (StackSlot::View(a), StackSlot::View(b))
        | (StackSlot::Value(a), StackSlot::Value(b)) => *a == *b,
        _ => false,
    }
}

/// Whether slots tell all that others do, one by one.
fn tell_slots(slots: &[StackSlot], others: &[StackSlot]) -> bool
    ensures { result ≡ are_slots_below slots.now others.now }
{
    if slots.len() != others.len() {
        return false;
    }
    for (i, slot) in slots.iter().enumerate() {
        if !tells_slot(slot, &others[i]) {
            return false;
        }
    }
    true
}

/// Whether a stack tells all that another does.
pub(crate) fn tells(stack: &Stack, other: &Stack) -> bool
    ensures { result ≡ is_below stack.now other.now }
{
    match (stack, other) {
        (_, Stack::Clash) => true,
        (Stack::Slots(slots), Stack::Slots(others)) => tell_slots(
            slots.as_slice(),
            others.as_slice(),
        ),
        (Stack::Clash, Stack::Slots(_)) => false,
    }
}
