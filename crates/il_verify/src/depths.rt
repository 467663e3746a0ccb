ghost use Rattle.std.specs.Prelude.{◌≡◌, ◌&&◌};
ghost use Rattle.std.specs.List.{list_all};
ghost use Rattle.il_verify.specs.Row.{is_usable as is_usable_of};
ghost use Rattle.il_verify.specs.Rules.{has_no_conflict, is_at_one_depth, is_within_depth};

use il_stacks::{Stack, StackSlot};

/// Whether a slot can be used.
fn is_usable(slot: &StackSlot) -> bool
    ensures { result ≡ is_usable_of slot.now }
{
    match slot {
        StackSlot::Conflict => false,
        StackSlot::Int32
        | StackSlot::Int64
        | StackSlot::NativeInt
        | StackSlot::Refs(_)
        | StackSlot::Pointer(_)
        | StackSlot::View(_)
        | StackSlot::Value(_) => true,
    }
}

/// Whether each slot can be used.
fn are_usable(slots: &[StackSlot]) -> bool
    ensures { result ≡ list_all is_usable_of slots.now }
{
    slots.iter().all(|slot| is_usable(slot))
}

/// Whether a stack is at one depth, has nothing that can't be used, and is no deeper than so many slots (ECMA-335
/// III.1.7.4, III.1.8.1.3).
pub fn stands_well(stack: &Stack, most: u16) -> bool
    ensures { result ≡ (is_at_one_depth stack.now && (has_no_conflict stack.now && is_within_depth most stack.now)) }
{
    match stack {
        Stack::Slots(slots) => are_usable(slots.as_slice()) && slots.len() <= most as usize,
        Stack::Clash => false,
    }
}
