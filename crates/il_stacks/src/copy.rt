ghost use Rattle.std.specs.Prelude.{◌≡◌, ◌++◌, ◌∷◌, [], IfOk, OnOk};

use crate::slot::StackSlot;
use crate::stack::Stack;
use num_core::{List, Memory};
use std::alloc::Global;
use ty_terms::copy_all;

/// Adds an item at the end of a list.
pub(crate) fn add<T: Drop>(list: &mut List<T>, item: T) -> Result<(), Memory>
    ensures { OnOk result (list.new ≡ list.old ++ item ∷ []) }
{
    match list.push(item) {
        Ok(()) => Ok(()),
        Err(_) => Err(Memory),
    }
}

impl StackSlot {
    /// A slot that equals this one.
    pub fn copy(&self, alloc: Global) -> Result<StackSlot, Memory>
        ensures { IfOk result (λ copy. copy ≡ self.now) }
    {
        match self {
            StackSlot::Int32 => Ok(StackSlot::Int32),
            StackSlot::Int64 => Ok(StackSlot::Int64),
            StackSlot::NativeInt => Ok(StackSlot::NativeInt),
            StackSlot::Refs(types) => Ok(StackSlot::Refs(copy_all(alloc, types.as_slice())?)),
            StackSlot::Pointer(ty) => Ok(StackSlot::Pointer(ty.copy(alloc)?)),
            StackSlot::View(ty) => Ok(StackSlot::View(ty.copy(alloc)?)),
            StackSlot::Value(ty) => Ok(StackSlot::Value(ty.copy(alloc)?)),
            StackSlot::Conflict => Ok(StackSlot::Conflict),
        }
    }
}

/// Adds copies of slots at the end of a list.
pub(crate) fn add_copies(
    alloc: Global,
    list: &mut List<StackSlot>,
    slots: &[StackSlot],
) -> Result<(), Memory>
    ensures { OnOk result (list.new ≡ list.old ++ slots.now) }
{
    for slot in slots {
        add(list, slot.copy(alloc)?)?;
    }
    Ok(())
}

/// A list of slots that equals these.
pub(crate) fn copies(alloc: Global, slots: &[StackSlot]) -> Result<List<StackSlot>, Memory>
    ensures { IfOk result (λ list. list ≡ slots.now) }
{
    let mut list = List::new(alloc);
    add_copies(alloc, &mut list, slots)?;
    Ok(list)
}

impl Stack {
    /// A stack that equals this one.
    pub fn copy(&self, alloc: Global) -> Result<Stack, Memory>
        ensures { IfOk result (λ copy. copy ≡ self.now) }
    {
        match self {
            Stack::Slots(slots) => Ok(Stack::Slots(copies(alloc, slots.as_slice())?)),
            Stack::Clash => Ok(Stack::Clash),
        }
    }
}
