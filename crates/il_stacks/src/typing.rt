ghost use Rattle.std.specs.Prelude.{◌≡◌, IfNone, IfOk, IfSome, None, OnOk, Some, fold};
ghost use Rattle.std.specs.List.{flat_map};
ghost use Rattle.least_flow.specs.Solution.{row};
ghost use Rattle.il_stacks.specs.Typings.{added, stacks_in as stacks_of, typing_of, values_in as values_of};
ghost use Rattle.il_stacks.specs.Typings.{values_of_slot, values_of_stack};

use crate::copy::add;
use crate::effect::Step;
use crate::sets::contains;
use crate::slot::StackSlot;
use crate::stack::Stack;
use num_core::{List, Memory};
use std::alloc::Global;
use ty_terms::Ty;

/// The stack before an instruction.
#[derive(Debug, Drop)]
pub struct OffsetStack {
    /// The offset of the instruction.
    pub offset: u32,
    pub stack: Stack,
}

/// What verifying tells of a method's code (ECMA-335 III.1.8).
#[derive(Debug, Drop)]
pub struct Typing {
    /// Each offset that control comes to with its stack, in rising order of offsets.
    pub stacks: List<OffsetStack>,
    /// The value types in these stacks, each once, in order of offsets and of one stack from the bottom.
    pub values: List<Ty>,
}

impl Typing {
    /// The typing that a table of stacks tells of the steps of code.
    pub fn from_table(
        alloc: Global,
        table: &[Option<Stack>],
        steps: &[Step],
    ) -> Result<Typing, Memory>
        ensures { IfOk result (λ typing. typing ≡ typing_of table.now steps.now) }
    {
        let stacks = stacks_in(alloc, table, steps)?;
        let values = values_in(alloc, stacks.as_slice())?;
        Ok(Typing { stacks, values })
    }
}

/// What a table tells of an offset.
fn known(table: &[Option<Stack>], offset: u32) -> Option<&Stack>
    ensures some { IfSome result (λ stack. row table.now offset ≡ Some stack.now) }
    ensures none { IfNone result (row table.now offset ≡ None) }
{
    match table.get(offset as usize) {
        Some(Some(stack)) => Some(stack),
        Some(None) | None => None,
    }
}

/// The steps of which a table tells a stack, each with it.
fn stacks_in(
    alloc: Global,
    table: &[Option<Stack>],
    steps: &[Step],
) -> Result<List<OffsetStack>, Memory>
    ensures { IfOk result (λ stacks. stacks ≡ stacks_of table.now steps.now) }
{
    let mut stacks = List::new(alloc);
    for step in steps {
        if let Some(stack) = known(table, step.at) {
            let stack = stack.copy(alloc)?;
            add(
                &mut stacks,
                OffsetStack {
                    offset: step.at,
                    stack,
                },
            )?;
        }
    }
    Ok(stacks)
}

/// The value types in stacks, each once.
fn values_in(alloc: Global, stacks: &[OffsetStack]) -> Result<List<Ty>, Memory>
    ensures { IfOk result (λ values. values ≡ values_of stacks.now) }
{
    let mut values = List::new(alloc);
    for entry in stacks {
        add_values(alloc, &mut values, &entry.stack)?;
    }
    Ok(values)
}

/// Adds the value types in a stack that aren't there yet.
fn add_values(alloc: Global, values: &mut List<Ty>, stack: &Stack) -> Result<(), Memory>
    ensures { OnOk result (values.new ≡ fold added values.old (values_of_stack stack.now)) }
{
    match stack {
        Stack::Slots(slots) => add_values_of(alloc, values, slots.as_slice()),
        Stack::Clash => Ok(()),
    }
}

/// The same of slots.
fn add_values_of(alloc: Global, values: &mut List<Ty>, slots: &[StackSlot]) -> Result<(), Memory>
    ensures { OnOk result (values.new ≡ fold added values.old (flat_map values_of_slot slots.now)) }
{
    for slot in slots {
        add_value_of(alloc, values, slot)?;
    }
    Ok(())
}

/// The same of a slot.
fn add_value_of(alloc: Global, values: &mut List<Ty>, slot: &StackSlot) -> Result<(), Memory>
    ensures { OnOk result (values.new ≡ fold added values.old (values_of_slot slot.now)) }
{
    match slot {
        StackSlot::Value(ty) => add_type(alloc, values, ty),
        StackSlot::Int32
        | StackSlot::Int64
        | StackSlot::NativeInt
        | StackSlot::Refs(_)
        | StackSlot::Pointer(_)
        | StackSlot::View(_)
        | StackSlot::Conflict => Ok(()),
    }
}

/// Adds a type, if it isn't there yet.
fn add_type(alloc: Global, types: &mut List<Ty>, ty: &Ty) -> Result<(), Memory>
    ensures { OnOk result (types.new ≡ added types.old ty.now) }
{
    if contains(types.as_slice(), ty) {
        return Ok(());
    }
    add(types, ty.copy(alloc)?)
}
