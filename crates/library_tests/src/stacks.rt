ghost use Rattle.std.specs.Prelude.{◌&&◌, [], IfOk, IsTrue};
ghost use Rattle.il_stacks.specs.Bounds.{are_sound};
ghost use Rattle.il_stacks.specs.Flow.{steps_rise};

use il_stacks::{Effect, OffsetStack, Results, Stack, StackSlot, Step, Typing, least_stacks};
use num_core::{List, Memory};
use std::alloc::Global;
use std::test::Fail;

/// An int32 is pushed, and then dropped.
fn steps(alloc: Global) -> Result<Vec<Step>, Memory>
    ensures { IfOk result (λ steps. IsTrue (steps_rise 0 steps.items && are_sound steps.items [])) }
{
    let push = Step {
        at: 0,
        ways: List::from_slice(alloc, &[1])?,
        effect: Effect::Takes(0, Results::Always(StackSlot::Int32)),
    };
    let drop = Step {
        at: 1,
        ways: List::new(alloc),
        effect: Effect::Takes(1, Results::Nothing),
    };
    Ok(vec![in alloc; push, drop]?)
}

/// How many slots are on a stack, or 9 on a clash.
fn depth(entry: &OffsetStack) -> usize {
    match &entry.stack {
        Stack::Slots(slots) => slots.len(),
        Stack::Clash => 9,
    }
}

#[test]
fn one_slot_is_known_behind_a_constant(rt: HostRuntime) -> Result<(), Fail> {
    let alloc = rt.alloc();
    let steps = steps(alloc)?;
    let values = List::new(alloc);
    let table = least_stacks(alloc, &values, steps.as_slice(), &[], 2)?;
    let typing = Typing::from_table(alloc, table.as_slice(), steps.as_slice())?;
    let mut depths = Vec::new(alloc);
    for entry in typing.stacks.as_slice() {
        depths.push(depth(entry))?;
    }
    assert_eq!(rt; depths.as_slice(), [0, 1].as_slice());
    Ok(())
}
