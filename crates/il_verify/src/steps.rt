ghost use Rattle.std.specs.Prelude.{◌≡◌, ◌++◌, ◌∷◌, [], IfOk, OnOk};
ghost use Rattle.il_code.specs.Listing.{targets_in};
ghost use Rattle.il_code.specs.Reach.{next_of};
ghost use Rattle.il_verify.specs.Flow.{handler_with, step_with};

use il_code::{Clause, Instr, Operand, falls_through};
use il_stacks::{Effect, Handler, StackSlot, Step};
use num_core::{List, Memory};
use std::alloc::Global;

/// Adds an offset at the end of a list.
fn add(offsets: &mut List<u32>, offset: u32) -> Result<(), Memory>
    ensures { OnOk result (offsets.new ≡ offsets.old ++ offset ∷ []) }
{
    match offsets.push(offset) {
        Ok(()) => Ok(()),
        Err(_) => Err(Memory),
    }
}

/// Adds the targets of an operand.
fn add_targets(offsets: &mut List<u32>, operand: &Operand) -> Result<(), Memory>
    ensures { OnOk result (offsets.new ≡ offsets.old ++ targets_in operand.now) }
{
    match operand {
        Operand::Target(target) => add(offsets, *target),
        Operand::Targets(targets) => offsets.extend_from_slice(targets.as_slice()),
        Operand::Nothing | Operand::Number(_) | Operand::Token(_) => Ok(()),
    }
}

/// The offsets to which control goes from an instruction, but for handlers (ECMA-335 III.1.7.2).
fn ways(alloc: Global, instr: &Instr) -> Result<List<u32>, Memory>
    ensures { IfOk result (λ ways. ways ≡ next_of instr.now ++ targets_in instr.now.operand) }
{
    let mut ways = List::new(alloc);
    if falls_through(instr.op) {
        add(&mut ways, instr.next)?;
    }
    add_targets(&mut ways, &instr.operand)?;
    Ok(ways)
}

/// The step that an instruction is which does this to the stack.
pub fn step(alloc: Global, instr: &Instr, effect: Effect) -> Result<Step, Memory>
    ensures { IfOk result (λ step. step ≡ step_with instr.now effect) }
{
    Ok(Step {
        at: instr.at,
        ways: ways(alloc, instr)?,
        effect,
    })
}

/// The handler of a clause, which begins with what was caught, or with nothing.
pub fn handler(clause: Clause, caught: Option<StackSlot>) -> Handler
    ensures { result ≡ handler_with clause caught }
{
    Handler {
        try_at: clause.try_at,
        try_end: clause.try_end,
        at: clause.handler_at,
        caught,
    }
}
