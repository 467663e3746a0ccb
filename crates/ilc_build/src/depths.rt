ghost use Rattle.std.specs.Prelude.{◌≡◌, ◌≢◌, ◌<◌, ◌≤◌, ◌+◌, ◌*◌, ◌^◌, ◌∷◌, ◌++◌, [], ℕ, length, replicate, true};
ghost use Rattle.std.specs.Prelude.{false, List, IfOk};
ghost use Rattle.il_code.specs.Listing.{targets_in};
ghost use Rattle.ilc_build.specs.declared.depths.Known.{Known};
ghost use Rattle.ilc_build.specs.Depths.{join as join_of, passed_on as passed_on_of, falls_through as falls_through_of};
ghost use Rattle.ilc_build.specs.Depths.{known_at, row, next_of, leads_to, operation_leads, IsBelow, AllBelow, IsLeast};
ghost use Rattle.ilc_build.specs.Depths.{IsClosedAt};
ghost use Rattle.ilc_build.specs.Raising.{ranks, IsShallow, AreShallow, IsTold, Raised, StaysBelow};

use crate::typing::{depth_behind, takes};
use il_code::{Instr, Op, Operand, Operation};
use num_core::Memory;
use std::alloc::Global;

/// What is known of the stack before an instruction.
#[derive(Clone, Copy, Debug, PartialEq, Eq)]
pub enum Known {
    /// Control doesn't come to the instruction.
    Nothing,
    /// It comes with a stack of this depth.
    Depth(u32),
    /// It comes with stacks of different depths, or with one whose depth isn't known.
    Clash,
}

/// What is known before each of the instructions, and no more than that (ECMA-335 III.1.8).
pub(crate) fn depths(alloc: Global, instrs: &[Instr]) -> Result<Vec<Known>, Memory>
    requires { length instrs.now < 2 ^ 16 }
    ensures { IfOk result (λ table. IsLeast instrs.now table.items) }
{
    let mut table = vec![in alloc; Known::Nothing; instrs.len()]?;
    settle(instrs, table.as_mut_slice());
    Ok(table)
}

/// From nothing known of any, what is known before each of the instructions, and no more than that.
fn settle(instrs: &[Instr], table: &mut [Known])
    requires few { length instrs.now < 2 ^ 16 }
    requires nothing { table.old ≡ replicate (length instrs.now) Known.Nothing }
    ensures { IsLeast instrs.now table.new }
{
    raise(instrs, table, 0, Known::Depth(0));
    while spread(instrs, table) {}
}

/// What is known where two ways come together.
fn join(first: Known, second: Known) -> Known
    ensures { result ≡ join_of first second }
{
    match (first, second) {
        (Known::Nothing, known) | (known, Known::Nothing) => known,
        (Known::Depth(depth), Known::Depth(other)) if depth == other => Known::Depth(depth),
        _ => Known::Clash,
    }
}

/// What is known behind an operation.
fn passed_on(known: Known, operation: Option<Operation>) -> Known
    requires { IsShallow (2 ^ 20) known }
    ensures value { result ≡ passed_on_of known operation }
{
    match (known, operation) {
        (Known::Nothing, _) => Known::Nothing,
        (Known::Depth(depth), Some(operation)) if takes(operation) <= depth => {
            Known::Depth(depth_behind(depth, operation))
        }
        _ => Known::Clash,
    }
}

/// Whether an opcode goes on to the instruction behind.
pub(crate) fn falls_through(op: Op) -> bool
    ensures { result ≡ falls_through_of op }
{
    !matches!(
        op,
        Op::BrS
            | Op::Br
            | Op::LeaveS
            | Op::Leave
            | Op::Ret
            | Op::Throw
            | Op::Rethrow
            | Op::Endfinally
    )
}

/// One round: each instruction passes on what is known of it. Whether a row of the table was raised.
fn spread(instrs: &[Instr], table: &mut [Known]) -> bool
    requires size { length table.old ≡ length instrs.now }
    requires few { length instrs.now < 2 ^ 16 }
    requires shallow { AreShallow table.old }
    ensures raised { Raised table.old table.new result }
    ensures below { StaysBelow instrs.now table.old table.new }
    ensures closed { result ≡ false → (n : ℕ) → n < length instrs.now → IsClosedAt instrs.now table.new n }
{
    let mut raised = false;
    for index in 0..instrs.len() {
        let more = spread_from(instrs, table, index);
        raised |= more;
    }
    raised
}

/// The instruction of a number passes on what is known of it. Whether a row of the table was raised.
fn spread_from(instrs: &[Instr], table: &mut [Known], index: usize) -> bool
    requires size { length table.old ≡ length instrs.now }
    requires few { length instrs.now < 2 ^ 16 }
    requires shallow { AreShallow table.old }
    requires within { index < length instrs.now }
    ensures raised { Raised table.old table.new result }
    ensures below { StaysBelow instrs.now table.old table.new }
    ensures closed { result ≡ false → IsClosedAt instrs.now table.new index }
{
    let instr = &instrs[index];
    let known = passed_on(table[index], instr.operation());
    raise_leads(instrs, table, instr, known)
}

/// The rows of the instructions to which control goes from this one tell this too.
fn raise_leads(instrs: &[Instr], table: &mut [Known], instr: &Instr, known: Known) -> bool
    requires size { length table.old ≡ length instrs.now }
    requires shallow { AreShallow table.old }
    requires known { IsShallow (ranks table.old + 1) known }
    ensures { IsTold instrs.now known (leads_to instr.now) table.old table.new result }
{
    match instr.operation() {
        Some(operation) => raise_operation(instrs, table, operation, instr.next, known),
        None => raise_outside(instrs, table, instr, known),
    }
}

/// The same of an operation; `next` is the offset of the instruction behind it.
fn raise_operation(
    instrs: &[Instr],
    table: &mut [Known],
    operation: Operation,
    next: u32,
    known: Known,
) -> bool
    requires size { length table.old ≡ length instrs.now }
    requires shallow { AreShallow table.old }
    requires known { IsShallow (ranks table.old + 1) known }
    ensures { IsTold instrs.now known (operation_leads operation next) table.old table.new result }
{
    match operation {
        Operation::Branch(target) => raise(instrs, table, target, known),
        Operation::BranchIfTrue(target) => raise_all(instrs, table, &[next, target], known),
        Operation::Return => false,
        Operation::NoOperation
        | Operation::Constant(_)
        | Operation::Duplicate
        | Operation::Discard
        | Operation::Binary(_) => raise(instrs, table, next, known),
    }
}

/// The same of an instruction without operation.
fn raise_outside(instrs: &[Instr], table: &mut [Known], instr: &Instr, known: Known) -> bool
    requires size { length table.old ≡ length instrs.now }
    requires shallow { AreShallow table.old }
    requires known { IsShallow (ranks table.old + 1) known }
    ensures { IsTold instrs.now known (next_of instr.now ++ targets_in instr.now.operand) table.old table.new result }
{
    let behind = raise_next(instrs, table, instr, known);
    let elsewhere = raise_targets(instrs, table, &instr.operand, known);
    behind | elsewhere
}

/// The row of the next instruction, if control goes on to it, tells this too.
fn raise_next(instrs: &[Instr], table: &mut [Known], instr: &Instr, known: Known) -> bool
    requires size { length table.old ≡ length instrs.now }
    requires shallow { AreShallow table.old }
    requires known { IsShallow (ranks table.old + 1) known }
    ensures { IsTold instrs.now known (next_of instr.now) table.old table.new result }
{
    if falls_through(instr.op) {
        raise(instrs, table, instr.next, known)
    } else {
        false
    }
}

/// The rows of the targets of an operand tell this too.
fn raise_targets(instrs: &[Instr], table: &mut [Known], operand: &Operand, known: Known) -> bool
    requires size { length table.old ≡ length instrs.now }
    requires shallow { AreShallow table.old }
    requires known { IsShallow (ranks table.old + 1) known }
    ensures { IsTold instrs.now known (targets_in operand.now) table.old table.new result }
{
    match operand {
        Operand::Target(offset) => raise(instrs, table, *offset, known),
        Operand::Targets(offsets) => raise_all(instrs, table, offsets.as_slice(), known),
        Operand::Nothing | Operand::Number(_) | Operand::Token(_) => false,
    }
}

/// The rows of the instructions at these offsets tell this too.
fn raise_all(instrs: &[Instr], table: &mut [Known], offsets: &[u32], known: Known) -> bool
    requires size { length table.old ≡ length instrs.now }
    requires shallow { AreShallow table.old }
    requires known { IsShallow (ranks table.old + 1) known }
    ensures { IsTold instrs.now known offsets.now table.old table.new result }
{
    let mut raised = false;
    for offset in offsets {
        let more = raise(instrs, table, *offset, known);
        raised |= more;
    }
    raised
}

/// The row of the instruction at an offset tells this too. Whether it tells more than before.
fn raise(instrs: &[Instr], table: &mut [Known], offset: u32, known: Known) -> bool
    requires size { length table.old ≡ length instrs.now }
    requires shallow { AreShallow table.old }
    requires known { IsShallow (ranks table.old + 1) known }
    ensures { IsTold instrs.now known (offset ∷ []) table.old table.new result }
{
    for index in 0..instrs.len() {
        if instrs[index].at == offset {
            return raise_row(table, index, known);
        }
    }
    false
}

/// The row of a number tells this too. Whether it tells more than before.
fn raise_row(table: &mut [Known], index: usize, known: Known) -> bool
    requires within { index < length table.old }
    requires shallow { AreShallow table.old }
    requires known { IsShallow (ranks table.old + 1) known }
    ensures raised { Raised table.old table.new result }
    ensures tells { IsBelow known (row table.new index) }
    ensures others { (n : ℕ) → n ≢ index → row table.new n ≡ row table.old n }
    ensures below { (other : List Known) → AllBelow table.old other → IsBelow known (row other index) →
        AllBelow table.new other }
{
    let joined = join(table[index], known);
    if joined == table[index] {
        return false;
    }
    table[index] = joined;
    true
}
