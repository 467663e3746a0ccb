ghost use Rattle.std.specs.Prelude.{◌≡◌, ◌<◌, ◌^◌, not, List, [], length, IfOk, IfErr, IfSome, Ok, None, Some};
ghost use Rattle.std.specs.List.{list_all};
ghost use Rattle.il_code.specs.Listing.{listed, first_bad_target, is_boundary as is_boundary_of, AreRising};
ghost use Rattle.ilc_build.specs.Bare.{ReadsBare, first_past as first_past_of, IsBareCode};
ghost use Rattle.ilc_build.specs.Refusals.{NotBare, NotBareCode, FlowGives};
ghost use Rattle.ilc_build.specs.Depths.{IsLeast, first_against as first_against_of, has_operation, is_verified_at};
ghost use Rattle.ilc_build.specs.Depths.{is_reached as is_reached_at, leads_to};
ghost use Rattle.ilc_build.specs.Asked.{test_of};
ghost use Rattle.ilc_build.specs.Typing.{tiny_max_stack};
ghost use Rattle.ilc_build.specs.declared.depths.Known.{Known};

use crate::build::BuildFault;
use crate::depths::{Known, depths, falls_through};
use crate::typing::can_stand;
use il_code::{
    Body, CodeFault, HeaderFault, Instr, Operation, instructions, is_boundary,
    targets_are_boundaries, tiny_code,
};
use num_core::List;
use std::alloc::Global;

/// The greatest depth of the evaluation stack under a tiny header (ECMA-335 II.25.4.2).
const TINY_MAX_STACK: u16 = 8;

/// A bare body, with what is known of the stack before each of its instructions.
#[derive(Debug, Drop)]
pub(crate) struct Bare {
    pub(crate) body: Body,
    pub(crate) table: Vec<Known>,
}

/// The bare body in the bytes of a file, if it is verified.
pub(crate) fn read_bare(alloc: Global, bytes: &[u8]) -> Result<Bare, BuildFault>
    requires { length bytes.now < 2 ^ 32 }
    ensures body { IfOk result (λ bare. ReadsBare bytes.now bare.body bare.table.items) }
    ensures refused { IfErr result (NotBare bytes.now) }
{
    match tiny_code(bytes) {
        Ok(code) => read_code(alloc, code),
        Err(HeaderFault::BadHeader(offset)) => Err(BuildFault::BadHeader(offset)),
    }
}

/// The body of the code behind a tiny header, if it is bare and verified.
fn read_code(alloc: Global, code: &[u8]) -> Result<Bare, BuildFault>
    requires { length code.now < 64 }
    ensures bare { IfOk result (λ bare. IsBareCode code.now bare.body bare.table.items) }
    ensures refused { IfErr result (NotBareCode code.now) }
{
    let instrs = match instructions(alloc, code) {
        Ok(instrs) => instrs,
        Err(CodeFault::BadOpcode(offset)) => return Err(BuildFault::BadOpcode(offset)),
        Err(CodeFault::BadTarget(offset)) => return Err(BuildFault::BadTarget(offset)),
        Err(CodeFault::Memory) => return Err(BuildFault::Memory),
    };
    let table = match depths(alloc, instrs.as_slice()) {
        Ok(table) => table,
        Err(_) => return Err(BuildFault::Memory),
    };
    match first_fault(instrs.as_slice(), table.as_slice()) {
        Some(fault) => Err(fault),
        None => Ok(Bare {
            body: Body {
                max_stack: TINY_MAX_STACK,
                locals: 0,
                code: instrs,
                clauses: List::new(alloc),
            },
            table,
        }),
    }
}

/// What is asked of each instruction to which control comes.
#[derive(Clone, Copy)]
enum Test {
    /// Control goes from it to instructions alone.
    StaysInside,
    /// It has an operation.
    HasOperation,
    /// The stack before it is known and has what it needs.
    IsVerified,
}

/// The first fault of instructions whose targets are among them.
fn first_fault(instrs: &[Instr], table: &[Known]) -> Option<BuildFault>
    requires size { length table.now ≡ length instrs.now }
    requires rising { AreRising instrs.now }
    ensures given { IfSome result (FlowGives instrs.now table.now) }
    ensures past { result ≡ None → first_past_of instrs.now table.now ≡ None }
    ensures operations { result ≡ None → first_against_of has_operation instrs.now table.now ≡ None }
    ensures verified { result ≡ None → first_against_of (is_verified_at tiny_max_stack) instrs.now table.now ≡ None }
{
    if let Some(offset) = first_past(instrs, table) {
        return Some(BuildFault::BadTarget(offset));
    }
    if let Some(offset) = first_against(Test::HasOperation, instrs, table) {
        return Some(BuildFault::OpcodeOutside(offset));
    }
    if let Some(offset) = first_against(Test::IsVerified, instrs, table) {
        return Some(BuildFault::Unverified(offset));
    }
    None
}

/// The offset of the first instruction from which control runs past the end of the code, and 0 of empty code.
fn first_past(instrs: &[Instr], table: &[Known]) -> Option<u32>
    requires size { length table.now ≡ length instrs.now }
    requires rising { AreRising instrs.now }
    ensures { result ≡ first_past_of instrs.now table.now }
{
    if instrs.is_empty() {
        return Some(0);
    }
    first_against(Test::StaysInside, instrs, table)
}

/// The first of the instructions that control comes to and that don't pass a test.
fn first_against(test: Test, instrs: &[Instr], table: &[Known]) -> Option<u32>
    requires size { length table.now ≡ length instrs.now }
    requires rising { AreRising instrs.now }
    ensures { result ≡ first_against_of (test_of test instrs.now) instrs.now table.now }
{
    for index in 0..instrs.len() {
        let instr = &instrs[index];
        if is_reached(table[index]) && !passes(test, instrs, table[index], instr) {
            return Some(instr.at);
        }
    }
    None
}

/// Whether an instruction before which this is known passes a test.
fn passes(test: Test, instrs: &[Instr], known: Known, instr: &Instr) -> bool
    requires { AreRising instrs.now }
    ensures { result ≡ test_of test instrs.now known instr.now }
{
    match test {
        Test::StaysInside => stays_inside(instrs, instr),
        Test::HasOperation => instr.operation().is_some(),
        Test::IsVerified => is_verified(known, instr),
    }
}

/// Whether control comes to an instruction before which this is known.
fn is_reached(known: Known) -> bool
    ensures { result ≡ is_reached_at known }
{
    !matches!(known, Known::Nothing)
}

/// Whether control goes from an instruction to instructions alone.
fn stays_inside(instrs: &[Instr], instr: &Instr) -> bool
    requires { AreRising instrs.now }
    ensures { result ≡ list_all (is_boundary_of instrs.now) (leads_to instr.now) }
{
    match instr.operation() {
        Some(Operation::Branch(target)) => is_boundary(instrs, target),
        Some(Operation::BranchIfTrue(target)) => is_boundary(instrs, instr.next)
            && is_boundary(instrs, target),
        Some(Operation::Return) => true,
        Some(
            Operation::NoOperation
            | Operation::Constant(_)
            | Operation::Duplicate
            | Operation::Discard
            | Operation::Binary(_),
        ) => is_boundary(instrs, instr.next),
        None => (!falls_through(instr.op) || is_boundary(instrs, instr.next))
            && targets_are_boundaries(instrs, &instr.operand),
    }
}

/// Whether the stack before an instruction is known and has what it needs.
fn is_verified(known: Known, instr: &Instr) -> bool
    ensures { result ≡ is_verified_at tiny_max_stack known instr.now }
{
    match (known, instr.operation()) {
        (Known::Depth(depth), Some(operation)) => can_stand(TINY_MAX_STACK, depth, operation),
        _ => false,
    }
}
