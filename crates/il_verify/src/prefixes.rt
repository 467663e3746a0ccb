ghost use Rattle.std.specs.Prelude.{◌≡◌};
ghost use Rattle.il_code.specs.Listing.{targets_in};
ghost use Rattle.il_verify.specs.Flow.{action_at, is_among};
ghost use Rattle.il_verify.specs.Opcodes.{has_token as has_token_of, is_address_op, is_constrained_op, is_readonly_op};
ghost use Rattle.il_verify.specs.Opcodes.{is_virtual_call_op};
ghost use Rattle.il_verify.specs.Rules.{is_address_of_element as is_address_of, is_constrained_prefix};
ghost use Rattle.il_verify.specs.Rules.{is_entered as is_entered_of, is_prefix as is_prefix_of};
ghost use Rattle.il_verify.specs.Rules.{is_prefix_for as is_prefix_for_of, is_readonly_prefix};
ghost use Rattle.il_verify.specs.Rules.{is_target as is_target_of};
ghost use Rattle.il_verify.specs.Rules.{fits_next as fits_next_of, is_virtual_call as is_virtual_call_of};
ghost use Rattle.il_verify.specs.Rules.{prefixes_well as prefixes_well_of};

use crate::ranges::begins_range;
use il_code::{Clause, Instr, Op, Operand};

/// Whether an opcode is `constrained.`.
fn constrains(op: Op) -> bool
    ensures { result ≡ is_constrained_op op }
{
    matches!(op, Op::Constrained)
}

/// Whether an opcode is `readonly.`.
fn reads_only(op: Op) -> bool
    ensures { result ≡ is_readonly_op op }
{
    matches!(op, Op::Readonly)
}

/// Whether an opcode is `callvirt`.
fn calls_virtual(op: Op) -> bool
    ensures { result ≡ is_virtual_call_op op }
{
    matches!(op, Op::Callvirt)
}

/// Whether an opcode is `ldelema`.
fn names_element(op: Op) -> bool
    ensures { result ≡ is_address_op op }
{
    matches!(op, Op::Ldelema)
}

/// Whether an operand is a token.
fn has_token(operand: &Operand) -> bool
    ensures { result ≡ has_token_of operand.now }
{
    match operand {
        Operand::Token(_) => true,
        Operand::Nothing | Operand::Number(_) | Operand::Target(_) | Operand::Targets(_) => false,
    }
}

/// Whether an instruction is `constrained.`.
#[tactic(auto, using(crate::proofs::Operations::constrained_is))]
fn is_constrained(instr: &Instr) -> bool
    ensures { result ≡ is_constrained_prefix (action_at instr.now) }
{
    constrains(instr.op) && has_token(&instr.operand)
}

/// Whether an instruction is `readonly.`.
#[tactic(auto, using(crate::proofs::Operations::readonly_is))]
fn is_readonly(instr: &Instr) -> bool
    ensures { result ≡ is_readonly_prefix (action_at instr.now) }
{
    reads_only(instr.op)
}

/// Whether an instruction is `callvirt`.
#[tactic(auto, using(crate::proofs::Operations::virtual_call_is))]
fn is_virtual_call(instr: &Instr) -> bool
    ensures { result ≡ is_virtual_call_of (action_at instr.now) }
{
    calls_virtual(instr.op) && has_token(&instr.operand)
}

/// Whether an instruction is `ldelema`.
#[tactic(auto, using(crate::proofs::Operations::address_is))]
fn is_address(instr: &Instr) -> bool
    ensures { result ≡ is_address_of (action_at instr.now) }
{
    names_element(instr.op) && has_token(&instr.operand)
}

/// Whether an instruction is a prefix that has a rule on what stands behind it.
fn is_prefix(instr: &Instr) -> bool
    ensures { result ≡ is_prefix_of (action_at instr.now) }
{
    is_constrained(instr) || is_readonly(instr)
}

/// Whether an instruction, if it is a prefix, may stand in front of another.
fn is_prefix_for(instr: &Instr, next: &Instr) -> bool
    ensures { result ≡ is_prefix_for_of (action_at instr.now) (action_at next.now) }
{
    if is_constrained(instr) {
        is_virtual_call(next)
    } else if is_readonly(instr) {
        is_address(next)
    } else {
        true
    }
}

/// Whether an offset is among others.
fn contains(offsets: &[u32], offset: u32) -> bool
    ensures { result ≡ is_among offsets.now offset }
{
    offsets.iter().any(|other| *other == offset)
}

/// Whether an operand leads to an offset.
fn leads_to(operand: &Operand, offset: u32) -> bool
    ensures { result ≡ is_among (targets_in operand.now) offset }
{
    match operand {
        Operand::Target(target) => *target == offset,
        Operand::Targets(targets) => contains(targets.as_slice(), offset),
        Operand::Nothing | Operand::Number(_) | Operand::Token(_) => false,
    }
}

/// Whether an instruction, reached or not, leads to an offset.
fn is_target(code: &[Instr], offset: u32) -> bool
    ensures { result ≡ is_target_of code.now offset }
{
    code.iter().any(|instr| leads_to(&instr.operand, offset))
}

/// Whether control comes to an offset otherwise than from the instruction in front.
fn is_entered(code: &[Instr], clauses: &[Clause], offset: u32) -> bool
    ensures { result ≡ is_entered_of code.now clauses.now offset }
{
    is_target(code, offset) || begins_range(clauses, offset)
}

/// Whether an instruction fits the one behind it, if it is a prefix.
fn fits_next(code: &[Instr], instr: &Instr) -> bool
    ensures { result ≡ fits_next_of code.now instr.now }
{
    for next in code {
        if next.at == instr.next {
            return is_prefix_for(instr, next);
        }
    }
    !is_prefix(instr)
}

/// Whether an instruction, if it is a prefix, stands in front of its operation, to which control comes by no other way
/// (ECMA-335 III.2.1, III.2.3).
pub fn prefixes_well(code: &[Instr], clauses: &[Clause], instr: &Instr) -> bool
    ensures { result ≡ prefixes_well_of code.now clauses.now instr.now }
{
    fits_next(code, instr) && (!is_prefix(instr) || !is_entered(code, clauses, instr.next))
}
