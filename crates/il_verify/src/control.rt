ghost use Rattle.std.specs.Prelude.{◌≡◌};
ghost use Rattle.std.specs.List.{list_all};
ghost use Rattle.il_code.specs.Listing.{targets_in};
ghost use Rattle.il_verify.specs.Flow.{action_at};
ghost use Rattle.il_verify.specs.Opcodes.{has_target as has_target_of, is_end_op, is_leave_op, is_rethrow_op};
ghost use Rattle.il_verify.specs.Opcodes.{is_return_op};
ghost use Rattle.il_verify.specs.Ranges.{may_go as may_go_of, may_leave as may_leave_of};
ghost use Rattle.il_verify.specs.Rules.{begins_outside as begins_outside_of, ends_its_handler as ends_its_handler_of};
ghost use Rattle.il_verify.specs.Rules.{goes_its_ways as goes_its_ways_of, is_end as is_end_of};
ghost use Rattle.il_verify.specs.Rules.{is_leave as is_leave_of};
ghost use Rattle.il_verify.specs.Rules.{is_rethrow as is_rethrow_of, is_return as is_return_of};
ghost use Rattle.il_verify.specs.Rules.{keeps_to_ranges as keeps_to_ranges_of};
ghost use Rattle.il_verify.specs.Rules.{leaves_its_ranges as leaves_its_ranges_of};
ghost use Rattle.il_verify.specs.Rules.{rethrows_in_catch as rethrows_in_catch_of};
ghost use Rattle.il_verify.specs.Rules.{returns_outside as returns_outside_of};

use crate::ranges::{ends_finally, is_in_catch, is_in_handler, is_in_range, may_go, may_leave};
use il_code::{Clause, Instr, Op, Operand, falls_through};

/// Whether an opcode is a form of `leave`.
fn leaves(op: Op) -> bool
    ensures { result ≡ is_leave_op op }
{
    matches!(op, Op::Leave | Op::LeaveS)
}

/// Whether an opcode is `ret`.
fn returns(op: Op) -> bool
    ensures { result ≡ is_return_op op }
{
    matches!(op, Op::Ret)
}

/// Whether an opcode is `rethrow`.
fn rethrows(op: Op) -> bool
    ensures { result ≡ is_rethrow_op op }
{
    matches!(op, Op::Rethrow)
}

/// Whether an opcode is `endfinally`.
fn ends(op: Op) -> bool
    ensures { result ≡ is_end_op op }
{
    matches!(op, Op::Endfinally)
}

/// Whether an operand is one target.
fn has_target(operand: &Operand) -> bool
    ensures { result ≡ has_target_of operand.now }
{
    match operand {
        Operand::Target(_) => true,
        Operand::Nothing | Operand::Number(_) | Operand::Token(_) | Operand::Targets(_) => false,
    }
}

/// Whether an instruction leaves the ranges that it is in (ECMA-335 III.3.46).
#[tactic(auto, using(crate::proofs::Operations::leave_is))]
fn is_leave(instr: &Instr) -> bool
    ensures { result ≡ is_leave_of (action_at instr.now) }
{
    leaves(instr.op) && has_target(&instr.operand)
}

/// Whether an instruction returns.
#[tactic(auto, using(crate::proofs::Operations::return_is))]
fn is_return(instr: &Instr) -> bool
    ensures { result ≡ is_return_of (action_at instr.now) }
{
    returns(instr.op)
}

/// Whether an instruction throws again what was caught.
#[tactic(auto, using(crate::proofs::Operations::rethrow_is))]
fn is_rethrow(instr: &Instr) -> bool
    ensures { result ≡ is_rethrow_of (action_at instr.now) }
{
    rethrows(instr.op)
}

/// Whether an instruction ends a handler.
#[tactic(auto, using(crate::proofs::Operations::end_is))]
fn is_end(instr: &Instr) -> bool
    ensures { result ≡ is_end_of (action_at instr.now) }
{
    ends(instr.op)
}

/// Whether control may go to each of the offsets.
fn all_may_go(clauses: &[Clause], from: u32, offsets: &[u32]) -> bool
    ensures { result ≡ list_all (may_go_of clauses.now from) offsets.now }
{
    offsets.iter().all(|to| may_go(clauses, from, *to))
}

/// Whether control may leave to each of the offsets.
fn all_may_leave(clauses: &[Clause], from: u32, offsets: &[u32]) -> bool
    ensures { result ≡ list_all (may_leave_of clauses.now from) offsets.now }
{
    offsets.iter().all(|to| may_leave(clauses, from, *to))
}

/// Whether control may go to each target of an operand.
fn targets_may_go(clauses: &[Clause], from: u32, operand: &Operand) -> bool
    ensures { result ≡ list_all (may_go_of clauses.now from) (targets_in operand.now) }
{
    match operand {
        Operand::Target(target) => may_go(clauses, from, *target),
        Operand::Targets(targets) => all_may_go(clauses, from, targets.as_slice()),
        Operand::Nothing | Operand::Number(_) | Operand::Token(_) => true,
    }
}

/// Whether control may leave to each target of an operand.
fn targets_may_leave(clauses: &[Clause], from: u32, operand: &Operand) -> bool
    ensures { result ≡ list_all (may_leave_of clauses.now from) (targets_in operand.now) }
{
    match operand {
        Operand::Target(target) => may_leave(clauses, from, *target),
        Operand::Targets(targets) => all_may_leave(clauses, from, targets.as_slice()),
        Operand::Nothing | Operand::Number(_) | Operand::Token(_) => true,
    }
}

/// Whether control goes on from an instruction by the ways of ranges, or by `leave`.
fn goes_its_ways(clauses: &[Clause], instr: &Instr) -> bool
    ensures { result ≡ goes_its_ways_of clauses.now instr.now }
{
    if is_leave(instr) {
        return true;
    }
    if falls_through(instr.op) && !may_go(clauses, instr.at, instr.next) {
        return false;
    }
    targets_may_go(clauses, instr.at, &instr.operand)
}

/// Whether an instruction isn't the first one of code that begins in a handler.
fn begins_outside(clauses: &[Clause], instr: &Instr) -> bool
    ensures { result ≡ begins_outside_of clauses.now instr.now }
{
    instr.at != 0 || !is_in_handler(clauses, 0)
}

/// Whether an instruction, if it leaves ranges, does so by their ways.
fn leaves_its_ranges(clauses: &[Clause], instr: &Instr) -> bool
    ensures { result ≡ leaves_its_ranges_of clauses.now instr.now }
{
    !is_leave(instr) || targets_may_leave(clauses, instr.at, &instr.operand)
}

/// Whether an instruction, if it ends a handler, stands innermost in that of a finally or a fault.
fn ends_its_handler(clauses: &[Clause], instr: &Instr) -> bool
    ensures { result ≡ ends_its_handler_of clauses.now instr.now }
{
    !is_end(instr) || ends_finally(clauses, instr.at)
}

/// Whether an instruction, if it throws again what was caught, stands in the handler of a catch.
fn rethrows_in_catch(clauses: &[Clause], instr: &Instr) -> bool
    ensures { result ≡ rethrows_in_catch_of clauses.now instr.now }
{
    !is_rethrow(instr) || is_in_catch(clauses, instr.at)
}

/// Whether an instruction, if it returns, stands in no range of a clause.
fn returns_outside(clauses: &[Clause], instr: &Instr) -> bool
    ensures { result ≡ returns_outside_of clauses.now instr.now }
{
    !is_return(instr) || !is_in_range(clauses, instr.at)
}

/// Whether an instruction keeps all rules on the ranges of clauses (ECMA-335 I.12.4.2.8, III.1.7.3).
pub fn keeps_to_ranges(clauses: &[Clause], instr: &Instr) -> bool
    ensures { result ≡ keeps_to_ranges_of clauses.now instr.now }
{
    goes_its_ways(clauses, instr)
        && begins_outside(clauses, instr)
        && leaves_its_ranges(clauses, instr)
        && ends_its_handler(clauses, instr)
        && rethrows_in_catch(clauses, instr)
        && returns_outside(clauses, instr)
}
