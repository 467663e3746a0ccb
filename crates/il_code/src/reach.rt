ghost use Rattle.std.specs.Prelude.{◌≡◌, ◌<◌, ◌^◌, ◌++◌, ℕ, length, map, All};
ghost use Rattle.std.specs.Prelude.{IfOk, IfErr, IfSome, IfNone, OnOk, is_some, find, slice_index_or};
ghost use Rattle.std.specs.Option.{option_map};
ghost use Rattle.std.specs.List.Sorted.{IsStrictlyIncreasing};
ghost use Rattle.il_code.specs.Listing.{AreRising, targets_in};
ghost use Rattle.il_code.specs.Marks.{fact_of, is_past, known_from};
ghost use Rattle.il_code.specs.Reach.{AreReached, RunsPastEnd, NotReached};
ghost use Rattle.il_code.specs.Reach.{falls_through as falls_through_of, next_of, tries as tries_at, handlers_of};
ghost use Rattle.il_code.specs.Reach.{leads_of};
ghost use Rattle.least_flow.specs.Solution.{row};

use crate::body::{Body, Clause, Instr, Operand};
use crate::fault::BodyFault;
use crate::opcode::Op;
use least_flow::{Flow, least_solution};
use num_core::{List, Memory};
use std::alloc::Global;

/// The offsets that control reaches from the begin of the code, in rising order; a handler is reached with its try
/// range (ECMA-335 III.1.7.2, I.12.4.2).
///
/// `BadTarget` tells the instruction that is reached and goes on past the end of the code, or 0 where there is no
/// code.
pub fn reached(alloc: Global, body: &Body) -> Result<List<u32>, BodyFault>
    requires { AreRising body.now.code }
    ensures reached { IfOk result (AreReached body.now.code body.now.clauses) }
    ensures rising { IfOk result IsStrictlyIncreasing }
    ensures inside { IfOk result (λ offsets. (offset : ℕ) → ¬ (RunsPastEnd body.now.code body.now.clauses offset)) }
    ensures refused { IfErr result (NotReached body.now.code body.now.clauses) }
{
    reached_in(alloc, body.code.as_slice(), body.clauses.as_slice())
}

/// The same of the instructions and the clauses.
fn reached_in(alloc: Global, instrs: &[Instr], clauses: &[Clause]) -> Result<List<u32>, BodyFault>
    requires { AreRising instrs.now }
    ensures reached { IfOk result (AreReached instrs.now clauses.now) }
    ensures rising { IfOk result IsStrictlyIncreasing }
    ensures inside { IfOk result (λ offsets. (offset : ℕ) → ¬ (RunsPastEnd instrs.now clauses.now offset)) }
    ensures refused { IfErr result (NotReached instrs.now clauses.now) }
{
    let Some(last) = instrs.last() else {
        return Err(BodyFault::BadTarget(0));
    };
    let end = last.next;
    let control = Control {
        instrs,
        clauses,
        end,
    };
    let table = match least_solution(alloc, &control) {
        Ok(table) => table,
        Err(_) => return Err(BodyFault::Memory),
    };
    if let Some(offset) = past_end(instrs, table.as_slice(), end) {
        return Err(BodyFault::BadTarget(offset));
    }
    match known_offsets(alloc, table.as_slice(), end) {
        Ok(offsets) => Ok(offsets),
        Err(_) => Err(BodyFault::Memory),
    }
}

/// How control goes through code: from an offset to others.
#[derive(Drop)]
struct Control<'a> {
    instrs: &'a [Instr],
    clauses: &'a [Clause],
    end: u32,
    ghost rising: { AreRising instrs.now },
}

impl<'a> Flow for Control<'a> {
    ghost use Rattle.std.specs.Prelude.{◌≡◌, ◌≤◌};
    ghost use Rattle.il_code.specs.Reach.{Leads};

    type Fact = ();

    ghost places = { λ control. control.end };

    ghost is_below = { λ a b. Unit {0} };

    ghost starts = { λ control place fact. place ≡ 0 };

    ghost passes = { λ control place known to fact. Leads control.instrs.now control.clauses.now place to };

    ghost is_within = { λ control n a. Unit {0} };

    ghost rank = { λ control a. 0 };

    ghost most = { λ control. 0 };

    fn places(&self) -> usize {
        self.end as usize
    }

    fn starts(&self, alloc: Global) -> Result<Vec<(usize, ())>, Memory> {
        Ok(vec![in alloc; (0, ())]?)
    }

    fn pass(&self, alloc: Global, place: usize, _known: &()) -> Result<Vec<(usize, ())>, Memory> {
        match position(self.instrs, place as u32) {
            Some(index) => passed_on(alloc, &self.instrs[index], self.clauses),
            None => Ok(Vec::new(alloc)),
        }
    }

    fn join(&self, _alloc: Global, _known: &mut (), _more: ()) -> Result<bool, Memory> {
        Ok(false)
    }

    ghost use Rattle.std.proofs.Common.{rules};

    ghost reflexive = { λ a. tt };

    ghost transitive = { λ a b c h h'. tt };

    ghost monotone = { λ control place a b to fact h passes. (fact, passes, tt) };

    ghost widens = { λ control m n a h h'. tt };

    ghost bounded = { Prim.search rules };
}

/// The number of the instruction at an offset.
fn position(instrs: &[Instr], offset: u32) -> Option<usize>
    requires { AreRising instrs.now }
    ensures within { IfSome result (λ n. n < length instrs.now) }
    ensures found { IfSome result (λ n. (d : Instr) → (slice_index_or instrs.now n d).at ≡ offset) }
    ensures none { IfNone result (All (λ i. ¬ (i.at ≡ offset)) instrs.now) }
{
    match instrs.binary_search_by_key(&offset, |instr| instr.at) {
        Ok(index) => Some(index),
        Err(_) => None,
    }
}

/// What control passes on from an instruction: that it comes to each offset to which it goes.
fn passed_on(alloc: Global, instr: &Instr, clauses: &[Clause]) -> Result<Vec<(usize, ())>, Memory>
    ensures { IfOk result (λ facts. facts.items ≡ map fact_of (leads_of clauses.now instr.now)) }
{
    let mut facts = Vec::new(alloc);
    add_next(&mut facts, instr)?;
    add_targets(&mut facts, &instr.operand)?;
    add_handlers(&mut facts, clauses, instr.at)?;
    Ok(facts)
}

/// Adds the instruction behind, where control goes on to it.
fn add_next(facts: &mut Vec<(usize, ())>, instr: &Instr) -> Result<(), Memory>
    ensures { OnOk result (facts.new.items ≡ facts.old.items ++ map fact_of (next_of instr.now)) }
{
    if falls_through(instr.op) {
        facts.push((instr.next as usize, ()))?;
    }
    Ok(())
}

/// Adds the targets of an operand.
fn add_targets(facts: &mut Vec<(usize, ())>, operand: &Operand) -> Result<(), Memory>
    ensures { OnOk result (facts.new.items ≡ facts.old.items ++ map fact_of (targets_in operand.now)) }
{
    match operand {
        Operand::Target(offset) => {
            facts.push((*offset as usize, ()))?;
            Ok(())
        }
        Operand::Targets(offsets) => add_all(facts, offsets.as_slice()),
        Operand::Nothing | Operand::Number(_) | Operand::Token(_) => Ok(()),
    }
}

/// Adds each of the offsets.
fn add_all(facts: &mut Vec<(usize, ())>, offsets: &[u32]) -> Result<(), Memory>
    ensures { OnOk result (facts.new.items ≡ facts.old.items ++ map fact_of offsets.now) }
{
    for offset in offsets {
        facts.push((*offset as usize, ()))?;
    }
    Ok(())
}

/// Adds the handlers of the clauses whose try range holds an offset.
fn add_handlers(facts: &mut Vec<(usize, ())>, clauses: &[Clause], offset: u32) -> Result<(), Memory>
    ensures { OnOk result (facts.new.items ≡ facts.old.items ++ map fact_of (handlers_of clauses.now offset)) }
{
    for clause in clauses {
        if tries(*clause, offset) {
            facts.push((clause.handler_at as usize, ()))?;
        }
    }
    Ok(())
}

/// Whether the try range of a clause holds an offset.
fn tries(clause: Clause, offset: u32) -> bool
    ensures { result ≡ tries_at offset clause }
{
    clause.try_at <= offset && offset < clause.try_end
}

/// Whether an opcode goes on to the instruction behind.
pub fn falls_through(op: Op) -> bool
    ensures { result ≡ falls_through_of op }
{
    !matches!(
        op,
        Op::BrS
            | Op::Br
            | Op::LeaveS
            | Op::Leave
            | Op::Ret
            | Op::Throw
            | Op::Rethrow
            | Op::Endfinally
    )
}

/// The offset of the first instruction to which control comes and from which it goes on past the end of the code.
fn past_end(instrs: &[Instr], table: &[Option<()>], end: u32) -> Option<u32>
    ensures { result ≡ option_map (λ i. i.at) (find (is_past table.now end) instrs.now) }
{
    for instr in instrs {
        if falls_through(instr.op) && end <= instr.next && is_known(table, instr.at) {
            return Some(instr.at);
        }
    }
    None
}

/// Whether control comes to an offset.
fn is_known(table: &[Option<()>], offset: u32) -> bool
    ensures { result ≡ is_some (row table.now offset) }
{
    match table.get(offset as usize) {
        Some(known) => known.is_some(),
        None => false,
    }
}

/// The offsets to which control comes, of those below the end of the code.
fn known_offsets(alloc: Global, table: &[Option<()>], end: u32) -> Result<List<u32>, Memory>
    requires { length table.now ≡ end }
    ensures { IfOk result (λ offsets. offsets ≡ known_from 0 table.now) }
{
    let mut offsets = List::new(alloc);
    for offset in 0..end {
        if table[offset as usize].is_some() {
            offsets.push(offset).map_err(|_| Memory)?;
        }
    }
    Ok(offsets)
}
