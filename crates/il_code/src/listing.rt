ghost use Rattle.std.specs.Prelude.{◌≡◌, ◌<◌, ◌≤◌, ◌^◌, ℕ, length, Ok, Err, None, IfOk, IfErr};
ghost use Rattle.il_code.specs.Listing.{listed, is_boundary as is_boundary_of, targets_in};
ghost use Rattle.il_code.specs.Listing.{first_bad_target as first_bad_target_of};
ghost use Rattle.il_code.specs.Listing.{AreRising, AreTiles, IsBadOpcode, NotListed};
ghost use Rattle.std.specs.List.{list_all};

use crate::body::{Instr, Operand};
use crate::read::instruction_at;
use num_core::List;
use std::alloc::Global;
use thiserror::Error;

/// Why code is no list of instructions.
#[derive(Clone, Copy, Debug, PartialEq, Eq, Error)]
pub enum CodeFault {
    /// No instruction stands whole at this offset.
    #[error("10 BadOpcode {0}")]
    BadOpcode(u32),
    /// The instruction at this offset has a target at which no instruction stands.
    #[error("11 BadTarget {0}")]
    BadTarget(u32),
    #[error("memory")]
    Memory,
}

/// The instructions of code, one behind another to its end, each of whose targets is one of them (ECMA-335 III.1.2,
/// III.1.7.2).
///
/// `BadOpcode` tells the first offset where no instruction stands whole, and `BadTarget` the first instruction with a
/// target at which none stands, which is looked for once all instructions were read.
pub fn instructions(alloc: Global, code: &[u8]) -> Result<List<Instr>, CodeFault>
    requires { length code.now < 2 ^ 32 }
    ensures code { IfOk result (λ instrs. listed code.now ≡ Ok instrs) }
    ensures tiles { IfOk result (AreTiles code.now (length code.now)) }
    ensures targets { IfOk result (λ instrs. first_bad_target_of instrs ≡ None) }
    ensures rising { IfOk result AreRising }
    // An instruction has one byte at least.
    ensures few { IfOk result (λ instrs. length instrs ≤ length code.now) }
    ensures refused { IfErr result (NotListed code.now) }
    ensures bad_opcode { (offset : ℕ) → result ≡ Err (CodeFault.BadOpcode offset) → IsBadOpcode code.now offset }
{
    let instrs = match list(alloc, code) {
        Ok(instrs) => instrs,
        Err(fault) => return Err(fault),
    };
    match first_bad_target(instrs.as_slice()) {
        Some(offset) => Err(CodeFault::BadTarget(offset)),
        None => Ok(instrs),
    }
}

/// The instructions, one behind another.
fn list(alloc: Global, code: &[u8]) -> Result<List<Instr>, CodeFault>
    requires { length code.now < 2 ^ 32 }
    ensures code { IfOk result (λ instrs. listed code.now ≡ Ok instrs) }
    ensures rising { IfOk result AreRising }
    ensures few { IfOk result (λ instrs. length instrs ≤ length code.now) }
    ensures refused { IfErr result (NotListed code.now) }
{
    let mut instrs = List::new(alloc);
    let mut at = 0;
    while instrs.len() < code.len() {
        if at as usize == code.len() {
            return Ok(instrs);
        }
        match instruction_at(alloc, code, at) {
            Ok(Some(instr)) => {
                at = instr.next;
                instrs.push(instr).map_err(|_| CodeFault::Memory)?;
            }
            Ok(None) => return Err(CodeFault::BadOpcode(at)),
            Err(_) => return Err(CodeFault::Memory),
        }
    }
    if at as usize == code.len() {
        Ok(instrs)
    } else {
        Err(CodeFault::BadOpcode(at))
    }
}

/// The offset of the first instruction with a target at which none of them stands.
fn first_bad_target(instrs: &[Instr]) -> Option<u32>
    requires { AreRising instrs.now }
    ensures { result ≡ first_bad_target_of instrs.now }
{
    for instr in instrs {
        if !targets_are_boundaries(instrs, &instr.operand) {
            return Some(instr.at);
        }
    }
    None
}

/// Whether one of the instructions, whose offsets rise, stands at each target of an operand.
pub fn targets_are_boundaries(instrs: &[Instr], operand: &Operand) -> bool
    requires { AreRising instrs.now }
    ensures { result ≡ list_all (is_boundary_of instrs.now) (targets_in operand.now) }
{
    match operand {
        Operand::Target(offset) => is_boundary(instrs, *offset),
        Operand::Targets(offsets) => are_boundaries(instrs, offsets.as_slice()),
        Operand::Nothing | Operand::Number(_) | Operand::Token(_) => true,
    }
}

/// Whether an instruction stands at each of the offsets.
fn are_boundaries(instrs: &[Instr], offsets: &[u32]) -> bool
    requires { AreRising instrs.now }
    ensures { result ≡ list_all (is_boundary_of instrs.now) offsets.now }
{
    for offset in offsets {
        if !is_boundary(instrs, *offset) {
            return false;
        }
    }
    true
}

/// Whether one of the instructions, whose offsets rise, stands at the offset.
pub fn is_boundary(instrs: &[Instr], offset: u32) -> bool
    requires { AreRising instrs.now }
    ensures { result ≡ is_boundary_of instrs.now offset }
{
    instrs
        .binary_search_by_key(&offset, |instr| instr.at)
        .is_ok()
}
