ghost use Rattle.std.specs.Prelude.{◌≡◌, ◌+◌, ◌-◌, ◌*◌, ◌<◌, ◌≤◌, ◌^◌, ◌∷◌, pos, negsuc, ◌≤ℤ◌, length, slice_index};
ghost use Rattle.std.specs.Prelude.{drop, Ok, Err, IfOk, IfSome, MatchResult};
ghost use Rattle.std.specs.Int.{cast_signed, w8};
ghost use Rattle.byteorder.specs.Endian.{little_number, twos_complement};
ghost use Rattle.il_code.specs.Instructions.{operand_of, fixed_size as fixed_size_of};
ghost use Rattle.il_code.specs.Instructions.{fixed_operand as fixed_operand_of};
ghost use Rattle.il_code.specs.Instructions.{target_of, targets_of, opcode_number as opcode_number_of};
ghost use Rattle.il_code.specs.Instructions.{instruction_at as instruction_in};
ghost use Rattle.il_code.specs.declared.opcode.OperandForm.TheVariants.{Targets as TargetsForm};
ghost use Rattle.il_code.specs.Tiny.{tiny_body, at_offset};

use crate::body::{Instr, Operand};
use crate::opcode::{OperandForm, opcode};
use byteorder::{ByteOrder, LittleEndian};
use num_core::{List, Memory};
use std::alloc::Global;
use thiserror::Error;

/// The first byte of the opcodes of two bytes.
const PREFIX: u8 = 0xFE;

/// Why bytes are no tiny header and its code.
#[derive(Clone, Copy, Debug, PartialEq, Eq, Error)]
pub enum HeaderFault {
    /// The header is wrong, or bytes are missing or left over, first at this offset.
    #[error("9 BadHeader {0}")]
    BadHeader(u32),
}

/// The code of a body that is exactly one tiny header and its code (ECMA-335 II.25.4.2).
///
/// The offset of `BadHeader` is the first at which a byte is wrong, missing or left over.
pub fn tiny_code(bytes: &[u8]) -> Result<&[u8], HeaderFault>
    requires { length bytes.now < 2 ^ 32 }
    ensures code { MatchResult result
        (λ code. tiny_body bytes.now ≡ Ok code.now)
        (λ fault. at_offset fault (tiny_body bytes.now)) }
    // A tiny header has six bits for the size.
    ensures tiny { IfOk result (λ code. length code.now < 64) }
    ensures spelled { IfOk result (λ code. bytes.now ≡ (4 * length code.now + 2) ∷ code.now) }
{
    let Some((header, code)) = bytes.split_first() else {
        return Err(HeaderFault::BadHeader(0));
    };
    if header % 4 != 2 {
        return Err(HeaderFault::BadHeader(0));
    }
    let size = (header / 4) as usize;
    if code.len() == size {
        Ok(code)
    } else {
        Err(HeaderFault::BadHeader(code.len().min(size) as u32 + 1))
    }
}

/// The instruction that stands whole at an offset of the code, if one does (ECMA-335 III.1.2).
pub fn instruction_at(alloc: Global, code: &[u8], at: u32) -> Result<Option<Instr>, Memory>
    requires { length code.now < 2 ^ 32 }
    ensures { IfOk result (λ found. found ≡ instruction_in code.now at) }
{
    let Some(bytes) = code.get(at as usize..) else {
        return Ok(None);
    };
    let Some((number, size)) = opcode_number(bytes) else {
        return Ok(None);
    };
    let Some((op, form)) = opcode(number) else {
        return Ok(None);
    };
    let behind = at + size;
    match operand(alloc, form, behind, &bytes[size as usize..])? {
        Some((operand, length)) => Ok(Some(Instr {
            at,
            next: behind + length,
            op,
            operand,
        })),
        None => Ok(None),
    }
}

/// The number of the opcode at the front of the bytes, and how many of them it takes.
fn opcode_number(bytes: &[u8]) -> Option<(u16, u32)>
    ensures number { result ≡ opcode_number_of bytes.now }
    ensures within { IfSome result (λ number. number.1 ≤ length bytes.now) }
{
    let (first, rest) = bytes.split_first()?;
    if *first != PREFIX {
        return Some((*first as u16, 1));
    }
    let second = rest.first()?;
    Some((0xFE00 + *second as u16, 2))
}

/// The operand at the front of the bytes, which stand at the offset `at`, and how many of them it takes.
fn operand(
    alloc: Global,
    form: OperandForm,
    at: u32,
    bytes: &[u8],
) -> Result<Option<(Operand, u32)>, Memory>
    requires { at + length bytes.now < 2 ^ 32 }
    ensures value { IfOk result (λ found. found ≡ operand_of form at bytes.now) }
    ensures within { IfOk result (λ found. IfSome found (λ operand. operand.1 ≤ length bytes.now)) }
{
    match form {
        OperandForm::Targets => targets_operand(alloc, at, bytes),
        OperandForm::Absent
        | OperandForm::Unsigned8
        | OperandForm::Unsigned16
        | OperandForm::Signed8
        | OperandForm::Signed32
        | OperandForm::Signed64
        | OperandForm::Token
        | OperandForm::Target8
        | OperandForm::Target32 => {
            let size = fixed_size(form);
            if bytes.len() < size as usize {
                return Ok(None);
            }
            Ok(Some((fixed_operand(form, at, bytes), size)))
        }
    }
}

/// How many bytes an operand of a form takes, but for targets.
fn fixed_size(form: OperandForm) -> u32
    ensures { result ≡ fixed_size_of form }
{
    match form {
        OperandForm::Absent => 0,
        OperandForm::Unsigned8 | OperandForm::Signed8 | OperandForm::Target8 => 1,
        OperandForm::Unsigned16 => 2,
        OperandForm::Signed32 | OperandForm::Token | OperandForm::Target32 | OperandForm::Targets =>
            4,
        OperandForm::Signed64 => 8,
    }
}

/// The operand of a form that these bytes spell, which stand at the offset `at`.
fn fixed_operand(form: OperandForm, at: u32, bytes: &[u8]) -> Operand
    requires whole { fixed_size_of form ≤ length bytes.now }
    requires fits { at + length bytes.now < 2 ^ 32 }
    ensures { result ≡ fixed_operand_of form at bytes.now }
{
    match form {
        OperandForm::Absent | OperandForm::Targets => Operand::Nothing,
        OperandForm::Unsigned8 => Operand::Number(bytes[0] as i64),
        OperandForm::Unsigned16 => Operand::Number(LittleEndian::read_u16(bytes) as i64),
        OperandForm::Signed8 => Operand::Number(bytes[0].cast_signed() as i64),
        OperandForm::Signed32 => Operand::Number(LittleEndian::read_i32(bytes) as i64),
        OperandForm::Signed64 => Operand::Number(LittleEndian::read_i64(bytes)),
        OperandForm::Token => Operand::Token(LittleEndian::read_u32(bytes)),
        OperandForm::Target8 => Operand::Target(short_target(at + 1, bytes)),
        OperandForm::Target32 => Operand::Target(long_target(at + 4, bytes)),
    }
}

/// The offset at a distance of one byte from that of the next instruction.
fn short_target(next: u32, bytes: &[u8]) -> u32
    requires { 1 ≤ length bytes.now }
    ensures { result ≡ target_of next (cast_signed w8 (slice_index bytes.now 0)) }
{
    target(next, bytes[0].cast_signed() as i64)
}

/// The offset at a distance of four bytes from that of the next instruction.
fn long_target(next: u32, bytes: &[u8]) -> u32
    requires { 4 ≤ length bytes.now }
    ensures { result ≡ target_of next (twos_complement 4 (little_number 4 bytes.now)) }
{
    target(next, LittleEndian::read_i32(bytes) as i64)
}

/// The offset at a distance from that of the next instruction. What lies before the code or past all offsets comes out
/// as the highest number, where no instruction stands.
fn target(next: u32, distance: i64) -> u32
    requires near { negsuc (2 ^ 31 - 1) ≤ℤ distance }
    requires far { distance ≤ℤ pos (2 ^ 31 - 1) }
    ensures { result ≡ target_of next distance }
{
    let offset = next as i64 + distance;
    if offset < 0 || offset > u32::MAX as i64 {
        u32::MAX
    } else {
        offset as u32
    }
}

/// The targets at the front of the bytes, with their number before them.
fn targets_operand(alloc: Global, at: u32, bytes: &[u8]) -> Result<Option<(Operand, u32)>, Memory>
    requires { at + length bytes.now < 2 ^ 32 }
    ensures value { IfOk result (λ found. found ≡ operand_of TargetsForm at bytes.now) }
    ensures within { IfOk result (λ found. IfSome found (λ operand. operand.1 ≤ length bytes.now)) }
{
    if bytes.len() < 4 {
        return Ok(None);
    }
    let count = LittleEndian::read_u32(bytes);
    let size = 4 + 4 * count as u64;
    if (bytes.len() as u64) < size {
        return Ok(None);
    }
    let targets = targets(alloc, at + size as u32, &bytes[4..], count as usize)?;
    Ok(Some((Operand::Targets(targets), size as u32)))
}

/// So many targets, each a distance of four bytes.
fn targets(alloc: Global, next: u32, bytes: &[u8], count: usize) -> Result<List<u32>, Memory>
    requires { 4 * count ≤ length bytes.now }
    ensures { IfOk result (λ targets. targets ≡ targets_of next count bytes.now) }
{
    let mut targets = List::new(alloc);
    for index in 0..count {
        let target = target_in(next, bytes, index);
        targets.push(target).map_err(|_| Memory)?;
    }
    Ok(targets)
}

/// The target of a number among distances of four bytes each.
fn target_in(next: u32, bytes: &[u8], index: usize) -> u32
    requires { 4 * (index + 1) ≤ length bytes.now }
    ensures { result ≡ target_of next (twos_complement 4 (little_number 4 (drop (4 * index) bytes.now))) }
{
    long_target(next, &bytes[4 * index..])
}
