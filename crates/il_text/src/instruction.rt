ghost use Rattle.std.specs.Prelude.{◌≡◌, ◌+◌, ◌*◌, ◌^◌, ◌<◌, ◌≤◌, ◌++◌, ◌∷◌, [], length, drop, true};
ghost use Rattle.std.specs.Prelude.{OnOk, IfSome, Some, decimal};
ghost use Rattle.std.specs.Fmt.{signed_decimal};
ghost use Rattle.std.specs.List.{flat_map};
ghost use Rattle.il_code.specs.Instructions.{opcode_number as opcode_number_of};
ghost use Rattle.il_code.specs.declared.opcode.OperandForm.TheVariants.{Targets as TargetsForm};
ghost use Rattle.il_text.specs.Words.{line_text, spaced, token_word};
ghost use Rattle.il_text.specs.Instructions.{instruction_words, operand_words, target_word, target_words};
ghost use Rattle.il_text.specs.Instructions.{unnamed_words};
ghost use Rattle.il_text.specs.Instructions.{words_of_row, has_size as has_size_of, long_number};
ghost use Rattle.il_text.specs.Mnemonics.{row_of};

use crate::mnemonic::{Mnemonic, row_of_opcode};
use crate::words::{push, push_bytes, push_number, push_signed, push_token};
use byteorder::{ByteOrder, LittleEndian};
use il_code::OperandForm;
use num_core::{Bytes, Memory};
use std::alloc::Global;

/// The first byte of the opcodes of two bytes.
const PREFIX: u8 = 0xFE;

/// The number of the opcode at the front of the bytes, and how many of them it takes.
pub(crate) fn opcode_number(bytes: &[u8]) -> Option<(u16, usize)>
    ensures number { result ≡ opcode_number_of bytes.now }
    ensures within { IfSome result (λ number. number.1 ≤ length bytes.now) }
{
    let (first, rest) = bytes.split_first()?;
    if *first != PREFIX {
        return Some((*first as u16, 1));
    }
    let second = rest.first()?;
    Some((0xFE00 + *second as u16, 2))
}

/// Appends the line of the instruction that stands at an offset and has these bytes.
pub(crate) fn push_instruction(
    alloc: Global,
    out: &mut Bytes,
    at: u32,
    bytes: &[u8],
) -> Result<(), Memory>
    requires { at + length bytes.now < 2 ^ 32 }
    ensures { OnOk result (out.new ≡ out.old ++ line_text (instruction_words at bytes.now)) }
{
    match opcode_number(bytes) {
        Some((number, size)) => match row_of_opcode(number) {
            Some(row) => push_named(alloc, out, at, bytes, size, row),
            None => push_unnamed(alloc, out, bytes),
        },
        None => push_unnamed(alloc, out, bytes),
    }
}

/// Appends the line of an instruction that has no name.
fn push_unnamed(alloc: Global, out: &mut Bytes, bytes: &[u8]) -> Result<(), Memory>
    ensures { OnOk result (out.new ≡ out.old ++ line_text (unnamed_words bytes.now)) }
{
    out.extend_from_slice(b".op ")?;
    push_bytes(alloc, out, bytes)?;
    push(out, b'\n')?;
    Ok(())
}

/// Appends the line of an instruction that has a name and ends at an offset, if its operand has so many bytes.
fn push_named(
    alloc: Global,
    out: &mut Bytes,
    at: u32,
    bytes: &[u8],
    size: usize,
    row: &Mnemonic,
) -> Result<(), Memory>
    requires within { size ≤ length bytes.now }
    requires small { at + length bytes.now < 2 ^ 32 }
    ensures { OnOk result (out.new ≡ out.old ++ line_text (words_of_row at bytes.now size (Some (row_of row.now)))) }
{
    let operand = &bytes[size..];
    if !has_size(row.2, operand) {
        return push_unnamed(alloc, out, bytes);
    }
    out.extend_from_slice(row.1)?;
    push_operand(alloc, out, row.2, at + bytes.len() as u32, operand)?;
    push(out, b'\n')?;
    Ok(())
}

/// Whether an operand of a form has exactly so many bytes.
fn has_size(form: OperandForm, bytes: &[u8]) -> bool
    ensures { result ≡ has_size_of form bytes.now }
{
    match form {
        OperandForm::Absent => bytes.is_empty(),
        OperandForm::Unsigned8 | OperandForm::Signed8 | OperandForm::Target8 => bytes.len() == 1,
        OperandForm::Unsigned16 => bytes.len() == 2,
        OperandForm::Signed32 | OperandForm::Token | OperandForm::Target32 => bytes.len() == 4,
        OperandForm::Signed64 => bytes.len() == 8,
        OperandForm::Targets => bytes.len() >= 4
            && bytes.len() as u64 == 4 + 4 * LittleEndian::read_u32(bytes) as u64,
    }
}

/// Appends the words of an operand, each behind a space.
fn push_operand(
    alloc: Global,
    out: &mut Bytes,
    form: OperandForm,
    next: u32,
    bytes: &[u8],
) -> Result<(), Memory>
    requires { has_size_of form bytes.now ≡ true }
    ensures { OnOk result (out.new ≡ out.old ++ flat_map spaced (operand_words form next bytes.now)) }
{
    match form {
        OperandForm::Absent => Ok(()),
        OperandForm::Unsigned8 => push_spaced_number(out, bytes[0] as u32),
        OperandForm::Unsigned16 => push_spaced_number(out, LittleEndian::read_u16(bytes) as u32),
        OperandForm::Signed8 => push_spaced_signed(out, bytes[0].cast_signed() as i64),
        OperandForm::Signed32 => push_spaced_signed(out, LittleEndian::read_i32(bytes) as i64),
        OperandForm::Signed64 => push_spaced_signed(out, LittleEndian::read_i64(bytes)),
        OperandForm::Token => push_spaced_token(alloc, out, LittleEndian::read_u32(bytes)),
        OperandForm::Target8 => push_target(out, next, bytes[0].cast_signed() as i32),
        OperandForm::Target32 => push_target(out, next, LittleEndian::read_i32(bytes)),
        OperandForm::Targets => push_targets(out, next, bytes),
    }
}

/// Appends a number behind a space.
fn push_spaced_number(out: &mut Bytes, number: u32) -> Result<(), Memory>
    ensures { OnOk result (out.new ≡ out.old ++ flat_map spaced (decimal number ∷ [])) }
{
    push(out, b' ')?;
    push_number(out, number)?;
    Ok(())
}

/// Appends a number that may be negative behind a space.
fn push_spaced_signed(out: &mut Bytes, number: i64) -> Result<(), Memory>
    ensures { OnOk result (out.new ≡ out.old ++ flat_map spaced (signed_decimal number ∷ [])) }
{
    push(out, b' ')?;
    push_signed(out, number)?;
    Ok(())
}

/// Appends a token behind a space.
fn push_spaced_token(alloc: Global, out: &mut Bytes, token: u32) -> Result<(), Memory>
    ensures { OnOk result (out.new ≡ out.old ++ flat_map spaced (token_word token ∷ [])) }
{
    push(out, b' ')?;
    push_token(alloc, out, token)?;
    Ok(())
}

/// Appends the offset at a distance from another behind a space.
fn push_target(out: &mut Bytes, next: u32, distance: i32) -> Result<(), Memory>
    ensures { OnOk result (out.new ≡ out.old ++ flat_map spaced (target_word next distance ∷ [])) }
{
    push_spaced_signed(out, next as i64 + distance as i64)
}

/// Appends how many targets there are, and each of them.
fn push_targets(out: &mut Bytes, next: u32, bytes: &[u8]) -> Result<(), Memory>
    requires { has_size_of TargetsForm bytes.now ≡ true }
    ensures { OnOk result (out.new ≡ out.old ++ flat_map spaced (operand_words TargetsForm next bytes.now)) }
{
    let count = LittleEndian::read_u32(bytes);
    push_spaced_number(out, count)?;
    push_distances(out, next, &bytes[4..], count as usize)?;
    Ok(())
}

/// Appends so many targets, whose distances have four bytes each.
fn push_distances(out: &mut Bytes, next: u32, bytes: &[u8], count: usize) -> Result<(), Memory>
    requires { 4 * count ≤ length bytes.now }
    ensures { OnOk result (out.new ≡ out.old ++ flat_map spaced (target_words next count bytes.now)) }
{
    for index in 0..count {
        push_target(out, next, distance_in(bytes, index))?;
    }
    Ok(())
}

/// The distance of a number among those of four bytes each.
fn distance_in(bytes: &[u8], index: usize) -> i32
    requires { 4 * (index + 1) ≤ length bytes.now }
    ensures { result ≡ long_number (drop (4 * index) bytes.now) }
{
    LittleEndian::read_i32(&bytes[4 * index..])
}
