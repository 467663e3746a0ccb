ghost use Rattle.std.specs.Prelude.{◌≡◌, ◌^◌, ◌<◌, ◌&&◌, int_le, pos, negsuc, ◌-ℤ◌, IfOk};
ghost use Rattle.byteorder.specs.Endian.{little_bytes};
ghost use Rattle.il_code.specs.declared.opcode.OperandForm.TheVariants.{Unsigned8 as Unsigned8Form};
ghost use Rattle.il_code.specs.declared.opcode.OperandForm.TheVariants.{Unsigned16 as Unsigned16Form};
ghost use Rattle.il_code.specs.declared.opcode.OperandForm.TheVariants.{Signed8 as Signed8Form, Token as TokenForm};
ghost use Rattle.il_code.specs.declared.opcode.OperandForm.TheVariants.{Signed32 as Signed32Form};
ghost use Rattle.il_code.specs.declared.opcode.OperandForm.TheVariants.{Signed64 as Signed64Form};
ghost use Rattle.il_code.specs.declared.opcode.OperandForm.TheVariants.{Targets as TargetsForm};
ghost use Rattle.il_text.specs.Lines.{parts_of};
ghost use Rattle.il_text.specs.Reading.{Reads, read, in_front, signed_bytes, distance_to, operand_bytes};
ghost use Rattle.il_text.specs.Reading.{distances_from, operand_of as operand_of_in};

use crate::fault::IlTextFault;
use crate::line::Line;
use crate::reading::{bad, ends, number};
use crate::values::{number_below, token, whole_below};
use byteorder::{ByteOrder, LittleEndian};
use il_code::OperandForm;
use num_core::{Bytes, List, Memory};
use std::alloc::Global;

/// A byte, alone.
fn one_byte(alloc: Global, byte: u8) -> Result<Bytes, Memory>
    ensures { IfOk result (λ bytes. bytes ≡ little_bytes 1 byte) }
{
    List::from_slice(alloc, &[byte])
}

/// A number in two bytes, the lowest first.
fn two_bytes(alloc: Global, number: u16) -> Result<Bytes, Memory>
    ensures { IfOk result (λ bytes. bytes ≡ little_bytes 2 number) }
{
    let mut bytes = [0u8; 2];
    LittleEndian::write_u16(&mut bytes, number);
    List::from_slice(alloc, &bytes)
}

/// A number in four bytes, the lowest first.
fn four_bytes(alloc: Global, number: u32) -> Result<Bytes, Memory>
    ensures { IfOk result (λ bytes. bytes ≡ little_bytes 4 number) }
{
    let mut bytes = [0u8; 4];
    LittleEndian::write_u32(&mut bytes, number);
    List::from_slice(alloc, &bytes)
}

/// A number in eight bytes, the lowest first.
fn eight_bytes(alloc: Global, number: u64) -> Result<Bytes, Memory>
    ensures { IfOk result (λ bytes. bytes ≡ little_bytes 8 number) }
{
    let mut bytes = [0u8; 8];
    LittleEndian::write_u64(&mut bytes, number);
    List::from_slice(alloc, &bytes)
}

/// A number with its sign in one byte.
fn signed_one(alloc: Global, number: i8) -> Result<Bytes, Memory>
    ensures { IfOk result (λ bytes. bytes ≡ signed_bytes 1 number) }
{
    one_byte(alloc, number.cast_unsigned())
}

/// A number with its sign in four bytes.
fn signed_four(alloc: Global, number: i32) -> Result<Bytes, Memory>
    ensures { IfOk result (λ bytes. bytes ≡ signed_bytes 4 number) }
{
    four_bytes(alloc, number.cast_unsigned())
}

/// A number with its sign in eight bytes.
fn signed_eight(alloc: Global, number: i64) -> Result<Bytes, Memory>
    ensures { IfOk result (λ bytes. bytes ≡ signed_bytes 8 number) }
{
    eight_bytes(alloc, number.cast_unsigned())
}

/// The byte of a number without a sign.
fn unsigned8(alloc: Global, word: &[u8]) -> Result<Option<Bytes>, Memory>
    ensures { IfOk result (λ bytes. bytes ≡ operand_bytes Unsigned8Form 0 word.now) }
{
    match number_below(0x100, word) {
        Some(number) => match one_byte(alloc, number as u8) {
            Ok(bytes) => Ok(Some(bytes)),
            Err(memory) => Err(memory),
        },
        None => Ok(None),
    }
}

/// The two bytes of a number without a sign.
fn unsigned16(alloc: Global, word: &[u8]) -> Result<Option<Bytes>, Memory>
    ensures { IfOk result (λ bytes. bytes ≡ operand_bytes Unsigned16Form 0 word.now) }
{
    match number_below(0x1_0000, word) {
        Some(number) => match two_bytes(alloc, number as u16) {
            Ok(bytes) => Ok(Some(bytes)),
            Err(memory) => Err(memory),
        },
        None => Ok(None),
    }
}

/// The byte of a number with a sign.
fn signed8(alloc: Global, word: &[u8]) -> Result<Option<Bytes>, Memory>
    ensures { IfOk result (λ bytes. bytes ≡ operand_bytes Signed8Form 0 word.now) }
{
    match whole_below(0x80, word) {
        Some(number) => match signed_one(alloc, number as i8) {
            Ok(bytes) => Ok(Some(bytes)),
            Err(memory) => Err(memory),
        },
        None => Ok(None),
    }
}

/// The four bytes of a number with a sign.
fn signed32(alloc: Global, word: &[u8]) -> Result<Option<Bytes>, Memory>
    ensures { IfOk result (λ bytes. bytes ≡ operand_bytes Signed32Form 0 word.now) }
{
    match whole_below(0x8000_0000, word) {
        Some(number) => match signed_four(alloc, number as i32) {
            Ok(bytes) => Ok(Some(bytes)),
            Err(memory) => Err(memory),
        },
        None => Ok(None),
    }
}

/// The eight bytes of a number with a sign.
fn signed64(alloc: Global, word: &[u8]) -> Result<Option<Bytes>, Memory>
    ensures { IfOk result (λ bytes. bytes ≡ operand_bytes Signed64Form 0 word.now) }
{
    match whole_below(1 << 63, word) {
        Some(number) => match signed_eight(alloc, number) {
            Ok(bytes) => Ok(Some(bytes)),
            Err(memory) => Err(memory),
        },
        None => Ok(None),
    }
}

/// The four bytes of a token.
fn token_bytes(alloc: Global, word: &[u8]) -> Result<Option<Bytes>, Memory>
    ensures { IfOk result (λ bytes. bytes ≡ operand_bytes TokenForm 0 word.now) }
{
    match token(word) {
        Some(token) => match four_bytes(alloc, token) {
            Ok(bytes) => Ok(Some(bytes)),
            Err(memory) => Err(memory),
        },
        None => Ok(None),
    }
}

/// How far an offset is from the next instruction.
fn distance(offset: i64, next: u128) -> i128
    requires { next < 2 ^ 100 }
    ensures { result ≡ offset -ℤ pos next }
{
    offset as i128 - next as i128
}

/// Whether a distance has a place in one byte.
fn is_short(distance: i128) -> bool
    ensures { result ≡ (int_le (negsuc 0x7F) distance && int_le distance (pos 0x7F)) }
{
    -0x80 <= distance && distance <= 0x7F
}

/// Whether a distance has a place in four bytes.
fn is_long(distance: i128) -> bool
    ensures { result ≡ (int_le (negsuc 0x7FFF_FFFF) distance && int_le distance (pos 0x7FFF_FFFF)) }
{
    -0x8000_0000 <= distance && distance <= 0x7FFF_FFFF
}

/// The byte of the distance of a target from the next instruction.
fn short_target(alloc: Global, next: u128, word: &[u8]) -> Result<Option<Bytes>, Memory>
    requires { next < 2 ^ 100 }
    ensures { IfOk result (λ bytes. bytes ≡ distance_to 1 next word.now) }
{
    let Some(offset) = whole_below(1 << 63, word) else {
        return Ok(None);
    };
    let distance = distance(offset, next);
    if !is_short(distance) {
        return Ok(None);
    }
    match signed_one(alloc, distance as i8) {
        Ok(bytes) => Ok(Some(bytes)),
        Err(memory) => Err(memory),
    }
}

/// The four bytes of the distance of a target from the next instruction.
fn long_target(alloc: Global, next: u128, word: &[u8]) -> Result<Option<Bytes>, Memory>
    requires { next < 2 ^ 100 }
    ensures { IfOk result (λ bytes. bytes ≡ distance_to 4 next word.now) }
{
    let Some(offset) = whole_below(1 << 63, word) else {
        return Ok(None);
    };
    let distance = distance(offset, next);
    if !is_long(distance) {
        return Ok(None);
    }
    match signed_four(alloc, distance as i32) {
        Ok(bytes) => Ok(Some(bytes)),
        Err(memory) => Err(memory),
    }
}

/// The bytes of an operand that is one word, behind an offset.
fn operand(alloc: Global, form: OperandForm, at: u128, word: &[u8]) -> Result<Option<Bytes>, Memory>
    requires { at < 2 ^ 90 }
    ensures { IfOk result (λ bytes. bytes ≡ operand_bytes form at word.now) }
{
    match form {
        OperandForm::Unsigned8 => unsigned8(alloc, word),
        OperandForm::Unsigned16 => unsigned16(alloc, word),
        OperandForm::Signed8 => signed8(alloc, word),
        OperandForm::Signed32 => signed32(alloc, word),
        OperandForm::Signed64 => signed64(alloc, word),
        OperandForm::Token => token_bytes(alloc, word),
        OperandForm::Target8 => short_target(alloc, at + 1, word),
        OperandForm::Target32 => long_target(alloc, at + 4, word),
        OperandForm::Absent | OperandForm::Targets => Ok(None),
    }
}

/// The bytes of the operand that word 1 is.
fn operand_at(
    alloc: Global,
    form: OperandForm,
    at: u128,
    line: &Line<'_>,
) -> Result<Bytes, IlTextFault>
    requires { at < 2 ^ 90 }
    ensures { Reads result (read (operand_bytes form at) (parts_of line.now) 1) }
{
    let Some(word) = line.word(1) else {
        return Err(bad(line, 1));
    };
    match operand(alloc, form, at, word) {
        Ok(Some(bytes)) => Ok(bytes),
        Ok(None) => Err(bad(line, 1)),
        Err(_) => Err(IlTextFault::Memory),
    }
}

/// The bytes of the distance of the target that a word is.
fn target_at(alloc: Global, line: &Line<'_>, next: u128, index: usize) -> Result<Bytes, IlTextFault>
    requires { next < 2 ^ 100 }
    ensures { Reads result (read (distance_to 4 next) (parts_of line.now) index) }
{
    let Some(word) = line.word(index) else {
        return Err(bad(line, index));
    };
    match long_target(alloc, next, word) {
        Ok(Some(bytes)) => Ok(bytes),
        Ok(None) => Err(bad(line, index)),
        Err(_) => Err(IlTextFault::Memory),
    }
}

/// Bytes, and behind them the distances of so many targets, from word 2 on.
fn with_targets(
    alloc: Global,
    line: &Line<'_>,
    next: u128,
    count: u32,
    front: Bytes,
) -> Result<Bytes, IlTextFault>
    requires { next < 2 ^ 100 }
    ensures { Reads result (in_front front (distances_from (parts_of line.now) next count 2)) }
{
    let mut bytes = front;
    for index in 0..count {
        match target_at(alloc, line, next, index as usize + 2) {
            Ok(target) => match bytes.extend_from_slice(target.as_slice()) {
                Ok(()) => {}
                Err(_) => return Err(IlTextFault::Memory),
            },
            Err(fault) => return Err(fault),
        }
    }
    Ok(bytes)
}

/// The bytes of how many targets there are, and of their distances.
fn targets(alloc: Global, at: u128, line: &Line<'_>) -> Result<Bytes, IlTextFault>
    requires { at < 2 ^ 90 }
    ensures { Reads result (operand_of_in TargetsForm (parts_of line.now) at) }
{
    let count = number(line, 1, 1 << 32)?;
    match four_bytes(alloc, count as u32) {
        Ok(front) => {
            let next = at + (4 + 4 * count as u128);
            let bytes = with_targets(alloc, line, next, count as u32, front)?;
            ends(line, 2 + count as usize)?;
            Ok(bytes)
        }
        Err(_) => Err(IlTextFault::Memory),
    }
}

/// The bytes of the operand of an instruction, which begin at an offset.
pub(crate) fn operand_of(
    alloc: Global,
    form: OperandForm,
    line: &Line<'_>,
    at: u128,
) -> Result<Bytes, IlTextFault>
    requires { at < 2 ^ 90 }
    ensures { Reads result (operand_of_in form (parts_of line.now) at) }
{
    match form {
        OperandForm::Absent => {
            ends(line, 1)?;
            Ok(List::new(alloc))
        }
        OperandForm::Targets => targets(alloc, at, line),
        OperandForm::Unsigned8
        | OperandForm::Unsigned16
        | OperandForm::Signed8
        | OperandForm::Signed32
        | OperandForm::Signed64
        | OperandForm::Token
        | OperandForm::Target8
        | OperandForm::Target32 => {
            let bytes = operand_at(alloc, form, at, line)?;
            ends(line, 2)?;
            Ok(bytes)
        }
    }
}
