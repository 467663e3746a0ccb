ghost use Rattle.std.specs.Prelude.{◌≡◌, ◌≤◌, ◌++◌, length, IfOk, MatchResult, Ok};
ghost use Rattle.std.specs.Option.{option_and_then};
ghost use Rattle.il_code.specs.Headers.{header_of};
ghost use Rattle.il_code.specs.Instructions.{instruction_at as instruction_in, opcode_number as opcode_number_of};
ghost use Rattle.il_text.specs.Lines.{parts_of};
ghost use Rattle.il_text.specs.Mnemonics.{row_of};
ghost use Rattle.il_text.specs.Values.{bytes_in};
ghost use Rattle.il_text.specs.Reading.{Reads, Refuses, read, has_name as has_name_of, ends_at as ends_at_of};
ghost use Rattle.il_text.specs.Reading.{unnamed, row_named, fits as fits_of, opcode_bytes as opcode_bytes_of};
ghost use Rattle.il_text.specs.Reading.{named_bytes as named_bytes_of, instruction_bytes as instruction_bytes_of};
ghost use Rattle.il_text.specs.Reading.{is_body as is_body_of, with_header as with_header_of};
ghost use Rattle.il_text.specs.Reading.{with_instruction as with_instruction_of, with_code as with_code_of};
ghost use Rattle.il_text.specs.Reading.{with_end as with_end_of, in_body as in_body_of};
ghost use Rattle.il_text.specs.Reading.{closed_body as closed_body_of, body_of_row as body_of_row_of};

use crate::body::sizes;
use crate::draft::{Draft, DraftRow, OpenBody};
use crate::fault::IlTextFault;
use crate::instruction::opcode_number;
use crate::line::Line;
use crate::mnemonic::{Mnemonic, row_of_name, row_of_opcode};
use crate::operand::operand_of;
use crate::reading::{bad, bytes_behind, ends, is_word};
use crate::values::bytes;
use il_code::{body_length, instruction_at};
use num_core::{Bytes, List, Memory};
use std::alloc::Global;

// ---- instructions

/// Whether an instruction of these bytes has a name.
fn has_name(bytes: &[u8]) -> bool
    ensures { result ≡ has_name_of (opcode_number_of bytes.now) }
{
    match opcode_number(bytes) {
        Some(number) => row_of_opcode(number.0).is_some(),
        None => false,
    }
}

/// Whether one instruction stands in these bytes, from their begin to their end.
fn is_instruction(alloc: Global, bytes: &[u8]) -> Result<bool, Memory>
    ensures { IfOk result (λ is. is ≡ ends_at_of (length bytes.now) (instruction_in bytes.now 0)) }
{
    if bytes.len() > u32::MAX as usize {
        return Err(Memory);
    }
    match instruction_at(alloc, bytes, 0) {
        Ok(Some(instr)) => Ok(instr.next as usize == bytes.len()),
        Ok(None) => Ok(false),
        Err(memory) => Err(memory),
    }
}

/// The bytes of an instruction without a name, that a word is.
fn unnamed_at(alloc: Global, line: &Line<'_>) -> Result<Bytes, IlTextFault>
    ensures { Reads result (read (λ word. option_and_then unnamed (bytes_in word)) (parts_of line.now) 1) }
{
    let Some(word) = line.word(1) else {
        return Err(bad(line, 1));
    };
    match bytes(alloc, word) {
        Ok(Some(bytes)) => match is_instruction(alloc, bytes.as_slice()) {
            Ok(is_whole) => {
                if is_whole && !has_name(bytes.as_slice()) {
                    Ok(bytes)
                } else {
                    Err(bad(line, 1))
                }
            }
            Err(_) => Err(IlTextFault::Memory),
        },
        Ok(None) => Err(bad(line, 1)),
        Err(_) => Err(IlTextFault::Memory),
    }
}

/// The bytes of an opcode.
fn opcode_bytes(alloc: Global, number: u16) -> Result<Bytes, Memory>
    ensures value { IfOk result (λ bytes. bytes ≡ opcode_bytes_of number) }
    ensures few { IfOk result (λ bytes. length bytes ≤ 2) }
{
    if number < 0x100 {
        List::from_slice(alloc, &[number as u8])
    } else {
        List::from_slice(alloc, &[0xFE, (number % 0x100) as u8])
    }
}

/// The bytes of an instruction that has a name and stands at an offset.
fn named_bytes(
    alloc: Global,
    line: &Line<'_>,
    at: usize,
    row: &Mnemonic,
) -> Result<Bytes, IlTextFault>
    ensures { Reads result (named_bytes_of (parts_of line.now) at (row_of row.now)) }
{
    match opcode_bytes(alloc, row.0) {
        Ok(opcode) => {
            let behind = at as u128 + opcode.len() as u128;
            let operand = operand_of(alloc, row.2, line, behind)?;
            let mut bytes = opcode;
            match bytes.extend_from_slice(operand.as_slice()) {
                Ok(()) => Ok(bytes),
                Err(_) => Err(IlTextFault::Memory),
            }
        }
        Err(_) => Err(IlTextFault::Memory),
    }
}

/// The row of the instruction that a line names.
fn row_at(line: &Line<'_>) -> Result<&'static Mnemonic, IlTextFault>
    ensures { MatchResult result
        (λ row. read row_named (parts_of line.now) 0 ≡ Ok (row_of row.now))
        (Refuses (read row_named (parts_of line.now) 0)) }
{
    let Some(word) = line.word(0) else {
        return Err(bad(line, 0));
    };
    match row_of_name(word) {
        Some(row) => Ok(row),
        None => Err(bad(line, 0)),
    }
}

/// The bytes of the instruction of a line, which stands at an offset.
fn instruction_bytes(alloc: Global, line: &Line<'_>, at: usize) -> Result<Bytes, IlTextFault>
    ensures { Reads result (instruction_bytes_of (parts_of line.now) at) }
{
    if is_word(line, 0, b".op") {
        let bytes = unnamed_at(alloc, line)?;
        ends(line, 2)?;
        Ok(bytes)
    } else {
        let row = row_at(line)?;
        named_bytes(alloc, line, at, row)
    }
}

// ---- bodies

/// Reads the line of a body's header.
pub(crate) fn with_header(
    alloc: Global,
    draft: Draft,
    line: &Line<'_>,
) -> Result<Draft, IlTextFault>
    ensures { Reads result (with_header_of draft (parts_of line.now)) }
{
    let header = bytes_behind(alloc, line, b".body")?;
    let mut draft = draft;
    draft.body = Some(OpenBody {
        line: line.number,
        header,
        code: List::new(alloc),
        begun: false,
        closed: false,
    });
    Ok(draft)
}

/// Reads the line of an instruction of the body that is open.
fn with_instruction(
    alloc: Global,
    draft: Draft,
    body: OpenBody,
    line: &Line<'_>,
) -> Result<Draft, IlTextFault>
    ensures { Reads result (with_instruction_of draft body (parts_of line.now)) }
{
    let mut body = body;
    let bytes = instruction_bytes(alloc, line, body.code.len())?;
    match body.code.extend_from_slice(bytes.as_slice()) {
        Ok(()) => {}
        Err(_) => return Err(IlTextFault::Memory),
    }
    body.begun = true;
    let mut draft = draft;
    draft.body = Some(body);
    Ok(draft)
}

/// Reads the line of all the code of the body that is open.
fn with_code(
    alloc: Global,
    draft: Draft,
    body: OpenBody,
    line: &Line<'_>,
) -> Result<Draft, IlTextFault>
    ensures { Reads result (with_code_of draft body (parts_of line.now)) }
{
    let code = bytes_behind(alloc, line, b".code")?;
    let mut draft = draft;
    draft.body = Some(OpenBody {
        line: body.line,
        header: body.header,
        code,
        begun: true,
        closed: true,
    });
    Ok(draft)
}

/// Whether a header and code of so many bytes stand at the front of a body.
fn are_sizes(header: usize, code: usize, body: &[u8]) -> bool
    ensures { result ≡ fits_of header code (header_of body.now) }
{
    match sizes(body) {
        Some((code_at, code_size)) => code_at == header && code_size as usize == code,
        None => false,
    }
}

/// Whether bytes are a body, of which so many are its header and so many its code.
fn is_body(header: &[u8], code: &[u8], body: &[u8]) -> bool
    ensures { result ≡ is_body_of header.now code.now body.now }
{
    are_sizes(header.len(), code.len(), body)
        && match body_length(body) {
            Some(length) => length == body.len(),
            None => false,
        }
}

/// The bytes of a header, of code and of what stands behind it.
fn joined(alloc: Global, header: &[u8], code: &[u8], rest: &[u8]) -> Result<Bytes, Memory>
    ensures { IfOk result (λ body. body ≡ header.now ++ (code.now ++ rest.now)) }
{
    let mut body = List::from_slice(alloc, header)?;
    body.extend_from_slice(code)?;
    body.extend_from_slice(rest)?;
    Ok(body)
}

/// The row that was read last, with its body.
fn row_with(body: Bytes, last: Option<DraftRow>) -> Option<DraftRow>
    ensures { result ≡ body_of_row_of body last }
{
    match last {
        Some(row) => Some(DraftRow {
            table: row.table,
            line: row.line,
            cells: row.cells,
            body: Some(body),
        }),
        None => None,
    }
}

/// Closes a body, which these bytes are.
fn closed_body(draft: Draft, body: &OpenBody, bytes: Bytes) -> Result<Draft, IlTextFault>
    ensures { Reads result (closed_body_of draft body.now bytes) }
{
    let whole = is_body(
        body.header.as_slice(),
        body.code.as_slice(),
        bytes.as_slice(),
    );
    if !whole {
        return Err(IlTextFault::BadText(body.line, 1));
    }
    Ok(Draft {
        entry: draft.entry,
        user: draft.user,
        rows: draft.rows,
        row: row_with(bytes, draft.row),
        body: None,
    })
}

/// Reads the line of the end of the body that is open.
fn with_end(
    alloc: Global,
    draft: Draft,
    body: OpenBody,
    line: &Line<'_>,
) -> Result<Draft, IlTextFault>
    ensures { Reads result (with_end_of draft body (parts_of line.now)) }
{
    let rest = bytes_behind(alloc, line, b".end")?;
    match joined(
        alloc,
        body.header.as_slice(),
        body.code.as_slice(),
        rest.as_slice(),
    ) {
        Ok(bytes) => closed_body(draft, &body, bytes),
        Err(_) => Err(IlTextFault::Memory),
    }
}

/// Reads a line of the body that is open.
pub(crate) fn in_body(
    alloc: Global,
    draft: Draft,
    body: OpenBody,
    line: &Line<'_>,
) -> Result<Draft, IlTextFault>
    ensures { Reads result (in_body_of draft body (parts_of line.now)) }
{
    if is_word(line, 0, b".end") {
        return with_end(alloc, draft, body, line);
    }
    if body.closed {
        return Err(bad(line, 0));
    }
    if !is_word(line, 0, b".code") {
        return with_instruction(alloc, draft, body, line);
    }
    if body.begun {
        return Err(bad(line, 0));
    }
    with_code(alloc, draft, body, line)
}
