ghost use Rattle.std.specs.Prelude.{◌≡◌, ◌+◌, ◌-◌, ◌^◌, ◌<◌, ◌≤◌, ◌++◌, ◌∷◌, [], codes, length, take, drop, Some};
ghost use Rattle.std.specs.Prelude.{OnOk, IfOk};
ghost use Rattle.std.specs.Option.{option_map};
ghost use Rattle.hex.specs.Hex.{IsBytes};
ghost use Rattle.il_code.specs.Headers.{header_of};
ghost use Rattle.il_code.specs.Listing.{listed};
ghost use Rattle.il_text.specs.Words.{line_text, text_of};
ghost use Rattle.il_text.specs.Listing.{bytes_line, code_lines, parts_lines, body_lines, instructions_text};

use crate::instruction::push_instruction;
use crate::words::{push, push_bytes};
use byteorder::{ByteOrder, LittleEndian};
use il_code::instruction_at;
use num_core::{Bytes, List, Memory};
use std::alloc::Global;

/// The size of a fat header.
const FAT_HEADER: usize = 12;

/// Appends the lines of a body.
pub(crate) fn push_body(alloc: Global, out: &mut Bytes, body: &[u8]) -> Result<(), Memory>
    ensures lines { OnOk result (out.new ≡ out.old ++ text_of (body_lines (Some body.now))) }
    ensures bytes { OnOk result (IsBytes body.now) }
{
    match sizes(body) {
        Some((code_at, code_size)) => {
            let (header, behind) = split(body, code_at);
            let (code, rest) = split(behind, code_size as usize);
            push_parts(alloc, out, header, code, rest)
        }
        None => push_parts(alloc, out, body, b"", b""),
    }
}

/// The first of the bytes, so many or all, and the others.
pub(crate) fn split(bytes: &[u8], size: usize) -> (&[u8], &[u8])
    ensures front { result.0.now ≡ take size bytes.now }
    ensures back { result.1.now ≡ drop size bytes.now }
{
    bytes.split_at(size.min(bytes.len()))
}

/// Where the code of a body begins, and how many bytes it has, if a header stands at the front (ECMA-335 II.25.4).
pub(crate) fn sizes(body: &[u8]) -> Option<(usize, u32)>
    ensures { result ≡ option_map (λ header. (header.code_at, header.code_size)) (header_of body.now) }
{
    let first = *body.first()?;
    if first % 4 == 2 {
        return Some((1, (first / 4) as u32));
    }
    if first % 4 != 3 || body.len() < FAT_HEADER || body[1] / 16 != 3 {
        return None;
    }
    Some((FAT_HEADER, LittleEndian::read_u32(&body[4..])))
}

/// Appends the lines of a header, of code and of what stands behind it.
fn push_parts(
    alloc: Global,
    out: &mut Bytes,
    header: &[u8],
    code: &[u8],
    rest: &[u8],
) -> Result<(), Memory>
    requires { length code.now < 2 ^ 32 }
    ensures { OnOk result (out.new ≡ out.old ++ text_of (parts_lines header.now code.now rest.now)) }
{
    push_bytes_line(alloc, out, b".body", header)?;
    push_code(alloc, out, code)?;
    push_bytes_line(alloc, out, b".end", rest)?;
    Ok(())
}

/// Appends a line that is one word and bytes.
pub(crate) fn push_bytes_line(
    alloc: Global,
    out: &mut Bytes,
    word: &[u8],
    bytes: &[u8],
) -> Result<(), Memory>
    ensures line { OnOk result (out.new ≡ out.old ++ line_text (bytes_line word.now bytes.now)) }
    ensures bytes { OnOk result (IsBytes bytes.now) }
{
    out.extend_from_slice(word)?;
    push(out, b' ')?;
    push_bytes(alloc, out, bytes)?;
    push(out, b'\n')?;
    Ok(())
}

/// Appends the lines of code.
fn push_code(alloc: Global, out: &mut Bytes, code: &[u8]) -> Result<(), Memory>
    requires { length code.now < 2 ^ 32 }
    ensures { OnOk result (out.new ≡ out.old ++ text_of (code_lines code.now)) }
{
    match instruction_lines(alloc, code)? {
        Some(lines) => out.extend_from_slice(lines.as_slice()),
        None => push_bytes_line(alloc, out, b".code", code),
    }
}

/// The bytes between two offsets of code.
fn between(code: &[u8], from: u32, to: u32) -> &[u8]
    requires { length code.now < 2 ^ 32 }
    ensures value { result.now ≡ take (to - from) (drop from code.now) }
    ensures small { from + length result.now < 2 ^ 32 }
{
    let (_, behind) = split(code, from as usize);
    let (bytes, _) = split(behind, to.saturating_sub(from) as usize);
    bytes
}

/// The lines of the instructions that code is, if it is instructions to its end.
fn instruction_lines(alloc: Global, code: &[u8]) -> Result<Option<Bytes>, Memory>
    requires { length code.now < 2 ^ 32 }
    ensures { IfOk result (λ lines. lines ≡ instructions_text code.now (listed code.now)) }
{
    let mut lines = List::new(alloc);
    let mut at = 0;
    let mut left = code.len();
    while left > 0 {
        if at as usize == code.len() {
            return Ok(Some(lines));
        }
        match instruction_at(alloc, code, at) {
            Ok(Some(instr)) => {
                let bytes = between(code, instr.at, instr.next);
                push_instruction(alloc, &mut lines, instr.at, bytes)?;
                at = instr.next;
            }
            Ok(None) => return Ok(None),
            Err(memory) => return Err(memory),
        }
        left -= 1;
    }
    if at as usize == code.len() {
        Ok(Some(lines))
    } else {
        Ok(None)
    }
}
