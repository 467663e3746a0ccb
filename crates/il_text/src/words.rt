ghost use Rattle.std.specs.Prelude.{◌≡◌, ◌∷◌, ◌++◌, [], codes, decimal as decimal_digits, IfOk, OnOk};
ghost use Rattle.std.specs.Prelude.{◌≤ℤ◌, ◌^◌, ◌<◌, pos, negsuc, ◌-◌};
ghost use Rattle.std.specs.Fmt.{signed_decimal as signed_digits};
ghost use Rattle.std.specs.List.{flat_map};
ghost use Rattle.hex.specs.Hex.{encode_upper, IsBytes};
ghost use Rattle.il_text.specs.Words.{bytes_word, name_byte, name_word, token_word, table_word, row_word, spaced};
ghost use Rattle.il_text.specs.Words.{is_plain as is_plain_byte};

use byteorder::{BigEndian, ByteOrder};
use itoa::Buffer;
use num_core::{Bytes, Memory};
use std::alloc::Global;

/// Appends a space and a word that is written elsewhere.
pub(crate) fn push_word(out: &mut Bytes, word: &[u8]) -> Result<(), Memory>
    ensures { OnOk result (out.new ≡ out.old ++ spaced word.now) }
{
    push(out, b' ')?;
    out.extend_from_slice(word)?;
    Ok(())
}

/// Appends a byte.
pub(crate) fn push(out: &mut Bytes, byte: u8) -> Result<(), Memory>
    ensures { OnOk result (out.new ≡ out.old ++ byte ∷ []) }
{
    match out.push(byte) {
        Ok(()) => Ok(()),
        Err(_) => Err(Memory),
    }
}

/// Appends bytes as digits, two for each.
fn push_digits(alloc: Global, out: &mut Bytes, bytes: &[u8]) -> Result<(), Memory>
    ensures digits { OnOk result (out.new ≡ out.old ++ encode_upper bytes.now) }
    ensures bytes { OnOk result (IsBytes bytes.now) }
{
    let digits = hex::encode_upper(alloc, bytes)?;
    out.extend_from_slice(digits.as_bytes())?;
    Ok(())
}

/// Appends a number.
pub(crate) fn push_number(out: &mut Bytes, number: u32) -> Result<(), Memory>
    ensures digits { OnOk result (out.new ≡ out.old ++ decimal_digits number) }
    ensures small { OnOk result (number < 2 ^ 32) }
{
    let mut buffer = Buffer::new();
    out.extend_from_slice(buffer.format(number).as_bytes())?;
    Ok(())
}

/// Appends a number that may be negative.
pub(crate) fn push_signed(out: &mut Bytes, number: i64) -> Result<(), Memory>
    ensures { OnOk result (out.new ≡ out.old ++ signed_digits number) }
{
    let mut buffer = Buffer::new();
    out.extend_from_slice(buffer.format(number).as_bytes())?;
    Ok(())
}

/// Appends a word of bytes.
pub(crate) fn push_bytes(alloc: Global, out: &mut Bytes, bytes: &[u8]) -> Result<(), Memory>
    ensures word { OnOk result (out.new ≡ out.old ++ bytes_word bytes.now) }
    ensures bytes { OnOk result (IsBytes bytes.now) }
{
    push(out, b'x')?;
    push_digits(alloc, out, bytes)?;
    Ok(())
}

/// Whether a byte stands for itself in a name.
pub(crate) fn is_plain(byte: u8) -> bool
    ensures { result ≡ is_plain_byte byte }
{
    (0x20..=0x7E).contains(&byte) && byte != b'"' && byte != b'\\'
}

/// Appends a byte of a name.
fn push_name_byte(alloc: Global, out: &mut Bytes, byte: u8) -> Result<(), Memory>
    ensures { OnOk result (out.new ≡ out.old ++ name_byte byte) }
{
    if is_plain(byte) {
        push(out, byte)?;
    } else {
        push(out, b'\\')?;
        push_digits(alloc, out, &[byte])?;
    }
    Ok(())
}

/// Appends the bytes of a name.
fn push_name_bytes(alloc: Global, out: &mut Bytes, text: &[u8]) -> Result<(), Memory>
    ensures { OnOk result (out.new ≡ out.old ++ flat_map name_byte text.now) }
{
    for byte in text {
        push_name_byte(alloc, out, *byte)?;
    }
    Ok(())
}

/// Appends a name.
pub(crate) fn push_name(alloc: Global, out: &mut Bytes, text: &[u8]) -> Result<(), Memory>
    ensures word { OnOk result (out.new ≡ out.old ++ name_word text.now) }
    ensures bytes { OnOk result (IsBytes text.now) }
{
    push(out, b'"')?;
    push_name_bytes(alloc, out, text)?;
    push(out, b'"')?;
    Ok(())
}

/// Appends a token.
pub(crate) fn push_token(alloc: Global, out: &mut Bytes, token: u32) -> Result<(), Memory>
    ensures { OnOk result (out.new ≡ out.old ++ token_word token) }
{
    let mut bytes = [0; 4];
    BigEndian::write_u32(&mut bytes, token);
    push(out, b'#')?;
    push_digits(alloc, out, &bytes)?;
    Ok(())
}

/// Appends the number of a table.
pub(crate) fn push_table(alloc: Global, out: &mut Bytes, table: u8) -> Result<(), Memory>
    ensures word { OnOk result (out.new ≡ out.old ++ table_word table) }
    ensures small { OnOk result (table < 256) }
{
    push_digits(alloc, out, &[table])?;
    Ok(())
}

/// Appends a row of a table.
pub(crate) fn push_row(alloc: Global, out: &mut Bytes, table: u8, row: u32) -> Result<(), Memory>
    ensures word { OnOk result (out.new ≡ out.old ++ row_word table row) }
    ensures small { OnOk result ((table < 256) × (row < 2 ^ 32)) }
{
    push_table(alloc, out, table)?;
    push(out, b':')?;
    push_number(out, row)?;
    Ok(())
}
