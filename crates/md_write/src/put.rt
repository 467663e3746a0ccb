ghost use Rattle.std.specs.Prelude.{◌≡◌, ◌++◌, ◌+◌, ◌∷◌, ◌<◌, ◌≤◌, [], length, replicate, IfOk, OnOk};
ghost use Rattle.byteorder.specs.Endian.{little_bytes, big_bytes};
ghost use Rattle.md_rows.specs.Widths.{size_of};
ghost use Rattle.md_write.specs.Contents.{padding as padding_in, padded};
ghost use Rattle.md_write.specs.Written.{words, halves};

use byteorder::{BigEndian, ByteOrder, LittleEndian};
use md_rows::Width;
use num_core::{Bytes, Memory};

/// Adds a byte.
pub(crate) fn put_byte(bytes: &mut Bytes, byte: u8) -> Result<(), Memory>
    ensures { OnOk result (bytes.new ≡ bytes.old ++ byte ∷ []) }
{
    bytes.extend_from_slice(&[byte])
}

/// Adds the lowest two bytes of a number, the lowest first.
pub(crate) fn put_half(bytes: &mut Bytes, number: u64) -> Result<(), Memory>
    ensures { OnOk result (bytes.new ≡ bytes.old ++ little_bytes 2 number) }
{
    let mut eight = [0u8; 8];
    LittleEndian::write_u64(&mut eight, number);
    bytes.extend_from_slice(&eight[..2])
}

/// Adds the lowest four bytes of a number, the lowest first.
pub(crate) fn put_word(bytes: &mut Bytes, number: u64) -> Result<(), Memory>
    ensures { OnOk result (bytes.new ≡ bytes.old ++ little_bytes 4 number) }
{
    let mut eight = [0u8; 8];
    LittleEndian::write_u64(&mut eight, number);
    bytes.extend_from_slice(&eight[..4])
}

/// Adds the eight bytes of a number, the lowest first.
pub(crate) fn put_long(bytes: &mut Bytes, number: u64) -> Result<(), Memory>
    ensures { OnOk result (bytes.new ≡ bytes.old ++ little_bytes 8 number) }
{
    let mut eight = [0u8; 8];
    LittleEndian::write_u64(&mut eight, number);
    bytes.extend_from_slice(&eight)
}

/// Adds the lowest bytes of a number, as many as a column has, the lowest first.
pub(crate) fn put_number(bytes: &mut Bytes, width: Width, number: u64) -> Result<(), Memory>
    ensures { OnOk result (bytes.new ≡ bytes.old ++ little_bytes (size_of width) number) }
{
    match width {
        Width::One => put_low_byte(bytes, number),
        Width::Two => put_half(bytes, number),
        Width::Four => put_word(bytes, number),
    }
}

/// Adds the lowest byte of a number.
fn put_low_byte(bytes: &mut Bytes, number: u64) -> Result<(), Memory>
    ensures { OnOk result (bytes.new ≡ bytes.old ++ little_bytes 1 number) }
{
    put_byte(bytes, (number % 256) as u8)
}

/// Adds the lowest two bytes of a number, the highest first.
pub(crate) fn put_big_half(bytes: &mut Bytes, number: u64) -> Result<(), Memory>
    ensures { OnOk result (bytes.new ≡ bytes.old ++ big_bytes 2 number) }
{
    let mut eight = [0u8; 8];
    BigEndian::write_u64(&mut eight, number);
    bytes.extend_from_slice(&eight[6..])
}

/// Adds the lowest four bytes of a number, the highest first.
pub(crate) fn put_big_word(bytes: &mut Bytes, number: u64) -> Result<(), Memory>
    ensures { OnOk result (bytes.new ≡ bytes.old ++ big_bytes 4 number) }
{
    let mut eight = [0u8; 8];
    BigEndian::write_u64(&mut eight, number);
    bytes.extend_from_slice(&eight[4..])
}

/// Adds fields of two bytes.
pub(crate) fn put_halves(bytes: &mut Bytes, numbers: &[u64]) -> Result<(), Memory>
    ensures { OnOk result (bytes.new ≡ bytes.old ++ halves numbers.now) }
{
    for number in numbers {
        match put_half(bytes, *number) {
            Ok(()) => {}
            Err(memory) => return Err(memory),
        }
    }
    Ok(())
}

/// Adds fields of four bytes.
pub(crate) fn put_words(bytes: &mut Bytes, numbers: &[u64]) -> Result<(), Memory>
    ensures { OnOk result (bytes.new ≡ bytes.old ++ words numbers.now) }
{
    for number in numbers {
        match put_word(bytes, *number) {
            Ok(()) => {}
            Err(memory) => return Err(memory),
        }
    }
    Ok(())
}

/// Adds so many zeros.
pub(crate) fn put_zeros(bytes: &mut Bytes, count: usize) -> Result<(), Memory>
    ensures { OnOk result (bytes.new ≡ bytes.old ++ replicate count 0) }
{
    let Some(len) = bytes.len().checked_add(count) else {
        return Err(Memory);
    };
    bytes.resize(len, 0)
}

/// How many bytes are missing to the next multiple of a number.
pub(crate) fn padding(multiple: usize, length: usize) -> usize
    requires { 0 < multiple }
    ensures { result ≡ padding_in multiple length }
{
    (multiple - length % multiple) % multiple
}

/// The place behind so many bytes that begin at one. So many that no number tells it are want of memory.
pub(crate) fn behind(at: u64, size: usize) -> Result<u64, Memory>
    ensures { IfOk result (λ next. next ≡ at + size) }
{
    match at.checked_add(size as u64) {
        Some(next) => Ok(next),
        None => Err(Memory),
    }
}

/// How many bytes there are with zeros behind them, up to a multiple of a number.
pub(crate) fn padded_size(multiple: usize, part: &[u8]) -> usize
    requires some { 0 < multiple }
    requires small { multiple ≤ 0x2000 }
    ensures { result ≡ length (padded multiple part.now) }
{
    part.len() + padding(multiple, part.len())
}

/// Adds bytes with zeros behind them, up to a multiple of a number.
pub(crate) fn put_padded(bytes: &mut Bytes, multiple: usize, part: &[u8]) -> Result<(), Memory>
    requires { 0 < multiple }
    ensures { OnOk result (bytes.new ≡ bytes.old ++ padded multiple part.now) }
{
    match bytes.extend_from_slice(part) {
        Ok(()) => put_zeros(bytes, padding(multiple, part.len())),
        Err(memory) => Err(memory),
    }
}

/// Adds zeros to bytes, up to a multiple of a number.
pub(crate) fn pad(bytes: &mut Bytes, multiple: usize) -> Result<(), Memory>
    requires { 0 < multiple }
    ensures { OnOk result (bytes.new ≡ padded multiple bytes.old) }
{
    let missing = padding(multiple, bytes.len());
    put_zeros(bytes, missing)
}
