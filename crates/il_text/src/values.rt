ghost use Rattle.std.specs.Prelude.{◌≡◌, ◌+◌, ◌^◌, ◌<◌, ◌≤◌, ◌≤ℤ◌, ◌<ℤ◌, ◌∷◌, [], ℕ, pos, neg_ℤ, decimal};
ghost use Rattle.std.specs.Prelude.{length, IfOk, IfSome, Some, None, if◌then◌else◌};
ghost use Rattle.std.specs.List.{list_any};
ghost use Rattle.std.specs.Option.{option_map, option_and_then};
ghost use Rattle.std.specs.Str.{bytes_eq};
ghost use Rattle.il_text.specs.Values.{number_below as number_below_in, whole_below as whole_below_in};
ghost use Rattle.il_text.specs.Values.{negative as negative_of};
ghost use Rattle.il_text.specs.Values.{bytes_of_digits, behind as behind_first, is_small, bytes_in, token_in, byte_in};
ghost use Rattle.il_text.specs.Values.{row_in, name_in, name_byte_in, name_from as name_from_of, escaped as escaped_in};

use crate::body::split;
use crate::words::{is_plain, push};
use byteorder::{BigEndian, ByteOrder};
use hex::FromHexError;
use itoa::Buffer;
use num_core::{Bytes, List, Memory};
use std::alloc::Global;

/// The number that a word spells, if it spells one.
fn parsed(word: &[u8]) -> Option<u64>
    ensures { (n : ℕ) → n < 2 ^ 64 → word.now ≡ decimal n → result ≡ Some n }
{
    let Ok(text) = std::str::from_utf8(word) else {
        return None;
    };
    match text.parse::<u64>() {
        Ok(number) => Some(number),
        Err(_) => None,
    }
}

/// Whether a word is the digits of a number.
fn is_spelled(number: u64, word: &[u8]) -> bool
    ensures { result ≡ bytes_eq word.now (decimal number) }
{
    let mut buffer = Buffer::new();
    word == buffer.format(number).as_bytes()
}

/// The number that a word is, in decimal digits without leading zeros, if it is below a bound.
pub(crate) fn number_below(bound: u64, word: &[u8]) -> Option<u64>
    ensures value { result ≡ number_below_in bound word.now }
    ensures small { IfSome result (λ number. number < bound) }
{
    let number = parsed(word)?;
    if number < bound && is_spelled(number, word) {
        Some(number)
    } else {
        None
    }
}

/// The whole number that a word is, if it is below a bound, and no lower than the bound below 0.
pub(crate) fn whole_below(bound: u64, word: &[u8]) -> Option<i64>
    requires { bound ≤ 2 ^ 63 }
    ensures value { result ≡ whole_below_in bound word.now }
    ensures low { IfSome result (λ number. neg_ℤ (pos bound) ≤ℤ number) }
    ensures high { IfSome result (λ number. number <ℤ pos bound) }
{
    let (first, digits) = word.split_first()?;
    if *first == b'-' {
        let number = number_below(bound + 1, digits)?;
        negative(number)
    } else {
        let number = number_below(bound, word)?;
        Some(number as i64)
    }
}

/// The number below 0 with these digits.
fn negative(number: u64) -> Option<i64>
    requires { number ≤ 2 ^ 63 }
    ensures value { result ≡ negative_of (Some number) }
    ensures low { IfSome result (λ n. neg_ℤ (pos number) ≤ℤ n) }
    ensures high { IfSome result (λ n. n <ℤ pos 0) }
{
    if number == 0 {
        None
    } else {
        Some(-((number - 1) as i64) - 1)
    }
}

/// What stands behind a first byte.
fn behind(first: u8, word: &[u8]) -> Option<&[u8]>
    ensures { option_map (λ rest. rest.now) result ≡ behind_first first word.now }
{
    let (byte, rest) = word.split_first()?;
    if *byte == first { Some(rest) } else { None }
}

/// Whether one of the digits is a small letter.
fn has_small(digits: &[u8]) -> bool
    ensures { result ≡ list_any is_small digits.now }
{
    digits.iter().any(|digit| 97 <= *digit)
}

/// The bytes that digits are, two for each.
fn bytes_of(alloc: Global, digits: &[u8]) -> Result<Option<Bytes>, Memory>
    ensures { IfOk result (λ bytes. bytes ≡ bytes_of_digits digits.now) }
{
    if has_small(digits) {
        return Ok(None);
    }
    match hex::decode(alloc, digits) {
        Ok(bytes) => match List::from_slice(alloc, bytes.as_slice()) {
            Ok(bytes) => Ok(Some(bytes)),
            Err(memory) => Err(memory),
        },
        Err(FromHexError::OutOfMemory) => Err(Memory),
        Err(FromHexError::InvalidHexCharacter { c: _, index: _ }) => Ok(None),
        Err(FromHexError::OddLength) => Ok(None),
        Err(FromHexError::InvalidStringLength) => Ok(None),
    }
}

/// The bytes that a word is.
pub(crate) fn bytes(alloc: Global, word: &[u8]) -> Result<Option<Bytes>, Memory>
    ensures { IfOk result (λ bytes. bytes ≡ bytes_in word.now) }
{
    match behind(b'x', word) {
        Some(digits) => bytes_of(alloc, digits),
        None => Ok(None),
    }
}

/// The token that a word is.
pub(crate) fn token(word: &[u8]) -> Option<u32>
    ensures { result ≡ token_in word.now }
{
    let digits = behind(b'#', word)?;
    if has_small(digits) {
        return None;
    }
    let mut bytes = [0; 4];
    match hex::decode_to_slice(digits, &mut bytes) {
        Ok(()) => Some(BigEndian::read_u32(&bytes)),
        Err(_) => None,
    }
}

/// The byte that two digits are.
pub(crate) fn byte(word: &[u8]) -> Option<u8>
    ensures { result ≡ byte_in word.now }
{
    if has_small(word) {
        return None;
    }
    let mut bytes = [0; 1];
    match hex::decode_to_slice(word, &mut bytes) {
        Ok(()) => Some(bytes[0]),
        Err(_) => None,
    }
}

/// The row of a table that a word is.
pub(crate) fn row(word: &[u8]) -> Option<(u8, u32)>
    ensures { result ≡ row_in word.now }
{
    let (front, back) = split(word, 2);
    let table = byte(front)?;
    let row = row_behind(back)?;
    Some((table, row))
}

/// The number behind a colon.
fn row_behind(word: &[u8]) -> Option<u32>
    ensures { result ≡ option_and_then (number_below_in (2 ^ 32)) (behind_first 58 word.now) }
{
    let digits = behind(b':', word)?;
    let number = number_below(1 << 32, digits)?;
    Some(number as u32)
}

/// A byte of a name at the front of a word, and how many bytes it takes there.
fn name_byte(word: &[u8]) -> Option<(u8, usize)>
    ensures value { result ≡ name_byte_in word.now }
    ensures within { IfSome result (λ found. found.1 ≤ length word.now) }
{
    let (first, rest) = word.split_first()?;
    if *first == b'\\' && rest.len() > 2 {
        escaped(byte(&rest[..2]))
    } else if is_plain(*first) {
        Some((*first, 1))
    } else {
        None
    }
}

/// A byte that is spelled by its digits, and how many bytes it takes.
fn escaped(byte: Option<u8>) -> Option<(u8, usize)>
    ensures value { result ≡ escaped_in byte }
    ensures size { IfSome result (λ found. found.1 ≡ 3) }
{
    let byte = byte?;
    if is_plain(byte) {
        None
    } else {
        Some((byte, 3))
    }
}

/// The bytes of a name, up to the quote at its end.
fn name_from(alloc: Global, word: &[u8]) -> Result<Option<Bytes>, Memory>
    ensures { IfOk result (λ name. name ≡ name_from_of (length word.now + 1) word.now) }
{
    let mut name = List::new(alloc);
    let mut rest = word;
    let mut left = word.len() + 1;
    while left > 0 {
        if rest.len() <= 1 {
            return Ok(if_quote(name, rest));
        }
        match name_byte(rest) {
            Some((byte, size)) => {
                push(&mut name, byte)?;
                let (_, behind) = split(rest, size);
                rest = behind;
            }
            None => return Ok(None),
        }
        left -= 1;
    }
    Ok(None)
}

/// A name, if its rest is the quote at its end.
fn if_quote(name: Bytes, rest: &[u8]) -> Option<Bytes>
    ensures { result ≡ (if bytes_eq rest.now (34 ∷ []) then Some name else None) }
{
    if rest == b"\"".as_slice() {
        Some(name)
    } else {
        None
    }
}

/// The name that a word is.
pub(crate) fn name(alloc: Global, word: &[u8]) -> Result<Option<Bytes>, Memory>
    ensures { IfOk result (λ name. name ≡ name_in word.now) }
{
    match behind(b'"', word) {
        Some(text) => name_from(alloc, text),
        None => Ok(None),
    }
}
