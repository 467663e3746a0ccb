//! Words of code, with the addresses that they name in them.
ghost use Rattle.std.specs.Prelude.{◌≡◌, ◌++◌, ◌+◌, ◌<◌, ◌^◌, length, map, nat_lt, true, IfOk, OnOk};
ghost use Rattle.std.specs.List.{list_all};
ghost use Rattle.byteorder.specs.Endian.{little_bytes};
ghost use Rattle.num_core.specs.declared.fix.Fix.{Fix as FixOf};
ghost use Rattle.image_plan.specs.Found.{address_in};
ghost use Rattle.image_plan.specs.Places.{code_size as code_size_of, end_of};
ghost use Rattle.image_plan.specs.Planned.{code_fixes_fit};
ghost use Rattle.image_plan.specs.Written.{bits_between as bits_of, bytes_of, code_bytes, with_address, with_addresses};
ghost use Rattle.image_plan.specs.Written.{target as target_of, with_lower as with_lower_of};
ghost use Rattle.image_plan.specs.Written.{with_upper as with_upper_of};

use crate::addresses::Addresses;
use crate::ends::code_size;
use crate::pieces::CodePiece;
use byteorder::{ByteOrder, LittleEndian};
use num_core::{Bytes, Fix, List, Memory};
use std::alloc::Global;

/// Adds a word, its lowest byte first.
pub(crate) fn put_word(bytes: &mut Bytes, word: u32) -> Result<(), Memory>
    ensures { OnOk result (bytes.new ≡ bytes.old ++ little_bytes 4 word) }
{
    let mut four = [0u8; 4];
    LittleEndian::write_u32(&mut four, word);
    bytes.extend_from_slice(&four)
}

/// Adds a number of 64 bits, its lowest byte first.
pub(crate) fn put_number(bytes: &mut Bytes, number: u64) -> Result<(), Memory>
    ensures { OnOk result (bytes.new ≡ bytes.old ++ little_bytes 8 number) }
{
    let mut eight = [0u8; 8];
    LittleEndian::write_u64(&mut eight, number);
    bytes.extend_from_slice(&eight)
}

/// Adds words.
fn put_words(bytes: &mut Bytes, words: &[u32]) -> Result<(), Memory>
    ensures { OnOk result (bytes.new ≡ bytes.old ++ bytes_of words.now) }
{
    for word in words {
        put_word(bytes, *word)?;
    }
    Ok(())
}

/// The address that a fix names.
pub(crate) fn target(addresses: &Addresses, fix: Fix) -> u64
    ensures { result ≡ target_of (address_in addresses.now.found.entries) fix }
{
    addresses.find(fix.kind, fix.item).unwrap_or(0)
}

/// How far an address lies from another, in 32 bits.
fn bits_between(from: u64, to: u64) -> u32
    ensures { result ≡ bits_of from to }
{
    (to.wrapping_sub(from) % (1 << 32)) as u32
}

/// A word of the U format with the upper 20 bits of a distance.
fn with_upper(bits: u32, word: u32) -> u32
    ensures { result ≡ with_upper_of bits word }
{
    word % (1 << 12) + (bits.wrapping_add(2048) >> 12) * (1 << 12)
}

/// A word of the I format with the lower 12 bits of a distance.
fn with_lower(bits: u32, word: u32) -> u32
    ensures { result ≡ with_lower_of bits word }
{
    word % (1 << 20) + bits % (1 << 12) * (1 << 20)
}

/// Puts the address that a fix names into two words of code that begins at an address.
fn put_address(words: &mut List<u32>, addresses: &Addresses, begin: u64, fix: &Fix)
    requires fits { fix.now.at + 1 < length words.old }
    requires below { begin < 2 ^ 32 }
    ensures { words.new ≡ with_address (address_in addresses.now.found.entries) begin fix.now words.old }
{
    let fix = *fix;
    let at = fix.at as usize;
    let bits = bits_between(begin + 4 * u64::from(fix.at), target(addresses, fix));
    let first = with_upper(bits, words.as_slice()[at]);
    let second = with_lower(bits, words.as_slice()[at + 1]);
    words.overwrite(at, &[first, second]);
}

/// The words of code that begins at an address, with the addresses that its fixes name.
#[tactic(auto, using(crate::proofs::Lengths::address_length))]
fn with_all(
    alloc: Global,
    addresses: &Addresses,
    begin: u64,
    words: &[u32],
    fixes: &[Fix],
) -> Result<List<u32>, Memory>
    requires fits { list_all (λ (fix : FixOf). nat_lt (fix.at + 1) (length words.now)) fixes.now ≡ true }
    requires below { begin < 2 ^ 32 }
    ensures { IfOk result (λ all. all
        ≡ with_addresses (address_in addresses.now.found.entries) begin fixes.now words.now) }
{
    let mut all = List::from_slice(alloc, words)?;
    for fix in fixes {
        put_address(&mut all, addresses, begin, fix);
    }
    Ok(all)
}

/// Adds the code of bodies of which the first begins at an address.
pub(crate) fn put_bodies(
    alloc: Global,
    text: &mut Bytes,
    addresses: &Addresses,
    begin: u64,
    pieces: &[CodePiece],
) -> Result<(), Memory>
    requires below { end_of begin (map code_size_of pieces.now) < 2 ^ 32 }
    requires fits { list_all code_fixes_fit pieces.now ≡ true }
    ensures { OnOk result (text.new
        ≡ text.old ++ code_bytes (address_in addresses.now.found.entries) begin pieces.now) }
{
    let mut at = begin;
    for piece in pieces {
        let words = with_all(
            alloc,
            addresses,
            at,
            piece.code.words.as_slice(),
            piece.code.fixes.as_slice(),
        )?;
        put_words(text, words.as_slice())?;
        at += code_size(piece);
    }
    Ok(())
}
