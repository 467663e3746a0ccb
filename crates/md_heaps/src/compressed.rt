ghost use Rattle.std.specs.Prelude.{◌≡◌, ℕ, ◌+◌, ◌<◌, ◌≤◌, ◌^◌, List, ◌++◌, length, drop, Some, IfSome};
ghost use Rattle.md_heaps.specs.Heaps.{compressed, in_low_bits, spelling};

use byteorder::{BigEndian, ByteOrder};

/// The compressed number at a place, and how many bytes it takes; none exactly where no such number stands there
/// (ECMA-335 II.23.2). Spellings that are longer than they need to be are read too.
pub fn read_compressed(bytes: &[u8], at: usize) -> Option<(u32, usize)>
    ensures { result ≡ compressed (drop at bytes.now) }
{
    if at > bytes.len() {
        return None;
    }
    front(&bytes[at..])
}

/// The compressed number at the front of the bytes, and how many of them it takes.
pub(crate) fn front(bytes: &[u8]) -> Option<(u32, usize)>
    ensures value { result ≡ compressed bytes.now }
    ensures within { IfSome result (λ number. number.1 ≤ length bytes.now) }
{
    let first = *bytes.first()?;
    if first < 0x80 {
        Some((first as u32, 1))
    } else if first < 0xC0 {
        two_bytes(bytes)
    } else if first < 0xE0 {
        four_bytes(bytes)
    } else {
        None
    }
}

fn two_bytes(bytes: &[u8]) -> Option<(u32, usize)>
    ensures value { result ≡ in_low_bits 14 2 bytes.now }
    ensures within { IfSome result (λ number. number.1 ≤ length bytes.now) }
{
    if bytes.len() < 2 {
        return None;
    }
    Some(((BigEndian::read_u16(bytes) % 0x4000) as u32, 2))
}

fn four_bytes(bytes: &[u8]) -> Option<(u32, usize)>
    ensures value { result ≡ in_low_bits 29 4 bytes.now }
    ensures within { IfSome result (λ number. number.1 ≤ length bytes.now) }
{
    if bytes.len() < 4 {
        return None;
    }
    Some((BigEndian::read_u32(bytes) % 0x2000_0000, 4))
}

/// A number below 2^29 is read back from its spelling, whatever follows it.
pub fn spellings_are_read()
    ensures { (n : ℕ) (rest : List ℕ) → n < 2 ^ 29 →
        compressed (spelling n ++ rest) ≡ Some (n, length (spelling n)) }
{}
