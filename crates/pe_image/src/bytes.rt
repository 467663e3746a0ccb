ghost use Rattle.std.specs.Prelude.{◌≡◌, ◌+◌, ◌≤◌, ◌<◌, ◌^◌, length, take, drop};
ghost use Rattle.pe_image.specs.Conditions.{fits as are_there, number_at};

use byteorder::{ByteOrder, LittleEndian};

/// Whether so many bytes at a place are there.
pub(crate) fn fits(bytes: &[u8], at: usize, size: usize) -> bool
    requires { at + size < 2 ^ 64 }
    ensures { result ≡ are_there bytes.now at size }
{
    at + size <= bytes.len()
}

/// The number in two bytes at a place.
pub(crate) fn half_at(bytes: &[u8], at: usize) -> u16
    requires { at + 2 ≤ length bytes.now }
    ensures { result ≡ number_at bytes.now 2 at }
{
    LittleEndian::read_u16(&bytes[at..])
}

/// The number in four bytes at a place.
pub(crate) fn word_at(bytes: &[u8], at: usize) -> u32
    requires { at + 4 ≤ length bytes.now }
    ensures { result ≡ number_at bytes.now 4 at }
{
    LittleEndian::read_u32(&bytes[at..])
}

/// So many bytes at a place.
pub(crate) fn part(bytes: &[u8], at: usize, size: usize) -> &[u8]
    requires { at + size ≤ length bytes.now }
    ensures { result.now ≡ take size (drop at bytes.now) }
{
    &bytes[at..at + size]
}
