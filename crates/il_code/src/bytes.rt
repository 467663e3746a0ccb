ghost use Rattle.std.specs.Prelude.{◌≡◌, ◌+◌, ◌≤◌, length};
ghost use Rattle.il_code.specs.Headers.{number_at};

use byteorder::{ByteOrder, LittleEndian};

/// The number in two bytes at a place.
pub(crate) fn half_at(bytes: &[u8], at: usize) -> u16
    requires { at + 2 ≤ length bytes.now }
    ensures { result ≡ number_at bytes.now 2 at }
{
    LittleEndian::read_u16(&bytes[at..])
}

/// The number in three bytes at a place.
pub(crate) fn three_at(bytes: &[u8], at: usize) -> u32
    requires { at + 3 ≤ length bytes.now }
    ensures { result ≡ number_at bytes.now 3 at }
{
    LittleEndian::read_u24(&bytes[at..])
}

/// The number in four bytes at a place.
pub(crate) fn word_at(bytes: &[u8], at: usize) -> u32
    requires { at + 4 ≤ length bytes.now }
    ensures { result ≡ number_at bytes.now 4 at }
{
    LittleEndian::read_u32(&bytes[at..])
}
