ghost use Rattle.std.specs.Prelude.{◌≡◌, length, find, position, Some, None, IfSome, IsTrue, option_copied};
ghost use Rattle.std.specs.Bool.{OnTrue, OnFalse};
ghost use Rattle.rv_step.specs.Machine.{covers as are_covered, bytes_at as are_bytes_at, with_bytes_at};
ghost use Rattle.rv_step.specs.Segments.{grants, serves, part as is_part, patched};

use num_core::Bytes;

/// A run of addresses with its bytes, and what a program may do with them.
#[derive(Debug, Drop)]
pub struct Segment {
    /// The address of the first byte.
    pub at: u64,
    pub bytes: Bytes,
    pub read: bool,
    pub write: bool,
    pub execute: bool,
}

/// What is done to the bytes at an address.
#[derive(Clone, Copy)]
pub(crate) enum Access {
    Read,
    Write,
    Execute,
}

impl Segment {
    #[inline]
    fn grants(&self, access: Access) -> bool
        ensures { result ≡ grants access self.now }
    {
        match access {
            Access::Read => self.read,
            Access::Write => self.write,
            Access::Execute => self.execute,
        }
    }

    /// Whether so many addresses from this one on lie in the segment.
    #[inline]
    fn covers(&self, address: u64, count: u64) -> bool
        ensures { result ≡ are_covered address count self.now }
    {
        let len = self.bytes.len() as u64;
        address >= self.at && count <= len && address - self.at <= len - count
    }

    /// Writes bytes from an address on.
    #[inline]
    fn write(&mut self, address: u64, bytes: &[u8])
        requires { IsTrue (are_covered address (length bytes.now) self.old) }
        ensures { self.new ≡ patched address bytes.now self.old }
    {
        let from = (address - self.at) as usize;
        self.bytes.overwrite(from, bytes);
    }

    /// The bytes at so many addresses.
    #[inline]
    fn part(&self, address: u64, count: u64) -> &[u8]
        requires { IsTrue (are_covered address count self.now) }
        ensures bytes { result.now ≡ is_part address count self.now }
        ensures length { length result.now ≡ count }
    {
        let from = (address - self.at) as usize;
        &self.bytes.as_slice()[from..from + count as usize]
    }
}

/// The first segment that allows the access and holds so many bytes from the address on.
#[inline]
fn segment_for(segments: &[Segment], access: Access, address: u64, count: u64) -> Option<&Segment>
    ensures { option_copied result ≡ find (serves access address count) segments.now }
{
    segments.iter().find(|segment| segment.grants(access) && segment.covers(address, count))
}

/// The bytes at so many addresses, if they lie in one segment that allows the access.
#[inline]
#[tactic(auto, using(crate::proofs::Memory::memory))]
pub(crate) fn bytes_at(
    segments: &[Segment],
    access: Access,
    address: u64,
    count: u64,
) -> Option<&[u8]>
    ensures bytes { option_copied result ≡ are_bytes_at (grants access) address count segments.now }
    ensures length { IfSome result (λ bytes. length bytes.now ≡ count) }
{
    let segment = segment_for(segments, access, address, count)?;
    Some(segment.part(address, count))
}

/// The place of the first segment that allows the access and holds so many bytes from the address on.
#[inline]
pub(crate) fn place_for(
    segments: &[Segment],
    access: Access,
    address: u64,
    count: u64,
) -> Option<usize>
    ensures { result ≡ position (serves access address count) segments.now }
{
    segments.iter().position(|segment| segment.grants(access) && segment.covers(address, count))
}

/// Writes bytes from an address on, if they lie in one segment that may be written.
#[inline]
pub(crate) fn write_bytes(segments: &mut [Segment], address: u64, bytes: &[u8]) -> bool
    ensures written { OnTrue result
        (with_bytes_at (grants Access.Write) address bytes.now segments.old ≡ Some segments.new) }
    ensures refused { OnFalse result (with_bytes_at (grants Access.Write) address bytes.now segments.old ≡ None) }
    ensures same { OnFalse result (segments.new ≡ segments.old) }
{
    let count = bytes.len() as u64;
    match place_for(segments, Access::Write, address, count) {
        Some(place) => {
            segments[place].write(address, bytes);
            true
        }
        None => false,
    }
}
