ghost use Rattle.std.specs.Prelude.{◌≡◌, ◌+◌, ◌≤◌, ◌<◌, ◌^◌, length, IfSome, IfNone};
ghost use Rattle.il_code.specs.Headers.{aligned as aligned_of, is_fat_section as is_fat_section_of};
ghost use Rattle.il_code.specs.Headers.{has_more as has_more_of, section_size as section_size_of};
ghost use Rattle.il_code.specs.Headers.{section_end as section_end_of, sections_end as sections_end_of};

use crate::bytes::three_at;

/// The size of a section's header.
pub(crate) const SECTION_HEADER: usize = 4;

/// The next multiple of 4.
pub(crate) fn aligned(at: usize) -> usize
    requires { at < 2 ^ 63 }
    ensures value { result ≡ aligned_of at }
    ensures higher { at ≤ result }
{
    (at + 3) / 4 * 4
}

/// Where the last section ends, of those from a place on, if they fit into the bytes (ECMA-335 II.25.4.5).
pub(crate) fn sections_end(bytes: &[u8], first: usize) -> Option<usize>
    ensures value { result ≡ sections_end_of (length bytes.now) bytes.now first }
    ensures later { IfSome result (λ end. first ≤ end) }
    ensures fits { IfSome result (λ end. end ≤ length bytes.now) }
{
    let mut at = first;
    for _section in 0..bytes.len() {
        let end = section_end(bytes, at)?;
        if !has_more(bytes, at) {
            return Some(end);
        }
        at = aligned(end);
    }
    None
}

/// Where the section at a place ends, if it fits into the bytes.
pub(crate) fn section_end(bytes: &[u8], at: usize) -> Option<usize>
    ensures value { IfSome result (λ end. end ≡ section_end_of bytes.now at) }
    ensures header { IfSome result (λ end. at + 4 ≤ end) }
    ensures fits { IfSome result (λ end. end ≤ length bytes.now) }
    ensures none { IfNone result (length bytes.now < section_end_of bytes.now at) }
{
    if at > bytes.len() || bytes.len() - at < SECTION_HEADER {
        return None;
    }
    let size = section_size(bytes, at).max(SECTION_HEADER);
    if bytes.len() - at < size {
        return None;
    }
    Some(at + size)
}

/// The size that the section at a place tells, which counts its header.
pub(crate) fn section_size(bytes: &[u8], at: usize) -> usize
    requires { at + 4 ≤ length bytes.now }
    ensures { result ≡ section_size_of bytes.now at }
{
    if is_fat_section(bytes, at) {
        three_at(bytes, at + 1) as usize
    } else {
        bytes[at + 1] as usize
    }
}

/// Whether the size of the section at a place stands in three bytes.
pub(crate) fn is_fat_section(bytes: &[u8], at: usize) -> bool
    requires { at < length bytes.now }
    ensures { result ≡ is_fat_section_of bytes.now at }
{
    bytes[at] / 0x40 % 2 == 1
}

/// Whether another section follows the one at a place.
pub(crate) fn has_more(bytes: &[u8], at: usize) -> bool
    requires { at < length bytes.now }
    ensures { result ≡ has_more_of bytes.now at }
{
    bytes[at] >= 0x80
}
