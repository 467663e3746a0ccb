ghost use Rattle.std.specs.Prelude.{◌≡◌, ◌+◌, ◌≤◌, length, IfSome};
ghost use Rattle.il_code.specs.Headers.{header_of, body_end as body_end_of, body_length as body_length_of};
ghost use Rattle.il_code.specs.Bodies.{whole_header as whole_header_of};

use crate::bytes::{half_at, word_at};
use crate::section::{aligned, sections_end};

/// The most slots that the evaluation stack has under a tiny header.
const TINY_MAX_STACK: u16 = 8;

/// The size of a fat header.
const FAT_HEADER: usize = 12;

/// What the header of a body tells (ECMA-335 II.25.4.2, II.25.4.3).
#[derive(Clone, Copy, Debug)]
pub struct Header {
    pub max_stack: u16,
    pub locals: u32,
    /// The place of the code.
    pub code_at: u32,
    pub code_size: u32,
    pub has_sections: bool,
}

/// How many of the bytes the body at their front has: its header, its code and its sections (ECMA-335 II.25.4). None
/// exactly where no header stands there whole, or they don't fit into the bytes.
pub fn body_length(bytes: &[u8]) -> Option<usize>
    ensures value { result ≡ body_length_of bytes.now }
    ensures within { IfSome result (λ size. size ≤ length bytes.now) }
{
    let header = read_header(bytes)?;
    body_end(bytes, header)
}

/// The header of a body that ends where the bytes do.
pub(crate) fn whole_header(bytes: &[u8]) -> Option<Header>
    ensures value { result ≡ whole_header_of bytes.now }
    ensures within { IfSome result (λ header. header.code_at + header.code_size ≤ length bytes.now) }
{
    let header = read_header(bytes)?;
    let end = body_end(bytes, header)?;
    if end == bytes.len() {
        Some(header)
    } else {
        None
    }
}

/// The header at the front of the bytes, if one stands there whole.
fn read_header(bytes: &[u8]) -> Option<Header>
    ensures { result ≡ header_of bytes.now }
{
    let first = *bytes.first()?;
    if first % 4 == 2 {
        return Some(Header {
            max_stack: TINY_MAX_STACK,
            locals: 0,
            code_at: 1,
            code_size: (first / 4) as u32,
            has_sections: false,
        });
    }
    if first % 4 != 3 || bytes.len() < FAT_HEADER || bytes[1] / 16 != 3 {
        return None;
    }
    Some(Header {
        max_stack: half_at(bytes, 2),
        locals: word_at(bytes, 8),
        code_at: 12,
        code_size: word_at(bytes, 4),
        has_sections: first / 8 % 2 == 1,
    })
}

/// Where the body under a header ends, if its code and its sections fit into the bytes.
fn body_end(bytes: &[u8], header: Header) -> Option<usize>
    ensures value { result ≡ body_end_of bytes.now header }
    ensures within { IfSome result (λ end. header.code_at + header.code_size ≤ end) }
    ensures fits { IfSome result (λ end. end ≤ length bytes.now) }
{
    let code_end = header.code_at as usize + header.code_size as usize;
    if bytes.len() < code_end {
        return None;
    }
    if header.has_sections {
        sections_end(bytes, aligned(code_end))
    } else {
        Some(code_end)
    }
}
