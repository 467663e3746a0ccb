ghost use Rattle.std.specs.Prelude.{◌≡◌, ◌==◌, ◌<◌, List, ℕ, length, drop, position, IfSome, IfNone};
ghost use Rattle.std.specs.Option.{option_map};
ghost use Rattle.md_heaps.specs.Heaps.{IsTextInFront, blob, in_front_of_zero, units, user_string, guid};

use crate::compressed::front;

/// The text at a place of the heap of strings: the bytes up to the next zero byte (ECMA-335 II.24.2.3). None exactly
/// where there is no zero byte, or the bytes aren't UTF-8.
pub fn string_at(heap: &[u8], at: u32) -> Option<&[u8]>
    ensures found { IfSome result (λ text. IsTextInFront (drop at heap.now) text.now) }
    ensures none { IfNone result ((text : List ℕ) → ¬ (IsTextInFront (drop at heap.now) text)) }
{
    if at as usize > heap.len() {
        return None;
    }
    text_in_front(&heap[at as usize..])
}

/// The text at the front of the bytes.
fn text_in_front(bytes: &[u8]) -> Option<&[u8]>
    ensures found { IfSome result (λ text. IsTextInFront bytes.now text.now) }
    ensures none { IfNone result ((text : List ℕ) → ¬ (IsTextInFront bytes.now text)) }
{
    let text = before_zero(bytes)?;
    match std::str::from_utf8(text) {
        Ok(_) => Some(text),
        Err(_) => None,
    }
}

/// The bytes in front of the first zero byte.
fn before_zero(bytes: &[u8]) -> Option<&[u8]>
    ensures { option_map (λ text. text.now) result ≡ in_front_of_zero bytes.now }
{
    let size = zero_place(bytes)?;
    Some(&bytes[..size])
}

/// The place of the first zero byte.
fn zero_place(bytes: &[u8]) -> Option<usize>
    ensures value { result ≡ position (λ byte. byte == 0) bytes.now }
    ensures within { IfSome result (λ place. place < length bytes.now) }
{
    bytes.iter().position(|byte| *byte == 0)
}

/// The blob at a place of its heap (ECMA-335 II.24.2.4). None exactly where its length has no reading, or passes the
/// heap.
pub fn blob_at(heap: &[u8], at: u32) -> Option<&[u8]>
    ensures { option_map (λ blob. blob.now) result ≡ blob (drop at heap.now) }
{
    if at as usize > heap.len() {
        return None;
    }
    front_blob(&heap[at as usize..])
}

/// The blob at the front of the bytes.
fn front_blob(bytes: &[u8]) -> Option<&[u8]>
    ensures { option_map (λ blob. blob.now) result ≡ blob bytes.now }
{
    let (size, taken) = front(bytes)?;
    let end = taken + size as usize;
    if bytes.len() < end {
        return None;
    }
    Some(&bytes[taken..end])
}

/// The units of the user string at a place of its heap, without the byte behind them (ECMA-335 II.24.2.4). None exactly
/// where there is no blob, or its length is even and not zero.
pub fn user_string_at(heap: &[u8], at: u32) -> Option<&[u8]>
    ensures { option_map (λ text. text.now) result ≡ user_string (drop at heap.now) }
{
    let blob = blob_at(heap, at)?;
    if blob.is_empty() {
        Some(blob)
    } else if blob.len() % 2 == 0 {
        None
    } else {
        Some(&blob[..blob.len() - 1])
    }
}

/// The 16 bytes of the GUID of a number, which begins with 1 (ECMA-335 II.24.2.5); for 0, which stands for none, no
/// bytes. None exactly where the heap has too few.
pub fn guid_at(heap: &[u8], number: u32) -> Option<&[u8]>
    ensures { option_map (λ bytes. bytes.now) result ≡ guid heap.now number }
{
    if number == 0 {
        return Some(&heap[..0]);
    }
    let start = 16 * (number as usize - 1);
    if heap.len() < start + 16 {
        return None;
    }
    Some(&heap[start..start + 16])
}
