ghost use Rattle.std.specs.Prelude.{◌≡◌, ◌+◌, ◌<◌, ◌≤◌, ◌^◌, ◌==◌, length, position, OnOk, IfOk, IfSome};
ghost use Rattle.std.specs.Option.{option_map};
ghost use Rattle.std.specs.Str.{bytes_eq};
ghost use Rattle.pe_image.specs.Conditions.{Answers};
ghost use Rattle.pe_image.specs.Streams.{root_conditions, header_conditions, stream_conditions, stream_at, streams_at};
ghost use Rattle.pe_image.specs.Streams.{stream_count, streams_place, header_size as size_of_header};
ghost use Rattle.pe_image.specs.Streams.{name_length as name_length_in, bytes_of, stream_named, header as header_in};
ghost use Rattle.pe_image.specs.Streams.{whole_streams, AreWhole, AreWithin, metadata_conditions, stream};

use crate::bytes::{fits, half_at, part, word_at};
use crate::fault::PeFault;

/// "BSJB", with which a metadata root begins.
const SIGNATURE: u32 = 0x424A_5342;

/// The root is one of metadata, and whole as far as the headers of its streams (ECMA-335 II.24.2.1). Their place and
/// number. The root stands at `at` in the file.
pub(crate) fn check_root(root: &[u8], at: usize) -> Result<(usize, u16), PeFault>
    requires { at < 2 ^ 32 }
    ensures answers { Answers (root_conditions at root.now) result }
    ensures place { IfOk result (λ found. found.0 ≡ streams_place root.now) }
    ensures count { IfOk result (λ found. found.1 ≡ stream_count root.now) }
{
    if !fits(root, 0, 4) {
        return Err(PeFault::Cut(at as u64));
    }
    if word_at(root, 0) != SIGNATURE {
        return Err(PeFault::NoCliHeader);
    }
    if !fits(root, 0, 16) {
        return Err(PeFault::Cut(at as u64));
    }
    let place = 16 + word_at(root, 12) as usize + 4;
    if !fits(root, 0, place) {
        return Err(PeFault::Cut(at as u64));
    }
    Ok((place, half_at(root, place - 2)))
}

/// The length of the name at a place, which ends with a zero byte.
fn name_length(root: &[u8], at: usize) -> Option<usize>
    requires { at < 2 ^ 48 }
    ensures value { result ≡ name_length_in root.now at }
    ensures within { IfSome result (λ size. at + size < length root.now) }
{
    if at > root.len() {
        return None;
    }
    zero_place(&root[at..])
}

/// The place of the first zero byte.
fn zero_place(bytes: &[u8]) -> Option<usize>
    ensures value { result ≡ position (λ byte. byte == 0) bytes.now }
    ensures within { IfSome result (λ place. place < length bytes.now) }
{
    bytes.iter().position(|byte| *byte == 0)
}

/// The size of the header whose name has this length.
fn header_size(name: usize) -> usize
    requires { name < 2 ^ 60 }
    ensures { result ≡ size_of_header name }
{
    8 + (name + 4) / 4 * 4
}

/// The size of the header at a place, and the length of the name in it, if it is whole.
fn header(root: &[u8], at: usize) -> Option<(usize, usize)>
    requires at { at < 2 ^ 40 }
    requires few { length root.now < 2 ^ 32 }
    ensures value { result ≡ header_in root.now at }
    ensures whole { IfSome result (λ found. at + found.0 ≤ length root.now) }
    ensures name { IfSome result (λ found. at + 8 + found.1 ≤ length root.now) }
{
    let length = name_length(root, at + 8)?;
    let size = header_size(length);
    if fits(root, at, size) {
        Some((size, length))
    } else {
        None
    }
}

/// The headers of so many streams from a place on are whole. The root stands at `at` in the file.
pub(crate) fn check_headers(root: &[u8], at: usize, count: u16, place: usize) -> Result<(), PeFault>
    requires at { at < 2 ^ 32 }
    requires place { place ≤ length root.now }
    requires few { length root.now < 2 ^ 32 }
    ensures answers { Answers (header_conditions at (streams_at root.now count place)) result }
    ensures whole { OnOk result (AreWhole root.now count place) }
{
    let mut place = place;
    let mut left = count;
    while left > 0 {
        match header(root, place) {
            Some((size, _)) => place += size,
            None => return Err(PeFault::Cut((at + place) as u64)),
        }
        left -= 1;
    }
    Ok(())
}

/// The bytes of each of so many streams are there.
pub(crate) fn check_streams(root: &[u8], at: usize, count: u16, place: usize) -> Result<(), PeFault>
    requires at { at < 2 ^ 32 }
    requires place { place ≤ length root.now }
    requires few { length root.now < 2 ^ 32 }
    requires whole { AreWhole root.now count place }
    ensures answers { Answers (stream_conditions at root.now (whole_streams (streams_at root.now count place))) result }
    ensures within { OnOk result (AreWithin root.now
        (whole_streams (streams_at root.now count place))) }
{
    let mut place = place;
    let mut left = count;
    while left > 0 {
        let Some((size, _)) = header(root, place) else {
            return Ok(());
        };
        let begin = word_at(root, place) as usize;
        if !fits(root, begin, word_at(root, place + 4) as usize) {
            return Err(PeFault::Cut((at + begin) as u64));
        }
        place += size;
        left -= 1;
    }
    Ok(())
}

/// The streams of a root that stands at `at` in the file are whole, and the one of the tables is there. The number and
/// the place of their headers.
pub(crate) fn check_metadata(root: &[u8], at: usize) -> Result<(u16, usize), PeFault>
    requires at { at < 2 ^ 32 }
    requires few { length root.now < 2 ^ 32 }
    ensures answers { Answers (metadata_conditions at root.now) result }
    ensures count { IfOk result (λ found. found.0 ≡ stream_count root.now) }
    ensures place { IfOk result (λ found. found.1 ≡ streams_place root.now) }
    ensures inside { IfOk result (λ found. found.1 ≤ length root.now) }
    ensures whole { IfOk result (λ found. AreWhole root.now found.0 found.1) }
    ensures within { IfOk result (λ found. AreWithin root.now (whole_streams (streams_at root.now found.0 found.1))) }
{
    let (place, count) = match check_root(root, at) {
        Ok(found) => found,
        Err(fault) => return Err(fault),
    };
    match check_headers(root, at, count, place) {
        Ok(()) => {}
        Err(fault) => return Err(fault),
    }
    match check_streams(root, at, count, place) {
        Ok(()) => {}
        Err(fault) => return Err(fault),
    }
    match find_stream(root, count, place, b"#~".as_slice()) {
        Some(_) => Ok((count, place)),
        None => Err(PeFault::NoCliHeader),
    }
}

/// The bytes of the stream of a name; a stream that isn't there is empty.
pub(crate) fn named<'a>(root: &'a [u8], count: u16, place: usize, name: &[u8]) -> &'a [u8]
    requires count { count ≡ stream_count root.now }
    requires place { place ≡ streams_place root.now }
    requires inside { place ≤ length root.now }
    requires few { length root.now < 2 ^ 32 }
    requires whole { AreWhole root.now count place }
    requires within { AreWithin root.now (whole_streams (streams_at root.now count place)) }
    ensures { result.now ≡ stream name.now root.now }
{
    match find_stream(root, count, place, name) {
        Some(bytes) => bytes,
        None => &root[..0],
    }
}

/// Whether the header at a place, with a name of this size, has the name.
fn is_named(root: &[u8], place: usize, size: usize, name: &[u8]) -> bool
    requires { place + 8 + size ≤ length root.now }
    ensures { result ≡ bytes_eq (stream_at root.now place size).name name.now }
{
    let own = &root[place + 8..place + 8 + size];
    own == name
}

/// The bytes of the first of so many streams that has the name, if one has it.
pub(crate) fn find_stream<'a>(
    root: &'a [u8],
    count: u16,
    place: usize,
    name: &[u8],
) -> Option<&'a [u8]>
    requires place { place ≤ length root.now }
    requires few { length root.now < 2 ^ 32 }
    requires whole { AreWhole root.now count place }
    requires within { AreWithin root.now (whole_streams (streams_at root.now count place)) }
    ensures { option_map (λ bytes. bytes.now) result
        ≡ option_map (bytes_of root.now) (stream_named name.now (whole_streams (streams_at root.now count place))) }
{
    let mut place = place;
    let mut left = count;
    while left > 0 {
        let Some((size, length)) = header(root, place) else {
            return None;
        };
        if is_named(root, place, length, name) {
            let begin = word_at(root, place) as usize;
            return Some(part(root, begin, word_at(root, place + 4) as usize));
        }
        place += size;
        left -= 1;
    }
    None
}
