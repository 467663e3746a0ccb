ghost use Rattle.std.specs.Prelude.{◌≡◌, ◌++◌, ◌+◌, ◌∷◌, ◌<◌, ◌^◌, [], length, IfOk, OnOk};
ghost use Rattle.md_write.specs.Contents.{padded};
ghost use Rattle.md_write.specs.Written.{root_header, stream_headers, stream_bytes, metadata_of, words};

use crate::put::{behind, padded_size, put_halves, put_padded, put_words};
use num_core::{Bytes, Memory};
use std::alloc::Global;

/// The streams of the metadata, in their order (ECMA-335 II.24.2.2).
#[derive(Drop)]
pub(crate) struct Streams {
    pub(crate) tables: Bytes,
    pub(crate) strings: Bytes,
    pub(crate) user: Bytes,
    pub(crate) guids: Bytes,
    pub(crate) blobs: Bytes,
}

/// The first four bytes of the metadata.
const SIGNATURE: u64 = 0x424A_5342;

/// The version of the runtime that compilers of today name, in 12 bytes.
const VERSION: [u8; 12] = *b"v4.0.30319\0\0";

/// The size of the root with the headers of its streams.
const ROOT_SIZE: u64 = 108;

/// Adds the root, up to the headers of the streams.
fn put_root(bytes: &mut Bytes) -> Result<(), Memory>
    ensures { OnOk result (bytes.new ≡ bytes.old ++ root_header) }
{
    put_words(bytes, &[SIGNATURE])?;
    put_halves(bytes, &[1, 1])?;
    put_words(bytes, &[0, 12])?;
    bytes.extend_from_slice(&VERSION)?;
    put_halves(bytes, &[0, 5])?;
    Ok(())
}

/// Adds the header of a stream, whose name has its zero byte.
fn put_stream_header(bytes: &mut Bytes, place: u64, size: usize, name: &[u8]) -> Result<(), Memory>
    ensures { OnOk result (bytes.new ≡ bytes.old ++ (words (place ∷ size ∷ []) ++ padded 4 name.now)) }
{
    match put_words(bytes, &[place, size as u64]) {
        Ok(()) => put_padded(bytes, 4, name),
        Err(memory) => Err(memory),
    }
}

/// Adds the headers of the streams.
fn put_stream_headers(bytes: &mut Bytes, streams: &Streams) -> Result<(), Memory>
    ensures { OnOk result (bytes.new ≡ bytes.old ++ stream_headers streams.now) }
{
    let strings_place = behind(ROOT_SIZE, streams.tables.len())?;
    let user_place = behind(strings_place, streams.strings.len())?;
    let guids_place = behind(user_place, padded_size(4, streams.user.as_slice()))?;
    let blobs_place = behind(guids_place, streams.guids.len())?;
    put_stream_header(bytes, ROOT_SIZE, streams.tables.len(), b"#~\0")?;
    put_stream_header(bytes, strings_place, streams.strings.len(), b"#Strings\0")?;
    put_stream_header(bytes, user_place, streams.user.len(), b"#US\0")?;
    put_stream_header(bytes, guids_place, streams.guids.len(), b"#GUID\0")?;
    put_stream_header(bytes, blobs_place, streams.blobs.len(), b"#Blob\0")?;
    Ok(())
}

/// Adds the bytes of the streams.
fn put_streams(bytes: &mut Bytes, streams: &Streams) -> Result<(), Memory>
    ensures { OnOk result (bytes.new ≡ bytes.old ++ stream_bytes streams.now) }
{
    bytes.extend_from_slice(streams.tables.as_slice())?;
    bytes.extend_from_slice(streams.strings.as_slice())?;
    put_padded(bytes, 4, streams.user.as_slice())?;
    bytes.extend_from_slice(streams.guids.as_slice())?;
    bytes.extend_from_slice(streams.blobs.as_slice())?;
    Ok(())
}

/// The metadata: the root and its streams.
pub(crate) fn metadata(alloc: Global, streams: &Streams) -> Result<Bytes, Memory>
    ensures { IfOk result (λ bytes. bytes ≡ metadata_of streams.now) }
{
    let mut bytes = Bytes::new(alloc);
    put_root(&mut bytes)?;
    put_stream_headers(&mut bytes, streams)?;
    put_streams(&mut bytes, streams)?;
    Ok(bytes)
}
