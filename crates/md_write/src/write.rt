ghost use Rattle.std.specs.Prelude.{◌≡◌, ◌⊎◌, ◌↔◌, ℕ, ◌+◌, ◌<◌, ◌^◌, length, None, Some, Err, IfOk, find};
ghost use Rattle.std.specs.Option.{option_map, option_copied};
ghost use Rattle.md_write.specs.Contents.{padded};
ghost use Rattle.md_write.specs.Heaps.{heaps_of as heaps_in};
ghost use Rattle.md_write.specs.Stream.{data_at as data_in};
ghost use Rattle.md_write.specs.Written.{has_too_many as has_too_many_in, first_too_many as first_in, image_of};
ghost use Rattle.md_write.specs.Written.{streams_with, section_of as section_in, section_bytes, file_of};
ghost use Rattle.md_write.specs.Written.{section_at};
ghost use Rattle.md_write.specs.Agreeing.{ReadsBack};

use crate::content::{code, data};
use crate::fault::WriteFault;
use crate::header::{FILE_ALIGNMENT, is_addressable, put_headers};
use crate::heaps::heaps_of;
use crate::limits::are_short;
use crate::metadata::{Streams, metadata};
use crate::put::put_padded;
use crate::section::{Section, section_of};
use crate::stream::{CODE_AT, stream};
use md_heaps::spellings_are_read;
use md_tables::{Module, Table};
use num_core::{Bytes, Memory};
use std::alloc::Global;

/// The first number of rows that tokens cannot name.
const TOO_MANY: usize = 0x100_0000;

/// Whether a table has too many rows.
fn has_too_many(table: &Table) -> bool
    ensures { result ≡ has_too_many_in table.now }
{
    table.rows.len() >= TOO_MANY
}

/// The first table that has too many rows.
fn first_table(tables: &[Table]) -> Option<&Table>
    ensures { option_copied result ≡ find has_too_many_in tables.now }
{
    tables.iter().find(|table| has_too_many(table))
}

/// The number of the first table that has too many rows.
fn first_too_many(tables: &[Table]) -> Option<u8>
    ensures { result ≡ first_in tables.now }
{
    match first_table(tables) {
        Some(table) => Some(table.number),
        None => None,
    }
}

/// Bytes with zeros behind them, up to a multiple of 4.
fn padded_copy(alloc: Global, bytes: &[u8]) -> Result<Bytes, Memory>
    ensures { IfOk result (λ copy. copy ≡ padded 4 bytes.now) }
{
    let mut copy = Bytes::new(alloc);
    put_padded(&mut copy, 4, bytes)?;
    Ok(copy)
}

/// The streams of a module's metadata, of which the bytes of the first field stand at an address.
fn streams(alloc: Global, tables: &[Table], user: &[u8], data_at: u64) -> Result<Streams, Memory>
    requires few { first_in tables.now ≡ None }
    requires data { data_at ≡ data_in tables.now }
    ensures { IfOk result (λ streams. streams ≡ streams_with (heaps_in tables.now) user.now tables.now) }
{
    let heaps = heaps_of(alloc, tables)?;
    let tables = stream(alloc, tables, &heaps, data_at)?;
    let strings = padded_copy(alloc, heaps.strings.bytes())?;
    let user = Bytes::from_slice(alloc, user)?;
    let guids = Bytes::from_slice(alloc, heaps.guids.bytes())?;
    let blobs = padded_copy(alloc, heaps.blobs.bytes())?;
    Ok(Streams {
        tables,
        strings,
        user,
        guids,
        blobs,
    })
}

/// What stands in the section of a module's file.
fn section(alloc: Global, entry: u32, user: &[u8], tables: &[Table]) -> Result<Section, Memory>
    requires { first_in tables.now ≡ None }
    ensures { IfOk result (λ section. section ≡ section_in entry user.now tables.now) }
{
    let code = code(alloc, tables)?;
    let data = data(alloc, tables)?;
    let data_at = CODE_AT + code.len() as u64;
    let streams = streams(alloc, tables, user, data_at)?;
    let metadata = metadata(alloc, &streams)?;
    Ok(Section {
        entry,
        code,
        data,
        metadata,
    })
}

/// The file of a section that has these bytes.
fn file_with(alloc: Global, section: &Section, bytes: &[u8]) -> Result<Bytes, Memory>
    requires { bytes.now ≡ section_bytes section.now }
    ensures { IfOk result (λ file. file ≡ file_of section.now) }
{
    let mut file = Bytes::new(alloc);
    put_headers(&mut file, section.entry, bytes.len())?;
    put_padded(&mut file, FILE_ALIGNMENT as usize, bytes)?;
    Ok(file)
}

/// The file of a section. One whose addresses do not have 32 bits is want of memory.
fn file(alloc: Global, section: &Section) -> Result<Bytes, Memory>
    ensures file { IfOk result (λ file. file ≡ file_of section.now) }
    ensures small { IfOk result (λ file. section_at + length file < 2 ^ 32) }
{
    let bytes = section_of(alloc, section)?;
    if !is_addressable(bytes.len()) {
        return Err(Memory);
    }
    file_with(alloc, section, bytes.as_slice())
}

/// The image of a module whose tables do not have too many rows. A blob whose length cannot be told is want of memory.
fn image(alloc: Global, module: &Module) -> Result<Bytes, Memory>
    requires { first_in «module».now.tables ≡ None }
    ensures written { IfOk result (λ image. image ≡ image_of «module».now.entry «module».now.user «module».now.tables) }
    ensures reads_back { IfOk result (λ image. ReadsBack image «module».now) }
{
    spellings_are_read();
    let entry = module.entry();
    let tables = module.tables();
    if !are_short(tables) {
        return Err(Memory);
    }
    let section = section(alloc, entry, module.user(), tables)?;
    file(alloc, &section)
}

/// The image of a module, in a PE file (ECMA-335 II.25), whose last byte is the last of its section.
///
/// The image opens, and the module that is read from it agrees with the one that was written.
/// `TooManyRows` tells the first table that has 2^24 rows or more. `Memory` comes also where an address would not fit
/// 32 bits, or a blob has 2^29 bytes or more, which no such file can tell.
pub fn write_image(alloc: Global, module: &Module) -> Result<Bytes, WriteFault>
    ensures written { IfOk result (λ image. image ≡ image_of «module».now.entry «module».now.user «module».now.tables) }
    ensures reads_back { IfOk result (λ image. ReadsBack image «module».now) }
    ensures too_many { (table : ℕ) →
        (result ≡ Err (WriteFault.TooManyRows table)) ↔ (first_in «module».now.tables ≡ Some table) }
{
    if let Some(table) = first_too_many(module.tables()) {
        return Err(WriteFault::TooManyRows(table));
    }
    match image(alloc, module) {
        Ok(image) => Ok(image),
        Err(_) => Err(WriteFault::Memory),
    }
}
