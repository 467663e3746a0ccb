ghost use Rattle.std.specs.Prelude.{◌≡◌, ◌++◌, IfOk, OnOk};
ghost use Rattle.md_write.specs.Written.{cli_header, metadata_at as metadata_in, section_bytes};

use crate::put::{behind, put_halves, put_words, put_zeros};
use num_core::{Bytes, Memory};
use std::alloc::Global;

/// What stands in the section behind the CLI header.
#[derive(Drop)]
pub(crate) struct Section {
    /// The entry token.
    pub(crate) entry: u32,
    /// The bodies of methods.
    pub(crate) code: Bytes,
    /// The bytes of fields.
    pub(crate) data: Bytes,
    pub(crate) metadata: Bytes,
}

/// The address of the section.
pub(crate) const SECTION_AT: u64 = 0x2000;

/// The size of the CLI header.
pub(crate) const CLI_HEADER: u64 = 72;

/// Adds the CLI header (ECMA-335 II.25.3.3).
fn put_cli_header(
    bytes: &mut Bytes,
    metadata_at: u64,
    size: usize,
    entry: u32,
) -> Result<(), Memory>
    ensures { OnOk result (bytes.new ≡ bytes.old ++ cli_header metadata_at size entry) }
{
    put_words(bytes, &[CLI_HEADER])?;
    put_halves(bytes, &[2, 5])?;
    put_words(bytes, &[metadata_at, size as u64, 1, entry as u64])?;
    put_zeros(bytes, 48)?;
    Ok(())
}

/// The address of the metadata.
fn metadata_at(section: &Section) -> Result<u64, Memory>
    ensures { IfOk result (λ at. at ≡ metadata_in section.now) }
{
    match behind(SECTION_AT + CLI_HEADER, section.code.len()) {
        Ok(at) => behind(at, section.data.len()),
        Err(memory) => Err(memory),
    }
}

/// The bytes of the section.
pub(crate) fn section_of(alloc: Global, section: &Section) -> Result<Bytes, Memory>
    ensures { IfOk result (λ bytes. bytes ≡ section_bytes section.now) }
{
    let mut bytes = Bytes::new(alloc);
    let at = metadata_at(section)?;
    put_cli_header(&mut bytes, at, section.metadata.len(), section.entry)?;
    bytes.extend_from_slice(section.code.as_slice())?;
    bytes.extend_from_slice(section.data.as_slice())?;
    bytes.extend_from_slice(section.metadata.as_slice())?;
    Ok(bytes)
}
