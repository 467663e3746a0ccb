ghost use Rattle.std.specs.Prelude.{◌≡◌, ◌+◌, ◌*◌, ◌≤◌, ◌<◌, ◌^◌, length, None, Some, IfOk, IfErr};
ghost use Rattle.std.specs.Option.{option_map};
ghost use Rattle.pe_image.specs.Conditions.{Answers, first_fault};
ghost use Rattle.pe_image.specs.Sections.{sections_at, IsWhole, ArePartsWhole, bytes_from, section_of};
ghost use Rattle.pe_image.specs.Pe.{conditions, parts_of, optional_place, section_count, sections_place};
ghost use Rattle.pe_image.specs.Pe.{metadata as metadata_in, metadata_place, metadata_size};

use crate::bytes::{half_at, part, word_at};
use crate::cli::{Located, Sections, locate};
use crate::fault::PeFault;
use crate::headers::check_headers;
use crate::{section, stream};
use std::marker::Model;

/// An assembly's image: the streams of its metadata, its entry token, and the bytes at its addresses.
#[derive(Drop)]
pub struct Image<'a> {
    /// The stream of the tables, `#~`.
    pub tables: &'a [u8],
    /// The heap of names.
    pub strings: &'a [u8],
    /// The heap of user strings.
    pub user: &'a [u8],
    /// The heap of GUIDs.
    pub guid: &'a [u8],
    /// The heap of blobs.
    pub blob: &'a [u8],
    /// The token of the method at which a program begins.
    pub entry: u32,
    file: &'a [u8],
    section_count: u16,
    section_place: usize,
}

impl<'a> Model for Image<'a> {
    ghost use Rattle.pe_image.specs.Pe.{Parts};
    ghost use Rattle.pe_image.specs.Sections.{sections_at, IsWhole, ArePartsWhole};

    ghost Value = { Parts };

    ghost view = { λ image. record {
      tables = image.tables.now;
      strings = image.strings.now;
      user = image.user.now;
      guid = image.guid.now;
      blob = image.blob.now;
      entry = image.entry;
      file = image.file.now;
      sections = sections_at image.file.now image.section_count image.section_place;
    } };

    ghost invariant = { λ image. IsWhole image.file.now image.section_count image.section_place
        × ArePartsWhole image.file.now (sections_at image.file.now image.section_count image.section_place) };
}

/// The image in the bytes of a file.
///
/// `NotPe`, `NoCliHeader` and `Cut` each tell the first condition of the format that doesn't hold, in the order of
/// headers, sections, the CLI header, the metadata root and its streams. `Cut` tells the place of what isn't whole.
pub fn open_image(bytes: &[u8]) -> Result<Image<'_>, PeFault>
    requires { length bytes.now < 2 ^ 32 }
    ensures opened { IfOk result (λ image. image ≡ parts_of bytes.now) }
    ensures holds { IfOk result (λ image. first_fault (conditions bytes.now) ≡ None) }
    ensures refused { IfErr result (λ fault. first_fault (conditions bytes.now) ≡ Some fault) }
{
    let optional = match check_headers(bytes) {
        Ok(optional) => optional,
        Err(fault) => return Err(fault),
    };
    let sections = sections(bytes, optional);
    match section::check_headers(bytes, sections.count, sections.place) {
        Ok(()) => {}
        Err(fault) => return Err(fault),
    }
    match section::check_parts(bytes, sections.count, sections.place) {
        Ok(()) => {}
        Err(fault) => return Err(fault),
    }
    let located = match locate(bytes, optional, sections) {
        Ok(located) => located,
        Err(fault) => return Err(fault),
    };
    let root = metadata(bytes, located);
    let (count, place) = match stream::check_metadata(root, located.metadata) {
        Ok(found) => found,
        Err(fault) => return Err(fault),
    };
    Ok(Image {
        tables: stream::named(root, count, place, b"#~".as_slice()),
        strings: stream::named(root, count, place, b"#Strings".as_slice()),
        user: stream::named(root, count, place, b"#US".as_slice()),
        guid: stream::named(root, count, place, b"#GUID".as_slice()),
        blob: stream::named(root, count, place, b"#Blob".as_slice()),
        entry: word_at(bytes, located.cli + 20),
        file: bytes,
        section_count: sections.count,
        section_place: sections.place,
    })
}

/// The bytes of the metadata.
fn metadata(file: &[u8], located: Located) -> &[u8]
    requires place { located.metadata ≡ metadata_place file.now }
    requires size { located.size ≡ metadata_size file.now }
    requires within { located.metadata + located.size ≤ length file.now }
    ensures bytes { result.now ≡ metadata_in file.now }
    ensures few { length result.now ≤ length file.now }
{
    part(file, located.metadata, located.size)
}

/// The sections of a file whose optional header stands at a place.
fn sections(file: &[u8], optional: usize) -> Sections
    requires place { optional ≡ optional_place file.now }
    requires whole { optional_place file.now ≤ length file.now }
    requires few { length file.now < 2 ^ 32 }
    ensures near { result.place < 2 ^ 48 }
    ensures count { result.count ≡ section_count file.now }
    ensures place { result.place ≡ sections_place file.now }
{
    Sections {
        count: half_at(file, optional - 18),
        place: optional + half_at(file, optional - 4) as usize,
    }
}

impl<'a> Image<'a> {
    /// The bytes from an address to the end of its section's part of the file; none exactly where no section holds the
    /// address.
    pub fn at(&self, rva: u32) -> Option<&[u8]>
        ensures { option_map (λ bytes. bytes.now) result ≡ bytes_from self.now.file self.now.sections rva }
    {
        let (place, size) = section::place_of(
            self.file,
            self.section_count,
            self.section_place,
            rva,
        )?;
        Some(part(self.file, place, size))
    }

    /// The number of the section that holds an address, counted from 0; none exactly where no section does.
    pub fn section_of(&self, rva: u32) -> Option<u16>
        ensures { result ≡ section_of self.now.sections rva }
    {
        section::section_of(self.file, self.section_count, self.section_place, rva)
    }
}
