ghost use Rattle.std.specs.Prelude.{◌≡◌, ◌+◌, ◌*◌, ◌≤◌, ◌<◌, ◌^◌, length, OnOk, IfSome};
ghost use Rattle.pe_image.specs.Conditions.{Answers};
ghost use Rattle.pe_image.specs.Sections.{section_at as section_in, sections_at, IsWhole, ArePartsWhole, headers_fit};
ghost use Rattle.pe_image.specs.Sections.{parts_fit, holds as holds_in, place_of as place_in};
ghost use Rattle.pe_image.specs.Sections.{section_of as section_of_in};

use crate::bytes::{fits, word_at};
use crate::fault::PeFault;

/// The size of a section's header.
pub(crate) const SECTION_HEADER: usize = 40;

/// A part of a file, and its addresses in the image (ECMA-335 II.25.3).
#[derive(Clone, Copy, Debug)]
pub struct Section {
    /// The address of its first byte.
    pub address: u32,
    /// How many bytes of the file it has.
    pub size: u32,
    /// The place of the first of them.
    pub pointer: u32,
}

/// The section whose header stands at a place.
pub(crate) fn section_at(file: &[u8], at: usize) -> Section
    requires { at + 40 ≤ length file.now }
    ensures { result ≡ section_in file.now at }
{
    Section {
        address: word_at(file, at + 12),
        size: word_at(file, at + 16),
        pointer: word_at(file, at + 20),
    }
}

/// Whether the section has bytes for an address.
fn holds(section: Section, rva: u32) -> bool
    ensures { result ≡ holds_in rva section }
{
    section.address <= rva && rva - section.address < section.size
}

/// The headers of so many sections from a place on are whole.
pub(crate) fn check_headers(file: &[u8], count: u16, place: usize) -> Result<(), PeFault>
    requires { place < 2 ^ 48 }
    ensures answers { Answers (headers_fit file.now count place) result }
    ensures whole { OnOk result (IsWhole file.now count place) }
{
    for index in 0..count {
        let at = place + SECTION_HEADER * index as usize;
        if !fits(file, at, SECTION_HEADER) {
            return Err(PeFault::Cut(at as u64));
        }
    }
    Ok(())
}

/// The bytes of each of so many sections are there.
pub(crate) fn check_parts(file: &[u8], count: u16, place: usize) -> Result<(), PeFault>
    requires { IsWhole file.now count place }
    ensures answers { Answers (parts_fit file.now (sections_at file.now count place)) result }
    ensures within { OnOk result (ArePartsWhole file.now (sections_at file.now count place)) }
{
    for index in 0..count {
        let at = place + SECTION_HEADER * index as usize;
        let section = section_at(file, at);
        if !fits(file, section.pointer as usize, section.size as usize) {
            return Err(PeFault::Cut(section.pointer as u64));
        }
    }
    Ok(())
}

/// The place in the file of the byte of an address, and how many bytes its section has from there on; none where none
/// of so many sections holds the address.
pub(crate) fn place_of(file: &[u8], count: u16, place: usize, rva: u32) -> Option<(usize, usize)>
    requires whole { IsWhole file.now count place }
    requires parts { ArePartsWhole file.now (sections_at file.now count place) }
    ensures value { result ≡ place_in (sections_at file.now count place) rva }
    ensures within { IfSome result (λ found. found.0 + found.1 ≤ length file.now) }
{
    for index in 0..count {
        let at = place + SECTION_HEADER * index as usize;
        let section = section_at(file, at);
        if holds(section, rva) {
            let behind = (rva - section.address) as usize;
            return Some((
                section.pointer as usize + behind,
                section.size as usize - behind,
            ));
        }
    }
    None
}

/// The number of the section among so many that holds an address, counted from 0; none where none does.
pub(crate) fn section_of(file: &[u8], count: u16, place: usize, rva: u32) -> Option<u16>
    requires { IsWhole file.now count place }
    ensures { result ≡ section_of_in (sections_at file.now count place) rva }
{
    for index in 0..count {
        let at = place + SECTION_HEADER * index as usize;
        if holds(section_at(file, at), rva) {
            return Some(index);
        }
    }
    None
}
