ghost use Rattle.std.specs.Prelude.{◌≡◌, ◌<◌, ◌^◌, ◌==◌, All, take, find, slice_get, IfOk, option_copied};
ghost use Rattle.std.specs.List.{filter_map};
ghost use Rattle.std.specs.List.Sorted.{IsNonDecreasingBy, IsPermutation};
ghost use Rattle.md_tables.specs.Finished.{held_of as held_in, rank_of, addresses_in, next_address, own_address};
ghost use Rattle.md_tables.specs.Finished.{up_to as up_to_in, data_at as data_in};

use md_rows::{Row, Table};
use num_core::Memory;
use pe_image::Image;
use std::alloc::Global;

/// The number of the table of the bytes of fields.
pub(crate) const FIELD_RVA: u8 = 0x1D;

/// The table of the bytes of fields.
fn field_table(tables: &[Table]) -> Option<&Table>
    ensures { option_copied result ≡ find (λ table. table.number == 0x1D) tables.now }
{
    tables.iter().find(|table| table.number == FIELD_RVA)
}

/// An address, and the number of the section that holds it.
#[derive(Clone, Copy, Debug)]
pub(crate) struct Held {
    pub section: u16,
    pub address: u32,
}

impl Held {
    /// Where it stands in the order of sections, and in that of addresses of one section.
    fn rank(self) -> u64
        ensures { result ≡ rank_of self }
    {
        self.section as u64 * 0x1_0000_0000 + self.address as u64
    }
}

/// An address with the section that holds it, if one does.
fn held_at(image: &Image<'_>, address: u32) -> Option<Held>
    ensures { result ≡ held_in image.now.sections address }
{
    match image.section_of(address) {
        Some(section) => Some(Held { section, address }),
        None => None,
    }
}

/// The addresses of rows that sections hold.
fn addresses_of(alloc: Global, image: &Image<'_>, rows: &[Row]) -> Result<Vec<Held>, Memory>
    ensures { IfOk result (λ held. held.items
        ≡ filter_map (λ row. held_in image.now.sections row.address) rows.now) }
{
    match rows
        .iter()
        .filter_map(|row| held_at(image, row.address))
        .collect(alloc)
    {
        Ok(held) => Ok(held),
        Err(_) => Err(Memory),
    }
}

/// An address has 32 bits.
fn is_address(one: Held)
    ensures { one.address < 2 ^ 32 }
{
    let _address = one.address;
}

/// Addresses have 32 bits.
fn are_addresses(held: &[Held])
    ensures { All (λ one. one.address < 2 ^ 32) held.now }
{
    for one in held {
        is_address(*one);
    }
}

/// The addresses in rising order, those of one section together.
fn in_order(mut held: Vec<Held>) -> Vec<Held>
    ensures rising { IsNonDecreasingBy rank_of result.items }
    ensures same { IsPermutation held.items result.items }
{
    held.sort_unstable_by_key(|one| one.rank());
    held
}

/// The addresses of the bytes of fields that sections hold, those of one section together, in rising order.
pub(crate) fn addresses(
    alloc: Global,
    image: &Image<'_>,
    tables: &[Table],
) -> Result<Vec<Held>, Memory>
    ensures rising { IfOk result (λ held. IsNonDecreasingBy rank_of held.items) }
    ensures few { IfOk result (λ held. All (λ one. one.address < 2 ^ 32) held.items) }
    ensures same { IfOk result (λ held. IsPermutation (addresses_in image.now tables.now) held.items) }
{
    let Some(table) = field_table(tables) else {
        return Ok(Vec::new(alloc));
    };
    match addresses_of(alloc, image, table.rows.as_slice()) {
        Ok(held) => {
            let held = in_order(held);
            are_addresses(&held);
            Ok(held)
        }
        Err(memory) => Err(memory),
    }
}

/// The next greater address in the section of one.
fn next_in(held: &[Held], own: Held) -> Option<u32>
    requires rising { IsNonDecreasingBy rank_of held.now }
    requires few { All (λ one. one.address < 2 ^ 32) held.now }
    ensures { result ≡ next_address own.section own.address held.now }
{
    let rank = own.rank();
    let place = held.partition_point(|other| other.rank() <= rank);
    address_at(held, place, own.section)
}

/// The address at a place of the list, if there is one and it lies in the section.
fn address_at(held: &[Held], place: usize, section: u16) -> Option<u32>
    ensures { result ≡ own_address section (slice_get held.now place) }
{
    match held.get(place) {
        Some(other) => {
            if other.section == section {
                Some(other.address)
            } else {
                None
            }
        }
        None => None,
    }
}

/// The first of the bytes, so many or all.
fn first(bytes: &[u8], size: usize) -> &[u8]
    ensures { result.now ≡ take size bytes.now }
{
    if size <= bytes.len() {
        &bytes[..size]
    } else {
        bytes
    }
}

/// The bytes at an address up to the next one.
fn up_to(bytes: &[u8], address: u32, next: Option<u32>) -> &[u8]
    ensures { result.now ≡ up_to_in address next bytes.now }
{
    match next {
        Some(next) => first(bytes, next.saturating_sub(address) as usize),
        None => bytes,
    }
}

/// The bytes of a field at an address, which end where those of the next in its section begin.
pub(crate) fn data_at<'a>(image: &'a Image<'_>, held: &[Held], address: u32) -> &'a [u8]
    requires rising { IsNonDecreasingBy rank_of held.now }
    requires few { All (λ one. one.address < 2 ^ 32) held.now }
    ensures { result.now ≡ data_in image.now held.now address }
{
    let Some(own) = held_at(image, address) else {
        return b"";
    };
    match image.at(address) {
        Some(bytes) => up_to(bytes, address, next_in(held, own)),
        None => b"",
    }
}
