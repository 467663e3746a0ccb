//! The fields of a type, placed one behind another.
ghost use Rattle.std.specs.Prelude.{◌≡◌, ◌+◌, ◌<◌, ◌≤◌, ◌++◌, ◌∷◌, [], IfOk, OnOk};
ghost use Rattle.std.specs.Int.{next_multiple_of};
ghost use Rattle.ty_layout.specs.Fields.{bytes_of, places, end_of};
ghost use Rattle.ty_layout.specs.Objects.{boxed_bytes, object, parts_end, parts_places, value_type};
ghost use Rattle.ty_layout.specs.declared.fault.ObjectFault.TheVariants.{TooLarge};

use crate::fault::ObjectFault;
use crate::field::{Field, greatest_alignment};
use num_core::{List, Memory};
use std::alloc::Global;

/// The greatest number of bytes that an object may have, elements aside.
const OBJECT_LIMIT: u32 = 65_536;

/// Where the fields of a type lie, counted from its first byte, and how many bytes it has.
#[derive(Debug, Drop)]
pub struct Laid {
    pub places: List<u32>,
    pub size: u32,
}

/// Adds a place at the end of a list.
fn add(places: &mut List<u32>, place: u32) -> Result<(), Memory>
    ensures { OnOk result (places.new ≡ places.old ++ place ∷ []) }
{
    match places.push(place) {
        Ok(()) => Ok(()),
        Err(_) => Err(Memory),
    }
}

/// The place of a field behind others that end at a place.
fn place_of(at: u32, field: Field) -> u32
    requires { at ≤ 65536 }
    ensures place { result ≡ next_multiple_of at (bytes_of field.alignment) }
    ensures limit { result ≤ 65536 }
{
    at.next_multiple_of(field.alignment.bytes())
}

/// The place behind a field that lies at a place.
fn behind(place: u32, field: Field) -> Result<u32, ObjectFault>
    requires { place ≤ 65536 }
    ensures end { IfOk result (λ end. end ≡ place + field.size) }
    ensures limit { IfOk result (λ end. end ≤ 65536) }
    ensures large { result ≡ Err TooLarge → 65536 < place + field.size }
{
    if field.size <= OBJECT_LIMIT - place {
        Ok(place + field.size)
    } else {
        Err(ObjectFault::TooLarge)
    }
}

/// Adds the places of fields that begin behind a place, and gives the place behind them.
fn place_fields(found: &mut List<u32>, start: u32, fields: &[Field]) -> Result<u32, ObjectFault>
    requires { start ≤ 65536 }
    ensures places { OnOk result (found.new ≡ found.old ++ places start fields.now) }
    ensures end { IfOk result (λ end. end ≡ end_of start fields.now) }
    ensures limit { IfOk result (λ end. end ≤ 65536) }
    ensures large { result ≡ Err TooLarge → 65536 < end_of start fields.now }
{
    let mut at = start;
    for field in fields {
        let place = place_of(at, *field);
        match add(found, place) {
            Ok(()) => {}
            Err(_) => return Err(ObjectFault::Memory),
        }
        match behind(place, *field) {
            Ok(end) => at = end,
            Err(fault) => return Err(fault),
        }
    }
    Ok(at)
}

/// Adds the places of the fields of classes, the topmost first, and gives the place behind the last part.
fn place_parts(found: &mut List<u32>, parts: &[List<Field>]) -> Result<u32, ObjectFault>
    ensures places { OnOk result (found.new ≡ found.old ++ parts_places 8 parts.now) }
    ensures end { IfOk result (λ end. end ≡ parts_end 8 parts.now) }
    ensures limit { IfOk result (λ end. end ≤ 65536) }
    ensures large { result ≡ Err TooLarge → 65536 < parts_end 8 parts.now }
{
    let mut at = 8;
    for part in parts {
        match place_fields(found, at, part.as_slice()) {
            Ok(end) => at = end.next_multiple_of(8),
            Err(fault) => return Err(fault),
        }
    }
    Ok(at)
}

/// The layout of an object: a type word of 8 bytes, and then the instance fields of its classes, the topmost base
/// first. Each class's part is rounded up to 8. `TooLarge` comes exactly where that is more than 65,536 bytes.
pub fn object_layout(alloc: Global, parts: &[List<Field>]) -> Result<Laid, ObjectFault>
    ensures laid { IfOk result (λ laid. laid ≡ object parts.now) }
    ensures limit { IfOk result (λ laid. laid.size ≤ 65536) }
    ensures large { result ≡ Err TooLarge → 65536 < (object parts.now).size }
{
    let mut places = List::new(alloc);
    match place_parts(&mut places, parts) {
        Ok(size) => Ok(Laid { places, size }),
        Err(fault) => Err(fault),
    }
}

/// The layout of a value type with these instance fields and at least so many bytes. `TooLarge` comes exactly where a
/// boxed value has more than 65,536 bytes.
pub fn value_layout(alloc: Global, fields: &[Field], least: u32) -> Result<Laid, ObjectFault>
    ensures laid { IfOk result (λ laid. laid ≡ value_type least fields.now) }
    ensures limit { IfOk result (λ laid. boxed_bytes laid.size ≤ 65536) }
    ensures large { result ≡ Err TooLarge → 65536 < boxed_bytes (value_type least fields.now).size }
{
    let mut places = List::new(alloc);
    let end = match place_fields(&mut places, 0, fields) {
        Ok(end) => end,
        Err(fault) => return Err(fault),
    };
    let alignment = greatest_alignment(fields).bytes() as u64;
    let size = (end.max(least).max(1) as u64).next_multiple_of(alignment);
    if size <= 65_528 {
        Ok(Laid {
            places,
            size: size as u32,
        })
    } else {
        Err(ObjectFault::TooLarge)
    }
}
