ghost use Rattle.std.specs.Prelude.{◌≡◌, ◌<◌, length, None, true, IfErr, IfOk, OnOk};
ghost use Rattle.std.specs.List.{list_all};
ghost use Rattle.elf_file.specs.Elf.{machine_of};
ghost use Rattle.image_plan.specs.Conditions.{NamesNodes, TakesAddresses, map_fits};
ghost use Rattle.image_plan.specs.Ends.{HasEnds};
ghost use Rattle.image_plan.specs.Found.{address_in};
ghost use Rattle.image_plan.specs.Loaded.{HasPieces, HoldsImage};
ghost use Rattle.image_plan.specs.Mapped.{IsMapped};
ghost use Rattle.image_plan.specs.Places.{root_at as root_at_of, routine_begins, routines, tables_at};
ghost use Rattle.image_plan.specs.Planned.{SegmentsFit, TellsLimit, is_placeable as is_placeable_of, layout_of};
ghost use Rattle.image_plan.specs.Planned.{layout_with, map_of, parts_of, too_large};
ghost use Rattle.image_plan.specs.Tiled.{IsTiled};
ghost use Rattle.image_plan.specs.Written.{routine_bytes, text_with};

use crate::addresses::{Addresses, addresses_of};
use crate::ends::{Ends, ends_of, table_end, zeros};
use crate::fault::PlaceFault;
use crate::map::map;
use crate::names::names;
use crate::parts::parts;
use crate::pieces::Pieces;
use crate::plan::Plan;
use crate::rest::put_tables;
use crate::runtime::{ROUTINES_AT, Runtime, all_routines};
use crate::text::{put_bodies, put_number};
use elf_file::ElfLayout;
use num_core::{Bounds, Bytes, Memory};
use std::alloc::Global;

/// The address of the root, where the first table begins at an address.
#[tactic(auto, using(crate::proofs::Ending::root_is))]
fn root_at(pieces: &Pieces, begin: u64) -> Result<u64, Memory>
    requires begin { begin ≡ tables_at pieces.now }
    requires root { pieces.now.root < length pieces.now.tables }
    ensures { IfOk result (λ at. at ≡ root_at_of pieces.now) }
{
    let tables = &pieces.tables.as_slice()[..pieces.root as usize];
    match table_end(begin, tables) {
        Some(at) => Ok(at),
        None => Err(Memory),
    }
}

/// What stands behind the headers in the first segment.
fn text(
    alloc: Global,
    pieces: &Pieces,
    bounds: Bounds,
    runtime: &Runtime,
    addresses: &Addresses,
    ends: Ends,
) -> Result<Bytes, Memory>
    requires pieces { is_placeable_of pieces.now ≡ true }
    requires runtime { runtime.now.bytes ≡ routine_bytes routines }
    requires ends { HasEnds pieces.now ends }
    ensures { IfOk result (λ text. text
        ≡ text_with (address_in addresses.now.found.entries) pieces.now bounds) }
{
    let mut text = Bytes::new(alloc);
    put_number(&mut text, root_at(pieces, ends.tables_at)?)?;
    put_number(&mut text, bounds.heap)?;
    put_number(&mut text, bounds.stack)?;
    text.extend_from_slice(runtime.bytes.as_slice())?;
    let code = pieces.code.as_slice();
    put_bodies(alloc, &mut text, addresses, ends.code_at, code)?;
    Ok(text)
}

/// What the file is made of.
fn layout(
    alloc: Global,
    pieces: &Pieces,
    bounds: Bounds,
    runtime: &Runtime,
    addresses: &Addresses,
    ends: Ends,
) -> Result<ElfLayout, Memory>
    requires pieces { is_placeable_of pieces.now ≡ true }
    requires runtime { runtime.now.bytes ≡ routine_bytes routines }
    requires ends { HasEnds pieces.now ends }
    ensures { IfOk result (λ layout. layout
        ≡ layout_with (address_in addresses.now.found.entries) pieces.now bounds) }
{
    let text = text(alloc, pieces, bounds, runtime, addresses, ends)?;
    let mut rest = Bytes::new(alloc);
    put_tables(alloc, &mut rest, addresses, pieces.tables.as_slice())?;
    Ok(ElfLayout {
        text,
        rest,
        zeros: zeros(bounds),
        entry: ROUTINES_AT,
    })
}

/// The plan of pieces whose segments aren't too large.
fn plan(
    alloc: Global,
    pieces: &Pieces,
    bounds: Bounds,
    runtime: &Runtime,
    ends: Ends,
) -> Result<Plan, Memory>
    requires pieces { is_placeable_of pieces.now ≡ true }
    requires runtime { runtime.now.bytes ≡ routine_bytes routines }
    requires begins { runtime.now.begins ≡ routine_begins }
    requires ends { HasEnds pieces.now ends }
    ensures layout { IfOk result (λ plan. plan.layout ≡ layout_of pieces.now bounds) }
    ensures parts { IfOk result (λ plan. plan.parts ≡ parts_of pieces.now) }
    ensures map { IfOk result (λ plan. plan.map ≡ map_of pieces.now) }
{
    let names = names(alloc, pieces, runtime.begins.as_slice(), ends)?;
    let addresses = addresses_of(alloc, names.as_slice())?;
    let layout = layout(alloc, pieces, bounds, runtime, &addresses, ends)?;
    let parts = parts(alloc, pieces, ends)?;
    let map = map(alloc, ends.code_at, pieces.code.as_slice())?;
    Ok(Plan { layout, parts, map })
}

/// The places of pieces in an image, and the image: its segments, its parts and the map from the addresses of code to
/// offsets in CIL. The heap, of as many bytes as its bound, begins where the tables end, and the stack lies behind it.
///
/// Each routine and each piece of code begins at a multiple of 4, each table at a multiple of 8.
pub fn place(alloc: Global, pieces: &Pieces, bounds: Bounds) -> Result<Plan, PlaceFault>
    requires pieces { is_placeable_of pieces.now ≡ true }
    ensures layout { IfOk result (λ plan. plan.layout ≡ layout_of pieces.now bounds) }
    ensures parts { IfOk result (λ plan. plan.parts ≡ parts_of pieces.now) }
    ensures map { IfOk result (λ plan. plan.map ≡ map_of pieces.now) }
    ensures fits { OnOk result (too_large pieces.now bounds ≡ None) }
    // So a file can be written of it.
    ensures segments { IfOk result (λ plan. SegmentsFit plan.layout) }
    // Each byte of that file belongs to one part, and each row of the map leads into the part of its body's code.
    ensures tiled { IfOk result (λ plan. NamesNodes pieces.now → IsTiled plan.layout plan.parts) }
    ensures mapped { IfOk result (λ plan. NamesNodes pieces.now → list_all map_fits pieces.now.code ≡ true
        → IsMapped plan.parts pieces.now.code plan.map) }
    // The machine that it loads holds the pieces where they were placed, with the address that it names at each fix.
    ensures loaded { IfOk result (λ plan. HoldsImage pieces.now bounds (machine_of plan.layout)) }
    ensures fixed { IfOk result (λ plan. TakesAddresses pieces.now
        → HasPieces pieces.now (machine_of plan.layout)) }
    ensures limit { IfErr result (TellsLimit pieces.now bounds) }
{
    let runtime = all_routines(alloc)?;
    let ends = ends_of(pieces, bounds, runtime.end)?;
    Ok(plan(alloc, pieces, bounds, &runtime, ends)?)
}
