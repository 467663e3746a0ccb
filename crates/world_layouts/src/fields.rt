//! The fields of a type that have a place, with their types.
ghost use Rattle.std.specs.Prelude.{◌≡◌, ◌≤◌, ◌++◌, All, IfOk, OnOk};
ghost use Rattle.ty_names.specs.Definitions as definitions;
ghost use Rattle.ty_names.specs.Definitions.{fields_of};
ghost use Rattle.ty_names.specs.Modules.{tables_at};
ghost use Rattle.cli_layout.specs.Told.{depth_if};
ghost use Rattle.world_layouts.specs.Depths.{deepest_field};
ghost use Rattle.world_layouts.specs.Rows as placed;

use cli_layout::FieldRow;
use num_core::{List, Memory};
use std::alloc::Global;
use ty_members::Members;
use ty_names::field_flags;
use ty_terms::TypeId;

/// Whether flags have a bit.
fn has_flag(flags: u32, bit: u32) -> bool
    requires { 1 ≤ bit }
    ensures { result ≡ definitions.has_flag flags bit }
{
    flags / bit % 2 == 1
}

/// Whether a field has a place among the static fields, or among those of instances: it is no literal.
fn has_place(members: &Members, id: TypeId, stands: bool, row: u32) -> bool
    ensures { result ≡ placed.has_place members.now id stands row }
{
    let flags = field_flags(members.names().tables(id.module), row);
    if has_flag(flags, 0x40) {
        return false;
    }
    if stands {
        has_flag(flags, 0x10)
    } else {
        !has_flag(flags, 0x10)
    }
}

/// Adds a field, if it has a place there.
fn add_field(
    members: &Members,
    alloc: Global,
    found: &mut List<FieldRow>,
    id: TypeId,
    stands: bool,
    row: u32,
) -> Result<(), Memory>
    ensures { OnOk result (found.new ≡ found.old ++ placed.placed_if members.now id stands row) }
{
    if has_place(members, id, stands, row) {
        let ty = members.field_sig(alloc, id, row)?;
        found.push(FieldRow { row, ty }).map_err(|_| Memory)?;
    }
    Ok(())
}

/// The static fields of a type that have a place, or those of its instances, in declared order.
pub(crate) fn fields(
    members: &Members,
    alloc: Global,
    id: TypeId,
    stands: bool,
) -> Result<List<FieldRow>, Memory>
    ensures rows { IfOk result (λ found. found
        ≡ placed.placed_among members.now id stands (fields_of (tables_at members.now id.module) id.row)) }
{
    let mut found = List::new(alloc);
    let (begin, end) = members.field_run(id);
    for row in begin..end {
        add_field(members, alloc, &mut found, id, stands, row)?;
    }
    Ok(found)
}
