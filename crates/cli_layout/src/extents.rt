//! How many bytes a place of a type takes, and where it may begin.
ghost use Rattle.std.specs.Prelude.{◌≡◌, ◌++◌, ◌∷◌, ◌≤◌, [], All, IfOk, OnOk, map, slice_index_or};
ghost use Rattle.cli_layout.specs.Extents as places;
ghost use Rattle.cli_layout.specs.Extents.{all_known, extent_in, extent_with, reference, value_within};
ghost use Rattle.cli_layout.specs.Seen.{AreTrueOf};
ghost use Rattle.cli_layout.specs.Told.{Tells, depth_if};
ghost use Rattle.cli_layout.specs.declared.extent.Extent.TheVariants.{Known};

use crate::definitions::Definitions;
use crate::extent::{Extent, Unlaid};
use crate::fault::Fault;
use crate::rows::FieldRow;
use crate::seen::{Seen, extent_seen, note_seen};
use num_core::{List, Memory};
use std::alloc::Global;
use ty_layout::{Alignment, Field, ObjectFault, greatest_alignment, value_layout};
use ty_terms::{Primitive, Ty, TypeId};

/// The place of a reference.
const REFERENCE: Field = Field {
    size: 8,
    alignment: Alignment::Eight,
};

/// What a place of so many bytes takes, which begins at any of their multiples.
fn number(size: u32, alignment: Alignment) -> Field
    ensures { result ≡ places.bytes size alignment }
{
    Field { size, alignment }
}

/// What a place of a primitive type takes.
pub fn primitive_field(primitive: Primitive) -> Field
    ensures { result ≡ places.primitive_field primitive }
{
    match primitive {
        Primitive::Boolean | Primitive::I1 | Primitive::U1 => number(1, Alignment::One),
        Primitive::Char | Primitive::I2 | Primitive::U2 => number(2, Alignment::Two),
        Primitive::I4 | Primitive::U4 => number(4, Alignment::Four),
        Primitive::I8 | Primitive::U8 | Primitive::I | Primitive::U => number(8, Alignment::Eight),
        Primitive::Void | Primitive::String | Primitive::Object => REFERENCE,
    }
}

/// Adds an item at the end of a list.
pub(crate) fn add<T: Drop>(items: &mut List<T>, item: T) -> Result<(), Memory>
    ensures { OnOk result (items.new ≡ items.old ++ item ∷ []) }
{
    match items.push(item) {
        Ok(()) => Ok(()),
        Err(_) => Err(Memory),
    }
}

/// All of some fields, if the place of each is known: what leads to nothing is told first, then what is too large.
pub(crate) fn known_fields(alloc: Global, extents: &[Extent]) -> Result<List<Field>, Fault>
    ensures { Tells (all_known extents.now) result }
{
    let mut fields = List::new(alloc);
    let mut large = false;
    for extent in extents {
        match extent {
            Extent::Known(field) => add(&mut fields, *field)?,
            Extent::Unknown(Unlaid::TooLarge) => large = true,
            Extent::Unknown(unlaid) => return Err(Fault::Not(*unlaid)),
        }
    }
    if large {
        Err(Fault::Not(Unlaid::TooLarge))
    } else {
        Ok(fields)
    }
}

/// The place of a value type with these fields and at least so many bytes.
fn value_field(alloc: Global, fields: &[Field], least: u32) -> Result<Extent, Memory>
    ensures { IfOk result (λ extent. extent ≡ places.if_small (places.value_field least fields.now)) }
{
    match value_layout(alloc, fields, least) {
        Ok(laid) => Ok(Extent::Known(Field {
            size: laid.size,
            alignment: greatest_alignment(fields),
        })),
        Err(ObjectFault::TooLarge) => Ok(Extent::Unknown(Unlaid::TooLarge)),
        Err(ObjectFault::Memory) => Err(Memory),
    }
}

/// The place of a value type whose fields have these places, and which asks for so many bytes.
fn value_extent(alloc: Global, extents: &[Extent], least: u32) -> Result<Extent, Memory>
    ensures { IfOk result (λ extent. extent ≡ places.value_extent least (all_known extents.now)) }
{
    match known_fields(alloc, extents) {
        Ok(fields) => value_field(alloc, fields.as_slice(), least),
        Err(Fault::Not(unlaid)) => Ok(Extent::Unknown(unlaid)),
        Err(Fault::Memory) => Err(Memory),
    }
}

/// What was told of an argument.
fn argument(env: &[Extent], number: u32) -> Extent
    ensures { result ≡ slice_index_or env.now number (Known reference) }
{
    match env.get(number as usize) {
        Some(extent) => *extent,
        None => Extent::Known(REFERENCE),
    }
}

/// What a place of a type takes, in a definition whose arguments have these places, over so many definitions at most.
#[cycle(extents)]
fn extent<D: Definitions>(
    definitions: &D,
    seen: &mut List<Seen>,
    alloc: Global,
    left: usize,
    env: &[Extent],
    ty: &Ty,
) -> Result<Extent, Memory>
    requires { AreTrueOf (D.world definitions.now) seen.old }
    ensures told { IfOk result (λ extent. extent ≡ extent_in left (D.world definitions.now) env.now ty.now) }
    ensures seen { OnOk result (AreTrueOf (D.world definitions.now) seen.new) }
{
    match ty {
        Ty::Prim(primitive) => Ok(Extent::Known(primitive_field(*primitive))),
        Ty::Named(id, args) => {
            if !definitions.is_value(alloc, *id)? {
                return Ok(Extent::Known(REFERENCE));
            }
            let args = extents(definitions, seen, alloc, left, env, args.as_slice())?;
            value(definitions, seen, alloc, left, *id, args.as_slice())
        }
        Ty::Var(number) => Ok(argument(env, *number)),
        Ty::Vector(_) | Ty::ByRef(_) | Ty::MVar(_) | Ty::Canon => Ok(Extent::Known(REFERENCE)),
    }
}

/// The same of each type of a list.
#[cycle(extents)]
fn extents<D: Definitions>(
    definitions: &D,
    seen: &mut List<Seen>,
    alloc: Global,
    left: usize,
    env: &[Extent],
    types: &[Ty],
) -> Result<List<Extent>, Memory>
    requires { AreTrueOf (D.world definitions.now) seen.old }
    ensures told { IfOk result (λ extents.
        extents ≡ map (extent_in left (D.world definitions.now) env.now) types.now) }
    ensures seen { OnOk result (AreTrueOf (D.world definitions.now) seen.new) }
{
    let mut done = List::new(alloc);
    for ty in types {
        let found = extent(definitions, seen, alloc, left, env, ty)?;
        add(&mut done, found)?;
    }
    Ok(done)
}

/// What a place of a value type takes, by its definition and what those of its arguments take.
#[cycle(extents)]
fn value<D: Definitions>(
    definitions: &D,
    seen: &mut List<Seen>,
    alloc: Global,
    left: usize,
    id: TypeId,
    env: &[Extent],
) -> Result<Extent, Memory>
    requires { AreTrueOf (D.world definitions.now) seen.old }
    ensures told { IfOk result (λ extent. extent ≡ value_within left (D.world definitions.now) id env.now) }
    ensures seen { OnOk result (AreTrueOf (D.world definitions.now) seen.new) }
{
    if left == 0 {
        return Ok(Extent::Known(number(1, Alignment::One)));
    }
    if let Some(extent) = extent_seen(seen.as_slice(), left, id, env) {
        return Ok(extent);
    }
    let fields = definitions.fields(alloc, id)?;
    let extents = each_extent(
        definitions,
        seen,
        alloc,
        left - 1,
        env,
        id,
        fields.as_slice(),
    )?;
    let extent = value_extent(alloc, extents.as_slice(), definitions.asked(id))?;
    note_seen(seen, alloc, left, id, env, extent)?;
    Ok(extent)
}

/// What the places of fields of a definition take.
#[cycle(extents)]
fn each_extent<D: Definitions>(
    definitions: &D,
    seen: &mut List<Seen>,
    alloc: Global,
    left: usize,
    env: &[Extent],
    id: TypeId,
    fields: &[FieldRow],
) -> Result<List<Extent>, Memory>
    requires depth { All (λ field. depth_if field.ty ≤ D.deepest definitions.now) fields.now }
    requires seen { AreTrueOf (D.world definitions.now) seen.old }
    ensures told { IfOk result (λ extents. extents ≡
        places.rows_extents (extent_in left (D.world definitions.now) env.now) id fields.now) }
    ensures seen { OnOk result (AreTrueOf (D.world definitions.now) seen.new) }
{
    let mut done = List::new(alloc);
    for field in fields {
        let found = match &field.ty {
            Some(ty) => extent(definitions, seen, alloc, left, env, ty)?,
            None => Extent::Unknown(Unlaid::NoField(id, field.row)),
        };
        add(&mut done, found)?;
    }
    Ok(done)
}

/// What the places of types take, in a definition whose arguments have these places.
pub(crate) fn types_extents<D: Definitions>(
    definitions: &D,
    alloc: Global,
    env: &[Extent],
    types: &[Ty],
) -> Result<List<Extent>, Memory>
    ensures { IfOk result (λ extents. extents ≡ map (extent_with (D.world definitions.now) env.now) types.now) }
{
    let mut seen = List::new(alloc);
    extents(
        definitions,
        &mut seen,
        alloc,
        definitions.count(),
        env,
        types,
    )
}

/// What the places of fields of a definition take, whose arguments have these places.
pub(crate) fn rows_extents<D: Definitions>(
    definitions: &D,
    alloc: Global,
    env: &[Extent],
    id: TypeId,
    fields: &[FieldRow],
) -> Result<List<Extent>, Memory>
    requires { All (λ field. depth_if field.ty ≤ D.deepest definitions.now) fields.now }
    ensures { IfOk result (λ extents. extents ≡
        places.rows_extents (extent_with (D.world definitions.now) env.now) id fields.now) }
{
    let mut seen = List::new(alloc);
    each_extent(
        definitions,
        &mut seen,
        alloc,
        definitions.count(),
        env,
        id,
        fields,
    )
}
