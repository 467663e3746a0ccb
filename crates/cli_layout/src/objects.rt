//! Where the fields of an object, of a value and of a type's statics lie.
ghost use Rattle.std.specs.Prelude.{◌≡◌, ◌++◌, ◌≤◌, All, IfOk, OnOk, flat_map};
ghost use Rattle.ty_layout.specs.Objects.{boxed_bytes};
ghost use Rattle.cli_layout.specs.Told.{Tells, depth_if};
ghost use Rattle.cli_layout.specs.Types as layouts;
ghost use Rattle.ty_load.specs.Walks.{arguments as arguments_in};

use crate::definitions::Definitions;
use crate::extent::{Extent, Unlaid};
use crate::extents::{add, known_fields, primitive_field, rows_extents, types_extents};
use crate::fault::Fault;
use crate::rows::{Base, FieldRow, TypeLayout};
use num_core::{List, Memory};
use std::alloc::Global;
use ty_layout::{Field, Laid, ObjectFault, object_layout, string_size, value_layout, vector_size};
use ty_terms::{Primitive, Ty, TypeId};

/// Some fields of a definition, whose arguments have these places.
fn fields_in<D: Definitions>(
    definitions: &D,
    alloc: Global,
    env: &[Extent],
    id: TypeId,
    fields: &[FieldRow],
) -> Result<List<Field>, Fault>
    requires { All (λ field. depth_if field.ty ≤ D.deepest definitions.now) fields.now }
    ensures { Tells (layouts.fields_in (D.world definitions.now) env.now id fields.now) result }
{
    let extents = rows_extents(definitions, alloc, env, id, fields)?;
    known_fields(alloc, extents.as_slice())
}

/// The fields of an object by its class, class by class, the topmost base first, over so many classes at most.
#[cycle(parts)]
fn parts<D: Definitions>(
    definitions: &D,
    alloc: Global,
    left: usize,
    id: TypeId,
    env: &[Extent],
) -> Result<List<List<Field>>, Fault>
    ensures { Tells (layouts.parts_within left (D.world definitions.now) id env.now) result }
{
    if left == 0 {
        return Ok(List::new(alloc));
    }
    let fields = definitions.fields(alloc, id)?;
    match fields_in(definitions, alloc, env, id, fields.as_slice()) {
        Ok(part) => {
            let mut parts = parts_above(definitions, alloc, left - 1, id, env)?;
            add(&mut parts, part)?;
            Ok(parts)
        }
        Err(Fault::Not(Unlaid::TooLarge)) => {
            parts_above(definitions, alloc, left - 1, id, env)?;
            Err(Fault::Not(Unlaid::TooLarge))
        }
        Err(Fault::Not(Unlaid::NoBase(id))) => Err(Fault::Not(Unlaid::NoBase(id))),
        Err(Fault::Not(Unlaid::NoField(id, row))) => Err(Fault::Not(Unlaid::NoField(id, row))),
        Err(Fault::Memory) => Err(Fault::Memory),
    }
}

/// The same of the classes above a definition.
#[cycle(parts)]
fn parts_above<D: Definitions>(
    definitions: &D,
    alloc: Global,
    left: usize,
    id: TypeId,
    env: &[Extent],
) -> Result<List<List<Field>>, Fault>
    ensures { Tells (layouts.parts_over left (D.world definitions.now) env.now id) result }
{
    let base = match definitions.base(alloc, id)? {
        Base::Of(base) => base,
        Base::Nothing => return Ok(List::new(alloc)),
        Base::Missing => return Err(Fault::Not(Unlaid::NoBase(id))),
    };
    let Some(above) = definitions.definition(alloc, &base)? else {
        return Ok(List::new(alloc));
    };
    let args = types_extents(definitions, alloc, env, arguments(&base))?;
    parts(definitions, alloc, left, above, args.as_slice())
}

/// The arguments of a type.
fn arguments(ty: &Ty) -> &[Ty]
    ensures { result.now ≡ arguments_in ty.now }
{
    match ty {
        Ty::Named(_, args) => args.as_slice(),
        _ => &[],
    }
}

/// What the places of the arguments of a type take.
fn arguments_of<D: Definitions>(
    definitions: &D,
    alloc: Global,
    ty: &Ty,
) -> Result<List<Extent>, Memory>
    ensures { IfOk result (λ extents. extents ≡ layouts.arguments_of (D.world definitions.now) ty.now) }
{
    types_extents(definitions, alloc, &[], arguments(ty))
}

/// The fields of all parts.
fn joined(alloc: Global, parts: &[List<Field>]) -> Result<List<Field>, Memory>
    ensures { IfOk result (λ fields. fields ≡ flat_map (λ part. part) parts.now) }
{
    let mut fields = List::new(alloc);
    for part in parts {
        add_all(&mut fields, part.as_slice())?;
    }
    Ok(fields)
}

/// Adds fields at the end of a list.
fn add_all(fields: &mut List<Field>, more: &[Field]) -> Result<(), Memory>
    ensures { OnOk result (fields.new ≡ fields.old ++ more.now) }
{
    for field in more {
        add(fields, *field)?;
    }
    Ok(())
}

/// What has no fields, and so many bytes.
fn bare(alloc: Global, size: u32) -> TypeLayout
    ensures { result ≡ layouts.bare size }
{
    TypeLayout {
        fields: List::new(alloc),
        laid: Laid {
            places: List::new(alloc),
            size,
        },
    }
}

/// The object with these parts.
fn object_with(alloc: Global, parts: &[List<Field>]) -> Result<TypeLayout, Fault>
    ensures told { Tells (layouts.within layouts.itself (layouts.object_with parts.now)) result }
    ensures limit { IfOk result (λ layout. layout.laid.size ≤ 65536) }
{
    let fields = joined(alloc, parts)?;
    match object_layout(alloc, parts) {
        Ok(laid) => Ok(TypeLayout { fields, laid }),
        Err(ObjectFault::TooLarge) => Err(Fault::Not(Unlaid::TooLarge)),
        Err(ObjectFault::Memory) => Err(Fault::Memory),
    }
}

/// The value with these fields and at least so many bytes.
fn value_with(alloc: Global, fields: List<Field>, least: u32) -> Result<TypeLayout, Fault>
    ensures told { Tells (layouts.within boxed_bytes (layouts.value_with least fields)) result }
    ensures limit { IfOk result (λ layout. layout.laid.size ≤ 65536) }
{
    match value_layout(alloc, fields.as_slice(), least) {
        Ok(laid) => Ok(TypeLayout { fields, laid }),
        Err(ObjectFault::TooLarge) => Err(Fault::Not(Unlaid::TooLarge)),
        Err(ObjectFault::Memory) => Err(Fault::Memory),
    }
}

/// An object of a class.
fn class_laid<D: Definitions>(
    definitions: &D,
    alloc: Global,
    ty: &Ty,
    id: TypeId,
) -> Result<TypeLayout, Fault>
    ensures told { Tells (layouts.class_laid (D.world definitions.now) ty.now id) result }
    ensures limit { IfOk result (λ layout. layout.laid.size ≤ 65536) }
{
    let args = arguments_of(definitions, alloc, ty)?;
    let parts = parts(definitions, alloc, definitions.count(), id, args.as_slice())?;
    object_with(alloc, parts.as_slice())
}

/// A value of a value type.
fn value_laid<D: Definitions>(
    definitions: &D,
    alloc: Global,
    ty: &Ty,
    id: TypeId,
) -> Result<TypeLayout, Fault>
    ensures told { Tells (layouts.value_laid (D.world definitions.now) ty.now id) result }
    ensures limit { IfOk result (λ layout. layout.laid.size ≤ 65536) }
{
    let args = arguments_of(definitions, alloc, ty)?;
    let rows = definitions.fields(alloc, id)?;
    let fields = fields_in(definitions, alloc, args.as_slice(), id, rows.as_slice())?;
    value_with(alloc, fields, definitions.asked(id))
}

/// An object or a value of a primitive type.
fn primitive_laid<D: Definitions>(
    definitions: &D,
    alloc: Global,
    ty: &Ty,
    primitive: Primitive,
) -> Result<TypeLayout, Fault>
    ensures told { Tells (layouts.primitive_laid (D.world definitions.now) ty.now primitive) result }
    ensures limit { IfOk result (λ layout. layout.laid.size ≤ 65536) }
{
    match primitive {
        Primitive::String => Ok(bare(alloc, 16)),
        Primitive::Object => match definitions.definition(alloc, ty)? {
            Some(id) => class_laid(definitions, alloc, ty, id),
            None => Ok(bare(alloc, 8)),
        },
        _ => Ok(bare(alloc, primitive_field(primitive).size)),
    }
}

/// Where the fields of an object or a value of a type lie, the topmost base first, and how many bytes it has.
#[tactic(auto, unfolding(crate::specs::Types::laid_of))]
pub(crate) fn laid_of<D: Definitions>(
    definitions: &D,
    alloc: Global,
    ty: &Ty,
) -> Result<TypeLayout, Fault>
    ensures told { Tells (layouts.laid_of (D.world definitions.now) ty.now) result }
    ensures limit { IfOk result (λ layout. layout.laid.size ≤ 65536) }
{
    match ty {
        Ty::Prim(primitive) => primitive_laid(definitions, alloc, ty, *primitive),
        Ty::Named(id, _) => {
            if definitions.is_value(alloc, *id)? {
                value_laid(definitions, alloc, ty, *id)
            } else {
                class_laid(definitions, alloc, ty, *id)
            }
        }
        Ty::Vector(_) => Ok(bare(alloc, 16)),
        Ty::ByRef(_) | Ty::Var(_) | Ty::MVar(_) | Ty::Canon => Ok(bare(alloc, 8)),
    }
}

/// Where the static fields of a type of this definition lie.
fn statics_laid<D: Definitions>(
    definitions: &D,
    alloc: Global,
    ty: &Ty,
    id: TypeId,
) -> Result<TypeLayout, Fault>
    ensures told { Tells (layouts.statics_laid (D.world definitions.now) ty.now id) result }
    ensures limit { IfOk result (λ layout. layout.laid.size ≤ 65536) }
{
    let args = arguments_of(definitions, alloc, ty)?;
    let rows = definitions.statics(alloc, id)?;
    let fields = fields_in(definitions, alloc, args.as_slice(), id, rows.as_slice())?;
    one_part(alloc, fields)
}

/// Where the static fields of a type lie, as those of one object, and how many bytes that has.
#[tactic(auto, unfolding(crate::specs::Types::statics_of))]
pub(crate) fn statics_of<D: Definitions>(
    definitions: &D,
    alloc: Global,
    ty: &Ty,
) -> Result<TypeLayout, Fault>
    ensures told { Tells (layouts.statics_of (D.world definitions.now) ty.now) result }
    ensures limit { IfOk result (λ layout. layout.laid.size ≤ 65536) }
{
    match definitions.definition(alloc, ty)? {
        Some(id) => statics_laid(definitions, alloc, ty, id),
        None => Ok(bare(alloc, 8)),
    }
}

/// One object with these fields.
fn one_part(alloc: Global, fields: List<Field>) -> Result<TypeLayout, Fault>
    ensures told { Tells (layouts.within layouts.itself (layouts.one_part fields)) result }
    ensures limit { IfOk result (λ layout. layout.laid.size ≤ 65536) }
{
    let mut parts = List::new(alloc);
    add(&mut parts, fields)?;
    object_with(alloc, parts.as_slice())
}
