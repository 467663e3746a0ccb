//! Which base a type may have, and which types are value types (ECMA-335 II.22.37, II.13).
ghost use Rattle.std.specs.Prelude.{◌≡◌, ◌&&◌, IfOk};
ghost use Rattle.ty_load.specs.Bases as bases;
ghost use Rattle.ty_load.specs.Primitives.{definition_of, system_type};

use num_core::Memory;
use std::alloc::Global;
use ty_load::Names;
use ty_names::{RowOf, row_count, type_extends, type_flags};
use ty_terms::{Ty, TypeId};

/// Whether a definition is this one.
fn is_id(id: TypeId, other: Option<TypeId>) -> bool
    ensures { result ≡ bases.is_id id other }
{
    match other {
        Some(other) => id.module == other.module && id.row == other.row,
        None => false,
    }
}

/// Whether a definition is the type of the core of a name in the namespace System.
fn is_system_type(names: &Names, alloc: Global, id: TypeId, name: &[u8]) -> Result<bool, Memory>
    ensures { IfOk result (λ is. is ≡ bases.is_id id (system_type names.now name.now)) }
{
    let found = names.system_type(alloc, name)?;
    Ok(is_id(id, found))
}

/// Whether a definition is an interface (ECMA-335 II.23.1.15).
pub fn is_interface_id(names: &Names, id: TypeId) -> bool
    ensures { result ≡ bases.is_interface_id names.now id }
{
    type_flags(names.tables(id.module), id.row) / 0x20 % 2 == 1
}

/// What a definition extends in its own variables, whether it may or not.
fn named_base(names: &Names, alloc: Global, id: TypeId) -> Result<Option<Ty>, Memory>
    ensures { IfOk result (λ base. base ≡ bases.named_base names.now id) }
{
    let index = type_extends(names.tables(id.module), id.row);
    let parameters = names.parameters(id) as usize;
    let base = names.type_at(alloc, id.module, parameters, 0, index)?;
    Ok(base)
}

/// The definition that a definition extends, whether it may or not.
fn named_base_definition(names: &Names, alloc: Global, id: TypeId) -> Result<Option<TypeId>, Memory>
    ensures { IfOk result (λ base. base ≡ bases.named_base_definition names.now id) }
{
    match named_base(names, alloc, id)? {
        Some(base) => names.definition_of(alloc, &base),
        None => Ok(None),
    }
}

/// Whether what extends this definition is a value type.
fn is_value_base(names: &Names, alloc: Global, base: Option<TypeId>) -> Result<bool, Memory>
    ensures { IfOk result (λ is. is ≡ bases.is_value_base names.now base) }
{
    let Some(base) = base else {
        return Ok(false);
    };
    let is_value = is_system_type(names, alloc, base, b"ValueType")?;
    let is_enum = is_system_type(names, alloc, base, b"Enum")?;
    Ok(is_value || is_enum)
}

/// Whether a definition is a value type: it extends System.ValueType or System.Enum, and is neither System.Enum itself
/// nor an interface (ECMA-335 II.13).
pub fn is_value_type(names: &Names, alloc: Global, id: TypeId) -> Result<bool, Memory>
    ensures { IfOk result (λ is. is ≡ bases.is_value_type names.now id) }
{
    let base = named_base_definition(names, alloc, id)?;
    let extends = is_value_base(names, alloc, base)?;
    let is_enum = is_system_type(names, alloc, id, b"Enum")?;
    Ok(extends && !is_enum && !is_interface_id(names, id))
}

/// Whether a definition is one of the types of the core under which a handed-in type can't stand.
fn is_closed_root(names: &Names, alloc: Global, id: TypeId) -> Result<bool, Memory>
    ensures { IfOk result (λ is. is ≡ bases.is_closed_root names.now id) }
{
    let is_string = is_system_type(names, alloc, id, b"String")?;
    let is_array = is_system_type(names, alloc, id, b"Array")?;
    let is_type = is_system_type(names, alloc, id, b"Type")?;
    let methods = names.core_type(alloc, b"System.Reflection", b"MethodBase")?;
    Ok(is_string || is_array || is_type || is_id(id, methods))
}

/// Whether a definition is one of these, or a type of the core that stands under one.
fn is_closed(names: &Names, alloc: Global, id: TypeId) -> Result<bool, Memory>
    ensures { IfOk result (λ is. is ≡ bases.is_closed names.now id) }
{
    let mut at = id;
    let mut left = row_count(names.tables(names.core()), 0x02);
    while 0 < left {
        if at.module != names.core() {
            return Ok(false);
        }
        if is_closed_root(names, alloc, at)? {
            return Ok(true);
        }
        match named_base_definition(names, alloc, at)? {
            Some(base) => at = base,
            None => return Ok(false),
        }
        left -= 1;
    }
    Ok(false)
}

/// Whether what an interface extends is System.Object; any other definition suits.
fn suits_interface(names: &Names, alloc: Global, id: TypeId, base: TypeId) -> Result<bool, Memory>
    ensures { IfOk result (λ suits. suits ≡ bases.suits_interface names.now id base) }
{
    let is_object = is_system_type(names, alloc, base, b"Object")?;
    Ok(!is_interface_id(names, id) || is_object)
}

/// Whether a definition may extend this one: no value type, no type of the core that is closed where the first isn't
/// the core's, and System.Object alone where the first is an interface.
pub fn may_extend(names: &Names, alloc: Global, id: TypeId, base: TypeId) -> Result<bool, Memory>
    ensures { IfOk result (λ may. may ≡ bases.may_extend names.now id base) }
{
    let is_closed = is_closed(names, alloc, base)?;
    let is_value = is_value_type(names, alloc, base)?;
    let suits = suits_interface(names, alloc, id, base)?;
    Ok((id.module == names.core() || !is_closed) && !is_value && suits)
}

/// Whether a type is a primitive one or has a name: neither a variable nor a vector nor a managed pointer.
pub fn has_definition(ty: &Ty) -> bool
    ensures { result ≡ bases.has_definition ty.now }
{
    match ty {
        Ty::Prim(_) | Ty::Named(_, _) => true,
        Ty::Vector(_) | Ty::ByRef(_) | Ty::Var(_) | Ty::MVar(_) | Ty::Canon => false,
    }
}

/// Whether a type may stand as the base of a definition.
fn is_base(names: &Names, alloc: Global, id: TypeId, ty: &Ty) -> Result<bool, Memory>
    ensures { IfOk result (λ is. is ≡ (bases.has_definition ty.now
        && bases.closed_if (bases.may_extend names.now id) (definition_of names.now ty.now))) }
{
    if !has_definition(ty) {
        return Ok(false);
    }
    match names.definition_of(alloc, ty)? {
        Some(base) => may_extend(names, alloc, id, base),
        None => Ok(false),
    }
}

/// Whether a type may stand as an interface of a definition.
fn is_interface(names: &Names, alloc: Global, ty: &Ty) -> Result<bool, Memory>
    ensures { IfOk result (λ is. is ≡ (bases.has_definition ty.now
        && bases.closed_if (bases.is_interface_id names.now) (definition_of names.now ty.now))) }
{
    if !has_definition(ty) {
        return Ok(false);
    }
    match names.definition_of(alloc, ty)? {
        Some(id) => Ok(is_interface_id(names, id)),
        None => Ok(false),
    }
}

/// A type, if it may stand as the base of a definition.
pub(crate) fn only_base(
    names: &Names,
    alloc: Global,
    id: TypeId,
    ty: Ty,
) -> Result<Option<Ty>, Memory>
    ensures { IfOk result (λ kept. kept ≡ bases.kept_if (bases.may_extend names.now id) names.now ty) }
{
    if is_base(names, alloc, id, &ty)? {
        Ok(Some(ty))
    } else {
        Ok(None)
    }
}

/// A type, if it may stand as an interface of a definition.
pub(crate) fn only_interface(names: &Names, alloc: Global, ty: Ty) -> Result<Option<Ty>, Memory>
    ensures { IfOk result (λ kept. kept ≡ bases.kept_if (bases.is_interface_id names.now) names.now ty) }
{
    if is_interface(names, alloc, &ty)? {
        Ok(Some(ty))
    } else {
        Ok(None)
    }
}

/// The base of a definition in its own variables; none where it extends nothing, or what it can't extend.
pub fn base_of(names: &Names, alloc: Global, id: TypeId) -> Result<Option<Ty>, Memory>
    ensures { IfOk result (λ base. base ≡ bases.base_of names.now id) }
{
    match named_base(names, alloc, id)? {
        Some(base) => only_base(names, alloc, id, base),
        None => Ok(None),
    }
}

/// An interface that a definition names by an index, in its own variables; none where the index leads to none.
pub fn interface_of(
    names: &Names,
    alloc: Global,
    id: TypeId,
    index: RowOf,
) -> Result<Option<Ty>, Memory>
    ensures { IfOk result (λ interface. interface ≡ bases.interface_by names.now id index) }
{
    let parameters = names.parameters(id) as usize;
    match names.type_at(alloc, id.module, parameters, 0, index)? {
        Some(interface) => only_interface(names, alloc, interface),
        None => Ok(None),
    }
}
