//! One step upward: the base and the interfaces of a definition and of a type (ECMA-335 II.22.37, II.22.23).
ghost use Rattle.std.specs.Prelude.{◌≡◌, [], IfOk};
ghost use Rattle.ty_terms.specs.Subst.{substituted};
ghost use Rattle.ty_load.specs.Bases.{is_interface_id as is_interface_in, kept_if, may_extend as may_extend_in};
ghost use Rattle.ty_load.specs.Primitives.{definition_of};
ghost use Rattle.ty_load.specs.Told.{IsToldIn, row_name};
ghost use Rattle.ty_load.specs.Tokens.{or_unresolved, type_by as type_by_in};
ghost use Rattle.ty_load.specs.Walks as walks;
ghost use Rattle.ty_walks.specs.Above.{array_of, base_or_none, implementer as implementer_in};

use crate::bases::{only_base, only_interface};
use num_core::{List, Memory};
use std::alloc::Global;
use ty_load::{Names, TypeFault};
use ty_names::{RowOf, type_extends};
use ty_terms::{Ty, TypeId, subst};

/// The variables of a definition.
pub fn own_variables(names: &Names, alloc: Global, id: TypeId) -> Result<List<Ty>, Memory>
    ensures { IfOk result (λ variables. variables ≡ walks.own_variables names.now id) }
{
    let mut variables = List::new(alloc);
    let count = names.parameters(id);
    for number in 0..count {
        variables.push(Ty::Var(number)).map_err(|_| Memory)?;
    }
    Ok(variables)
}

/// The type that a definition names by an index, in its own variables.
fn named_type(names: &Names, alloc: Global, id: TypeId, index: RowOf) -> Result<Ty, TypeFault>
    ensures { IsToldIn names.now result (type_by_in names.now id.module
        (row_name names.now id.module index) (walks.own_variables names.now id) [] index) }
{
    match own_variables(names, alloc, id) {
        Ok(variables) => {
            let none = List::new(alloc);
            names.type_by(alloc, id.module, index, &variables, &none, index)
        }
        Err(_) => Err(TypeFault::Memory),
    }
}

/// A type if it may stand as the base of a definition.
fn kept_base(
    names: &Names,
    alloc: Global,
    id: TypeId,
    index: RowOf,
    ty: Ty,
) -> Result<Ty, TypeFault>
    ensures { IsToldIn names.now result (or_unresolved (row_name names.now id.module index)
        (kept_if (may_extend_in names.now id) names.now ty)) }
{
    match only_base(names, alloc, id, ty) {
        Ok(Some(ty)) => Ok(ty),
        Ok(None) => Err(TypeFault::Unresolved(id.module, index)),
        Err(_) => Err(TypeFault::Memory),
    }
}

/// A type if it may stand as an interface of a definition.
fn kept_interface(
    names: &Names,
    alloc: Global,
    id: TypeId,
    index: RowOf,
    ty: Ty,
) -> Result<Ty, TypeFault>
    ensures { IsToldIn names.now result (or_unresolved (row_name names.now id.module index)
        (kept_if (is_interface_in names.now) names.now ty)) }
{
    match only_interface(names, alloc, ty) {
        Ok(Some(ty)) => Ok(ty),
        Ok(None) => Err(TypeFault::Unresolved(id.module, index)),
        Err(_) => Err(TypeFault::Memory),
    }
}

/// What a definition names as its base, if it may stand there.
fn base_named(names: &Names, alloc: Global, id: TypeId, index: RowOf) -> Result<Ty, TypeFault>
    ensures { IsToldIn names.now result (walks.named_if (may_extend_in names.now id) names.now id index) }
{
    match named_type(names, alloc, id, index) {
        Ok(ty) => kept_base(names, alloc, id, index, ty),
        Err(fault) => Err(fault),
    }
}

/// The base of a definition in its own variables, none where it extends nothing; or why it has none.
pub fn base_by(names: &Names, alloc: Global, id: TypeId) -> Result<Option<Ty>, TypeFault>
    ensures { IsToldIn names.now result (walks.base_by names.now id) }
{
    let index = type_extends(names.tables(id.module), id.row);
    if index.row == 0 {
        return Ok(None);
    }
    match base_named(names, alloc, id, index) {
        Ok(base) => Ok(Some(base)),
        Err(fault) => Err(fault),
    }
}

/// An interface that a definition names by an index, in its own variables, or why it names none.
pub fn interface_by(names: &Names, alloc: Global, id: TypeId, index: RowOf) -> Result<Ty, TypeFault>
    ensures { IsToldIn names.now result (walks.named_if (is_interface_in names.now) names.now id index) }
{
    match named_type(names, alloc, id, index) {
        Ok(ty) => kept_interface(names, alloc, id, index, ty),
        Err(fault) => Err(fault),
    }
}

/// A type with the arguments of another in place of its variables.
fn with_arguments(alloc: Global, ty: &Ty, inner: &Ty) -> Result<Ty, Memory>
    ensures { IfOk result (λ placed. placed ≡ substituted (walks.arguments ty.now) [] inner.now) }
{
    let none = List::new(alloc);
    match ty {
        Ty::Named(_, args) => subst(alloc, inner, args, &none),
        Ty::Prim(_) | Ty::Vector(_) | Ty::ByRef(_) | Ty::Var(_) | Ty::MVar(_) | Ty::Canon => subst(
            alloc, inner, &none, &none,
        ),
    }
}

/// The base of a definition with the arguments of a type.
fn base_with(names: &Names, alloc: Global, ty: &Ty, id: TypeId) -> Result<Option<Ty>, TypeFault>
    ensures { IsToldIn names.now result (walks.base_with ty.now (walks.base_by names.now id)) }
{
    match base_by(names, alloc, id) {
        Ok(Some(base)) => match with_arguments(alloc, ty, &base) {
            Ok(base) => Ok(Some(base)),
            Err(_) => Err(TypeFault::Memory),
        },
        Ok(None) => Ok(None),
        Err(fault) => Err(fault),
    }
}

/// What stands above a type by its definition, if it has one.
fn base_by_definition(names: &Names, alloc: Global, ty: &Ty) -> Result<Option<Ty>, TypeFault>
    ensures { IsToldIn names.now result (base_or_none names.now ty.now (definition_of names.now ty.now)) }
{
    match names.definition_of(alloc, ty) {
        Ok(Some(id)) => base_with(names, alloc, ty, id),
        Ok(None) => Ok(None),
        Err(_) => Err(TypeFault::Memory),
    }
}

/// What stands above each vector.
fn base_of_vector(names: &Names, alloc: Global) -> Result<Option<Ty>, Memory>
    ensures { IfOk result (λ base. base ≡ array_of names.now) }
{
    match names.system_type(alloc, b"Array")? {
        Some(id) => Ok(Some(names.type_of(id, List::new(alloc)))),
        None => Ok(None),
    }
}

/// What stands above a type: the base of its definition with its arguments, System.Array above a vector, and nothing
/// above a managed pointer or a variable; or why a base that is named can't stand there.
pub fn base_type(names: &Names, alloc: Global, ty: &Ty) -> Result<Option<Ty>, TypeFault>
    ensures { IsToldIn names.now result (walks.base_type names.now ty.now) }
{
    match ty {
        Ty::Prim(_) | Ty::Named(_, _) => base_by_definition(names, alloc, ty),
        Ty::Vector(_) => match base_of_vector(names, alloc) {
            Ok(base) => Ok(base),
            Err(_) => Err(TypeFault::Memory),
        },
        Ty::ByRef(_) | Ty::Var(_) | Ty::MVar(_) | Ty::Canon => Ok(None),
    }
}

/// The definition whose interfaces a type has: its own, and none for a vector, a managed pointer and a variable.
pub fn implementer(names: &Names, alloc: Global, ty: &Ty) -> Result<Option<TypeId>, Memory>
    ensures { IfOk result (λ id. id ≡ implementer_in names.now ty.now) }
{
    match ty {
        Ty::Prim(_) | Ty::Named(_, _) => names.definition_of(alloc, ty),
        Ty::Vector(_) | Ty::ByRef(_) | Ty::Var(_) | Ty::MVar(_) | Ty::Canon => Ok(None),
    }
}

/// An interface that a definition names by an index, with the arguments of a type; or why it names none.
pub fn interface_type(
    names: &Names,
    alloc: Global,
    ty: &Ty,
    id: TypeId,
    index: RowOf,
) -> Result<Ty, TypeFault>
    ensures { IsToldIn names.now result (walks.with_arguments ty.now
        (walks.named_if (is_interface_in names.now) names.now id index)) }
{
    match interface_by(names, alloc, id, index) {
        Ok(interface) => match with_arguments(alloc, ty, &interface) {
            Ok(interface) => Ok(interface),
            Err(_) => Err(TypeFault::Memory),
        },
        Err(fault) => Err(fault),
    }
}
