//! Types as a module writes them, and the types that they are (ECMA-335 II.23.2.8, II.23.2.12).
ghost use Rattle.std.specs.Prelude.{◌≡◌, ℕ, map, IfOk};
ghost use Rattle.ty_load.specs.Types as definitions;

use crate::names::Names;
use num_core::{List, Memory};
use std::alloc::Global;
use ty_terms::{Boxed, Primitive, Ty, TypeId, variables_below};

/// The table that the tag of an index in a signature names.
fn table_of_tag(tag: u32) -> u8
    ensures { result ≡ definitions.table_of_tag tag }
{
    if tag == 0 {
        0x02
    } else if tag == 1 {
        0x01
    } else {
        0x1B
    }
}

/// Whether a type is System.Void.
fn is_void(ty: &Ty) -> bool
    ensures { result ≡ definitions.is_void ty.now }
{
    matches!(ty, Ty::Prim(Primitive::Void))
}

/// A type that may stand where a result doesn't.
pub(crate) fn no_void(found: Option<Ty>) -> Option<Ty>
    ensures { result ≡ definitions.no_void found }
{
    match found {
        Some(ty) if !is_void(&ty) => Some(ty),
        _ => None,
    }
}

/// The definition that an index in a signature leads to.
fn indexed(names: &Names, alloc: Global, module: u32, index: u32) -> Result<Option<TypeId>, Memory>
    ensures { IfOk result (λ id. id ≡ definitions.indexed names.now «module» index) }
{
    names.definition(alloc, module, table_of_tag(index % 4), index / 4)
}

/// The type of a definition with arguments, if it takes as many.
pub(crate) fn instance(names: &Names, args: List<Ty>, id: TypeId) -> Option<Ty>
    ensures { result ≡ definitions.instance names.now args id }
{
    if names.parameters(id) as usize == args.len() {
        Some(names.type_of(id, args))
    } else {
        None
    }
}

/// A type by its index and its arguments, if all are there.
fn named(
    names: &Names,
    alloc: Global,
    module: u32,
    index: u32,
    args: Option<List<Ty>>,
) -> Result<Option<Ty>, Memory>
    ensures { IfOk result (λ ty. ty ≡ definitions.named_with names.now «module» index args) }
{
    let Some(args) = args else {
        return Ok(None);
    };
    match indexed(names, alloc, module, index)? {
        Some(id) => Ok(instance(names, args, id)),
        None => Ok(None),
    }
}

/// The vector of a type, if there is one.
fn vector(alloc: Global, element: Option<Ty>) -> Result<Option<Ty>, Memory>
    ensures { IfOk result (λ ty. ty ≡ definitions.vector_of (definitions.no_void element)) }
{
    match no_void(element) {
        Some(element) => Ok(Some(Ty::Vector(Boxed::new(alloc, element)?))),
        None => Ok(None),
    }
}

/// The managed pointer to a type, if there is one.
fn by_ref(alloc: Global, target: Option<Ty>) -> Result<Option<Ty>, Memory>
    ensures { IfOk result (λ ty. ty ≡ definitions.by_ref_of (definitions.no_void target)) }
{
    match no_void(target) {
        Some(target) => Ok(Some(Ty::ByRef(Boxed::new(alloc, target)?))),
        None => Ok(None),
    }
}

/// The type that a module writes, which may be System.Void.
#[cycle(resolved)]
pub(crate) fn resolved(
    names: &Names,
    alloc: Global,
    module: u32,
    ty: &Ty,
) -> Result<Option<Ty>, Memory>
    ensures { IfOk result (λ found. found ≡ definitions.resolved names.now «module» ty.now) }
{
    match ty {
        Ty::Prim(primitive) => Ok(Some(Ty::Prim(*primitive))),
        Ty::Named(id, args) => {
            let args = all_resolved(names, alloc, module, args.as_slice())?;
            named(names, alloc, module, id.row, args)
        }
        Ty::Vector(element) => {
            let element = resolved(names, alloc, module, element.get())?;
            vector(alloc, element)
        }
        Ty::ByRef(target) => {
            let target = resolved(names, alloc, module, target.get())?;
            by_ref(alloc, target)
        }
        Ty::Var(number) => Ok(Some(Ty::Var(*number))),
        Ty::MVar(number) => Ok(Some(Ty::MVar(*number))),
        Ty::Canon => Ok(None),
    }
}

/// The types that a module writes, none of them System.Void, if each is there.
#[cycle(resolved)]
pub(crate) fn all_resolved(
    names: &Names,
    alloc: Global,
    module: u32,
    types: &[Ty],
) -> Result<Option<List<Ty>>, Memory>
    ensures { IfOk result (λ found. found ≡
        definitions.all_types (map (definitions.resolved names.now «module») types.now)) }
{
    let mut done = List::new(alloc);
    for ty in types {
        let found = resolved(names, alloc, module, ty)?;
        match no_void(found) {
            Some(ty) => done.push(ty).map_err(|_| Memory)?,
            None => return Ok(None),
        }
    }
    Ok(Some(done))
}

/// A type with variables below two numbers alone.
fn bounded(found: Option<Ty>, owner: usize, method: usize) -> Option<Ty>
    ensures { result ≡ definitions.bounded owner method found }
{
    match found {
        Some(ty) if variables_below(&ty, owner, method) => Some(ty),
        _ => None,
    }
}

impl Names {
    /// The type that a module writes as a result, in a type and a method with so many parameters, if each name in it
    /// leads to a definition that takes as many arguments as stand there.
    pub fn resolved_result(
        &self,
        alloc: Global,
        module: u32,
        owner: usize,
        method: usize,
        ty: &Ty,
    ) -> Result<Option<Ty>, Memory>
        ensures { IfOk result (λ found. found ≡ definitions.resolved_result self.now «module» owner method ty.now) }
    {
        let found = resolved(self, alloc, module, ty)?;
        Ok(bounded(found, owner, method))
    }

    /// The type that a module writes anywhere else, where System.Void has no place.
    pub fn resolved_type(
        &self,
        alloc: Global,
        module: u32,
        owner: usize,
        method: usize,
        ty: &Ty,
    ) -> Result<Option<Ty>, Memory>
        ensures { IfOk result (λ found. found ≡ definitions.resolved_type self.now «module» owner method ty.now) }
    {
        let found = self.resolved_result(alloc, module, owner, method, ty)?;
        Ok(no_void(found))
    }
}
