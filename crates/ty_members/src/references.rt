//! Members that a module names of other types (ECMA-335 II.22.25).
ghost use Rattle.std.specs.Prelude.{◌≡◌, IfOk};
ghost use Rattle.std.specs.Option.{option_and_then, option_map};
ghost use Rattle.ty_load.specs.Bases as bases;
ghost use Rattle.ty_load.specs.Members as specs;
ghost use Rattle.ty_load.specs.Tokens as tokens;
ghost use Rattle.ty_load.specs.Types.{resolved_type};

use crate::fields::is_usable_field;
use crate::members::Members;
use crate::signatures::resolved_sig;
use md_sigs::MethodSig;
use num_core::{List, Memory};
use std::alloc::Global;
use ty_load::Names;
use ty_terms::{FieldName, MethodId, MethodName, Ty, TypeId};

/// Whether a type is neither a variable nor a vector nor a managed pointer.
fn has_definition(ty: &Ty) -> bool
    ensures { result ≡ bases.has_definition ty.now }
{
    matches!(ty, Ty::Prim(_) | Ty::Named(_, _))
}

/// Whether the name of a member of the core is one that can't be named from outside.
fn is_hidden(name: &[u8]) -> bool
    ensures { result ≡ specs.is_hidden name.now }
{
    match name.first() {
        Some(byte) => *byte == 0x24,
        None => false,
    }
}

/// Whether a module may name a member of a type.
fn may_name(names: &Names, module: u32, id: TypeId, name: &[u8]) -> bool
    ensures { result ≡ specs.may_name names.now «module» id name.now }
{
    module == names.core() || id.module != names.core() || !is_hidden(name)
}

/// The definition of a parent that has members, where a module may name one of this name.
fn member_owner(
    alloc: Global,
    names: &Names,
    module: u32,
    name: &[u8],
    parent: &Ty,
) -> Result<Option<TypeId>, Memory>
    ensures { IfOk result (λ id. id ≡ tokens.member_owner names.now «module» name.now parent.now) }
{
    match names.definition_of(alloc, parent)? {
        Some(id) => {
            if has_definition(parent) && may_name(names, module, id, name) {
                Ok(Some(id))
            } else {
                Ok(None)
            }
        }
        None => Ok(None),
    }
}

impl Members {
    /// The row of the method that a definition has itself with a name and a signature that a module writes.
    fn method_row(
        &self,
        alloc: Global,
        module: u32,
        name: &[u8],
        sig: &MethodSig,
        id: TypeId,
    ) -> Result<Option<u32>, Memory>
        ensures { IfOk result (λ row. row ≡ option_and_then (specs.method_of self.now id name.now)
            (specs.resolved_sig self.now «module» (bases.parameters self.now id) sig.now)) }
    {
        let names = self.names();
        match resolved_sig(alloc, names, module, names.parameters(id) as usize, sig)? {
            Some(wanted) => self.method_of(alloc, id, name, &wanted),
            None => Ok(None),
        }
    }

    /// The method of a parent with a name and a signature that a module writes, with these arguments.
    pub(crate) fn member_method(
        &self,
        alloc: Global,
        module: u32,
        name: &[u8],
        args: List<Ty>,
        sig: &MethodSig,
        parent: Ty,
    ) -> Result<Option<MethodName>, Memory>
        ensures { IfOk result (λ method.
            method ≡ tokens.member_method self.now «module» name.now args sig.now parent) }
    {
        let Some(id) = member_owner(alloc, self.names(), module, name, &parent)? else {
            return Ok(None);
        };
        match self.method_row(alloc, module, name, sig, id)? {
            Some(row) => Ok(Some(MethodName {
                owner: parent,
                method: MethodId {
                    module: id.module,
                    row,
                },
                args,
            })),
            None => Ok(None),
        }
    }

    /// The row of the field that a definition has itself with a name and a type that a module writes.
    fn field_row(
        &self,
        alloc: Global,
        module: u32,
        name: &[u8],
        ty: &Ty,
        id: TypeId,
    ) -> Result<Option<u32>, Memory>
        ensures { IfOk result (λ row. row ≡ option_and_then (specs.field_of self.now id name.now)
            (resolved_type self.now «module» (bases.parameters self.now id) 0 ty.now)) }
    {
        let names = self.names();
        match names.resolved_type(alloc, module, names.parameters(id) as usize, 0, ty)? {
            Some(wanted) => self.field_of(alloc, id, name, &wanted),
            None => Ok(None),
        }
    }

    /// The field of a parent with a name and a type that a module writes, if programs can use it.
    pub(crate) fn member_field(
        &self,
        alloc: Global,
        module: u32,
        name: &[u8],
        ty: &Ty,
        parent: Ty,
    ) -> Result<Option<FieldName>, Memory>
        ensures { IfOk result (λ field. field ≡ tokens.member_field self.now «module» name.now ty.now parent) }
    {
        let Some(id) = member_owner(alloc, self.names(), module, name, &parent)? else {
            return Ok(None);
        };
        match self.field_row(alloc, module, name, ty, id)? {
            Some(row) => {
                if is_usable_field(self.names().tables(id.module), id.row, row) {
                    Ok(Some(FieldName { owner: parent, row }))
                } else {
                    Ok(None)
                }
            }
            None => Ok(None),
        }
    }
}
