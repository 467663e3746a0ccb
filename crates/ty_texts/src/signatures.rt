//! Signatures of methods, with the types that their names lead to (ECMA-335 II.23.2.1).
ghost use Rattle.std.specs.Prelude.{◌≡◌, ◌++◌, ◌∷◌, [], IfOk, OnOk};
ghost use Rattle.md_sigs.specs.Signatures.{signature};
ghost use Rattle.ty_load.specs.Members as members;
ghost use Rattle.ty_load.specs.Walks.{arguments};
ghost use Rattle.ty_names.specs.Definitions.{method_blob as method_blob_in};
ghost use Rattle.ty_names.specs.Modules.{tables_at};

use md_sigs::{MethodSig, Sig, SigFault};
use num_core::{List, Memory};
use std::alloc::Global;
use ty_load::{Names, signature_of};
use ty_names::method_blob;
use ty_terms::{MethodId, Ty, TypeId};

/// Adds a type at the end of a list.
fn add(types: &mut List<Ty>, ty: Ty) -> Result<(), Memory>
    ensures { OnOk result (types.new ≡ types.old ++ ty ∷ []) }
{
    match types.push(ty) {
        Ok(()) => Ok(()),
        Err(_) => Err(Memory),
    }
}

/// The types that a module writes as parameters, in a type and a method with so many parameters, if each is there.
fn resolved_params(
    names: &Names,
    alloc: Global,
    module: u32,
    owner: usize,
    method: usize,
    params: &[Ty],
) -> Result<Option<List<Ty>>, Memory>
    ensures { IfOk result (λ types.
        types ≡ members.signature_types names.now «module» owner method params.now) }
{
    let mut done = List::new(alloc);
    for ty in params {
        match names.resolved_type(alloc, module, owner, method, ty)? {
            Some(ty) => add(&mut done, ty)?,
            None => return Ok(None),
        }
    }
    Ok(Some(done))
}

/// A signature of a method with the types that its names lead to, in a type with so many parameters, if each is there.
fn resolved_sig(
    names: &Names,
    alloc: Global,
    module: u32,
    owner: usize,
    sig: &MethodSig,
) -> Result<Option<MethodSig>, Memory>
    ensures { IfOk result (λ found. found ≡ members.resolved_sig names.now «module» owner sig.now) }
{
    let method = sig.generic as usize;
    let Some(result) = names.resolved_result(alloc, module, owner, method, &sig.result)? else {
        return Ok(None);
    };
    let params = sig.params.as_slice();
    match resolved_params(names, alloc, module, owner, method, params)? {
        Some(params) => Ok(Some(MethodSig {
            instance: sig.instance,
            generic: sig.generic,
            params,
            result,
        })),
        None => Ok(None),
    }
}

/// The signature of a method, in the variables of a type definition and its own. None where its blob is no signature of
/// a method, or a type in it leads to nothing.
pub fn method_signature(
    names: &Names,
    alloc: Global,
    id: TypeId,
    method: MethodId,
) -> Result<Option<MethodSig>, Memory>
    ensures { IfOk result (λ sig. sig ≡ members.method_sig_if names.now id
        (signature method.module (method_blob_in (tables_at names.now method.module) method.row))) }
{
    let blob = method_blob(names.tables(method.module), method.row);
    match signature_of(alloc, blob, method.module) {
        Ok(Sig::Method(sig)) => {
            resolved_sig(names, alloc, id.module, names.parameters(id) as usize, &sig)
        }
        Ok(Sig::Field(_) | Sig::Locals(_) | Sig::Args(_)) => Ok(None),
        Err(SigFault::BadSig(_) | SigFault::SigOutside(_)) => Ok(None),
        Err(SigFault::Memory) => Err(Memory),
    }
}

/// The arguments of a type, or the list of none.
pub(crate) fn arguments_of<'a>(ty: &'a Ty, none: &'a List<Ty>) -> &'a List<Ty>
    requires { none.now ≡ [] }
    ensures { result.now ≡ arguments ty.now }
{
    match ty {
        Ty::Named(_, args) => args,
        Ty::Prim(_) | Ty::Vector(_) | Ty::ByRef(_) | Ty::Var(_) | Ty::MVar(_) | Ty::Canon => none,
    }
}
