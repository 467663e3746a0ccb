ghost use Rattle.std.specs.Prelude.{◌≡◌, IfOk, map};
ghost use Rattle.ty_terms.specs.Canon.{canonical, canonical_argument, canonical_form, is_reference_type, is_value_id};

use crate::copy::add;
use crate::names::{MethodName, TypeId};
use crate::ty::{Primitive, Ty};
use num_core::{List, Memory};
use sqlite_items::Boxed;
use std::alloc::Global;

/// Whether the named type of this id is a value type.
fn is_value_type(values: &[TypeId], id: TypeId) -> bool
    ensures { result ≡ is_value_id values.now id }
{
    values.iter().any(|value| *value == id)
}

/// Whether a type is a reference type, where `values` has the named types that are value types
/// (ECMA-335 I.8.2.1).
pub fn is_reference(ty: &Ty, values: &List<TypeId>) -> bool
    ensures { result ≡ is_reference_type values.now ty.now }
{
    match ty {
        Ty::Prim(Primitive::String) | Ty::Prim(Primitive::Object) | Ty::Vector(_) | Ty::Canon =>
            true,
        Ty::Named(id, _) => !is_value_type(values.as_slice(), *id),
        Ty::Prim(_) | Ty::ByRef(_) | Ty::Var(_) | Ty::MVar(_) => false,
    }
}

/// The type with `Canon` for each argument that is a reference type, at every depth of arguments. A named type
/// is a value type exactly where `values` has its id.
#[cycle(canon)]
pub fn canon(alloc: Global, ty: &Ty, values: &List<TypeId>) -> Result<Ty, Memory>
    ensures { IfOk result (λ ty'. ty' ≡ canonical values.now ty.now) }
{
    match ty {
        Ty::Prim(primitive) => Ok(Ty::Prim(*primitive)),
        Ty::Named(id, args) => {
            let args = canon_arguments(alloc, args.as_slice(), values)?;
            Ok(Ty::Named(*id, args))
        }
        Ty::Vector(element) => {
            let element = canon(alloc, element.get(), values)?;
            Ok(Ty::Vector(Boxed::new(alloc, element)?))
        }
        Ty::ByRef(target) => {
            let target = canon(alloc, target.get(), values)?;
            Ok(Ty::ByRef(Boxed::new(alloc, target)?))
        }
        Ty::Var(number) => Ok(Ty::Var(*number)),
        Ty::MVar(number) => Ok(Ty::MVar(*number)),
        Ty::Canon => Ok(Ty::Canon),
    }
}

/// Each argument as code that is shared has it.
#[cycle(canon)]
pub fn canon_arguments(
    alloc: Global,
    args: &[Ty],
    values: &List<TypeId>,
) -> Result<List<Ty>, Memory>
    ensures { IfOk result (λ args'. args' ≡ map (canonical_argument values.now) args.now) }
{
    let mut done = List::new(alloc);
    for arg in args {
        let shared = if is_reference(arg, values) {
            Ty::Canon
        } else {
            canon(alloc, arg, values)?
        };
        add(&mut done, shared)?;
    }
    Ok(done)
}

/// The canonical form of a method: the canonical type of its owner, and each of its own arguments as shared code has
/// it. Methods of one canonical form run by one code.
pub fn canon_method(
    alloc: Global,
    name: &MethodName,
    values: &List<TypeId>,
) -> Result<MethodName, Memory>
    ensures { IfOk result (λ name'. name' ≡ canonical_form values.now name.now) }
{
    Ok(MethodName {
        owner: canon(alloc, &name.owner, values)?,
        method: name.method,
        args: canon_arguments(alloc, name.args.as_slice(), values)?,
    })
}
