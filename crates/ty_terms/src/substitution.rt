ghost use Rattle.std.specs.Prelude.{◌≡◌, IfOk, map, slice_index_or};
ghost use Rattle.std.specs.List.{list_all};
ghost use Rattle.ty_terms.specs.Subst.{substituted, has_variables_below};

use crate::copy::add;
use crate::ty::Ty;
use num_core::{List, Memory};
use sqlite_items::Boxed;
use std::alloc::Global;

/// Whether each `Var` of a type is below the one number and each `MVar` below the other.
#[cycle(variables)]
pub fn variables_below(ty: &Ty, owner: usize, method: usize) -> bool
    ensures { result ≡ has_variables_below owner method ty.now }
{
    match ty {
        Ty::Var(number) => (*number as usize) < owner,
        Ty::MVar(number) => (*number as usize) < method,
        Ty::Named(_, args) => all_variables_below(args.as_slice(), owner, method),
        Ty::Vector(inner) | Ty::ByRef(inner) => variables_below(inner.get(), owner, method),
        Ty::Prim(_) | Ty::Canon => true,
    }
}

/// The same of each type of a list.
#[cycle(variables)]
pub fn all_variables_below(types: &[Ty], owner: usize, method: usize) -> bool
    ensures { result ≡ list_all (has_variables_below owner method) types.now }
{
    for ty in types {
        if !variables_below(ty, owner, method) {
            return false;
        }
    }
    true
}

/// The argument of a number, or the variable that asks for it where there are fewer.
fn argument(alloc: Global, args: &[Ty], number: u32, variable: Ty) -> Result<Ty, Memory>
    ensures { IfOk result (λ ty. ty ≡ slice_index_or args.now number variable) }
{
    if (number as usize) < args.len() {
        args[number as usize].copy(alloc)
    } else {
        Ok(variable)
    }
}

/// The type with the arguments of the owner for `Var` and those of the method for `MVar`. A variable past its list
/// stays.
#[cycle(subst)]
pub fn subst(alloc: Global, ty: &Ty, owner: &List<Ty>, method: &List<Ty>) -> Result<Ty, Memory>
    ensures { IfOk result (λ ty'. ty' ≡ substituted owner.now method.now ty.now) }
{
    match ty {
        Ty::Prim(primitive) => Ok(Ty::Prim(*primitive)),
        Ty::Named(id, args) => {
            let args = subst_all(alloc, args.as_slice(), owner, method)?;
            Ok(Ty::Named(*id, args))
        }
        Ty::Vector(element) => {
            let element = subst(alloc, element.get(), owner, method)?;
            Ok(Ty::Vector(Boxed::new(alloc, element)?))
        }
        Ty::ByRef(target) => {
            let target = subst(alloc, target.get(), owner, method)?;
            Ok(Ty::ByRef(Boxed::new(alloc, target)?))
        }
        Ty::Var(number) => argument(alloc, owner.as_slice(), *number, Ty::Var(*number)),
        Ty::MVar(number) => argument(alloc, method.as_slice(), *number, Ty::MVar(*number)),
        Ty::Canon => Ok(Ty::Canon),
    }
}

/// The same of each type of a list.
#[cycle(subst)]
pub fn subst_all(
    alloc: Global,
    types: &[Ty],
    owner: &List<Ty>,
    method: &List<Ty>,
) -> Result<List<Ty>, Memory>
    ensures { IfOk result (λ types'. types' ≡ map (substituted owner.now method.now) types.now) }
{
    let mut done = List::new(alloc);
    for ty in types {
        add(&mut done, subst(alloc, ty, owner, method)?)?;
    }
    Ok(done)
}
