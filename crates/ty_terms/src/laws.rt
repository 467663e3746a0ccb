ghost use Rattle.std.specs.Prelude.{◌≡◌, ◌≤◌, ◌+◌, ◌++◌, ℕ, List, IsTrue, length, map, max};
ghost use Rattle.std.specs.List.{list_all};
ghost use Rattle.std.specs.declared.cmp.Ordering.TheVariants.{Equal};
ghost use Rattle.ty_terms.specs.Canon.{canonical, canonical_form};
ghost use Rattle.ty_terms.specs.Depth.{depth_of, depth_of_all};
ghost use Rattle.ty_terms.specs.Exact.{IsExactOrder, IsEquality};
ghost use Rattle.ty_terms.specs.Subst.{substituted, has_variables_below, IsClosed};

use crate::names::{FieldName, MethodId, MethodName, Slot, TypeId};
use crate::nodes::{DictEntry, Node};
use crate::ty::Ty;

/// What a lawful order has besides where it tells any two values apart.
fn exact_order<T: Ord>()
    requires { (a b : T) → T.cmp a b ≡ Equal → a ≡ b }
    ensures order { IsExactOrder T.cmp }
    ensures equality { IsEquality T.eq }
{}

/// The order of types is total, and it and `==` tell any two types apart.
pub fn type_order()
    ensures order { IsExactOrder ⟦<Ty as Ord>⟧.cmp }
    ensures equality { IsEquality ⟦<Ty as PartialEq>⟧.eq }
{
    exact_order::<Ty>();
}

/// The same of the ids of types.
pub fn type_id_order()
    ensures order { IsExactOrder ⟦<TypeId as Ord>⟧.cmp }
    ensures equality { IsEquality ⟦<TypeId as PartialEq>⟧.eq }
{}

/// The same of the ids of methods.
pub fn method_id_order()
    ensures order { IsExactOrder ⟦<MethodId as Ord>⟧.cmp }
    ensures equality { IsEquality ⟦<MethodId as PartialEq>⟧.eq }
{}

/// The same of the names of fields.
pub fn field_name_order()
    ensures order { IsExactOrder ⟦<FieldName as Ord>⟧.cmp }
    ensures equality { IsEquality ⟦<FieldName as PartialEq>⟧.eq }
{
    exact_order::<FieldName>();
}

/// The same of the names of methods.
pub fn method_name_order()
    ensures order { IsExactOrder ⟦<MethodName as Ord>⟧.cmp }
    ensures equality { IsEquality ⟦<MethodName as PartialEq>⟧.eq }
{
    exact_order::<MethodName>();
}

/// The same of slots.
pub fn slot_order()
    ensures order { IsExactOrder ⟦<Slot as Ord>⟧.cmp }
    ensures equality { IsEquality ⟦<Slot as PartialEq>⟧.eq }
{
    exact_order::<Slot>();
}

/// The same of nodes.
pub fn node_order()
    ensures order { IsExactOrder ⟦<Node as Ord>⟧.cmp }
    ensures equality { IsEquality ⟦<Node as PartialEq>⟧.eq }
{
    exact_order::<Node>();
}

/// The same of the entries of dictionaries.
pub fn entry_order()
    ensures order { IsExactOrder ⟦<DictEntry as Ord>⟧.cmp }
    ensures equality { IsEquality ⟦<DictEntry as PartialEq>⟧.eq }
{
    exact_order::<DictEntry>();
}

/// A substitution after a substitution is one by the composed lists.
pub fn subst_of_subst()
    ensures { (outer_owner outer_method owner method : List Ty) (ty : Ty) →
        IsTrue (has_variables_below (length owner) (length method) ty) →
        substituted outer_owner outer_method (substituted owner method ty)
        ≡ substituted (map (substituted outer_owner outer_method) owner)
        (map (substituted outer_owner outer_method) method) ty }
{}

/// A closed type is left alone by a substitution.
pub fn subst_of_closed()
    ensures { (owner method : List Ty) (ty : Ty) → IsClosed ty → substituted owner method ty ≡ ty }
{}

/// Where the arguments have their variables below two numbers, what they are put into has too.
pub fn variables_of_subst()
    ensures { (owner method : List Ty) (n m : ℕ) (ty : Ty) →
        IsTrue (has_variables_below (length owner) (length method) ty) →
        IsTrue (list_all (has_variables_below n m) owner) → IsTrue (list_all (has_variables_below n m) method) →
        IsTrue (has_variables_below n m (substituted owner method ty)) }
{}

/// The depth after a substitution: no less than before, and no more than a variable less and the deepest argument
/// more.
pub fn depth_of_subst()
    ensures no_less { (owner method : List Ty) (ty : Ty) → depth_of ty ≤ depth_of (substituted owner method ty) }
    ensures no_more { (owner method : List Ty) (ty : Ty) →
        depth_of (substituted owner method ty) + 1 ≤ depth_of ty + max 1 (depth_of_all (owner ++ method)) }
{}

/// A canonical type is its own canonical type.
pub fn canon_of_canon()
    ensures { (values : List TypeId) (ty : Ty) → canonical values (canonical values ty) ≡ canonical values ty }
{}

/// A canonical form is its own canonical form.
pub fn canon_of_canonical_form()
    ensures { (values : List TypeId) (name : MethodName) →
        canonical_form values (canonical_form values name) ≡ canonical_form values name }
{}
