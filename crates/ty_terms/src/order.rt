ghost use Rattle.std.specs.Prelude.{◌≡◌, ◌++◌, ◌∷◌, [], length};
ghost use Rattle.std.specs.Cmp.Lexicographic.{slice_cmp};
ghost use Rattle.ty_terms.specs.Order.{order, primitive_number, kind};
ghost use Rattle.ty_terms.specs.declared.ty.Ty.TheViews.{out-Ty};

use crate::ty::{Primitive, Ty};
use std::cmp::Ordering;

impl Primitive {
    /// The place of the primitive type among them.
    fn number(self) -> u8
        ensures { result ≡ primitive_number self }
    {
        self as u8
    }
}

/// The kind of a type, as a number from 0.
fn kind_of(ty: &Ty) -> u8
    ensures { result ≡ kind (out-Ty ty.now) }
{
    match ty {
        Ty::Prim(_) => 0,
        Ty::Named(_, _) => 1,
        Ty::Vector(_) => 2,
        Ty::ByRef(_) => 3,
        Ty::Var(_) => 4,
        Ty::MVar(_) => 5,
        Ty::Canon => 6,
    }
}

/// The order of two types: by their kinds, then by the numbers that stand in them, and then by the types inside,
/// where the first that differ decide.
#[cycle(order)]
fn compare(a: &Ty, b: &Ty) -> Ordering
    ensures { result ≡ order a.now b.now }
{
    match (a, b) {
        (Ty::Prim(a), Ty::Prim(b)) => a.number().cmp(&b.number()),
        (Ty::Named(a, a_args), Ty::Named(b, b_args)) => match a.cmp(b) {
            Ordering::Equal => compare_all(a_args.as_slice(), b_args.as_slice()),
            other => other,
        },
        (Ty::Vector(a), Ty::Vector(b)) => compare(a.get(), b.get()),
        (Ty::ByRef(a), Ty::ByRef(b)) => compare(a.get(), b.get()),
        (Ty::Var(a), Ty::Var(b)) | (Ty::MVar(a), Ty::MVar(b)) => a.cmp(b),
        (Ty::Canon, Ty::Canon) => Ordering::Equal,
        _ => kind_of(a).cmp(&kind_of(b)),
    }
}

/// The order of two lists of types: the first that differ decide, and else the lengths do.
#[cycle(order)]
fn compare_all(a: &[Ty], b: &[Ty]) -> Ordering
    ensures { result ≡ slice_cmp order a.now b.now }
{
    for (i, x) in a.iter().enumerate() {
        let Some(y) = b.get(i) else {
            return Ordering::Greater;
        };
        let found = compare(x, y);
        if found.is_ne() {
            return found;
        }
    }
    if a.len() < b.len() {
        Ordering::Less
    } else {
        Ordering::Equal
    }
}

impl PartialEq for Ty {
    ghost use Rattle.std.specs.Cmp.{partial_equiv_from_equiv};
    ghost use Rattle.std.specs.Ordering.{eq_by_cmp};
    ghost use Rattle.std.proofs.lemmas.Cmp.{eq_by_cmp_equiv};
    ghost use Rattle.ty_terms.specs.Order.{order};
    ghost use Rattle.ty_terms.specs.OrderLaws.{order_total};

    ghost eq = { eq_by_cmp order };

    ghost laws = { partial_equiv_from_equiv (eq_by_cmp_equiv order_total) };

    fn eq(&self, other: &Ty) -> bool {
        compare(self, other).is_eq()
    }
}

impl Eq for Ty {
    ghost use Rattle.std.proofs.lemmas.Cmp.{eq_by_cmp_equiv};
    ghost use Rattle.ty_terms.specs.OrderLaws.{order_total};

    ghost laws = { eq_by_cmp_equiv order_total };
}

impl PartialOrd for Ty {
    ghost use Rattle.std.specs.Prelude.{refl};
    ghost use Rattle.std.specs.Cmp.{partial_order_from_agreeing_total};
    ghost use Rattle.std.specs.Ordering.{as_partial_cmp};
    ghost use Rattle.ty_terms.specs.Order.{order};
    ghost use Rattle.ty_terms.specs.OrderLaws.{order_total};

    ghost partial_cmp = { as_partial_cmp order };

    ghost laws = { partial_order_from_agreeing_total order order_total (λ a b. refl) (λ a b. refl) };

    fn partial_cmp(&self, other: &Ty) -> Option<Ordering> {
        Some(compare(self, other))
    }
}

impl Ord for Ty {
    ghost use Rattle.std.specs.Prelude.{refl};
    ghost use Rattle.ty_terms.specs.Order.{order};
    ghost use Rattle.ty_terms.specs.OrderLaws.{order_total};

    ghost cmp = { order };

    ghost total = { order_total };

    ghost matches_partial_cmp = { λ a b. refl };

    ghost matches_eq = { λ a b. refl };

    fn cmp(&self, other: &Ty) -> Ordering {
        compare(self, other)
    }
}
