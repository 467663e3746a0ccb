//! Value types that were asked for, each with what it takes, so that none is asked for twice.
ghost use Rattle.std.specs.Prelude.{◌≡◌, ◌++◌, ◌∷◌, [], IfSome, IsTrue, OnOk};
ghost use Rattle.ty_names.specs.Modules.{World};
ghost use Rattle.cli_layout.specs.Extents.{value_within};
ghost use Rattle.cli_layout.specs.Seen.{AreTrueOf};

use crate::extent::Extent;
use crate::extents::add;
use num_core::{List, Memory};
use std::alloc::Global;
use ty_terms::TypeId;

/// A value type that was asked for: its definition, what its arguments take, over how many definitions at most it was
/// looked at, and what it takes.
#[derive(Debug, Drop)]
pub(crate) struct Seen {
    left: usize,
    id: TypeId,
    args: List<Extent>,
    extent: Extent,
}

/// Whether two extents are one.
fn same_extent(a: Extent, b: Extent) -> bool
    ensures { IsTrue result → a ≡ b }
{
    a == b
}

/// Whether two lists of extents are one.
#[tactic(auto, using(crate::proofs::Same::whole_same, std::proofs::lemmas::List::take_more_same))]
fn same_extents(a: &[Extent], b: &[Extent]) -> bool
    ensures { IsTrue result → a.now ≡ b.now }
{
    if a.len() != b.len() {
        return false;
    }
    for (i, extent) in a.iter().enumerate() {
        if !same_extent(*extent, b[i]) {
            return false;
        }
    }
    true
}

/// What a value type takes, if it was asked for.
pub(crate) fn extent_seen(seen: &[Seen], left: usize, id: TypeId, args: &[Extent]) -> Option<Extent>
    ensures { (world : World) → AreTrueOf world seen.now →
        IfSome result (λ extent. extent ≡ value_within left world id args.now) }
{
    for one in seen {
        if one.left == left && one.id == id && same_extents(one.args.as_slice(), args) {
            return Some(one.extent);
        }
    }
    None
}

/// Notes what a value type takes.
pub(crate) fn note_seen(
    seen: &mut List<Seen>,
    alloc: Global,
    left: usize,
    id: TypeId,
    args: &[Extent],
    extent: Extent,
) -> Result<(), Memory>
    ensures { OnOk result (seen.new ≡ seen.old
        ++ record { left = left; id = id; args = args.now; extent = extent } ∷ []) }
{
    let args = List::from_slice(alloc, args)?;
    add(
        seen,
        Seen {
            left,
            id,
            args,
            extent,
        },
    )
}
