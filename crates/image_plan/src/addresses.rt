//! Which address each name has.
ghost use Rattle.std.specs.Prelude.{◌≡◌, IfOk, OnOk};
ghost use Rattle.image_plan.specs.Found.{TellsNames, TellsOneMore, address_in};
ghost use Rattle.image_plan.specs.Places.{kind_number as kind_number_of};

use crate::names::Name;
use indexmap::IndexMap;
use num_core::{FixKind, Memory};
use std::alloc::Global;

/// Addresses by the numbers of kinds and items.
#[derive(Drop)]
pub(crate) struct Addresses {
    found: IndexMap<(u32, u32), u64>,
}

/// A number for each kind.
fn kind_number(kind: FixKind) -> u32
    ensures { result ≡ kind_number_of kind }
{
    match kind {
        FixKind::Routine => 0,
        FixKind::Code => 1,
        FixKind::Dict => 2,
        FixKind::Item => 3,
    }
}

/// Notes the address of a name, in place of that of the same name.
fn note(found: &mut IndexMap<(u32, u32), u64>, name: Name) -> Result<(), Memory>
    ensures { OnOk result (TellsOneMore name found.old.entries found.new.entries) }
{
    found.insert((kind_number(name.kind), name.item), name.address)?;
    Ok(())
}

/// The addresses of names, of several that are the same the first one's.
pub(crate) fn addresses_of(alloc: Global, names: &[Name]) -> Result<Addresses, Memory>
    ensures { IfOk result (λ addresses. TellsNames names.now addresses.found.entries) }
{
    let mut found = IndexMap::new(alloc);
    let mut left = names.len();
    while 0 < left {
        left -= 1;
        note(&mut found, names[left])?;
    }
    Ok(Addresses { found })
}

impl Addresses {
    /// The address of an item as one of a kind.
    pub(crate) fn find(&self, kind: FixKind, item: u32) -> Option<u64>
        ensures { result ≡ address_in self.now.found.entries kind item }
    {
        self.found.get(&(kind_number(kind), item)).copied()
    }
}
