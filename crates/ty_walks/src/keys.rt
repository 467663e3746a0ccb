//! Definitions as keys of a table.
ghost use Rattle.std.specs.Prelude.{IfOk};
ghost use Rattle.ty_walks.specs.Known.{TellIds};

use indexmap::IndexSet;
use num_core::Memory;
use std::alloc::Global;
use ty_terms::TypeId;

/// The keys of some definitions.
pub(crate) fn keys_of(alloc: Global, ids: &[TypeId]) -> Result<IndexSet<(u32, u32)>, Memory>
    ensures { IfOk result (λ keys. TellIds ids.now keys.keys) }
{
    let mut keys = IndexSet::new(alloc);
    for id in ids {
        keys.insert((id.module, id.row))?;
    }
    Ok(keys)
}
