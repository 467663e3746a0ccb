//! The types around a type (ECMA-335 II.22.32).
ghost use Rattle.std.specs.Prelude.{◌≡◌, IfOk};
ghost use Rattle.ty_names.specs.Modules.{tables_at};
ghost use Rattle.ty_names.specs.TypeTexts as texts;

use indexmap::IndexSet;
use num_core::Memory;
use std::alloc::Global;
use ty_load::Names;
use ty_names::row_count;
use ty_terms::TypeId;

/// The rows of a type and of the types around it, from the inside, up to one that isn't nested or is there already.
pub(crate) fn types_around(
    names: &Names,
    alloc: Global,
    id: TypeId,
) -> Result<IndexSet<u32>, Memory>
    ensures { IfOk result (λ around. around.keys ≡ texts.types_around (tables_at names.now id.module) id.row) }
{
    let mut around = IndexSet::new(alloc);
    let mut row = id.row;
    let mut left = row_count(names.tables(id.module), 0x02);
    while 0 < left && row != 0 {
        let (_, is_new) = around.insert_full(row)?;
        if !is_new {
            return Ok(around);
        }
        row = names.enclosing(TypeId {
            module: id.module,
            row,
        });
        left -= 1;
    }
    Ok(around)
}
