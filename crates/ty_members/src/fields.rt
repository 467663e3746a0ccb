//! The fields of a type.
ghost use Rattle.std.specs.Prelude.{◌≡◌, ◌≤◌, IfOk};
ghost use Rattle.ty_names.specs.Definitions as definitions;
ghost use Rattle.ty_names.specs.Modules.{tables_at};
ghost use Rattle.ty_load.specs.Members as specs;

use crate::members::Members;
use crate::owners::{run_begin, run_end};
use crate::signatures::field_sig_in;
use md_tables::Table;
use num_core::Memory;
use std::alloc::Global;
use ty_names::{field_blob, field_flags, type_flags};
use ty_terms::{Ty, TypeId};

/// Whether flags have a bit.
fn has_flag(flags: u32, bit: u32) -> bool
    requires { 1 ≤ bit }
    ensures { result ≡ definitions.has_flag flags bit }
{
    flags / bit % 2 == 1
}

/// Whether programs can use a field of a type: it is no literal, no instance field of an interface, and none of a type
/// that says where its fields lie.
pub(crate) fn is_usable_field(tables: &[Table], owner: u32, row: u32) -> bool
    ensures { result ≡ specs.is_usable_field tables.now owner row }
{
    let flags = field_flags(tables, row);
    let owner_flags = type_flags(tables, owner);
    !has_flag(flags, 0x40)
        && (has_flag(flags, 0x10) || !(has_flag(owner_flags, 0x20) || has_flag(owner_flags, 0x10)))
}

impl Members {
    /// Where the fields of a type begin among those of its module, and where they end (ECMA-335 II.22.37).
    pub fn field_run(&self, id: TypeId) -> (u32, u32)
        ensures begin { result.0 ≡ definitions.run_begin (tables_at self.now id.module) 0x02 4 id.row }
        ensures end { result.1 ≡ definitions.run_end (tables_at self.now id.module) 0x02 4 0x04 id.row }
    {
        let tables = self.tables(id.module);
        (
            run_begin(tables, 4, id.row),
            run_end(tables, 4, 0x04, id.row),
        )
    }

    /// The type of a field of a type, in the type's variables; none where its signature has no reading or its type
    /// leads to nothing.
    pub fn field_sig(&self, alloc: Global, id: TypeId, row: u32) -> Result<Option<Ty>, Memory>
        ensures { IfOk result (λ ty. ty ≡ specs.field_sig self.now id row) }
    {
        let tables = self.names().tables(id.module);
        field_sig_in(alloc, self.names(), id, field_blob(tables, row))
    }
}
