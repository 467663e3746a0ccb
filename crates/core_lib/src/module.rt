ghost use Rattle.std.specs.Prelude.{◌≡◌, ◌==◌, find, IfOk};
ghost use Rattle.std.specs.Option.{option_map};
ghost use Rattle.core_lib.specs.Classes.{classes as all};
ghost use Rattle.core_lib.specs.Rows.{core as the_core, tables_of, table as table_of, runtime_calls as calls};
ghost use Rattle.md_write.specs.Agreeing.{ReadsBack};
ghost use Rattle.md_write.specs.Written.{image_of};

use crate::held;
use crate::making::{
    blob_rows, class_rows, field_rows, interface_rows, listed, method_rows, module_rows,
    variable_rows,
};
use crate::runtime::RuntimeCall;
use md_tables::{Module, Table, TableRow};
use md_write::write_image;
use num_core::{Bytes, List, Memory};
use std::alloc::Global;

/// The table of a number with these rows.
fn table(number: u8, rows: List<TableRow>) -> Table
    ensures { result ≡ table_of number rows }
{
    Table { number, rows }
}

/// The tables of the core.
fn tables(alloc: Global) -> Result<List<Table>, Memory>
    ensures { IfOk result (λ tables. tables ≡ tables_of all) }
{
    let tables = Vec::from_array(
        alloc,
        [
            table(0x00, module_rows(alloc)?),
            table(0x01, List::new(alloc)),
            table(0x02, class_rows(alloc, held::classes())?),
            table(0x04, field_rows(alloc, held::fields())?),
            table(0x06, method_rows(alloc, held::methods())?),
            table(0x08, List::new(alloc)),
            table(0x09, interface_rows(alloc, held::interfaces())?),
            table(0x0A, List::new(alloc)),
            table(0x0B, List::new(alloc)),
            table(0x0C, List::new(alloc)),
            table(0x0F, List::new(alloc)),
            table(0x11, blob_rows(alloc, held::locals())?),
            table(0x19, List::new(alloc)),
            table(0x1B, blob_rows(alloc, held::instances())?),
            table(0x1D, List::new(alloc)),
            table(0x20, List::new(alloc)),
            table(0x23, List::new(alloc)),
            table(0x29, List::new(alloc)),
            table(0x2A, variable_rows(alloc, held::variables())?),
            table(0x2B, List::new(alloc)),
            table(0x2C, List::new(alloc)),
        ],
    )?;
    listed(alloc, tables)
}

/// The core module: the types that every assembly may name without bringing them along, with their members (ECMA-335
/// II.22). It has no row of Assembly, and no entry.
pub fn core_module(alloc: Global) -> Result<Module, Memory>
    ensures { IfOk result (λ made. made ≡ the_core) }
{
    let user = List::from_slice(alloc, held::user())?;
    let tables = tables(alloc)?;
    Ok(Module::new(0, user, tables))
}

/// The image of the core module, in a PE file (ECMA-335 II.25). The image opens, and the module that is read from it
/// agrees with the core.
pub fn core_image(alloc: Global) -> Result<Bytes, Memory>
    ensures written { IfOk result (λ image. image ≡ image_of the_core.entry the_core.user the_core.tables) }
    ensures reads_back { IfOk result (λ image. ReadsBack image the_core) }
{
    let core = core_module(alloc)?;
    match write_image(alloc, &core) {
        Ok(image) => Ok(image),
        Err(_) => Err(Memory),
    }
}

/// The call of the runtime that the method of a row of the core is; none where it is no such call, or there is no such
/// row.
pub fn runtime_call(row: u32) -> Option<RuntimeCall>
    ensures { result ≡ option_map (λ call. call.1) (find (λ call. call.0 == row) calls) }
{
    held::runtime_calls()
        .iter()
        .find(|call| call.0 == row)
        .map(|call| call.1)
}
