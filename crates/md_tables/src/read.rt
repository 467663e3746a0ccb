ghost use Rattle.std.specs.Prelude.{◌≡◌, Ok, IfOk, IfErr};
ghost use Rattle.md_tables.specs.Finished.{module_of, Refuses};

use crate::data::addresses;
use crate::fault::{TableFault, of_rows};
use crate::finish::finish_tables;
use crate::module::Module;
use crate::parts::{entry, streams, user};
use md_rows::read_rows;
use num_core::List;
use pe_image::Image;
use std::alloc::Global;

/// The module of an image (ECMA-335 II.22).
///
/// A header of the tables that is cut is `BadTable(0, 0)`, a table that no assembly of this kind has is `RefusedTable`,
/// the least of them, and `BadTable` tells the first bad row, in the order of tables and rows. `BadHeader` comes after
/// these and tells the address of the first method that isn't 0 and at which no whole body stands.
pub fn read_tables(alloc: Global, image: &Image<'_>) -> Result<Module, TableFault>
    ensures read { IfOk result (λ read. module_of image.now ≡ Ok read) }
    ensures refused { IfErr result (Refuses (module_of image.now)) }
{
    let rows = match read_rows(alloc, &streams(image)) {
        Ok(rows) => rows,
        Err(fault) => return Err(of_rows(fault)),
    };
    let addresses = match addresses(alloc, image, rows.as_slice()) {
        Ok(addresses) => addresses,
        Err(_) => return Err(TableFault::Memory),
    };
    let tables = match finish_tables(alloc, image, &addresses, rows) {
        Ok(tables) => tables,
        Err(fault) => return Err(fault),
    };
    match List::from_slice(alloc, user(image)) {
        Ok(user) => Ok(Module::new(entry(image), user, tables)),
        Err(_) => Err(TableFault::Memory),
    }
}
