ghost use Rattle.std.specs.Prelude.{◌≡◌, true};
ghost use Rattle.md_tables.specs.Modules.{is_module};

use md_rows::Cell;
use num_core::{Bytes, List};
use std::marker::Model;

/// A row of a table (ECMA-335 II.22).
#[derive(Debug, Drop)]
pub struct TableRow {
    /// A cell for each column, but for the address of a method's body. In place of the address of a field's bytes stand
    /// these bytes.
    pub cells: List<Cell>,
    /// The body of a method that has CIL, with its header and sections.
    pub body: Option<Bytes>,
}

/// The rows of a table.
#[derive(Debug, Drop)]
pub struct Table {
    /// The number of the table.
    pub number: u8,
    pub rows: List<TableRow>,
}

/// An assembly's module: its entry token, its heap of user strings, and the tables whose rows are held, in the order of
/// their numbers.
///
/// Whoever has one knows that each row has a cell for each column that the column may hold: a number fits its width, a
/// name has no zero byte, a GUID has 16 bytes or none, an index lies in its table, and runs don't fall. A body has as
/// many bytes as its header and sections tell.
#[derive(Debug, Drop)]
pub struct Module {
    entry: u32,
    user: Bytes,
    tables: List<Table>,
}

impl Model for Module {
    ghost use Rattle.std.specs.Prelude.{◌≡◌, true};
    ghost use Rattle.md_tables.specs.Modules.{ModuleParts, is_module};

    ghost Value = { ModuleParts };

    ghost view = { λ module_. record { entry = module_.entry; user = module_.user; tables = module_.tables } };

    ghost invariant = { λ module_. is_module module_.tables ≡ true };
}

impl Module {
    /// The module of these parts, whose tables are those of a module: `are_tables` tells whether they are.
    pub fn new(entry: u32, user: Bytes, tables: List<Table>) -> Module
        requires { is_module tables ≡ true }
        ensures { result ≡ record { entry = entry; user = user; tables = tables } }
    {
        Module {
            entry,
            user,
            tables,
        }
    }

    /// The token of the method at which a program begins.
    pub fn entry(&self) -> u32
        ensures { result ≡ self.now.entry }
    {
        self.entry
    }

    /// The heap of user strings (ECMA-335 II.24.2.4).
    pub fn user(&self) -> &[u8]
        ensures { result.now ≡ self.now.user }
    {
        self.user.as_slice()
    }

    /// The tables.
    pub fn tables(&self) -> &[Table]
        ensures tables { result.now ≡ self.now.tables }
        ensures whole { is_module self.now.tables ≡ true }
    {
        self.tables.as_slice()
    }
}
