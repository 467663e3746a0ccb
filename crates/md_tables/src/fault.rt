ghost use Rattle.std.specs.Prelude.{◌≡◌};
ghost use Rattle.md_tables.specs.Finished.{fault_of};

use md_rows::RowFault;
use thiserror::Error;

/// Why the tables of an image are refused.
#[derive(Clone, Copy, Debug, PartialEq, Eq, Error)]
pub enum TableFault {
    /// The row of the table is bad, rows counted from 1; row 0 of table 0 stands for a header that is cut.
    #[error("4 BadTable {0} {1}")]
    BadTable(u8, u32),
    /// There is a table that no assembly of this kind has.
    #[error("5 RefusedTable {0}")]
    RefusedTable(u8),
    /// No whole body stands at the address of a method.
    #[error("9 BadHeader {0}")]
    BadHeader(u32),
    #[error("memory")]
    Memory,
}

/// What a fault of rows is here.
pub(crate) fn of_rows(fault: RowFault) -> TableFault
    ensures { result ≡ fault_of fault }
{
    match fault {
        RowFault::BadTable(table, row) => TableFault::BadTable(table, row),
        RowFault::RefusedTable(table) => TableFault::RefusedTable(table),
        RowFault::Memory => TableFault::Memory,
    }
}
