use thiserror::Error;

/// Why tables are refused.
#[derive(Clone, Copy, Debug, PartialEq, Eq, Error)]
pub enum RowFault {
    /// The row of the table is bad, rows counted from 1; row 0 of table 0 stands for a header that is cut.
    #[error("4 BadTable {0} {1}")]
    BadTable(u8, u32),
    /// There is a table that no assembly of this kind has.
    #[error("5 RefusedTable {0}")]
    RefusedTable(u8),
    #[error("memory")]
    Memory,
}
