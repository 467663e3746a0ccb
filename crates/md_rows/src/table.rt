use crate::row::Row;
use num_core::List;

/// The rows of a table (ECMA-335 II.22).
#[derive(Debug, Drop)]
pub struct Table {
    /// The number of the table.
    pub number: u8,
    pub rows: List<Row>,
}
