//! The rows of the tables of metadata, as they stand in their stream: ECMA-335 II.22 and II.24.2.6.
#![tactic(auto)]

mod cell;
mod coding;
mod fault;
mod header;
mod laws;
mod layout;
mod read;
mod row;
mod schema;
mod streams;
mod table;
mod width;

pub use cell::{Cell, is_skipped};
pub use coding::Coding;
pub use fault::RowFault;
pub use laws::{cells_fit_their_columns, rows_at_their_places};
pub use layout::Layout;
pub use read::read_rows;
pub use row::Row;
pub use schema::{Column, Schema, schemas};
pub use streams::Streams;
pub use table::Table;
pub use width::{Width, width_of};

#[cfg(test)]
mod tests;
