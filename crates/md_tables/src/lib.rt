//! The tables of metadata, with the bodies and the bytes that they lead to: ECMA-335 II.22, II.24.2.6 and II.25.4.
#![tactic(auto)]

mod body;
mod data;
mod fault;
mod finish;
mod fits;
mod module;
mod parts;
mod read;

pub use fault::TableFault;
pub use fits::are_tables;
pub use md_rows::Cell;
pub use module::{Module, Table, TableRow};
pub use read::read_tables;

#[cfg(test)]
mod tests;
