//! Dispatch rows in one array, each row moved by its own displacement, so that looking a cell up reads one place.
#![tactic(auto)]

mod place;
mod placed;
mod plan;
mod row;

pub use placed::{Cell, Placed};
pub use plan::plan_rows;
pub use row::{Row, have_distinct_columns};

#[cfg(test)]
mod tests;
