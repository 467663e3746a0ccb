//! The names of types: their definitions in the tables of modules, their texts, and the references that lead to them.
#![tactic(auto)]

mod cells;
mod definitions;
mod escapes;
mod nesting;

pub use cells::{RowOf, blob_at, coded_at, index_at, name_at, number_at, row_at, row_count, rows};
pub use definitions::{
    field_blob, field_flags, field_name, method_blob, method_flags, method_name, type_extends,
    type_flags, type_name, type_namespace,
};
pub use escapes::{push_escaped, push_name, push_qualified, push_type_name};
pub use nesting::enclosers;
