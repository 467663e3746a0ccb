//! Where the fields of the types of a world lie, and how many bytes their objects, values and statics take.
#![tactic(auto)]

mod definitions;
mod extent;
mod extents;
mod fault;
pub mod laws;
mod loading;
mod objects;
mod rows;
mod seen;

pub use definitions::Definitions;
pub use extent::{Extent, Unlaid};
pub use extents::primitive_field;
pub use fault::LayoutFault;
pub use loading::CliLayout;
pub use rows::{Base, FieldRow, Loaded, TypeLayout};
