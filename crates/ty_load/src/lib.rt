//! The type world: the types, methods and fields of a list of modules, found by their names.
#![tactic(auto)]

mod assembly;
mod blobs;
mod cells;
mod fault;
mod interfaces;
mod item;
mod names;
mod parameters;
mod primitives;
mod references;
mod rows;
mod types;
mod written;

pub use assembly::assembly_name;
pub use blobs::{signature_of, type_of_blob};
pub use fault::{LoadFault, ResolveFault, TypeFault};
pub use item::Item;
pub use names::{Names, are_numbered};
pub use primitives::primitive_name;
