//! What makes modules no world: types that lead back to themselves, and assembly names that stand twice.
#![tactic(auto)]

mod numbering;
mod relations;
mod repeated;

pub use relations::{Relation, first_cyclic};
pub use repeated::repeated_name;
