//! The texts by which types, methods, fields and nodes are told, and the types that texts name.
#![tactic(auto)]

mod around;
mod definitions;
mod fields;
mod methods;
mod nodes;
mod put;
mod repeated;
mod rows;
mod search;
mod signatures;
mod types;

pub use definitions::push_definition;
pub use fields::push_field;
pub use methods::push_method;
pub use nodes::{node_text, push_node};
pub use repeated::repeated_type;
pub use search::{find_type, full_names};
pub use signatures::method_signature;
pub use types::{push_arguments, push_type, push_types};
