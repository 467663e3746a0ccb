//! What stands above a type: bases and interfaces, value types, and which types fit others.
#![tactic(auto)]

mod assigning;
mod bases;
mod keys;
mod steps;
mod values;

pub use assigning::{definition_count, fitting};
pub use bases::{
    base_of, has_definition, interface_of, is_interface_id, is_value_type, may_extend,
};
pub use steps::{base_by, base_type, implementer, interface_by, interface_type, own_variables};
pub use values::Values;
