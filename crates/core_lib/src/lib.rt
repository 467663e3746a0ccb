//! The core module: the types that every assembly may name without bringing them along.
#![tactic(auto)]

mod held;
mod laws;
mod making;
mod module;
mod rows;
mod runtime;
mod tables;

pub use laws::{mnemonics_of_the_standard, names_are_found};
pub use module::{core_image, core_module, runtime_call};
pub use runtime::RuntimeCall;
