//! The members of types: fields and methods, what signatures say of them, and what tokens lead to.
#![tactic(auto)]

mod entry;
mod fields;
mod find;
mod members;
mod methods;
mod own;
mod owners;
mod references;
mod signatures;
mod tokens;

pub use members::Members;
