//! Builds programs: from one method body to an executable file for RV64IM.
#![tactic(auto)]

mod bare;
mod build;
mod compile;
mod depths;
mod typing;

pub use build::{BuildFault, build_body};
