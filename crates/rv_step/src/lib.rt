//! The RV64IM machine: RISC-V unprivileged manual, chapters "RV32I", "RV64I" and "M".
#![tactic(auto)]

mod calls;
mod execute;
mod fault;
mod fill;
mod laws;
mod load;
mod machine;
mod run;
mod segment;
mod store;
mod trap;
mod value;

pub use fault::{RunFault, StepFault};
pub use laws::{bytes_in_memory, steps_in_memory};
pub use machine::Machine;
pub use run::Ran;
pub use segment::Segment;
pub use trap::{Cause, Trap};
