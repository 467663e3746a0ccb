//! Code in the memory of an RV64 machine, and how the machine goes through it. Here are the laws by which the effect
//! of a block of instructions is told of the machine that comes to it.
#![tactic(auto)]

mod laws;

pub use laws::{blocks_of_code, code_in_memory, spelled_registers};
