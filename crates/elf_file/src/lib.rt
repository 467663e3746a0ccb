//! Executable files of RISC-V: System V gABI, chapter "Object Files", for ELF64 with the lowest byte first.
//!
//! `write_elf` makes the file of a program, which Linux runs unchanged, and `load_elf` the machine that a file loads.
#![tactic(auto)]

mod fault;
mod header;
mod layout;
mod load;
mod write;

pub use fault::ElfFault;
pub use layout::{ElfLayout, TEXT_AT};
pub use load::load_elf;
pub use write::write_elf;
