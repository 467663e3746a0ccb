//! The instructions of RV64IM and their words: the RISC-V unprivileged manual, chapters "RV32I", "RV64I" and "M".
//! Two instructions of RV64I are left out, and their words are illegal: `fence`, which orders memory between threads
//! or devices, of which there are none here, and `ebreak`, which calls a debugger.
#![tactic(auto)]

mod assembler;
mod decoding;
mod encoding;
mod fields;
mod formats;
mod ins;
mod opcodes;
mod operands;

pub use assembler::{Asm, AsmFault, Emitted};
pub use decoding::{Illegal, decode, one_instruction, parts_of_words, words_fit};
pub use encoding::encode;
pub use ins::Ins;
pub use operands::{
    BranchOffset, Immediate, JumpOffset, Register, ShiftAmount, UpperImmediate, WordShiftAmount,
};
