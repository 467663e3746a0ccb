//! Method bodies: ECMA-335 II.25.4 and partition III.
#![tactic(auto)]

mod body;
mod bytes;
mod clause;
mod fault;
mod header;
mod laws;
mod listing;
mod opcode;
mod operation;
mod reach;
mod read;
mod reading;
mod section;

pub use body::{Body, Clause, ClauseKind, Instr, Operand};
pub use fault::BodyFault;
pub use header::body_length;
pub use laws::{opcodes_of_the_standard, tiling, tiny_bodies};
pub use listing::{CodeFault, instructions, is_boundary, targets_are_boundaries};
pub use opcode::{OPCODES, Op, OperandForm};
pub use operation::{BinaryOperation, Operation};
pub use reach::{falls_through, reached};
pub use read::{HeaderFault, instruction_at, tiny_code};
pub use reading::read_body;
