//! The word level, between CIL and machine code: operations on the words of a frame and on flat memory, their bodies,
//! and what a program of such bodies does, which the definitions under `specs/` say.
#![tactic(auto)]

mod body;
pub mod laws;
mod op;
mod soundness;

pub use body::{FIXED_BYTES, LirBody, MOST_PASSED, SCRATCH_SLOTS};
pub use op::{
    Argument, BinaryOperation, Block, Callee, CheckedOperation, DivisionPart, LirOp, Place, Test,
    UnaryOperation,
};
pub use soundness::check;
