//! The routines of the runtime, as instructions of RV64IM: what every program has in its file beside its own code.
//!
//! A program keeps the address of the innermost frame in x2, that of the root in x3, the lowest address that a frame
//! may have in x26, and the end of what is used of the heap in x27. A routine is called by `jalr` with x1 as link. It
//! takes a word in x10 and gives one there, and may change x5 to x7, x10 to x17 and x28 to x31, and the last 32 of the
//! fixed bytes of the innermost frame.
#![tactic(auto)]

mod code;
mod routines;

pub use code::routine;
pub use routines::Routine;
