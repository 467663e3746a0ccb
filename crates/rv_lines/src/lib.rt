//! Lines of RV64 instructions, of which the code of a body at the word level is made: constants, slots with their
//! homes, places in memory, and operations on words. A line is an instruction, or one whose label or address has yet to
//! be placed.
//!
//! x2 has the address of the frame, and x18 to x25 are the homes of the first eight variables. Within an operation x5,
//! x6 and x7 take two operands and a result, and x28 and x29 what is needed on the way.
#![tactic(auto)]

pub mod computing;
pub mod laws;
pub mod line;
pub mod moving;
pub mod operands;
