//! From the word level to RV64: the instructions of a body, the places in them that take addresses, and where each of
//! its operations begins.
//!
//! In a body x1 has the return address, x2 the address of the frame, x10 the word that is passed, x26 the lowest
//! address that a frame may have; x18 to x25 are the homes of the first eight variables, and x5 to x7 and x28 to x31
//! serve within an operation.
#![tactic(auto)]

mod calling;
pub mod laws;
mod operations;
mod placing;
mod selection;

pub use selection::{Code, select};
