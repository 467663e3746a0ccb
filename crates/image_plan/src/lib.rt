//! The image of a program: where the routines of the runtime, the code of bodies and the tables lie, which address each
//! of them has, and what stands in the bytes of the file.
//!
//! The first segment has the headers, what `start` finds in front of its code, the routines and the code of bodies; the
//! second has the tables, and zeros behind them for heap and stack.
#![tactic(auto)]

mod addresses;
mod ends;
mod fault;
mod laws;
mod map;
mod names;
mod parts;
mod pieces;
mod placing;
mod plan;
mod rest;
mod runtime;
mod text;

pub use fault::PlaceFault;
pub use laws::{files_of_images, images_in_memory};
pub use names::Name;
pub use pieces::{CodePiece, Pieces, TablePiece, is_placeable};
pub use placing::place;
pub use plan::{MapRow, Plan};
