//! The base of all crates: lists, texts, bounds and whole numbers.
#![tactic(auto)]

mod arithmetic;
mod bounds;
mod fix;
mod int;
mod kind;
pub mod laws;
mod list;
mod memory;
mod text;

pub use arithmetic::{DivFault, add_ovf, conv, conv_ovf, div_rem, mul_ovf, shift, sub_ovf};
pub use bounds::Bounds;
pub use fix::{Fix, FixKind};
pub use int::{wrap32, wrap64};
pub use kind::{Kind, Narrow, ShiftOp};
pub use list::{Bytes, List, Units};
pub use memory::Memory;
pub use text::{Text, TextFault};
