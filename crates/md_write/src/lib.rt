//! Images of assemblies as they are written: ECMA-335 II.22, II.24.2 and II.25.
#![tactic(auto)]

mod content;
mod fault;
mod header;
mod heap;
mod heaps;
mod kind;
mod laws;
mod limits;
mod metadata;
mod put;
mod row;
mod section;
mod stream;
mod tables;
mod write;

pub use fault::WriteFault;
pub use laws::images_open;
pub use write::write_image;
