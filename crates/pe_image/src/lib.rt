//! Images in PE files: where the metadata of an assembly lies, and the bytes of its addresses (ECMA-335 II.24.2.1,
//! II.24.2.2 and II.25).
#![tactic(auto)]

mod bytes;
mod cli;
mod fault;
mod headers;
mod image;
mod section;
mod stream;

pub use fault::PeFault;
pub use image::{Image, open_image};
pub use section::Section;
