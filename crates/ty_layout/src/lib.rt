//! Where the fields of types lie, and how many bytes objects and frames take.
#![tactic(auto)]

mod fault;
mod field;
mod frames;
mod laid;
pub mod laws;
mod layout;
mod sizes;

pub use fault::{LayoutFault, ObjectFault};
pub use field::{Alignment, Field, greatest_alignment};
pub use frames::frame;
pub use laid::{Laid, object_layout, value_layout};
pub use layout::Layout;
pub use sizes::{boxed_size, string_size, vector_size};
