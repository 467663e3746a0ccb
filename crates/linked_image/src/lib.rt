//! Images of programs at the word level: that the machine which loads the file of placed pieces holds the program whose
//! bodies they are the code of.
#![tactic(auto)]

mod laws;
mod ranges;

pub use laws::{placed_programs, selected_code};
pub use ranges::tables_are_bytes;
