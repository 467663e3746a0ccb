//! The heaps of metadata, and compressed numbers: ECMA-335 II.23.2 and II.24.2.3 to II.24.2.5.
#![tactic(auto)]

mod compressed;
mod heaps;

pub use compressed::{read_compressed, spellings_are_read};
pub use heaps::{blob_at, guid_at, string_at, user_string_at};
