//! Assemblies as text: the listing of a module, and the module that a text means.
#![tactic(auto)]

mod assembling;
mod body;
mod code;
mod counting;
mod draft;
mod fault;
mod instruction;
mod laws;
mod line;
mod listing;
mod mnemonic;
mod operand;
mod reading;
mod row;
mod text;
mod values;
mod words;
mod wrong;

pub use assembling::assemble;
pub use fault::IlTextFault;
pub use laws::{small_texts, texts_mean_modules};
pub use listing::list;
pub use mnemonic::{Mnemonic, arithmetic, branches, elements, loads, objects, prefixed};
