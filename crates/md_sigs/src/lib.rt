//! Signatures: the types of fields, methods and local variables, as blobs spell them (ECMA-335 II.23.2).
#![tactic(auto)]

mod annotation;
mod element;
mod elements;
mod fault;
mod front;
mod laws;
mod sig;
mod signature;
mod types;
mod waiting;

pub use annotation::read_annotation;
pub use fault::SigFault;
pub use laws::{refusals, signatures_read_one_way, types_by_productions, types_read_one_way};
pub use sig::{MethodSig, Sig};
pub use signature::{read_sig, read_type};
