//! The slots of the types of a world, and which method a call through one runs (ECMA-335 I.8.10.4, II.12.2), in
//! definitions under `specs/`. Here are laws that show that these mean what they should.
#![tactic(auto)]

pub mod laws;
