//! What CIL programs do (ECMA-335 I.12.3, III) over a world of modules: the state of a program, its steps and its runs
//! are the definitions under `specs/`, which know nothing of any machine. Here are laws that show that these mean what
//! they should.
#![tactic(auto)]

pub mod laws;
