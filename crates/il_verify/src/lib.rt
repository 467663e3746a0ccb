//! The verifier (ECMA-335 III.1.8): in definitions under `specs/` what each operation takes from the stack, gives and
//! can raise, and what fails, with laws that show that these mean what they should; in code the rules that ask no
//! world, and the steps and handlers by which stacks flow.
#![tactic(auto)]

mod control;
mod depths;
pub mod laws;
mod prefixes;
mod ranges;
mod steps;

pub use control::keeps_to_ranges;
pub use depths::stands_well;
pub use prefixes::prefixes_well;
pub use ranges::{
    Range, Role, begins_range, ends_finally, is_in_catch, is_in_handler, is_in_range, may_go,
    may_leave,
};
pub use steps::{handler, step};
