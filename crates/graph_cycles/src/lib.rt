//! Which numbered places of a graph lie on a cycle.
#![tactic(auto)]

mod cycles;
mod marks;
mod reach;
mod walk;

pub use cycles::first_on_cycle;
