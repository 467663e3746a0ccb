//! The least solution of facts that flow between numbered places, by a work list.
#![tactic(auto)]

mod flow;
mod solve;

pub use flow::Flow;
pub use solve::least_solution;
