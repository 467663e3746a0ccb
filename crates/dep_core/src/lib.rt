//! Dependency nodes and the rows between them: which nodes are kept, for any rules.
#![tactic(auto)]

mod analysis;
mod giving;
pub mod laws;
mod mark;
mod marking;
mod nodes;
mod pick;
mod rules;
mod telling;
mod waiting;

pub use analysis::analyze;
pub use mark::{DepFault, Mark, Marked};
pub use pick::Pick;
pub use rules::{Need, Rules};

#[cfg(test)]
mod tests;
