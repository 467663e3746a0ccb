//! Chains of links that stand inside the items of a pool, so that an item can leave a chain without a search.
#![tactic(auto)]

mod chain;
pub mod laws;
mod link;
mod walk;

pub use chain::Chain;
pub use link::{Link, Linked};
pub use walk::Walk;

#[cfg(test)]
mod tests;
