//! A pool: items in chunks of raw memory, which never move. Contracts see it as the list of its items.
#![tactic(auto)]

mod block;
mod chunk;
mod pool;

pub use pool::RawPool;

#[cfg(test)]
mod tests;
