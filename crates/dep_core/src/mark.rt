//! What the analysis answers.
use num_core::List;
use thiserror::Error;

/// A kept node, with the rule of the row that gave it and the places of the marks of the nodes that the row was given.
/// A root has rule 0 and neither place.
#[derive(Debug, Drop)]
pub struct Mark<N> {
    pub node: N,
    pub rule: u8,
    pub from: Option<u32>,
    pub also: Option<u32>,
}

/// The kept nodes, in the order in which they were marked.
pub type Marked<N> = List<Mark<N>>;

/// Why the kept nodes aren't told.
#[derive(Debug, Drop, Error)]
pub enum DepFault<N> {
    /// More nodes than the limit, with the limit plus one.
    #[error("22 NodeLimit {0}")]
    NodeLimit(u64),
    /// A node deeper than the limit.
    #[error("23 DepthLimit")]
    DepthLimit(N),
    #[error("memory")]
    Memory,
}
