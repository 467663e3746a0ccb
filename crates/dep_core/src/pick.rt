//! What chooses the order of the work.

/// What chooses the next of the nodes that wait for work.
pub trait Pick {
    /// The number of one of so many nodes that wait. Any answer is taken modulo their number.
    fn pick(&mut self, waiting: usize) -> usize;
}
