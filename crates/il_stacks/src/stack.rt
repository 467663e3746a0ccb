use crate::slot::StackSlot;
use num_core::List;

/// What is known of the evaluation stack before an instruction.
#[derive(Debug, Drop)]
pub enum Stack {
    /// The slots, from the bottom.
    Slots(List<StackSlot>),
    /// Stacks of different depths meet here, or one was too short.
    Clash,
}
