use crate::slot::StackSlot;
use num_core::List;

/// What an operation leaves on the stack for its operands (ECMA-335 III.3, III.4).
#[derive(Debug, Drop)]
pub enum Results {
    Nothing,
    /// This slot, whatever the operands are.
    Always(StackSlot),
    /// Its one operand, twice.
    Twice,
    /// A number of the kind of its one operand.
    SameNumber,
    /// A number of the kind on which its two operands agree.
    AgreedNumber,
    /// A number of the kind of the first of its two operands.
    FirstNumber,
    /// The reference that stands behind its one operand, a pointer.
    ReferenceBehind,
    /// An element of its first operand, a vector of references, of two.
    Element,
}

/// What an instruction does to the stack.
#[derive(Debug, Drop)]
pub enum Effect {
    /// It empties the stack, as `leave` does (III.3.46).
    Empties,
    /// It takes so many operands, and leaves results.
    Takes(usize, Results),
    /// How much it takes isn't known.
    Unknown,
}

/// An instruction, as far as stacks go by it.
#[derive(Debug, Drop)]
pub struct Step {
    /// Its offset.
    pub at: u32,
    /// The offsets to which control goes from it, but for handlers.
    pub ways: List<u32>,
    pub effect: Effect,
}

/// A handler, to which control can come from each offset in its try range (I.12.4.2).
#[derive(Debug, Drop)]
pub struct Handler {
    pub try_at: u32,
    pub try_end: u32,
    /// The offset at which it begins.
    pub at: u32,
    /// What is on the stack where it begins: of a catch the object that was caught.
    pub caught: Option<StackSlot>,
}
