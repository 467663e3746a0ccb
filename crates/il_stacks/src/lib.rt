//! What is known of the evaluation stack (ECMA-335 III.1.8.1): slots, stacks, what two ways of control leave, and the
//! least stacks of code whose operations are resolved.
#![tactic(auto)]

mod copy;
mod effect;
mod flow;
mod join;
mod laws;
mod order;
mod results;
mod sets;
mod slot;
mod stack;
mod typing;

pub use effect::{Effect, Handler, Results, Step};
pub use flow::least_stacks;
pub use laws::least_stacks_by_rounds;
pub use slot::StackSlot;
pub use stack::Stack;
pub use typing::{OffsetStack, Typing};
