//! The state of a program at the word level that an RV64 machine holds, and the simulation of the program by the
//! machine that runs its code.
#![tactic(auto)]

mod laws;

pub use laws::{
    asking, beginning, branching, calling, computing, copying, jumping, loading, moving, naming,
    raising, refusing, running, searching, stepping, storing,
};
