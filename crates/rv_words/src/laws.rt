//! The simulation of a program at the word level by the machine that holds its code, operation by operation. Each
//! function does nothing, and ensures its laws of all placings.
ghost use Rattle.rv_words.specs.Groups.{Asking, Branching, Calling, Computing, Copying, Jumping, Loading, Moving};
ghost use Rattle.rv_words.specs.Groups.{Naming, Raising, Refusing, Searching, Storing};
ghost use Rattle.rv_words.specs.Placing.{IsPlacing, Placing};
ghost use Rattle.rv_words.specs.Runs.{IsBegun, OneStep, WholeRuns};

/// Constants and addresses.
pub fn naming()
    ensures naming { (placing : Placing) → IsPlacing placing → Naming placing }
{}

/// Words that are moved from a slot to another.
pub fn moving()
    ensures moving { (placing : Placing) → IsPlacing placing → Moving placing }
{}

/// Numbers that are loaded from memory.
pub fn loading()
    ensures loading { (placing : Placing) → IsPlacing placing → Loading placing }
{}

/// Numbers that are stored to memory.
pub fn storing()
    ensures storing { (placing : Placing) → IsPlacing placing → Storing placing }
{}

/// Bytes that are copied and cleared.
pub fn copying()
    ensures copying { (placing : Placing) → IsPlacing placing → Copying placing }
{}

/// What is computed of values, and never refused.
pub fn computing()
    ensures computing { (placing : Placing) → IsPlacing placing → Computing placing }
{}

/// Jumps.
pub fn jumping()
    ensures jumping { (placing : Placing) → IsPlacing placing → Jumping placing }
{}

/// Branches.
pub fn branching()
    ensures branching { (placing : Placing) → IsPlacing placing → Branching placing }
{}

/// Objects that are raised, where no body has clauses.
pub fn raising()
    ensures raising { (placing : Placing) → IsPlacing placing → Raising placing }
{}

/// What is computed of values and refused where it is out of range, and divisions.
pub fn refusing()
    ensures refusing { (placing : Placing) → IsPlacing placing → Refusing placing }
{}

/// Routines of the runtime.
pub fn asking()
    ensures asking { (placing : Placing) → IsPlacing placing → Asking placing }
{}

/// Calls and returns.
pub fn calling()
    ensures calling { (placing : Placing) → IsPlacing placing → Calling placing }
{}

/// A search that finds nothing.
pub fn searching()
    ensures searching { (placing : Placing) → IsPlacing placing → Searching placing }
{}

/// The first machine of a loaded image.
pub fn beginning()
    ensures beginning { (placing : Placing) → IsPlacing placing → IsBegun placing }
{}

/// Each step of a program, by whatever operation.
pub fn stepping()
    ensures stepping { (placing : Placing) → IsPlacing placing → OneStep placing }
{}

/// Whole runs.
pub fn running()
    ensures running { (placing : Placing) → IsPlacing placing → WholeRuns placing }
{}
