ghost use Rattle.lir_core.specs.Frame.{IsFrameSize};

use crate::op::LirOp;
use num_core::List;

/// How many bytes at the begin of a frame belong to the machine alone: its return address, the registers that it saves,
/// its dictionary and what a handler was entered for. Slot 0 lies behind them.
pub const FIXED_BYTES: u32 = 128;

/// How many slots, from slot 0 on, hold values within an instruction. Arguments begin behind them.
pub const SCRATCH_SLOTS: u32 = 8;

/// How many words a routine of the runtime takes at most.
pub const MOST_PASSED: usize = 8;

/// A body at the word level.
#[derive(Debug, Drop)]
pub struct LirBody {
    pub ops: List<LirOp>,
    /// How many bytes a frame takes: the fixed ones, the slots, and what rounds it up.
    pub frame: u32,
    /// Places in `ops`, each with the offset of the CIL instruction whose operations begin there.
    pub marks: List<(u32, u32)>,
    /// The slots that hold a variable each, arguments first and then locals, and are read and written as whole words
    /// alone. A body with clauses has none.
    pub vars: List<u32>,
    ghost frame_size: { IsFrameSize frame },
}
