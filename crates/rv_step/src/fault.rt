use crate::trap::Trap;
use thiserror::Error;

/// Why a step wasn't done.
#[derive(Clone, Copy, Debug, PartialEq, Eq, Error)]
pub enum StepFault {
    /// The machine can't do the instruction.
    #[error("trap")]
    Trap(Trap),
    /// The source refused a call, and counted it.
    #[error("read failed")]
    ReadFault,
    /// A sink refused a call, and counted it.
    #[error("write failed")]
    WriteFault,
}

/// Why a run didn't come to its end.
#[derive(Clone, Copy, Debug, PartialEq, Eq, Error)]
pub enum RunFault {
    /// That many steps were done, and the program goes on.
    #[error("spent: {0} steps")]
    Spent(u64),
    /// The machine can't do an instruction.
    #[error("trap")]
    Trap(Trap),
    /// The source refused a call, and counted it.
    #[error("read failed")]
    ReadFault,
    /// A sink refused a call, and counted it.
    #[error("write failed")]
    WriteFault,
}

impl From<StepFault> for RunFault {
    ghost use Rattle.std.specs.Prelude.{◌≡◌};
    ghost use Rattle.rv_step.specs.Steps.{run_fault};

    ghost from_gives = { λ step run. run ≡ run_fault step };

    fn from(fault: StepFault) -> RunFault {
        match fault {
            StepFault::Trap(trap) => RunFault::Trap(trap),
            StepFault::ReadFault => RunFault::ReadFault,
            StepFault::WriteFault => RunFault::WriteFault,
        }
    }
}
