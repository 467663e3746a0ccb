ghost use Rattle.std.specs.Prelude.{◌≡◌};
ghost use Rattle.ilc_io.specs.declared.fault.IoFault.TheVariants.{Memory as IoMemory};
ghost use Rattle.ilc_io.specs.declared.fault.FileFault.TheVariants.{Memory};
ghost use Rattle.ilc_io.specs.Fault.{file_fault};

use num_core::Memory;
use thiserror::Error;

/// Why a call of a store of files gave nothing.
#[derive(Clone, Copy, Debug, PartialEq, Eq, Error)]
pub enum IoFault {
    /// The store refused the call, and counted it.
    #[error("failed")]
    Failed,
    #[error("memory")]
    Memory,
}

/// A source or a sink refused the call, and counted it.
#[derive(Clone, Copy, Debug, PartialEq, Eq, Error)]
#[error("failed")]
pub struct Failed;

/// Why a whole file was not read or written.
#[derive(Clone, Copy, Debug, PartialEq, Eq, Error)]
pub enum FileFault {
    /// The store has no file of that name.
    #[error("missing")]
    Missing,
    /// The file has this many bytes, which are more than the caller allows.
    #[error("too long: {0}")]
    TooLong(u64),
    /// The store refused a call, and counted it.
    #[error("failed")]
    Failed,
    #[error("memory")]
    Memory,
}

impl From<Memory> for IoFault {
    ghost from_gives = { λ _ fault. fault ≡ IoMemory };

    fn from(_memory: Memory) -> IoFault {
        IoFault::Memory
    }
}

impl From<IoFault> for FileFault {
    ghost from_gives = { λ fault file. file ≡ file_fault fault };

    fn from(fault: IoFault) -> FileFault {
        match fault {
            IoFault::Failed => FileFault::Failed,
            IoFault::Memory => FileFault::Memory,
        }
    }
}

impl From<Memory> for FileFault {
    ghost from_gives = { λ _ file. file ≡ Memory };

    fn from(_memory: Memory) -> FileFault {
        FileFault::Memory
    }
}
