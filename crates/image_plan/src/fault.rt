ghost use Rattle.std.specs.Prelude.{◌≡◌};
ghost use Rattle.image_plan.specs.declared.fault.PlaceFault.TheVariants.{Memory as NoMemory};

use num_core::Memory;
use thiserror::Error;

/// Why an image isn't placed.
#[derive(Clone, Copy, Debug, PartialEq, Eq, Error)]
pub enum PlaceFault {
    /// A segment would have more than 536,870,912 bytes in memory: the size of the first such segment.
    #[error("36 ImageLimit {0}")]
    ImageLimit(u64),
    #[error("memory")]
    Memory,
}

impl From<Memory> for PlaceFault {
    ghost from_gives = { λ _ fault. fault ≡ NoMemory };

    fn from(_memory: Memory) -> PlaceFault {
        PlaceFault::Memory
    }
}
