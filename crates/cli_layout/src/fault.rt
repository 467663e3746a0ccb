//! Why something isn't laid out.
use crate::extent::Unlaid;
use num_core::Memory;
use ty_terms::{Ty, TypeId};

/// Why something isn't laid out, or want of memory.
#[derive(Clone, Copy, Debug)]
pub(crate) enum Fault {
    Not(Unlaid),
    Memory,
}

impl From<Memory> for Fault {
    ghost use Rattle.std.specs.Prelude.{◌≡◌};
    ghost use Rattle.cli_layout.specs.declared.fault.Fault.TheVariants as faults;

    ghost from_gives = { λ _ fault. fault ≡ faults.Memory };

    fn from(_memory: Memory) -> Fault {
        Fault::Memory
    }
}

/// Why types aren't loaded.
#[derive(Debug, Drop)]
pub enum LayoutFault {
    /// The object of this type without elements, of a value type the boxed value, or the statics of this type, would
    /// have more than 65,536 bytes.
    ObjectLimit(Ty),
    /// What this type extends leads to nothing.
    NoBase(TypeId),
    /// The type of a field of this type leads to nothing, by the row of Field.
    NoField(TypeId, u32),
    /// Want of memory.
    Memory,
}

impl From<Memory> for LayoutFault {
    ghost use Rattle.std.specs.Prelude.{◌≡◌};
    ghost use Rattle.cli_layout.specs.declared.fault.LayoutFault.TheVariants as faults;

    ghost from_gives = { λ _ fault. fault ≡ faults.Memory };

    fn from(_memory: Memory) -> LayoutFault {
        LayoutFault::Memory
    }
}
