//! Why modules make no world, and why a token has no item.
use num_core::Text;
use ty_names::RowOf;

/// Why modules make no world.
#[derive(Debug, Drop)]
pub enum LoadFault {
    /// The text of a type that leads back to itself: by bases and interfaces, by the types around it, or by the values
    /// in its instance fields.
    Cyclic(Text),
    /// The text of an assembly that another module has too, or of a type that another of its module has too.
    Twice(Text),
    /// The entry of the first module is no method at which a program can begin.
    NoEntry,
    /// Want of memory.
    Memory,
}

/// Why a token has no item.
#[derive(Debug, Drop)]
pub enum ResolveFault {
    /// The blob has no reading from this offset on.
    BadSig(u32),
    /// The blob has an element type that no type here has.
    SigOutside(u8),
    /// What the token names isn't there.
    Unresolved(Text),
    /// Want of memory.
    Memory,
}

/// Why a row leads to no type. The name that a refusal tells is made of the row.
#[derive(Clone, Copy, Debug, PartialEq, Eq)]
pub enum TypeFault {
    /// The blob has no reading from this offset on.
    BadSig(u32),
    /// The blob has an element type that no type here has.
    SigOutside(u8),
    /// What this row of the module of this number leads to isn't there, or isn't what may stand there.
    Unresolved(u32, RowOf),
    /// Want of memory.
    Memory,
}
