use num_core::FixKind;
use rv_isa::{Ins, Register};

/// A line of a body's code, before its labels have places.
#[derive(Clone, Copy)]
pub enum Line {
    /// The operation of the next number begins here.
    Label,
    /// An instruction.
    Single(Ins),
    /// An `auipc`, and an instruction that adds the low 12 bits: they take the address of an item.
    Addressed {
        upper: Ins,
        lower: Ins,
        kind: FixKind,
        item: u32,
    },
    /// On to a label where a condition holds of two registers.
    Branch {
        condition: Condition,
        left: Register,
        right: Register,
        label: u32,
    },
    /// On to a label.
    Jump {
        label: u32,
    },
}

/// The conditions of branches.
#[derive(Clone, Copy)]
pub enum Condition {
    Equal,
    NotEqual,
    /// The first is less, both signed.
    Less,
    /// The first isn't less, both signed.
    NotLess,
    /// The first is less, both unsigned.
    LessUnsigned,
    /// The first isn't less, both unsigned.
    NotLessUnsigned,
}
