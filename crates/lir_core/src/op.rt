use num_core::{FixKind, Kind, List, Narrow, ShiftOp};

/// An operation on the slots of the innermost frame, which are words of 64 bits, and on flat memory. `to` is the slot
/// that takes a result; the other slots are read. A kind says how words are read, and a word is of the kind where it
/// holds a value of it, an int32 with its sign extended. A label is the place of an operation in its body.
#[derive(Debug, Drop)]
pub enum LirOp {
    /// A number.
    Constant {
        to: u32,
        value: i64,
    },
    /// The address of an item of the image.
    Address {
        to: u32,
        kind: FixKind,
        item: u32,
    },
    /// The address of a slot.
    SlotAddress {
        to: u32,
        slot: u32,
    },
    /// The dictionary that the frame was entered with.
    Dictionary {
        to: u32,
    },
    /// What a slot holds, whether it was written or not.
    Move {
        to: u32,
        from: u32,
    },
    /// A number of an integer type, as the kind holds it to which the type is widened.
    Load {
        to: u32,
        from: Place,
        narrow: Narrow,
    },
    /// The lowest bytes of a slot, as many as the type has.
    Store {
        to: Place,
        from: u32,
        narrow: Narrow,
    },
    /// So many bytes, whether they were written or not. The two places may meet unless `to` lies behind `from`.
    Copy {
        to: Place,
        from: Place,
        bytes: u32,
    },
    /// So many bytes of 0.
    Clear {
        to: Place,
        bytes: u32,
    },
    /// What two values give, wrapped.
    Binary {
        operation: BinaryOperation,
        kind: Kind,
        to: u32,
        left: u32,
        right: u32,
    },
    /// What one value gives, wrapped.
    Unary {
        operation: UnaryOperation,
        kind: Kind,
        to: u32,
        value: u32,
    },
    /// What two values give, or on to `overflow` where it is out of the kind's range.
    Checked {
        operation: CheckedOperation,
        kind: Kind,
        to: u32,
        left: u32,
        right: u32,
        overflow: u32,
    },
    /// A part of a division, or on to `zero` where the divisor is 0, and to `overflow` where the least number with a
    /// sign is divided by -1.
    Divide {
        part: DivisionPart,
        kind: Kind,
        to: u32,
        left: u32,
        right: u32,
        zero: u32,
        overflow: u32,
    },
    /// A value moved by the low bits of the amount.
    Shift {
        operation: ShiftOp,
        kind: Kind,
        to: u32,
        value: u32,
        amount: u32,
    },
    /// The low bits of a value, extended as the type says.
    Convert {
        narrow: Narrow,
        from: Kind,
        to: u32,
        value: u32,
    },
    /// The same number as a value of the type, or on to `overflow` where it is out of its range.
    ConvertChecked {
        narrow: Narrow,
        from: Kind,
        to: u32,
        value: u32,
        overflow: u32,
    },
    /// 1 where the test holds of two values, and else 0.
    Compare {
        test: Test,
        kind: Kind,
        to: u32,
        left: u32,
        right: u32,
    },
    /// On to the label where the test holds of two values.
    Branch {
        test: Test,
        kind: Kind,
        left: u32,
        right: u32,
        label: u32,
    },
    /// On to the label where the word is 0.
    BranchIfZero {
        value: u32,
        label: u32,
    },
    /// On to the label unless the word is 0.
    BranchUnlessZero {
        value: u32,
        label: u32,
    },
    /// On to the label.
    Jump {
        label: u32,
    },
    /// Enters a body, with a word of this frame as its dictionary, if it takes one. Once the arguments are taken, the
    /// slots of `cleared` are 0. Where the body returns, its result stands in those of `result`, and control goes on
    /// behind the call.
    Call {
        callee: Callee,
        dictionary: Option<u32>,
        arguments: List<Argument>,
        cleared: Block,
        result: Block,
    },
    /// What a routine of the runtime does with the words of these slots, of which there are at most eight. Its result,
    /// if it has one, is a word.
    Routine {
        number: u32,
        arguments: List<u32>,
        result: Option<u32>,
    },
    /// Raises the object whose address the slot holds.
    Raise {
        object: u32,
    },
    /// Raises again what the innermost catch handler around it has caught (ECMA-335 III.4.24).
    Rethrow,
    /// On to the label, by way of the finally handlers of the clauses that this leaves.
    Leave {
        label: u32,
    },
    /// Ends a finally or fault handler; what it was entered for goes on.
    EndHandler,
    /// Back to the caller with the words of these slots, or the end of the program, with the low byte of the word or 0
    /// as its status.
    Return {
        result: Block,
    },
}

/// Where bytes of memory lie.
#[derive(Clone, Copy, Debug, PartialEq, Eq)]
pub enum Place {
    /// In the frame, so many bytes behind the begin of a slot.
    Slot { slot: u32, offset: u32 },
    /// So many bytes behind the address that a slot holds.
    Flat { base: u32, offset: u32 },
}

/// So many slots from one on. It may be none.
#[derive(Clone, Copy, Debug, PartialEq, Eq)]
pub struct Block {
    pub slot: u32,
    pub words: u32,
}

/// So many words of the caller's frame from a slot on, and the slot of the callee's frame that takes the first.
#[derive(Clone, Copy, Debug, PartialEq, Eq)]
pub struct Argument {
    pub from: u32,
    pub to: u32,
    pub words: u32,
}

/// The body that a call enters.
#[derive(Clone, Copy, Debug, PartialEq, Eq)]
pub enum Callee {
    /// That of an item of the image.
    Body(u32),
    /// That at the address which a slot holds.
    Through(u32),
}

/// The operations on two values whose result is wrapped (ECMA-335 III.3.1, III.3.64, III.3.48), and those on their bits
/// (III.3.6, III.3.53, III.3.67).
#[derive(Clone, Copy, Debug, PartialEq, Eq)]
pub enum BinaryOperation {
    Add,
    Subtract,
    Multiply,
    And,
    Or,
    ExclusiveOr,
}

/// The operations on one value (ECMA-335 III.3.50 and III.3.52).
#[derive(Clone, Copy, Debug, PartialEq, Eq)]
pub enum UnaryOperation {
    Negate,
    Complement,
}

/// The operations on two values whose result is refused out of range (ECMA-335 III.3.2, III.3.65, III.3.49).
#[derive(Clone, Copy, Debug, PartialEq, Eq)]
pub enum CheckedOperation {
    Add,
    Subtract,
    Multiply,
}

/// What is wanted of a division (ECMA-335 III.3.31, III.3.55).
#[derive(Clone, Copy, Debug, PartialEq, Eq)]
pub enum DivisionPart {
    /// The quotient, rounded toward 0.
    Quotient,
    /// The remainder, which has the dividend's sign.
    Remainder,
}

/// A test of two numbers.
#[derive(Clone, Copy, Debug, PartialEq, Eq)]
pub enum Test {
    Equal,
    NotEqual,
    /// The first is less.
    Less,
    /// The first isn't less.
    NotLess,
}
