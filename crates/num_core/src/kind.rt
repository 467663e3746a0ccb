/// How an integer operation reads its operands (ECMA-335 I.12.1). A value of four bytes is held in
/// an `i64` with its sign extended, whether it is read with a sign or without one.
#[derive(Clone, Copy, Debug, PartialEq, Eq)]
pub enum Kind {
    /// 32 bits with a sign.
    I4,
    /// 32 bits without a sign.
    U4,
    /// 64 bits with a sign.
    I8,
    /// 64 bits without a sign.
    U8,
}

/// The integer types that a conversion names (ECMA-335 III.3.27 to III.3.29).
#[derive(Clone, Copy, Debug, PartialEq, Eq)]
pub enum Narrow {
    /// 8 bits with a sign.
    I1,
    /// 8 bits without a sign.
    U1,
    /// 16 bits with a sign.
    I2,
    /// 16 bits without a sign.
    U2,
    /// 32 bits with a sign.
    I4,
    /// 32 bits without a sign.
    U4,
    /// 64 bits with a sign.
    I8,
    /// 64 bits without a sign.
    U8,
}

/// The shifts (ECMA-335 III.3.58 to III.3.60): `shl`, `shr` and `shr.un`.
#[derive(Clone, Copy, Debug, PartialEq, Eq)]
pub enum ShiftOp {
    /// To the left; what leaves the kind's bits is lost.
    Left,
    /// To the right, copying the sign.
    Right,
    /// To the right, filling with 0.
    RightUnsigned,
}
