ghost use Rattle.std.specs.Prelude.{◌≡◌, ◌<◌, ◌^◌, ◌%◌};
ghost use Rattle.std.specs.Option.{SomeIff};
ghost use Rattle.num_core.specs.Bits.{signed, twos_complement};
ghost use Rattle.rv_isa.specs.Operands.{IsImmediate, IsBranchOffset, IsJumpOffset};

use std::fmt;
use std::marker::Model;

/// The number of an integer register, x0 to x31: the manual's chapter "RV32I", "Programmers' Model".
#[derive(Clone, Copy, PartialEq, Eq)]
pub struct Register {
    number: u8,
}

impl Model for Register {
    ghost use Rattle.std.specs.Prelude.{ℕ, ◌<◌};

    ghost Value = { ℕ };

    ghost view = { λ operand. operand.number };

    ghost invariant = { λ operand. operand.number < 32 };

    ghost inverse = { λ number. record { number = number } };
}

impl fmt::Debug for Register {
    fn fmt<W: fmt::Write>(&self, f: &mut fmt::Formatter<W>) -> fmt::Result {
        write!(f, "x{}", self.number)
    }
}

impl Register {
    /// The register of a number, if there is one.
    pub fn new(number: u8) -> Option<Register>
        ensures { SomeIff result (number < 32) number }
    {
        if number < 32 {
            Some(Register { number })
        } else {
            None
        }
    }

    /// The register of a number below 32.
    pub fn of(number: u8) -> Register
        requires { number < 32 }
        ensures { result ≡ number }
    {
        Register { number }
    }

    /// The register in the lowest five bits.
    pub(crate) fn in_low_bits(bits: u32) -> Register
        ensures { result ≡ bits % 32 }
    {
        Register {
            number: (bits % 32) as u8,
        }
    }

    /// Its number.
    pub fn index(self) -> usize
        ensures number { result ≡ self }
        ensures range { result < 32 }
    {
        self.number as usize
    }

    /// Its number, as the field of a word.
    pub(crate) fn bits(self) -> u32
        ensures number { result ≡ self }
        ensures range { result < 32 }
    {
        self.number as u32
    }
}

/// A signed number of twelve bits, from -2048 to 2047: imm of the I and S formats.
#[derive(Clone, Copy, PartialEq, Eq)]
pub struct Immediate {
    value: i16,
}

impl Model for Immediate {
    ghost use Rattle.std.specs.Prelude.{ℤ};
    ghost use Rattle.rv_isa.specs.Operands.{IsImmediate};

    ghost Value = { ℤ };

    ghost view = { λ operand. operand.value };

    ghost invariant = { λ operand. IsImmediate operand.value };

    ghost inverse = { λ value. record { value = value } };
}

impl fmt::Debug for Immediate {
    fn fmt<W: fmt::Write>(&self, f: &mut fmt::Formatter<W>) -> fmt::Result {
        write!(f, "{}", self.value)
    }
}

impl Immediate {
    /// The immediate of a value, if it is in range.
    pub fn new(value: i16) -> Option<Immediate>
        ensures { SomeIff result (IsImmediate value) value }
    {
        if value >= -2048 && value <= 2047 {
            Some(Immediate { value })
        } else {
            None
        }
    }

    /// The immediate of a value in range.
    pub fn of(value: i16) -> Immediate
        requires { IsImmediate value }
        ensures { result ≡ value }
    {
        Immediate { value }
    }

    /// The immediate that 12 bits stand for.
    pub(crate) fn from_bits(bits: u32) -> Immediate
        requires range { bits < 2 ^ 12 }
        ensures { result ≡ signed 12 bits }
    {
        let value = bits as i16;
        if value < 2048 {
            Immediate { value }
        } else {
            Immediate {
                value: value - 4096,
            }
        }
    }

    /// Its value.
    pub fn value(self) -> i16
        ensures value { result ≡ self }
        ensures range { IsImmediate result }
    {
        self.value
    }

    /// The 12 bits that stand for it.
    pub(crate) fn bits(self) -> u32
        ensures bits { result ≡ twos_complement 12 self }
        ensures range { result < 2 ^ 12 }
        ensures fits { IsImmediate self }
    {
        if self.value < 0 {
            (self.value + 4096) as u32
        } else {
            self.value as u32
        }
    }
}

/// An even number from -4096 to 4094: imm of the B format, in bytes.
#[derive(Clone, Copy, PartialEq, Eq)]
pub struct BranchOffset {
    value: i16,
}

impl Model for BranchOffset {
    ghost use Rattle.std.specs.Prelude.{ℤ};
    ghost use Rattle.rv_isa.specs.Operands.{IsBranchOffset};

    ghost Value = { ℤ };

    ghost view = { λ operand. operand.value };

    ghost invariant = { λ operand. IsBranchOffset operand.value };

    ghost inverse = { λ value. record { value = value } };
}

impl fmt::Debug for BranchOffset {
    fn fmt<W: fmt::Write>(&self, f: &mut fmt::Formatter<W>) -> fmt::Result {
        write!(f, "{}", self.value)
    }
}

impl BranchOffset {
    /// The offset of a value, if it is in range.
    pub fn new(value: i16) -> Option<BranchOffset>
        ensures { SomeIff result (IsBranchOffset value) value }
    {
        if value >= -4096 && value <= 4094 && value.unsigned_abs() % 2 == 0 {
            Some(BranchOffset { value })
        } else {
            None
        }
    }

    /// The offset of a value in range.
    pub fn of(value: i16) -> BranchOffset
        requires { IsBranchOffset value }
        ensures { result ≡ value }
    {
        BranchOffset { value }
    }

    /// The offset that 13 bits stand for.
    pub(crate) fn from_bits(bits: u32) -> BranchOffset
        requires range { bits < 2 ^ 13 }
        requires even { bits % 2 ≡ 0 }
        ensures { result ≡ signed 13 bits }
    {
        let value = bits as i16;
        if value < 4096 {
            BranchOffset { value }
        } else {
            BranchOffset {
                value: value - 8192,
            }
        }
    }

    /// Its value.
    pub fn value(self) -> i16
        ensures value { result ≡ self }
        ensures range { IsBranchOffset result }
    {
        self.value
    }

    /// The 13 bits that stand for it.
    pub(crate) fn bits(self) -> u32
        ensures bits { result ≡ twos_complement 13 self }
        ensures range { result < 2 ^ 13 }
        ensures fits { IsBranchOffset self }
    {
        if self.value < 0 {
            (self.value + 8192) as u32
        } else {
            self.value as u32
        }
    }
}

/// An even number from -1048576 to 1048574: imm of the J format, in bytes.
#[derive(Clone, Copy, PartialEq, Eq)]
pub struct JumpOffset {
    value: i32,
}

impl Model for JumpOffset {
    ghost use Rattle.std.specs.Prelude.{ℤ};
    ghost use Rattle.rv_isa.specs.Operands.{IsJumpOffset};

    ghost Value = { ℤ };

    ghost view = { λ operand. operand.value };

    ghost invariant = { λ operand. IsJumpOffset operand.value };

    ghost inverse = { λ value. record { value = value } };
}

impl fmt::Debug for JumpOffset {
    fn fmt<W: fmt::Write>(&self, f: &mut fmt::Formatter<W>) -> fmt::Result {
        write!(f, "{}", self.value)
    }
}

impl JumpOffset {
    /// The offset of a value, if it is in range.
    pub fn new(value: i32) -> Option<JumpOffset>
        ensures { SomeIff result (IsJumpOffset value) value }
    {
        if value >= -1_048_576 && value <= 1_048_574 && value.unsigned_abs() % 2 == 0 {
            Some(JumpOffset { value })
        } else {
            None
        }
    }

    /// The offset of a value in range.
    pub fn of(value: i32) -> JumpOffset
        requires { IsJumpOffset value }
        ensures { result ≡ value }
    {
        JumpOffset { value }
    }

    /// The offset that 21 bits stand for.
    pub(crate) fn from_bits(bits: u32) -> JumpOffset
        requires range { bits < 2 ^ 21 }
        requires even { bits % 2 ≡ 0 }
        ensures { result ≡ signed 21 bits }
    {
        let value = bits as i32;
        if value < 1048576 {
            JumpOffset { value }
        } else {
            JumpOffset {
                value: value - 2097152,
            }
        }
    }

    /// Its value.
    pub fn value(self) -> i32
        ensures value { result ≡ self }
        ensures range { IsJumpOffset result }
    {
        self.value
    }

    /// The 21 bits that stand for it.
    pub(crate) fn bits(self) -> u32
        ensures bits { result ≡ twos_complement 21 self }
        ensures range { result < 2 ^ 21 }
        ensures fits { IsJumpOffset self }
    {
        if self.value < 0 {
            (self.value + 2097152) as u32
        } else {
            self.value as u32
        }
    }
}

/// The upper 20 bits of a number of 32 bits whose lower 12 are 0: imm of the U format.
#[derive(Clone, Copy, PartialEq, Eq)]
pub struct UpperImmediate {
    bits: u32,
}

impl Model for UpperImmediate {
    ghost use Rattle.std.specs.Prelude.{ℕ, ◌<◌, ◌^◌};

    ghost Value = { ℕ };

    ghost view = { λ operand. operand.bits };

    ghost invariant = { λ operand. operand.bits < 2 ^ 20 };

    ghost inverse = { λ bits. record { bits = bits } };
}

impl fmt::Debug for UpperImmediate {
    fn fmt<W: fmt::Write>(&self, f: &mut fmt::Formatter<W>) -> fmt::Result {
        write!(f, "{}", self.bits)
    }
}

impl UpperImmediate {
    /// The immediate of a number, if it is in range.
    pub fn new(bits: u32) -> Option<UpperImmediate>
        ensures { SomeIff result (bits < 2 ^ 20) bits }
    {
        if bits < 1 << 20 {
            Some(UpperImmediate { bits })
        } else {
            None
        }
    }

    /// The immediate of a number in range.
    pub fn of(bits: u32) -> UpperImmediate
        requires { bits < 2 ^ 20 }
        ensures { result ≡ bits }
    {
        UpperImmediate { bits }
    }

    /// Its number.
    pub fn bits(self) -> u32
        ensures bits { result ≡ self }
        ensures range { result < 2 ^ 20 }
    {
        self.bits
    }
}

/// How far 64 bits are shifted: shamt of `Slli`, `Srli` and `Srai`.
#[derive(Clone, Copy, PartialEq, Eq)]
pub struct ShiftAmount {
    value: u32,
}

impl Model for ShiftAmount {
    ghost use Rattle.std.specs.Prelude.{ℕ, ◌<◌};

    ghost Value = { ℕ };

    ghost view = { λ operand. operand.value };

    ghost invariant = { λ operand. operand.value < 64 };

    ghost inverse = { λ value. record { value = value } };
}

impl fmt::Debug for ShiftAmount {
    fn fmt<W: fmt::Write>(&self, f: &mut fmt::Formatter<W>) -> fmt::Result {
        write!(f, "{}", self.value)
    }
}

impl ShiftAmount {
    /// The amount of a number, if it is in range.
    pub fn new(value: u32) -> Option<ShiftAmount>
        ensures { SomeIff result (value < 64) value }
    {
        if value < 64 {
            Some(ShiftAmount { value })
        } else {
            None
        }
    }

    /// The amount of a number in range.
    pub fn of(value: u32) -> ShiftAmount
        requires { value < 64 }
        ensures { result ≡ value }
    {
        ShiftAmount { value }
    }

    /// Its number.
    pub fn value(self) -> u32
        ensures value { result ≡ self }
        ensures range { result < 64 }
    {
        self.value
    }
}

/// How far 32 bits are shifted: shamt of `Slliw`, `Srliw` and `Sraiw`.
#[derive(Clone, Copy, PartialEq, Eq)]
pub struct WordShiftAmount {
    value: u32,
}

impl Model for WordShiftAmount {
    ghost use Rattle.std.specs.Prelude.{ℕ, ◌<◌};

    ghost Value = { ℕ };

    ghost view = { λ operand. operand.value };

    ghost invariant = { λ operand. operand.value < 32 };

    ghost inverse = { λ value. record { value = value } };
}

impl fmt::Debug for WordShiftAmount {
    fn fmt<W: fmt::Write>(&self, f: &mut fmt::Formatter<W>) -> fmt::Result {
        write!(f, "{}", self.value)
    }
}

impl WordShiftAmount {
    /// The amount of a number, if it is in range.
    pub fn new(value: u32) -> Option<WordShiftAmount>
        ensures { SomeIff result (value < 32) value }
    {
        if value < 32 {
            Some(WordShiftAmount { value })
        } else {
            None
        }
    }

    /// The amount of a number in range.
    pub fn of(value: u32) -> WordShiftAmount
        requires { value < 32 }
        ensures { result ≡ value }
    {
        WordShiftAmount { value }
    }

    /// Its number.
    pub fn value(self) -> u32
        ensures value { result ≡ self }
        ensures range { result < 32 }
    {
        self.value
    }
}
