ghost use Rattle.std.specs.Prelude.{◌≡◌, ◌++◌, ◌<◌, pos, OnOk};
ghost use Rattle.num_core.specs.declared.kind.Kind.{Kind as KindOf};
ghost use Rattle.rv_isa.specs.declared.ins.Ins.{Ins as InsOf};
ghost use Rattle.rv_lines.specs.declared.line.Line.TheVariants.{Single};
ghost use Rattle.rv_lines.specs.Computing.{adds_checked, changes, combines, combines_checked, compares};
ghost use Rattle.rv_lines.specs.Computing.{condition_of as condition_of_test, converts, converts_checked};
ghost use Rattle.rv_lines.specs.Computing.{converts_to_i4, converts_to_i8, converts_to_u4, converts_to_u8, divides};
ghost use Rattle.rv_lines.specs.Computing.{divides_by, extends_by_zeros, extends_sign, gets_least, has_four_bytes};
ghost use Rattle.rv_lines.specs.Computing.{is_less as is_less_of, keeps, keeps_low, keeps_low_signed, keeps_short};
ghost use Rattle.rv_lines.specs.Computing.{keeps_unsigned, multiplies_checked, narrows_to_32, refuses_least, shifts};
ghost use Rattle.rv_lines.specs.Computing.{subtracts_checked, unless_same as unless_same_of, if_less as if_less_of};
ghost use Rattle.rv_lines.specs.Computing.{widens_unsigned};
ghost use Rattle.num_core.specs.Integers.{is_signed as is_signed_kind};

use crate::line::{Condition, Line};
use crate::operands::{addi, x};
use lir_core::{BinaryOperation, CheckedOperation, DivisionPart, Test, UnaryOperation};
use num_core::{Kind, List, Memory, Narrow, ShiftOp};
use rv_isa::{Immediate, Ins, Register, ShiftAmount, UpperImmediate};

/// Whether values of the kind have four bytes.
fn has_four_bytes(kind: Kind) -> bool
    ensures { result ≡ has_four_bytes kind }
{
    match kind {
        Kind::I4 | Kind::U4 => true,
        Kind::I8 | Kind::U8 => false,
    }
}

/// Whether the kind reads its values with a sign.
fn is_signed(kind: Kind) -> bool
    ensures { result ≡ is_signed_kind kind }
{
    match kind {
        Kind::I4 | Kind::I8 => true,
        Kind::U4 | Kind::U8 => false,
    }
}

/// What two registers give, wrapped.
pub fn combine(
    operation: BinaryOperation,
    kind: Kind,
    rd: Register,
    rs1: Register,
    rs2: Register,
) -> Ins
    ensures { result ≡ combines operation kind rd rs1 rs2 }
{
    let short = has_four_bytes(kind);
    match operation {
        BinaryOperation::Add if short => Ins::Addw { rd, rs1, rs2 },
        BinaryOperation::Add => Ins::Add { rd, rs1, rs2 },
        BinaryOperation::Subtract if short => Ins::Subw { rd, rs1, rs2 },
        BinaryOperation::Subtract => Ins::Sub { rd, rs1, rs2 },
        BinaryOperation::Multiply if short => Ins::Mulw { rd, rs1, rs2 },
        BinaryOperation::Multiply => Ins::Mul { rd, rs1, rs2 },
        BinaryOperation::And => Ins::And { rd, rs1, rs2 },
        BinaryOperation::Or => Ins::Or { rd, rs1, rs2 },
        BinaryOperation::ExclusiveOr => Ins::Xor { rd, rs1, rs2 },
    }
}

/// What one register gives, wrapped.
pub fn change(operation: UnaryOperation, kind: Kind, rd: Register, rs: Register) -> Ins
    ensures { result ≡ changes operation kind rd rs }
{
    let rs1 = x(0);
    match operation {
        UnaryOperation::Negate if has_four_bytes(kind) => Ins::Subw { rd, rs1, rs2: rs },
        UnaryOperation::Negate => Ins::Sub { rd, rs1, rs2: rs },
        UnaryOperation::Complement => Ins::Xori {
            rd,
            rs1: rs,
            imm: Immediate::of(-1),
        },
    }
}

/// A register moved by the low bits of another.
pub fn shift(operation: ShiftOp, kind: Kind, rd: Register, rs1: Register, rs2: Register) -> Ins
    ensures { result ≡ shifts operation kind rd rs1 rs2 }
{
    let short = has_four_bytes(kind);
    match operation {
        ShiftOp::Left if short => Ins::Sllw { rd, rs1, rs2 },
        ShiftOp::Left => Ins::Sll { rd, rs1, rs2 },
        ShiftOp::Right if short => Ins::Sraw { rd, rs1, rs2 },
        ShiftOp::Right => Ins::Sra { rd, rs1, rs2 },
        ShiftOp::RightUnsigned if short => Ins::Srlw { rd, rs1, rs2 },
        ShiftOp::RightUnsigned => Ins::Srl { rd, rs1, rs2 },
    }
}

// ---- conversions

/// The low bits of a register, extended by zeros; so many others are moved out.
fn extend_by_zeros(
    lines: &mut List<Line>,
    others: u32,
    r: Register,
    x: Register,
) -> Result<(), Memory>
    requires { others < 64 }
    ensures { OnOk result (lines.new ≡ lines.old ++ extends_by_zeros others r x) }
{
    let shamt = ShiftAmount::of(others);
    lines.extend_from_slice(&[
        Line::Single(Ins::Slli {
            rd: r,
            rs1: x,
            shamt,
        }),
        Line::Single(Ins::Srli {
            rd: r,
            rs1: r,
            shamt,
        }),
    ])
}

/// The low bits of a register, extended by their sign.
fn extend_sign(lines: &mut List<Line>, others: u32, r: Register, x: Register) -> Result<(), Memory>
    requires { others < 64 }
    ensures { OnOk result (lines.new ≡ lines.old ++ extends_sign others r x) }
{
    let shamt = ShiftAmount::of(others);
    lines.extend_from_slice(&[
        Line::Single(Ins::Slli {
            rd: r,
            rs1: x,
            shamt,
        }),
        Line::Single(Ins::Srai {
            rd: r,
            rs1: r,
            shamt,
        }),
    ])
}

/// The lowest 32 bits of a register with their sign extended.
fn narrow_to_32(lines: &mut List<Line>, r: Register, x: Register) -> Result<(), Memory>
    ensures { OnOk result (lines.new ≡ lines.old ++ narrows_to_32 r x) }
{
    lines.extend_from_slice(&[Line::Single(Ins::Addiw {
        rd: r,
        rs1: x,
        imm: Immediate::of(0),
    })])
}

/// The same word.
fn keep(lines: &mut List<Line>, r: Register, x: Register) -> Result<(), Memory>
    ensures { OnOk result (lines.new ≡ lines.old ++ keeps r x) }
{
    lines.extend_from_slice(&[addi(r, x, 0)])
}

/// The number of a register, read without a sign, in 64 bits.
fn widen_unsigned(
    lines: &mut List<Line>,
    kind: Kind,
    r: Register,
    x: Register,
) -> Result<(), Memory>
    ensures { OnOk result (lines.new ≡ lines.old ++ widens_unsigned kind r x) }
{
    if has_four_bytes(kind) {
        extend_by_zeros(lines, 32, r, x)
    } else {
        keep(lines, r, x)
    }
}

/// A conversion that refuses nothing.
pub fn convert(
    lines: &mut List<Line>,
    narrow: Narrow,
    kind: Kind,
    r: Register,
    x: Register,
) -> Result<(), Memory>
    ensures { OnOk result (lines.new ≡ lines.old ++ converts narrow kind r x) }
{
    match narrow {
        Narrow::I1 => extend_sign(lines, 56, r, x),
        Narrow::U1 => extend_by_zeros(lines, 56, r, x),
        Narrow::I2 => extend_sign(lines, 48, r, x),
        Narrow::U2 => extend_by_zeros(lines, 48, r, x),
        Narrow::I4 | Narrow::U4 => narrow_to_32(lines, r, x),
        Narrow::I8 => keep(lines, r, x),
        Narrow::U8 => widen_unsigned(lines, kind, r, x),
    }
}

// ---- tests

/// 1 where the first register is less, as the kind reads them.
fn is_less(kind: Kind, rd: Register, rs1: Register, rs2: Register) -> Ins
    ensures { result ≡ is_less_of kind rd rs1 rs2 }
{
    if is_signed(kind) {
        Ins::Slt { rd, rs1, rs2 }
    } else {
        Ins::Sltu { rd, rs1, rs2 }
    }
}

/// 1 where the test holds of two registers, and else 0.
pub fn compare(
    lines: &mut List<Line>,
    test: Test,
    kind: Kind,
    r: Register,
    a: Register,
    b: Register,
) -> Result<(), Memory>
    ensures { OnOk result (lines.new ≡ lines.old ++ compares test kind r a b) }
{
    let differ = Line::Single(Ins::Xor {
        rd: r,
        rs1: a,
        rs2: b,
    });
    let less = Line::Single(is_less(kind, r, a, b));
    let one = Immediate::of(1);
    match test {
        Test::Equal => lines.extend_from_slice(&[
            differ,
            Line::Single(Ins::Sltiu {
                rd: r,
                rs1: r,
                imm: one,
            }),
        ]),
        Test::NotEqual => lines.extend_from_slice(&[
            differ,
            Line::Single(Ins::Sltu {
                rd: r,
                rs1: x(0),
                rs2: r,
            }),
        ]),
        Test::Less => lines.extend_from_slice(&[less]),
        Test::NotLess => lines.extend_from_slice(&[
            less,
            Line::Single(Ins::Xori {
                rd: r,
                rs1: r,
                imm: one,
            }),
        ]),
    }
}

/// The condition of a branch by a test.
pub fn condition_of(test: Test, kind: Kind) -> Condition
    ensures { result ≡ condition_of_test test kind }
{
    match test {
        Test::Equal => Condition::Equal,
        Test::NotEqual => Condition::NotEqual,
        Test::Less if is_signed(kind) => Condition::Less,
        Test::Less => Condition::LessUnsigned,
        Test::NotLess if is_signed(kind) => Condition::NotLess,
        Test::NotLess => Condition::NotLessUnsigned,
    }
}

// ---- results that are refused out of range

/// On to a label where two registers differ.
fn unless_same(left: Register, right: Register, label: u32) -> Line
    ensures { result ≡ unless_same_of left right label }
{
    Line::Branch {
        condition: Condition::NotEqual,
        left,
        right,
        label,
    }
}

/// On to a label where the first register is less, both without a sign.
fn if_less(left: Register, right: Register, label: u32) -> Line
    ensures { result ≡ if_less_of left right label }
{
    Line::Branch {
        condition: Condition::LessUnsigned,
        left,
        right,
        label,
    }
}

/// The sum.
fn add(rd: Register, rs1: Register, rs2: Register) -> Line
    ensures { result ≡ Single (InsOf.Add rd rs1 rs2) }
{
    Line::Single(Ins::Add { rd, rs1, rs2 })
}

/// The sum of 32 bits.
fn add_words(rd: Register, rs1: Register, rs2: Register) -> Line
    ensures { result ≡ Single (InsOf.Addw rd rs1 rs2) }
{
    Line::Single(Ins::Addw { rd, rs1, rs2 })
}

/// The difference.
fn subtract(rd: Register, rs1: Register, rs2: Register) -> Line
    ensures { result ≡ Single (InsOf.Sub rd rs1 rs2) }
{
    Line::Single(Ins::Sub { rd, rs1, rs2 })
}

/// The difference of 32 bits.
fn subtract_words(rd: Register, rs1: Register, rs2: Register) -> Line
    ensures { result ≡ Single (InsOf.Subw rd rs1 rs2) }
{
    Line::Single(Ins::Subw { rd, rs1, rs2 })
}

/// The product.
fn multiply(rd: Register, rs1: Register, rs2: Register) -> Line
    ensures { result ≡ Single (InsOf.Mul rd rs1 rs2) }
{
    Line::Single(Ins::Mul { rd, rs1, rs2 })
}

/// The product of 32 bits.
fn multiply_words(rd: Register, rs1: Register, rs2: Register) -> Line
    ensures { result ≡ Single (InsOf.Mulw rd rs1 rs2) }
{
    Line::Single(Ins::Mulw { rd, rs1, rs2 })
}

/// The upper half of the product, with signs.
fn multiply_high(rd: Register, rs1: Register, rs2: Register) -> Line
    ensures { result ≡ Single (InsOf.Mulh rd rs1 rs2) }
{
    Line::Single(Ins::Mulh { rd, rs1, rs2 })
}

/// The upper half of the product, without signs.
fn multiply_high_unsigned(rd: Register, rs1: Register, rs2: Register) -> Line
    ensures { result ≡ Single (InsOf.Mulhu rd rs1 rs2) }
{
    Line::Single(Ins::Mulhu { rd, rs1, rs2 })
}

/// 1 where the first is less, and else 0.
fn set_less(rd: Register, rs1: Register, rs2: Register) -> Line
    ensures { result ≡ Single (InsOf.Slt rd rs1 rs2) }
{
    Line::Single(Ins::Slt { rd, rs1, rs2 })
}

/// Moved to the left.
fn shift_left(rd: Register, rs1: Register, by: u32) -> Line
    requires { by < 64 }
    ensures { result ≡ Single (InsOf.Slli rd rs1 by) }
{
    let shamt = ShiftAmount::of(by);
    Line::Single(Ins::Slli { rd, rs1, shamt })
}

/// Moved to the right.
fn shift_right(rd: Register, rs1: Register, by: u32) -> Line
    requires { by < 64 }
    ensures { result ≡ Single (InsOf.Srli rd rs1 by) }
{
    let shamt = ShiftAmount::of(by);
    Line::Single(Ins::Srli { rd, rs1, shamt })
}

/// Moved to the right with the sign.
fn shift_right_signed(rd: Register, rs1: Register, by: u32) -> Line
    requires { by < 64 }
    ensures { result ≡ Single (InsOf.Srai rd rs1 by) }
{
    let shamt = ShiftAmount::of(by);
    Line::Single(Ins::Srai { rd, rs1, shamt })
}

/// 1 where the sign is set, and else 0.
fn sign_of(rd: Register, rs1: Register) -> Line
    ensures { result ≡ Single (InsOf.Slti rd rs1 (pos 0)) }
{
    let imm = Immediate::of(0);
    Line::Single(Ins::Slti { rd, rs1, imm })
}

/// The lowest 32 bits with their sign.
fn low_word(rd: Register, rs1: Register) -> Line
    ensures { result ≡ Single (InsOf.Addiw rd rs1 (pos 0)) }
{
    let imm = Immediate::of(0);
    Line::Single(Ins::Addiw { rd, rs1, imm })
}

/// The sum in x7, or on to a label.
fn add_checked(
    lines: &mut List<Line>,
    kind: Kind,
    a: Register,
    b: Register,
    overflow: u32,
) -> Result<(), Memory>
    ensures { OnOk result (lines.new ≡ lines.old ++ adds_checked kind a b overflow) }
{
    let (r, t, u) = (x(7), x(28), x(29));
    match kind {
        Kind::I4 => lines.extend_from_slice(&[
            add(t, a, b),
            add_words(r, a, b),
            unless_same(t, r, overflow),
        ]),
        Kind::U4 => lines.extend_from_slice(&[add_words(r, a, b), if_less(r, a, overflow)]),
        Kind::I8 => lines.extend_from_slice(&[
            add(r, a, b),
            set_less(t, r, a),
            sign_of(u, b),
            unless_same(t, u, overflow),
        ]),
        Kind::U8 => lines.extend_from_slice(&[add(r, a, b), if_less(r, a, overflow)]),
    }
}

/// The difference in x7, or on to a label.
fn subtract_checked(
    lines: &mut List<Line>,
    kind: Kind,
    a: Register,
    b: Register,
    overflow: u32,
) -> Result<(), Memory>
    ensures { OnOk result (lines.new ≡ lines.old ++ subtracts_checked kind a b overflow) }
{
    let (r, t, u) = (x(7), x(28), x(29));
    match kind {
        Kind::I4 => lines.extend_from_slice(&[
            subtract(t, a, b),
            subtract_words(r, a, b),
            unless_same(t, r, overflow),
        ]),
        Kind::U4 => lines.extend_from_slice(&[subtract_words(r, a, b), if_less(a, b, overflow)]),
        Kind::I8 => lines.extend_from_slice(&[
            subtract(r, a, b),
            set_less(t, a, r),
            sign_of(u, b),
            unless_same(t, u, overflow),
        ]),
        Kind::U8 => lines.extend_from_slice(&[subtract(r, a, b), if_less(a, b, overflow)]),
    }
}

/// The product in x7, or on to a label.
fn multiply_checked(
    lines: &mut List<Line>,
    kind: Kind,
    a: Register,
    b: Register,
    overflow: u32,
) -> Result<(), Memory>
    ensures { OnOk result (lines.new ≡ lines.old ++ multiplies_checked kind a b overflow) }
{
    let (r, t, u) = (x(7), x(28), x(29));
    match kind {
        Kind::I4 => lines.extend_from_slice(&[
            multiply(t, a, b),
            multiply_words(r, a, b),
            unless_same(t, r, overflow),
        ]),
        Kind::U4 => multiply_u4_checked(lines, a, b, overflow),
        Kind::I8 => lines.extend_from_slice(&[
            multiply_high(t, a, b),
            multiply(r, a, b),
            shift_right_signed(u, r, 63),
            unless_same(t, u, overflow),
        ]),
        Kind::U8 => lines.extend_from_slice(&[
            multiply_high_unsigned(t, a, b),
            multiply(r, a, b),
            unless_same(t, x(0), overflow),
        ]),
    }
}

/// The product of numbers of 32 bits without a sign in x7, or on to a label.
fn multiply_u4_checked(
    lines: &mut List<Line>,
    a: Register,
    b: Register,
    overflow: u32,
) -> Result<(), Memory>
    ensures { OnOk result (lines.new ≡ lines.old ++ multiplies_checked KindOf.U4 a b overflow) }
{
    let (r, t, u) = (x(7), x(28), x(29));
    lines.extend_from_slice(&[
        shift_left(t, a, 32),
        shift_right(t, t, 32),
        shift_left(u, b, 32),
        shift_right(u, u, 32),
        multiply(r, t, u),
        shift_right(t, r, 32),
        low_word(r, r),
        unless_same(t, x(0), overflow),
    ])
}

/// The result of a checked operation in x7, or on to a label.
pub fn combine_checked(
    lines: &mut List<Line>,
    operation: CheckedOperation,
    kind: Kind,
    a: Register,
    b: Register,
    overflow: u32,
) -> Result<(), Memory>
    ensures { OnOk result (lines.new ≡ lines.old ++ combines_checked operation kind a b overflow) }
{
    match operation {
        CheckedOperation::Add => add_checked(lines, kind, a, b, overflow),
        CheckedOperation::Subtract => subtract_checked(lines, kind, a, b, overflow),
        CheckedOperation::Multiply => multiply_checked(lines, kind, a, b, overflow),
    }
}

/// The word in x7 where its sign isn't set, or on to a label.
fn keep_unsigned(lines: &mut List<Line>, a: Register, overflow: u32) -> Result<(), Memory>
    ensures { OnOk result (lines.new ≡ lines.old ++ keeps_unsigned a overflow) }
{
    lines.extend_from_slice(&[
        Line::Branch {
            condition: Condition::Less,
            left: a,
            right: x(0),
            label: overflow,
        },
        addi(x(7), a, 0),
    ])
}

/// The word in x7 where its low bits, extended by zeros, give it back, or on to a label.
fn keep_low(lines: &mut List<Line>, others: u32, a: Register, overflow: u32) -> Result<(), Memory>
    requires { others < 64 }
    ensures { OnOk result (lines.new ≡ lines.old ++ keeps_low others a overflow) }
{
    extend_by_zeros(lines, others, x(7), a)?;
    lines.extend_from_slice(&[unless_same(x(7), a, overflow)])
}

/// The word in x7 where its low bits, extended by their sign, give it back, or on to a label.
fn keep_low_signed(
    lines: &mut List<Line>,
    others: u32,
    a: Register,
    overflow: u32,
) -> Result<(), Memory>
    requires { others < 64 }
    ensures { OnOk result (lines.new ≡ lines.old ++ keeps_low_signed others a overflow) }
{
    extend_sign(lines, others, x(7), a)?;
    lines.extend_from_slice(&[unless_same(x(7), a, overflow)])
}

/// The number in x7 where it is in the range of a type with a sign, of which so many bits are none, or on to a label.
fn keep_short(
    lines: &mut List<Line>,
    kind: Kind,
    others: u32,
    a: Register,
    overflow: u32,
) -> Result<(), Memory>
    requires { others < 63 }
    ensures { OnOk result (lines.new ≡ lines.old ++ keeps_short kind others a overflow) }
{
    if is_signed(kind) {
        keep_low_signed(lines, others, a, overflow)
    } else {
        keep_low(lines, others + 1, a, overflow)
    }
}

fn convert_to_i4(
    lines: &mut List<Line>,
    kind: Kind,
    a: Register,
    overflow: u32,
) -> Result<(), Memory>
    ensures { OnOk result (lines.new ≡ lines.old ++ converts_to_i4 kind a overflow) }
{
    match kind {
        Kind::I4 => keep(lines, x(7), a),
        Kind::U4 => keep_unsigned(lines, a, overflow),
        Kind::I8 => keep_low_signed(lines, 32, a, overflow),
        Kind::U8 => keep_low(lines, 33, a, overflow),
    }
}

fn convert_to_u4(
    lines: &mut List<Line>,
    kind: Kind,
    a: Register,
    overflow: u32,
) -> Result<(), Memory>
    ensures { OnOk result (lines.new ≡ lines.old ++ converts_to_u4 kind a overflow) }
{
    match kind {
        Kind::I4 => keep_unsigned(lines, a, overflow),
        Kind::U4 => keep(lines, x(7), a),
        Kind::I8 | Kind::U8 => {
            keep_low(lines, 32, a, overflow)?;
            narrow_to_32(lines, x(7), x(7))
        }
    }
}

fn convert_to_i8(
    lines: &mut List<Line>,
    kind: Kind,
    a: Register,
    overflow: u32,
) -> Result<(), Memory>
    ensures { OnOk result (lines.new ≡ lines.old ++ converts_to_i8 kind a overflow) }
{
    match kind {
        Kind::I4 | Kind::I8 => keep(lines, x(7), a),
        Kind::U4 => extend_by_zeros(lines, 32, x(7), a),
        Kind::U8 => keep_unsigned(lines, a, overflow),
    }
}

fn convert_to_u8(
    lines: &mut List<Line>,
    kind: Kind,
    a: Register,
    overflow: u32,
) -> Result<(), Memory>
    ensures { OnOk result (lines.new ≡ lines.old ++ converts_to_u8 kind a overflow) }
{
    match kind {
        Kind::I4 | Kind::I8 => keep_unsigned(lines, a, overflow),
        Kind::U4 => extend_by_zeros(lines, 32, x(7), a),
        Kind::U8 => keep(lines, x(7), a),
    }
}

/// The same number as a value of a type in x7, or on to a label.
pub fn convert_checked(
    lines: &mut List<Line>,
    narrow: Narrow,
    kind: Kind,
    a: Register,
    overflow: u32,
) -> Result<(), Memory>
    ensures { OnOk result (lines.new ≡ lines.old ++ converts_checked narrow kind a overflow) }
{
    match narrow {
        Narrow::I1 => keep_short(lines, kind, 56, a, overflow),
        Narrow::U1 => keep_low(lines, 56, a, overflow),
        Narrow::I2 => keep_short(lines, kind, 48, a, overflow),
        Narrow::U2 => keep_low(lines, 48, a, overflow),
        Narrow::I4 => convert_to_i4(lines, kind, a, overflow),
        Narrow::U4 => convert_to_u4(lines, kind, a, overflow),
        Narrow::I8 => convert_to_i8(lines, kind, a, overflow),
        Narrow::U8 => convert_to_u8(lines, kind, a, overflow),
    }
}

// ---- divisions

/// x28 gets the least number with a sign.
fn get_least(lines: &mut List<Line>, kind: Kind) -> Result<(), Memory>
    ensures { OnOk result (lines.new ≡ lines.old ++ gets_least kind) }
{
    if has_four_bytes(kind) {
        return lines.extend_from_slice(&[Line::Single(Ins::Lui {
            rd: x(28),
            imm: UpperImmediate::of(0x8_0000),
        })]);
    }
    lines.extend_from_slice(&[
        addi(x(28), x(0), -1),
        Line::Single(Ins::Slli {
            rd: x(28),
            rs1: x(28),
            shamt: ShiftAmount::of(63),
        }),
    ])
}

/// On to a label where the least number with a sign is divided by -1.
fn refuse_least(
    lines: &mut List<Line>,
    kind: Kind,
    a: Register,
    b: Register,
    overflow: u32,
) -> Result<(), Memory>
    ensures { OnOk result (lines.new ≡ lines.old ++ refuses_least kind a b overflow) }
{
    if !is_signed(kind) {
        return Ok(());
    }
    get_least(lines, kind)?;
    lines.extend_from_slice(&[
        Line::Single(Ins::Xor {
            rd: x(28),
            rs1: x(28),
            rs2: a,
        }),
        addi(x(29), b, 1),
        Line::Single(Ins::Or {
            rd: x(28),
            rs1: x(28),
            rs2: x(29),
        }),
        Line::Branch {
            condition: Condition::Equal,
            left: x(28),
            right: x(0),
            label: overflow,
        },
    ])
}

/// A part of the division of two registers.
fn divide_by(part: DivisionPart, kind: Kind, rd: Register, rs1: Register, rs2: Register) -> Ins
    ensures { result ≡ divides_by part kind rd rs1 rs2 }
{
    match (part, kind) {
        (DivisionPart::Quotient, Kind::I4) => Ins::Divw { rd, rs1, rs2 },
        (DivisionPart::Quotient, Kind::U4) => Ins::Divuw { rd, rs1, rs2 },
        (DivisionPart::Quotient, Kind::I8) => Ins::Div { rd, rs1, rs2 },
        (DivisionPart::Quotient, Kind::U8) => Ins::Divu { rd, rs1, rs2 },
        (DivisionPart::Remainder, Kind::I4) => Ins::Remw { rd, rs1, rs2 },
        (DivisionPart::Remainder, Kind::U4) => Ins::Remuw { rd, rs1, rs2 },
        (DivisionPart::Remainder, Kind::I8) => Ins::Rem { rd, rs1, rs2 },
        (DivisionPart::Remainder, Kind::U8) => Ins::Remu { rd, rs1, rs2 },
    }
}

/// A part of a division, or on to a label where the divisor is 0, and to another where the result is out of range.
pub fn divide(
    lines: &mut List<Line>,
    part: DivisionPart,
    kind: Kind,
    r: Register,
    a: Register,
    b: Register,
    zero: u32,
    overflow: u32,
) -> Result<(), Memory>
    ensures { OnOk result (lines.new ≡ lines.old ++ divides part kind r a b zero overflow) }
{
    lines.extend_from_slice(&[Line::Branch {
        condition: Condition::Equal,
        left: b,
        right: x(0),
        label: zero,
    }])?;
    refuse_least(lines, kind, a, b, overflow)?;
    lines.extend_from_slice(&[Line::Single(divide_by(part, kind, r, a, b))])
}
