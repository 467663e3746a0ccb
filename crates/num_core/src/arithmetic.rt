ghost use Rattle.std.specs.Prelude.{◌≡◌, true, false, ◌^◌, ◌<◌, neg_ℤ, ◌≤ℤ◌, ◌<ℤ◌, ◌+ℤ◌, ◌-ℤ◌, ◌*ℤ◌, pos, negsuc};
ghost use Rattle.std.specs.Prelude.{int_div, int_rem, IfOk, IfSome, IsErrOf, ◌↔◌, IsTrue, Option};
ghost use Rattle.num_core.specs.declared.arithmetic.DivFault.TheVariants as DivFault;
ghost use Rattle.num_core.specs.Integers.{IsOfKind, number, held, in_range, checked, least, greatest, is_signed, width};
ghost use Rattle.num_core.specs.Integers.{is_signed_type, width_of_type, kind_of_type, reading, in_range_of_type};
ghost use Rattle.num_core.specs.Integers.{modulus, wrapped_to_type, converted, checked_to_type, IsLeastByMinusOne};
ghost use Rattle.num_core.specs.Integers.{shift_amount, shifted};

use crate::int::{wrap32, wrap64};
use crate::kind::{Kind, Narrow, ShiftOp};
use thiserror::Error;

/// Why a division has no result (ECMA-335 III.3.31).
#[derive(Clone, Copy, Debug, PartialEq, Eq, Error)]
pub enum DivFault {
    /// The divisor is 0.
    #[error("divided by zero")]
    Zero,
    /// The least number with a sign, divided by -1.
    #[error("quotient out of range")]
    Overflow,
}

impl Kind {
    // The whole number that a held value stands for.
    fn number_of(self, a: i64) -> i128
        requires { IsOfKind self a }
        ensures { result ≡ number self a }
    {
        match self {
            Kind::I4 | Kind::I8 => i128::from(a),
            Kind::U4 => i128::from((a as i32).cast_unsigned()),
            Kind::U8 => i128::from(a.cast_unsigned()),
        }
    }

    // The value that holds a whole number, wrapped.
    fn holding(self, whole: i128) -> i64
        ensures value { result ≡ held self whole }
        ensures of_kind { IsOfKind self result }
    {
        match self {
            Kind::I4 | Kind::U4 => i64::from(wrap32(whole)),
            Kind::I8 | Kind::U8 => wrap64(whole),
        }
    }

    // The integer type of the kind's numbers.
    fn as_type(self) -> Narrow
        ensures signed { is_signed_type result ≡ is_signed self }
        ensures width { width_of_type result ≡ width self }
        ensures kind { kind_of_type result ≡ self }
    {
        match self {
            Kind::I4 => Narrow::I4,
            Kind::U4 => Narrow::U4,
            Kind::I8 => Narrow::I8,
            Kind::U8 => Narrow::U8,
        }
    }

    // The kind of this width that is read with a sign.
    fn signed(self) -> Kind
        ensures signed { is_signed result ≡ true }
        ensures width { width result ≡ width self }
    {
        match self {
            Kind::I4 | Kind::U4 => Kind::I4,
            Kind::I8 | Kind::U8 => Kind::I8,
        }
    }

    // The kind of this width that is read without a sign.
    fn unsigned(self) -> Kind
        ensures signed { is_signed result ≡ false }
        ensures width { width result ≡ width self }
    {
        match self {
            Kind::I4 | Kind::U4 => Kind::U4,
            Kind::I8 | Kind::U8 => Kind::U8,
        }
    }

    // The value that holds a whole number, if the number is in the kind's range.
    fn checked(self, whole: i128) -> Option<i64>
        ensures value { result ≡ checked self whole }
        ensures number { IfSome result (λ r. number self r ≡ whole) }
        ensures of_kind { IfSome result (λ r. IsOfKind self r) }
    {
        self.as_type().checked(whole)
    }

    // By how many bits a shift moves.
    fn shift_amount(self, amount: i64) -> u32
        ensures value { result ≡ shift_amount self amount }
        ensures bound { result < 64 }
    {
        let bits = match self {
            Kind::I4 | Kind::U4 => 32,
            Kind::I8 | Kind::U8 => 64,
        };
        (amount.cast_unsigned() % bits) as u32
    }
}

impl Narrow {
    fn is_signed(self) -> bool
        ensures { result ≡ is_signed_type self }
    {
        matches!(self, Narrow::I1 | Narrow::I2 | Narrow::I4 | Narrow::I8)
    }

    fn least(self) -> i128
        ensures { result ≡ least (is_signed_type self) (width_of_type self) }
    {
        match self {
            Narrow::I1 => i128::from(i8::MIN),
            Narrow::I2 => i128::from(i16::MIN),
            Narrow::I4 => i128::from(i32::MIN),
            Narrow::I8 => i128::from(i64::MIN),
            Narrow::U1 | Narrow::U2 | Narrow::U4 | Narrow::U8 => 0,
        }
    }

    fn greatest(self) -> i128
        ensures { result ≡ greatest (is_signed_type self) (width_of_type self) }
    {
        match self {
            Narrow::I1 => i128::from(i8::MAX),
            Narrow::U1 => i128::from(u8::MAX),
            Narrow::I2 => i128::from(i16::MAX),
            Narrow::U2 => i128::from(u16::MAX),
            Narrow::I4 => i128::from(i32::MAX),
            Narrow::U4 => i128::from(u32::MAX),
            Narrow::I8 => i128::from(i64::MAX),
            Narrow::U8 => i128::from(u64::MAX),
        }
    }

    // The kind in which a number of the type is held.
    fn kind(self) -> Kind
        ensures { result ≡ kind_of_type self }
    {
        match self {
            Narrow::I1 | Narrow::I2 | Narrow::I4 => Kind::I4,
            Narrow::U1 | Narrow::U2 | Narrow::U4 => Kind::U4,
            Narrow::I8 => Kind::I8,
            Narrow::U8 => Kind::U8,
        }
    }

    // The value that holds a whole number, if the number is in the type's range.
    fn checked(self, whole: i128) -> Option<i64>
        ensures value { result ≡ checked_to_type self whole }
        ensures number { IfSome result (λ r. number (kind_of_type self) r ≡ whole) }
        ensures of_kind { IfSome result (λ r. IsOfKind (kind_of_type self) r) }
    {
        if self.least() <= whole && whole <= self.greatest() {
            Some(self.kind().holding(whole))
        } else {
            None
        }
    }

    // 2 to the number of bits.
    fn modulus(self) -> i128
        ensures { result ≡ modulus (width_of_type self) }
    {
        match self {
            Narrow::I1 | Narrow::U1 => 1 << 8,
            Narrow::I2 | Narrow::U2 => 1 << 16,
            Narrow::I4 | Narrow::U4 => 1 << 32,
            Narrow::I8 | Narrow::U8 => 1 << 64,
        }
    }

    // The number of the type's range that is congruent to a whole number.
    fn wrapping(self, whole: i128) -> i128
        ensures { result ≡ wrapped_to_type self whole }
    {
        let rest = whole.rem_euclid(self.modulus());
        if rest <= self.greatest() {
            rest
        } else {
            rest - self.modulus()
        }
    }

    // The whole number that a value of a kind stands for, read as this type is.
    fn number_of(self, from: Kind, a: i64) -> i128
        requires { IsOfKind from a }
        ensures { result ≡ reading (is_signed_type self) (width from) a }
    {
        if self.is_signed() {
            from.signed().number_of(a)
        } else {
            from.unsigned().number_of(a)
        }
    }
}

/// The sum, for `add.ovf` and `add.ovf.un` (ECMA-335 III.3.2); `None` where it is out of the
/// kind's range.
pub fn add_ovf(kind: Kind, a: i64, b: i64) -> Option<i64>
    requires a { IsOfKind kind a }
    requires b { IsOfKind kind b }
    ensures value { result ≡ checked kind (number kind a +ℤ number kind b) }
    ensures number { IfSome result (λ r. number kind r ≡ number kind a +ℤ number kind b) }
    ensures of_kind { IfSome result (λ r. IsOfKind kind r) }
{
    kind.checked(kind.number_of(a) + kind.number_of(b))
}

/// The difference, for `sub.ovf` and `sub.ovf.un` (ECMA-335 III.3.65); `None` where it is out of
/// the kind's range.
pub fn sub_ovf(kind: Kind, a: i64, b: i64) -> Option<i64>
    requires a { IsOfKind kind a }
    requires b { IsOfKind kind b }
    ensures value { result ≡ checked kind (number kind a -ℤ number kind b) }
    ensures number { IfSome result (λ r. number kind r ≡ number kind a -ℤ number kind b) }
    ensures of_kind { IfSome result (λ r. IsOfKind kind r) }
{
    kind.checked(kind.number_of(a) - kind.number_of(b))
}

/// The product, for `mul.ovf` and `mul.ovf.un` (ECMA-335 III.3.49); `None` where it is out of the
/// kind's range.
pub fn mul_ovf(kind: Kind, a: i64, b: i64) -> Option<i64>
    requires a { IsOfKind kind a }
    requires b { IsOfKind kind b }
    ensures value { result ≡ checked kind (number kind a *ℤ number kind b) }
    ensures number { IfSome result (λ r. number kind r ≡ number kind a *ℤ number kind b) }
    ensures of_kind { IfSome result (λ r. IsOfKind kind r) }
{
    match kind.number_of(a).checked_mul(kind.number_of(b)) {
        Some(product) => kind.checked(product),
        None => None,
    }
}

/// The quotient, rounded toward zero, and the remainder, which has the dividend's sign, for `div`,
/// `div.un`, `rem` and `rem.un` (ECMA-335 III.3.31, III.3.32, III.3.55 and III.3.56).
pub fn div_rem(kind: Kind, a: i64, b: i64) -> Result<(i64, i64), DivFault>
    requires a { IsOfKind kind a }
    requires b { IsOfKind kind b }
    ensures zero { IsErrOf result DivFault.Zero ↔ (b ≡ pos 0) }
    ensures overflow { IsErrOf result DivFault.Overflow ↔ IsLeastByMinusOne kind a b }
    ensures quotient { IfOk result (λ r. number kind r.0 ≡ int_div (number kind a) (number kind b)) }
    ensures remainder { IfOk result (λ r. number kind r.1 ≡ int_rem (number kind a) (number kind b)) }
    ensures quotient_of_kind { IfOk result (λ r. IsOfKind kind r.0) }
    ensures remainder_of_kind { IfOk result (λ r. IsOfKind kind r.1) }
{
    let dividend = kind.number_of(a);
    let divisor = kind.number_of(b);
    if divisor == 0 {
        Err(DivFault::Zero)
    } else if divisor == -1 && dividend == kind.as_type().least() {
        Err(DivFault::Overflow)
    } else {
        let quotient = dividend / divisor;
        let remainder = dividend % divisor;
        Ok((kind.holding(quotient), kind.holding(remainder)))
    }
}

/// A shift, for `shl`, `shr` and `shr.un` (ECMA-335 III.3.58 to III.3.60), by the low 5 bits of
/// the amount, or the low 6 where the kind has 64 bits. Only `RightUnsigned` reads `a` without its
/// sign, whatever the kind says.
pub fn shift(op: ShiftOp, kind: Kind, a: i64, amount: i64) -> i64
    requires { IsOfKind kind a }
    ensures value { result ≡ shifted op kind a (shift_amount kind amount) }
    ensures of_kind { IsOfKind kind result }
{
    let by = kind.shift_amount(amount);
    match op {
        ShiftOp::Left => kind.holding(kind.number_of(a) * (1 << by)),
        ShiftOp::Right => a >> by,
        ShiftOp::RightUnsigned => kind.holding(kind.unsigned().number_of(a) >> by),
    }
}

/// The low bits, extended as the type says, for the conversions that refuse nothing (ECMA-335
/// III.3.27). A type without a sign reads `a` without its sign, whatever the kind says.
pub fn conv(to: Narrow, from: Kind, a: i64) -> i64
    requires { IsOfKind from a }
    ensures value { result ≡ held (kind_of_type to) (converted to from a) }
    ensures number { number (kind_of_type to) result ≡ converted to from a }
    ensures of_kind { IsOfKind (kind_of_type to) result }
{
    to.kind().holding(to.wrapping(to.number_of(from, a)))
}

/// The same number as a value of the type, for the conversions that refuse (ECMA-335 III.3.28 and
/// III.3.29); `None` where it is out of the type's range.
pub fn conv_ovf(to: Narrow, from: Kind, a: i64) -> Option<i64>
    requires { IsOfKind from a }
    ensures value { result ≡ checked_to_type to (number from a) }
    ensures number { IfSome result (λ r. number (kind_of_type to) r ≡ number from a) }
    ensures of_kind { IfSome result (λ r. IsOfKind (kind_of_type to) r) }
{
    to.checked(from.number_of(a))
}
