//! What instructions make of numbers.
ghost use Rattle.std.specs.Prelude.{◌≡◌, ◌*◌, ◌/◌, ◌%◌, ◌^◌, ◌<◌, pos, ◌+ℤ◌, ◌-ℤ◌, ◌*ℤ◌, int_lt, nat_lt, ◌==◌};
ghost use Rattle.std.specs.Int.{int_shr, cast_signed, cast_unsigned, w8, w16, w32, w64, w128};
ghost use Rattle.num_core.specs.Bits.{low_bits};
ghost use Rattle.rv_step.specs.Machine.{low_word, one_if as is_one_if, without_bit_0 as is_without_bit_0, signed_value};
ghost use Rattle.rv_step.specs.Machine.{word_value, signed_word_value, upper_bits, quotient, remainder};
ghost use Rattle.rv_step.specs.Machine.{unsigned_quotient, unsigned_remainder, word_quotient, word_remainder};
ghost use Rattle.rv_step.specs.Machine.{unsigned_word_quotient, unsigned_word_remainder};

use rv_isa::{Immediate, JumpOffset, UpperImmediate};

/// The lowest 32 bits.
#[inline]
fn low(x: u64) -> u32
    ensures { result ≡ word_value x }
{
    (x % (1 << 32)) as u32
}

/// 8 bits with their sign extended.
#[inline]
pub(crate) fn extend_byte(x: u8) -> u64
    ensures { result ≡ low_bits 64 (cast_signed w8 x) }
{
    (x.cast_signed() as i64).cast_unsigned()
}

/// 16 bits with their sign extended.
#[inline]
pub(crate) fn extend_half(x: u16) -> u64
    ensures { result ≡ low_bits 64 (cast_signed w16 x) }
{
    (x.cast_signed() as i64).cast_unsigned()
}

/// 32 bits with their sign extended.
#[inline]
pub(crate) fn extend_word(x: u32) -> u64
    ensures { result ≡ low_bits 64 (cast_signed w32 x) }
{
    (x.cast_signed() as i64).cast_unsigned()
}

/// The lowest 6 bits, as a distance to shift by.
#[inline]
pub(crate) fn low_6(x: u64) -> u32
    ensures bits { result ≡ x % 64 }
    ensures range { result < 64 }
{
    (x % 64) as u32
}

/// The lowest 5 bits, as a distance to shift by.
#[inline]
pub(crate) fn low_5(x: u64) -> u32
    ensures bits { result ≡ x % 32 }
    ensures range { result < 32 }
{
    (x % 32) as u32
}

/// Whether the first is less, both signed.
#[inline]
pub(crate) fn is_less(x: u64, y: u64) -> bool
    ensures { result ≡ int_lt (signed_value x) (signed_value y) }
{
    x.cast_signed() < y.cast_signed()
}

/// Whether a number, read as signed, is less than an immediate.
#[inline]
pub(crate) fn is_less_than_immediate(x: u64, imm: Immediate) -> bool
    ensures { result ≡ int_lt (signed_value x) imm }
{
    x.cast_signed() < imm.value() as i64
}

/// Whether the first is less, both unsigned.
#[inline]
pub(crate) fn is_less_unsigned(x: u64, y: u64) -> bool
    ensures { result ≡ nat_lt x y }
{
    x < y
}

/// Whether the two are equal.
#[inline]
pub(crate) fn is_equal(x: u64, y: u64) -> bool
    ensures { result ≡ (x == y) }
{
    x == y
}

/// The upper 64 of 128 bits.
#[inline]
fn upper_half(x: i128) -> u64
    ensures { result ≡ upper_bits x }
{
    (x.cast_unsigned() >> 64) as u64
}

/// The lowest 32 bits with their sign extended.
#[inline]
pub(crate) fn word(x: u64) -> u64
    ensures { result ≡ low_word (pos x) }
{
    extend_word((x % (1 << 32)) as u32)
}

/// The upper 20 of 32 bits, with their sign extended.
#[inline]
pub(crate) fn upper(imm: UpperImmediate) -> u64
    ensures { result ≡ low_word (pos (imm * 2 ^ 12)) }
{
    word((imm.bits() as u64) << 12)
}

/// An immediate with its sign extended.
#[inline]
pub(crate) fn immediate(imm: Immediate) -> u64
    ensures { result ≡ low_bits 64 imm }
{
    (imm.value() as i64).cast_unsigned()
}

/// A number with its lowest bit cleared.
#[inline]
pub(crate) fn without_bit_0(x: u64) -> u64
    ensures { result ≡ is_without_bit_0 x }
{
    x - x % 2
}

/// 1 if it is true.
#[inline]
pub(crate) fn one_if(test: bool) -> u64
    ensures { result ≡ is_one_if test }
{
    if test { 1 } else { 0 }
}

/// The lower 64 bits of a sum.
#[inline]
pub(crate) fn add(x: u64, y: u64) -> u64
    ensures { result ≡ low_bits 64 (pos x +ℤ pos y) }
{
    x.wrapping_add(y)
}

/// The lower 64 bits of a sum with a signed number.
#[inline]
pub(crate) fn add_signed(x: u64, y: i64) -> u64
    ensures { result ≡ low_bits 64 (pos x +ℤ y) }
{
    x.wrapping_add(y.cast_unsigned())
}

/// The lower 64 bits of a sum with an immediate.
#[inline]
pub(crate) fn add_immediate(x: u64, imm: Immediate) -> u64
    ensures { result ≡ low_bits 64 (pos x +ℤ imm) }
{
    add_signed(x, imm.value() as i64)
}

/// The sum with the upper 20 of 32 bits, whose sign is extended.
#[inline]
pub(crate) fn add_upper(x: u64, imm: UpperImmediate) -> u64
    ensures { result ≡ low_bits 64 (pos x +ℤ cast_signed w32 (imm * 2 ^ 12)) }
{
    add_signed(x, (imm.bits() * (1 << 12)).cast_signed() as i64)
}

/// The target of a jump.
#[inline]
pub(crate) fn jump_target(x: u64, imm: JumpOffset) -> u64
    ensures { result ≡ low_bits 64 (pos x +ℤ imm) }
{
    add_signed(x, imm.value() as i64)
}

/// The lower 64 bits of a difference.
#[inline]
pub(crate) fn sub(x: u64, y: u64) -> u64
    ensures { result ≡ low_bits 64 (pos x -ℤ pos y) }
{
    x.wrapping_sub(y)
}

/// The sum in 32 bits.
#[inline]
pub(crate) fn add_word(x: u64, y: u64) -> u64
    ensures { result ≡ low_word (pos x +ℤ pos y) }
{
    word(x.wrapping_add(y))
}

/// The sum with an immediate in 32 bits.
#[inline]
pub(crate) fn add_immediate_word(x: u64, imm: Immediate) -> u64
    ensures { result ≡ low_word (pos x +ℤ imm) }
{
    word(add_signed(x, imm.value() as i64))
}

/// The difference in 32 bits.
#[inline]
pub(crate) fn sub_word(x: u64, y: u64) -> u64
    ensures { result ≡ low_word (pos x -ℤ pos y) }
{
    word(x.wrapping_sub(y))
}

/// The lower 64 bits of a product.
#[inline]
pub(crate) fn mul(x: u64, y: u64) -> u64
    ensures { result ≡ low_bits 64 (pos x *ℤ pos y) }
{
    x.wrapping_mul(y)
}

/// The product in 32 bits.
#[inline]
pub(crate) fn mul_word(x: u64, y: u64) -> u64
    ensures { result ≡ low_word (pos x *ℤ pos y) }
{
    word(x.wrapping_mul(y))
}

/// The upper 64 bits of a product, both signed.
#[inline]
pub(crate) fn mul_upper(x: u64, y: u64) -> u64
    ensures { result ≡ upper_bits (signed_value x *ℤ signed_value y) }
{
    upper_half(x.cast_signed() as i128 * y.cast_signed() as i128)
}

/// The upper 64 bits of the product of a signed and an unsigned number.
#[inline]
pub(crate) fn mul_upper_mixed(x: u64, y: u64) -> u64
    ensures { result ≡ upper_bits (signed_value x *ℤ pos y) }
{
    upper_half(x.cast_signed() as i128 * y as i128)
}

/// The upper 64 bits of a product, both unsigned.
#[inline]
pub(crate) fn mul_upper_unsigned(x: u64, y: u64) -> u64
    ensures { result ≡ upper_bits (pos x *ℤ pos y) }
{
    ((x as u128 * y as u128) >> 64) as u64
}

/// Shifts left.
#[inline]
pub(crate) fn shift_left(x: u64, by: u32) -> u64
    requires { by < 64 }
    ensures { result ≡ low_bits 64 (pos (x * 2 ^ by)) }
{
    x << by
}

/// Shifts right, zeros from the left.
#[inline]
pub(crate) fn shift_right(x: u64, by: u32) -> u64
    requires { by < 64 }
    ensures { result ≡ x / 2 ^ by }
{
    x >> by
}

/// Shifts right, copies of the sign from the left.
#[inline]
pub(crate) fn shift_right_signed(x: u64, by: u32) -> u64
    requires { by < 64 }
    ensures { result ≡ low_bits 64 (int_shr (signed_value x) by) }
{
    (x.cast_signed() >> by).cast_unsigned()
}

/// Shifts 32 bits left.
#[inline]
pub(crate) fn shift_word_left(x: u64, by: u32) -> u64
    requires { by < 32 }
    ensures { result ≡ low_word (pos (x * 2 ^ by)) }
{
    word(x << by)
}

/// Shifts 32 bits right, zeros from the left.
#[inline]
pub(crate) fn shift_word_right(x: u64, by: u32) -> u64
    requires { by < 32 }
    ensures { result ≡ low_word (pos (word_value x / 2 ^ by)) }
{
    extend_word(low(x) >> by)
}

/// Shifts 32 bits right, copies of the sign from the left.
#[inline]
pub(crate) fn shift_word_right_signed(x: u64, by: u32) -> u64
    requires { by < 32 }
    ensures { result ≡ low_word (int_shr (signed_word_value x) by) }
{
    extend_word((low(x).cast_signed() >> by).cast_unsigned())
}

/// The quotient, both signed.
#[inline]
pub(crate) fn div(x: u64, y: u64) -> u64
    ensures { result ≡ quotient x y }
{
    if y == 0 {
        return u64::MAX;
    }
    x.cast_signed()
        .wrapping_div(y.cast_signed())
        .cast_unsigned()
}

/// The remainder, both signed.
#[inline]
pub(crate) fn rem(x: u64, y: u64) -> u64
    ensures { result ≡ remainder x y }
{
    if y == 0 {
        return x;
    }
    x.cast_signed()
        .wrapping_rem(y.cast_signed())
        .cast_unsigned()
}

/// The quotient, both unsigned.
#[inline]
pub(crate) fn div_unsigned(x: u64, y: u64) -> u64
    ensures { result ≡ unsigned_quotient x y }
{
    if y == 0 { u64::MAX } else { x / y }
}

/// The remainder, both unsigned.
#[inline]
pub(crate) fn rem_unsigned(x: u64, y: u64) -> u64
    ensures { result ≡ unsigned_remainder x y }
{
    if y == 0 { x } else { x % y }
}

/// The quotient in 32 bits, both signed.
#[inline]
pub(crate) fn div_word(x: u64, y: u64) -> u64
    ensures { result ≡ word_quotient x y }
{
    let (x, y) = (low(x), low(y));
    if y == 0 {
        return u64::MAX;
    }
    let quotient = x.cast_signed().wrapping_div(y.cast_signed());
    extend_word(quotient.cast_unsigned())
}

/// The remainder in 32 bits, both signed.
#[inline]
pub(crate) fn rem_word(x: u64, y: u64) -> u64
    ensures { result ≡ word_remainder x y }
{
    let (x, y) = (low(x), low(y));
    if y == 0 {
        return extend_word(x);
    }
    let remainder = x.cast_signed().wrapping_rem(y.cast_signed());
    extend_word(remainder.cast_unsigned())
}

/// The quotient in 32 bits, both unsigned.
#[inline]
pub(crate) fn div_word_unsigned(x: u64, y: u64) -> u64
    ensures { result ≡ unsigned_word_quotient x y }
{
    let (x, y) = (low(x), low(y));
    if y == 0 { u64::MAX } else { extend_word(x / y) }
}

/// The remainder in 32 bits, both unsigned.
#[inline]
pub(crate) fn rem_word_unsigned(x: u64, y: u64) -> u64
    ensures { result ≡ unsigned_word_remainder x y }
{
    let (x, y) = (low(x), low(y));
    extend_word(if y == 0 { x } else { x % y })
}
