//! Laws of the integers, for the proofs of the crates above. Each function does nothing, and ensures
//! its laws of all values.
ghost use Rattle.std.specs.Prelude.{ℤ, ℕ, ◌≡◌, ◌+ℤ◌, ◌-ℤ◌, ◌*ℤ◌, ◌≤ℤ◌, ◌%◌, ◌^◌, ◌<◌, ◌↔◌, pos, int_lt, int_div};
ghost use Rattle.std.specs.Prelude.{int_rem, FitsSigned, SomeIff, bit_and, IsTrue};
ghost use Rattle.std.specs.Int.{Width, w32, w64, int_wrap, int_rem_euclid, cast_signed, cast_unsigned, int_shr};
ghost use Rattle.std.specs.Int.{int_bit_not, int_bit_and, int_bit_or, int_bit_xor};
ghost use Rattle.num_core.specs.declared.kind.Kind.{Kind};
ghost use Rattle.num_core.specs.declared.kind.Kind.TheVariants.{I4, U4, I8, U8};
ghost use Rattle.num_core.specs.declared.kind.Narrow.{Narrow};
ghost use Rattle.num_core.specs.declared.kind.ShiftOp.TheVariants.{Right};
ghost use Rattle.num_core.specs.Integers.{IsOfKind, InRange, number, held, checked, least, greatest, is_signed, width};
ghost use Rattle.num_core.specs.Integers.{modulus, shift_amount, shifted, in_range_of_type, wrapped_to_type};
ghost use Rattle.num_core.specs.Integers.{kind_of_type, IsLeastByMinusOne};

/// A value of a kind holds each number of the range, and no other.
pub fn held_values()
    // what is held is a value of the kind
    ensures held_of_kind { (kind : Kind) (z : ℤ) → IsOfKind kind (held kind z) }
    // a number in the range is held as itself
    ensures number_of_held { (kind : Kind) (z : ℤ) → InRange kind z →
        number kind (held kind z) ≡ z }
    // a value holds its own number
    ensures held_of_number { (kind : Kind) (a : ℤ) → IsOfKind kind a →
        held kind (number kind a) ≡ a }
    // the number of a value is in the range
    ensures number_in_range { (kind : Kind) (a : ℤ) → IsOfKind kind a →
        InRange kind (number kind a) }
    // the range, as two bounds
    ensures range_of_kind { (kind : Kind) (z : ℤ) →
        InRange kind z ↔ ((least (is_signed kind) (width kind) ≤ℤ z) × (z ≤ℤ greatest (is_signed kind) (width kind))) }
    // a number that is checked is held exactly where it is in the range
    ensures checked_of_range { (kind : Kind) (z : ℤ) →
        SomeIff (checked kind z) (InRange kind z) (held kind z) }
{}

/// What two values give whichever way they are read.
pub fn readings()
    // a wrapped sum is the same whichever way the operands are read
    ensures sum_of_held { (kind : Kind) (a b : ℤ) → IsOfKind kind a → IsOfKind kind b →
        held kind (number kind a +ℤ number kind b) ≡ held kind (a +ℤ b) }
    // a wrapped difference is the same whichever way the operands are read
    ensures difference_of_held { (kind : Kind) (a b : ℤ) → IsOfKind kind a → IsOfKind kind b →
        held kind (number kind a -ℤ number kind b) ≡ held kind (a -ℤ b) }
    // a wrapped product is the same whichever way the operands are read
    ensures product_of_held { (kind : Kind) (a b : ℤ) → IsOfKind kind a → IsOfKind kind b →
        held kind (number kind a *ℤ number kind b) ≡ held kind (a *ℤ b) }
    // values of 32 bits with their sign extended compare without a sign as their 32 bits do
    ensures unsigned_compare { (a b : ℤ) → FitsSigned w32 a → FitsSigned w32 b →
        int_lt (number U8 a) (number U8 b) ≡ int_lt (number U4 a) (number U4 b) }
{}

/// Numbers that are wrapped more than once.
pub fn wrapping()
    // to wrap twice is to wrap once
    ensures wrap_twice { (w : Width) (z : ℤ) → int_wrap w (int_wrap w z) ≡ int_wrap w z }
    // what is left of a number in 64 bits, cut to 32, is what is left of it in 32: so the sum, the
    // difference and the product of 64 bits give those of 32
    ensures word_of_double { (z : ℤ) → int_wrap w32 (int_wrap w64 z) ≡ int_wrap w32 z }
    // operands that are wrapped give the same wrapped sum
    ensures wrapped_sum { (w : Width) (a b : ℤ) →
        int_wrap w (int_wrap w a +ℤ int_wrap w b) ≡ int_wrap w (a +ℤ b) }
    // operands that are wrapped give the same wrapped difference
    ensures wrapped_difference { (w : Width) (a b : ℤ) →
        int_wrap w (int_wrap w a -ℤ int_wrap w b) ≡ int_wrap w (a -ℤ b) }
    // operands that are wrapped give the same wrapped product
    ensures wrapped_product { (w : Width) (a b : ℤ) →
        int_wrap w (int_wrap w a *ℤ int_wrap w b) ≡ int_wrap w (a *ℤ b) }
{}

/// The bits of values, as a register of 64 bits has them.
pub fn bits()
    // the bits of what is left of a number are its remainder by the modulus
    ensures bits_of_wrapped { (w : Width) (z : ℤ) →
        pos (cast_unsigned w (int_wrap w z)) ≡ int_rem_euclid z (modulus w) }
    // the bits of a value are its remainder by the modulus
    ensures bits_of_value { (w : Width) (a : ℤ) → FitsSigned w a →
        int_rem_euclid a (modulus w) ≡ pos (cast_unsigned w a) }
    // the low 32 bits of a value of 32 bits with its sign extended are its bits
    ensures low_bits_of_word { (a : ℤ) → FitsSigned w32 a →
        cast_unsigned w64 a % 2 ^ 32 ≡ cast_unsigned w32 a }
    // truncation to 32 bits undoes the extension of the sign
    ensures truncated_word { (a : ℤ) → FitsSigned w32 a →
        cast_signed w32 (cast_unsigned w64 a % 2 ^ 32) ≡ a }
    // the low 32 bits of a register, with their sign extended, are what is left of its number in 32
    // bits
    ensures word_of_register { (n : ℕ) → n < 2 ^ 64 →
        cast_signed w32 (n % 2 ^ 32) ≡ int_wrap w32 (cast_signed w64 n) }
    // `and` of 64 bits, on values of 32 bits with their sign extended, is that of 32 bits
    ensures and_of_word { (a b : ℤ) → FitsSigned w32 a → FitsSigned w32 b →
        int_bit_and w64 a b ≡ int_bit_and w32 a b }
    // `or` of 64 bits, on values of 32 bits with their sign extended, is that of 32 bits
    ensures or_of_word { (a b : ℤ) → FitsSigned w32 a → FitsSigned w32 b →
        int_bit_or w64 a b ≡ int_bit_or w32 a b }
    // `xor` of 64 bits, on values of 32 bits with their sign extended, is that of 32 bits
    ensures xor_of_word { (a b : ℤ) → FitsSigned w32 a → FitsSigned w32 b →
        int_bit_xor w64 a b ≡ int_bit_xor w32 a b }
    // `not` of 64 bits, on a value of 32 bits with its sign extended, is that of 32 bits
    ensures not_of_word { (a : ℤ) → FitsSigned w32 a → int_bit_not w64 a ≡ int_bit_not w32 a }
{}

/// Which quotients and remainders are in the range.
pub fn divisions()
    // the one quotient out of the range is that of the least number with a sign by -1
    ensures quotient_in_range { (kind : Kind) (a b : ℤ) → IsOfKind kind a → IsOfKind kind b →
        InRange kind (int_div (number kind a) (number kind b)) ↔ ¬ (IsLeastByMinusOne kind a b) }
    // each remainder is in the range
    ensures remainder_in_range { (kind : Kind) (a b : ℤ) → IsOfKind kind a →
        InRange kind (int_rem (number kind a) (number kind b)) }
{}

/// Shifts, as a machine has them.
pub fn shifts()
    // a shift moves by fewer bits than the kind has
    ensures shift_amount_bound { (kind : Kind) (amount : ℤ) → shift_amount kind amount < 64 }
    // a shift of 32 bits moves by the low 5 bits of the amount
    ensures shift_amount_of_word { (amount : ℤ) →
        bit_and (cast_unsigned w64 amount) 31 ≡ shift_amount I4 amount }
    // a shift of 64 bits moves by the low 6 bits of the amount
    ensures shift_amount_of_double { (amount : ℤ) →
        bit_and (cast_unsigned w64 amount) 63 ≡ shift_amount I8 amount }
    // the shift that copies the sign divides, rounded down
    ensures shift_with_sign { (kind : Kind) (a : ℤ) (k : ℕ) →
        shifted Right kind a k ≡ int_shr a k }
{}

/// What a conversion leaves of a number.
pub fn conversions()
    // what a conversion leaves is in the range of its type
    ensures number_of_type_in_range { (to : Narrow) (z : ℤ) →
        IsTrue (in_range_of_type to (wrapped_to_type to z)) }
    // a number in the range of a type is left as it is
    ensures number_of_type_kept { (to : Narrow) (z : ℤ) → IsTrue (in_range_of_type to z) →
        wrapped_to_type to z ≡ z }
    // a number in the range of a type is held as itself
    ensures number_of_type_held { (to : Narrow) (z : ℤ) → IsTrue (in_range_of_type to z) →
        number (kind_of_type to) (held (kind_of_type to) z) ≡ z }
{}
