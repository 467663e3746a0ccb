ghost use Rattle.std.specs.Prelude.{◌≡◌};
ghost use Rattle.std.specs.Int.{int_wrap, w32, w64};

/// The number of 32 bits that is congruent to `n`.
pub fn wrap32(n: i128) -> i32
    ensures { result ≡ int_wrap w32 n }
{
    (n.rem_euclid(1 << 32) as u32).cast_signed()
}

/// The number of 64 bits that is congruent to `n`.
pub fn wrap64(n: i128) -> i64
    ensures { result ≡ int_wrap w64 n }
{
    (n.rem_euclid(1 << 64) as u64).cast_signed()
}
