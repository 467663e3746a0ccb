//! How many bytes objects take that have more than fields.
ghost use Rattle.std.specs.Prelude.{◌≡◌};
ghost use Rattle.ty_layout.specs.Objects.{boxed_bytes, string_bytes as bytes_of_string, vector_bytes};

/// How many bytes a boxed value of so many has.
pub fn boxed_size(value: u32) -> u64
    ensures { result ≡ boxed_bytes value }
{
    (8 + value as u64).next_multiple_of(8)
}

/// How many bytes a vector has, whose elements have so many bytes each.
pub fn vector_size(length: u32, element: u32) -> u64
    ensures { result ≡ vector_bytes length element }
{
    (16 + length as u64 * element as u64).next_multiple_of(8)
}

/// How many bytes a string of so many units has.
pub fn string_size(length: u32) -> u64
    ensures { result ≡ bytes_of_string length }
{
    (12 + 2 * length as u64).next_multiple_of(8)
}
