//! What is known of the bytes that a place of a type takes.
use ty_layout::Field;
use ty_terms::TypeId;

/// Why it isn't known how a type is laid out.
#[derive(Clone, Copy, Debug, PartialEq, Eq)]
pub enum Unlaid {
    /// Its object, of a value type the boxed value, would have more than 65,536 bytes.
    TooLarge,
    /// What this type extends leads to nothing.
    NoBase(TypeId),
    /// The type of a field of this type leads to nothing, by the row of Field.
    NoField(TypeId, u32),
}

/// How many bytes a place of a type takes and where it may begin, or why that isn't known.
#[derive(Clone, Copy, Debug, PartialEq, Eq)]
pub enum Extent {
    Known(Field),
    Unknown(Unlaid),
}
