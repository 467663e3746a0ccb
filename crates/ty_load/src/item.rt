//! What a token leads to.
use num_core::Units;
use ty_terms::{FieldName, MethodName, Ty};

/// What a token leads to (ECMA-335 III.1.9).
#[derive(Debug, Drop)]
pub enum Item {
    OfType(Ty),
    OfMethod(MethodName),
    OfField(FieldName),
    /// The units of a user string.
    OfText(Units),
}
