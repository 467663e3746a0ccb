use num_core::List;
use ty_terms::Ty;

/// What is known of a slot of the evaluation stack (ECMA-335 III.1.8.1.2).
#[derive(Debug, Drop)]
pub enum StackSlot {
    /// A number of this kind; smaller ones are widened to an int32 (I.12.1.2).
    Int32,
    Int64,
    NativeInt,
    /// A reference to an object of one of these types, or null; null alone is of no type.
    Refs(List<Ty>),
    /// A managed pointer to a place of a type.
    Pointer(Ty),
    /// A managed pointer through which a place of a type is only read (III.1.8.1.2.2).
    View(Ty),
    /// A value of a value type.
    Value(Ty),
    /// What can't be used.
    Conflict,
}
