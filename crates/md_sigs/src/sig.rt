use num_core::List;
use ty_terms::Ty;

/// What a signature says (ECMA-335 II.23.2). Modifiers are left out, and the row of a type's id is the number of its
/// coded index as it stands in the blob.
#[derive(Debug, Drop, PartialEq, Eq)]
pub enum Sig {
    /// The type of a field (II.23.2.4).
    Field(Ty),
    /// Of a method, or of a reference to one (II.23.2.1, II.23.2.2).
    Method(MethodSig),
    /// The types of local variables (II.23.2.6).
    Locals(List<Ty>),
    /// The arguments of a generic method (II.23.2.15).
    Args(List<Ty>),
}

/// The signature of a method.
#[derive(Debug, Drop, PartialEq, Eq)]
pub struct MethodSig {
    /// Whether it is called on an object (HASTHIS).
    pub instance: bool,
    /// How many arguments of its own it has, 0 where it isn't generic.
    pub generic: u32,
    pub params: List<Ty>,
    pub result: Ty,
}
