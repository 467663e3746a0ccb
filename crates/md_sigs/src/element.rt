use ty_terms::{Primitive, TypeId};

/// Where an element stands, and so which may stand there.
#[derive(Clone, Copy, Debug, PartialEq, Eq)]
pub enum Place {
    /// The result of a method, which may be VOID (ECMA-335 II.23.2.11).
    Returned,
    /// The type of a parameter or of a local variable, which may be behind BYREF (II.23.2.10, II.23.2.6).
    Variable,
    /// Any other type.
    Plain,
}

/// What a signature begins with.
#[derive(Clone, Copy, Debug, PartialEq, Eq)]
pub enum Head {
    Field,
    /// Whether it has HASTHIS, how many generic arguments, and how many parameters.
    Method(bool, u32, u32),
    /// How many local variables.
    Locals(u32),
    /// How many arguments of a generic method.
    Args(u32),
}

/// An element of a signature: what stands for a type, or for the part of one that is in front (II.23.2.12).
#[derive(Clone, Copy, Debug, PartialEq, Eq)]
pub enum Element {
    Primitive(Primitive),
    Named(TypeId),
    /// A generic type with so many arguments.
    Instance(TypeId, u32),
    Vector,
    ByRef,
    Var(u32),
    MVar(u32),
    /// Stands for nothing.
    Modifier,
}

/// Why no element stands in front of some bytes.
#[derive(Clone, Copy, Debug, PartialEq, Eq)]
pub enum Stop {
    /// So many bytes are left from the first on that can't go on.
    Bad(usize),
    /// The first that can't go on is an element type outside the profile.
    Outside(u8),
}
