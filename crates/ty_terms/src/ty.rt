use crate::names::TypeId;
use num_core::List;
use sqlite_items::Boxed;

/// The primitive types, one for each element type that stands for itself (ECMA-335 II.23.1.16).
#[derive(Clone, Copy, Debug, PartialEq, Eq, PartialOrd, Ord)]
pub enum Primitive {
    Void,
    Boolean,
    Char,
    I1,
    U1,
    I2,
    U2,
    I4,
    U4,
    I8,
    U8,
    String,
    I,
    U,
    Object,
}

/// A type, as a signature writes it (ECMA-335 II.23.2.12).
#[derive(Debug, Drop)]
pub enum Ty {
    Prim(Primitive),
    /// A class, an interface or a value type, with its arguments.
    Named(TypeId, List<Ty>),
    /// The one-dimensional array of an element type.
    Vector(Boxed<Ty>),
    /// A managed pointer.
    ByRef(Boxed<Ty>),
    /// An argument of the type that owns a member, by its number.
    Var(u32),
    /// An argument of a method, by its number.
    MVar(u32),
    /// What stands for any reference type in code that is shared.
    Canon,
}
