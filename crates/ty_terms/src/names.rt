use crate::ty::Ty;
use num_core::List;

/// A row of the table TypeDef of a module, from 1 (ECMA-335 II.22.37).
#[derive(Clone, Copy, Debug, PartialEq, Eq, PartialOrd, Ord)]
pub struct TypeId {
    pub module: u32,
    pub row: u32,
}

/// A row of the table MethodDef of a module, from 1 (ECMA-335 II.22.26).
#[derive(Clone, Copy, Debug, PartialEq, Eq, PartialOrd, Ord)]
pub struct MethodId {
    pub module: u32,
    pub row: u32,
}

/// A field of a type, by its row of the table Field (ECMA-335 II.22.15).
#[derive(Debug, Drop, PartialEq, Eq, PartialOrd, Ord)]
pub struct FieldName {
    pub owner: Ty,
    pub row: u32,
}

/// A method of a type, with its own arguments.
#[derive(Debug, Drop, PartialEq, Eq, PartialOrd, Ord)]
pub struct MethodName {
    pub owner: Ty,
    pub method: MethodId,
    pub args: List<Ty>,
}

/// A virtual method that is called through its slot, with its own arguments (ECMA-335 I.8.10.4).
#[derive(Debug, Drop, PartialEq, Eq, PartialOrd, Ord)]
pub struct Slot {
    pub owner: Ty,
    pub method: MethodId,
    pub args: List<Ty>,
}
