use crate::names::{FieldName, MethodName, Slot};
use crate::ty::Ty;
use num_core::{List, Units};

/// What a program may need: the nodes that the analyzer marks.
#[derive(Debug, Drop, PartialEq, Eq, PartialOrd, Ord)]
pub enum Node {
    /// The code of a method.
    Method(MethodName),
    /// A type, as its static members or a token need it.
    TypeOf(Ty),
    /// A type of which an object is made.
    Made(Ty),
    /// A slot that is called.
    Slot(Slot),
    /// The static fields of a type.
    Statics(Ty),
    /// The initializer of a type.
    Init(Ty),
    /// A string of the program, by its units.
    Str(Units),
    /// The bytes that a field is mapped to.
    Blob(FieldName),
    /// The object that stands for a type.
    TypeObj(Ty),
    /// The name of a type.
    Name(Ty),
    /// What makes an object of a type by its name.
    Maker(Ty),
    /// What calls a method by its name.
    Invoke(MethodName),
    /// The table of the members of a type.
    Table(Ty),
}

/// An entry of the dictionary that code which is shared reads.
#[derive(Debug, Drop, PartialEq, Eq, PartialOrd, Ord)]
pub enum DictEntry {
    OfType(Ty),
    OfMethod(MethodName),
    OfStatics(Ty),
    OfSlot(Slot),
}

/// What stands in a part of the image.
#[derive(Clone, Copy, Debug, PartialEq, Eq, PartialOrd, Ord)]
pub enum PartKind {
    Header,
    Runtime,
    Code,
    Table,
    Constant,
    Statics,
    Record,
    Pad,
}

/// A part of the image: `size` bytes from the offset `at`, and the places of the nodes that it is for.
#[derive(Debug, Drop, PartialEq, Eq, PartialOrd, Ord)]
pub struct Part {
    pub at: u64,
    pub size: u64,
    pub kind: PartKind,
    pub nodes: List<u32>,
}

/// A trim warning, by its number, at an offset in the code of a method.
#[derive(Debug, Drop, PartialEq, Eq, PartialOrd, Ord)]
pub struct Warning {
    pub number: u8,
    pub method: MethodName,
    pub offset: u32,
}
