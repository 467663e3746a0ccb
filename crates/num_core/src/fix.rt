/// A place that takes an address of the image.
#[derive(Clone, Copy, Debug, PartialEq, Eq)]
pub struct Fix {
    /// In code the place of an `auipc`, whose next word takes the low 12 bits; in a table the
    /// place of 8 bytes.
    pub at: u32,
    /// What the address is that of.
    pub kind: FixKind,
    /// The number of the routine, or the place of a kept node.
    pub item: u32,
}

/// What the address of a `Fix` is that of.
#[derive(Clone, Copy, Debug, PartialEq, Eq)]
pub enum FixKind {
    /// A routine of the runtime.
    Routine,
    /// The body of a method.
    Code,
    /// The dictionary of a method.
    Dict,
    /// The bytes of any other node.
    Item,
}
