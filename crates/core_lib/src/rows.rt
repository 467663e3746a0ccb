/// A row of TypeDef (ECMA-335 II.22.37).
#[derive(Clone, Copy, Debug)]
pub struct ClassRow {
    pub attributes: u32,
    pub name: &'static [u8],
    pub namespace: &'static [u8],
    /// The row of its base in the same table, or 0.
    pub base: u32,
    /// The row of its first field.
    pub fields: u32,
    /// The row of its first method.
    pub methods: u32,
}

/// A row of Field (ECMA-335 II.22.15).
#[derive(Clone, Copy, Debug)]
pub struct FieldRow {
    pub attributes: u32,
    pub name: &'static [u8],
    pub signature: &'static [u8],
}

/// A row of MethodDef (ECMA-335 II.22.26).
#[derive(Clone, Copy, Debug)]
pub struct MethodRow {
    /// The attributes of its implementation.
    pub implementation: u32,
    pub attributes: u32,
    pub name: &'static [u8],
    pub signature: &'static [u8],
    /// The body of a method that has CIL, with its header; otherwise no byte.
    pub body: &'static [u8],
}

/// A row of InterfaceImpl (ECMA-335 II.22.23).
#[derive(Clone, Copy, Debug)]
pub struct InterfaceRow {
    /// The row of the class.
    pub class: u32,
    /// The table that the interface stands in.
    pub table: u8,
    /// The row of the interface in that table.
    pub row: u32,
}
