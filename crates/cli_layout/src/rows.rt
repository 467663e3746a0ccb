//! What is told of the definitions of types, and where their fields lie.
use num_core::List;
use ty_layout::{Field, Laid};
use ty_terms::Ty;

/// A field, by its row, and its type in the variables of the type that has it, if that leads to something.
#[derive(Debug, Drop)]
pub struct FieldRow {
    pub row: u32,
    pub ty: Option<Ty>,
}

/// What a type extends, in its own variables.
#[derive(Debug, Drop)]
pub enum Base {
    Nothing,
    Of(Ty),
    /// It names what leads to nothing, or what it can't extend.
    Missing,
}

/// The fields of a type, and where they lie.
#[derive(Debug, Drop)]
pub struct TypeLayout {
    pub fields: List<Field>,
    pub laid: Laid,
}

/// A type with its layout.
#[derive(Debug, Drop)]
pub struct Loaded {
    pub ty: Ty,
    pub layout: TypeLayout,
}
