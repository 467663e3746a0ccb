//! The types of the core that have an element type of their own (ECMA-335 II.23.1.16).
ghost use Rattle.std.specs.Prelude.{◌≡◌, IfOk, find};
ghost use Rattle.std.specs.Str.{bytes_eq};
ghost use Rattle.ty_names.specs.Definitions.{enclosing};
ghost use Rattle.ty_load.specs.Primitives as definitions;

use crate::names::{Names, is_same};
use md_tables::Table;
use num_core::{List, Memory};
use std::alloc::Global;
use ty_names::{type_name, type_namespace};
use ty_terms::{Primitive, Ty, TypeId};

/// The primitive types.
const PRIMITIVES: [Primitive; 15] = [
    Primitive::Void,
    Primitive::Boolean,
    Primitive::Char,
    Primitive::I1,
    Primitive::U1,
    Primitive::I2,
    Primitive::U2,
    Primitive::I4,
    Primitive::U4,
    Primitive::I8,
    Primitive::U8,
    Primitive::String,
    Primitive::I,
    Primitive::U,
    Primitive::Object,
];

/// The name of a primitive type in the namespace System.
pub fn primitive_name(primitive: Primitive) -> &'static [u8]
    ensures { result.now ≡ definitions.name_of_primitive primitive }
{
    match primitive {
        Primitive::Void => b"Void",
        Primitive::Boolean => b"Boolean",
        Primitive::Char => b"Char",
        Primitive::I1 => b"SByte",
        Primitive::U1 => b"Byte",
        Primitive::I2 => b"Int16",
        Primitive::U2 => b"UInt16",
        Primitive::I4 => b"Int32",
        Primitive::U4 => b"UInt32",
        Primitive::I8 => b"Int64",
        Primitive::U8 => b"UInt64",
        Primitive::String => b"String",
        Primitive::I => b"IntPtr",
        Primitive::U => b"UIntPtr",
        Primitive::Object => b"Object",
    }
}

/// The first of some primitive types with a name.
fn primitive_among(primitives: &[Primitive], name: &[u8]) -> Option<Primitive>
    ensures { result ≡ find (λ primitive. bytes_eq name.now (definitions.name_of_primitive primitive)) primitives.now }
{
    for primitive in primitives {
        if is_same(name, primitive_name(*primitive)) {
            return Some(*primitive);
        }
    }
    None
}

/// The primitive type of a name.
fn primitive_named(name: &[u8]) -> Option<Primitive>
    ensures { result ≡ definitions.primitive_named name.now }
{
    primitive_among(&PRIMITIVES, name)
}

/// The primitive type that a definition of the core is, by the row of the type around it or 0.
fn primitive_in(tables: &[Table], outer: u32, row: u32) -> Option<Primitive>
    requires { outer ≡ enclosing tables.now row }
    ensures { result ≡ definitions.primitive_in tables.now row }
{
    if outer == 0 && is_same(type_namespace(tables, row), b"System") {
        primitive_named(type_name(tables, row))
    } else {
        None
    }
}

impl Names {
    /// The primitive type that a definition is, if it is one.
    fn primitive_of(&self, id: TypeId) -> Option<Primitive>
        ensures { result ≡ definitions.primitive_of self.now id }
    {
        if id.module == self.core() {
            primitive_in(self.tables(id.module), self.enclosing(id), id.row)
        } else {
            None
        }
    }

    /// The type of a definition with these arguments. One that has an element type of its own is that.
    pub fn type_of(&self, id: TypeId, args: List<Ty>) -> Ty
        ensures { result ≡ definitions.type_of self.now id args }
    {
        match self.primitive_of(id) {
            Some(primitive) => Ty::Prim(primitive),
            None => Ty::Named(id, args),
        }
    }

    /// The type of the core of a namespace and a name.
    pub fn core_type(
        &self,
        alloc: Global,
        namespace: &[u8],
        name: &[u8],
    ) -> Result<Option<TypeId>, Memory>
        ensures { IfOk result (λ id. id ≡ definitions.core_type self.now namespace.now name.now) }
    {
        self.type_named(alloc, self.core(), 0, namespace, name)
    }

    /// The type of the core of a name in the namespace System.
    pub fn system_type(&self, alloc: Global, name: &[u8]) -> Result<Option<TypeId>, Memory>
        ensures { IfOk result (λ id. id ≡ definitions.system_type self.now name.now) }
    {
        self.core_type(alloc, b"System", name)
    }

    /// The definition of a type; that of a vector is System.Array, and a managed pointer and a variable have none.
    pub fn definition_of(&self, alloc: Global, ty: &Ty) -> Result<Option<TypeId>, Memory>
        ensures { IfOk result (λ id. id ≡ definitions.definition_of self.now ty.now) }
    {
        match ty {
            Ty::Prim(primitive) => self.system_type(alloc, primitive_name(*primitive)),
            Ty::Named(id, _) => Ok(Some(*id)),
            Ty::Vector(_) => self.system_type(alloc, b"Array"),
            Ty::ByRef(_) | Ty::Var(_) | Ty::MVar(_) | Ty::Canon => Ok(None),
        }
    }
}
