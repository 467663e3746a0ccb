//! The definitions of a module: types, fields and methods, by their rows.
ghost use Rattle.std.specs.Prelude.{◌≡◌, IsUtf8};
ghost use Rattle.ty_names.specs.Definitions as definitions;

use crate::cells::{RowOf, blob_at, coded_at, name_at, number_at};
use md_tables::Table;

/// The flags of a type (ECMA-335 II.23.1.15).
pub fn type_flags(tables: &[Table], row: u32) -> u32
    ensures { result ≡ definitions.type_flags tables.now row }
{
    number_at(tables, 0x02, row, 0)
}

/// The name of a type.
pub fn type_name(tables: &[Table], row: u32) -> &[u8]
    ensures name { result.now ≡ definitions.type_name tables.now row }
    ensures utf8 { IsUtf8 result.now }
{
    name_at(tables, 0x02, row, 1)
}

/// The namespace of a type.
pub fn type_namespace(tables: &[Table], row: u32) -> &[u8]
    ensures name { result.now ≡ definitions.type_namespace tables.now row }
    ensures utf8 { IsUtf8 result.now }
{
    name_at(tables, 0x02, row, 2)
}

/// What a type extends, by an index of TypeDefOrRef; row 0 where it extends nothing.
pub fn type_extends(tables: &[Table], row: u32) -> RowOf
    ensures { result ≡ definitions.type_extends tables.now row }
{
    coded_at(tables, 0x02, row, 3)
}

/// The flags of a field (ECMA-335 II.23.1.5).
pub fn field_flags(tables: &[Table], row: u32) -> u32
    ensures { result ≡ definitions.field_flags tables.now row }
{
    number_at(tables, 0x04, row, 0)
}

/// The name of a field.
pub fn field_name(tables: &[Table], row: u32) -> &[u8]
    ensures name { result.now ≡ definitions.field_name tables.now row }
    ensures utf8 { IsUtf8 result.now }
{
    name_at(tables, 0x04, row, 1)
}

/// The blob of a field's signature (ECMA-335 II.23.2.4).
pub fn field_blob(tables: &[Table], row: u32) -> &[u8]
    ensures { result.now ≡ definitions.field_blob tables.now row }
{
    blob_at(tables, 0x04, row, 2)
}

/// The flags of a method (ECMA-335 II.23.1.10).
pub fn method_flags(tables: &[Table], row: u32) -> u32
    ensures { result ≡ definitions.method_flags tables.now row }
{
    number_at(tables, 0x06, row, 1)
}

/// The name of a method.
pub fn method_name(tables: &[Table], row: u32) -> &[u8]
    ensures name { result.now ≡ definitions.method_name tables.now row }
    ensures utf8 { IsUtf8 result.now }
{
    name_at(tables, 0x06, row, 2)
}

/// The blob of a method's signature (ECMA-335 II.23.2.1).
pub fn method_blob(tables: &[Table], row: u32) -> &[u8]
    ensures { result.now ≡ definitions.method_blob tables.now row }
{
    blob_at(tables, 0x06, row, 3)
}
