ghost use Rattle.std.specs.Prelude.{◌≡◌, map};
ghost use Rattle.md_rows.specs.Tables.{tables, schema_of};

use crate::coding::Coding;

/// What a column of a table holds (ECMA-335 II.22).
#[derive(Clone, Copy, Debug, PartialEq, Eq)]
pub enum Column {
    /// A number of one byte.
    U8,
    /// A number of two bytes.
    U16,
    /// A number of four bytes.
    U32,
    /// An index into the heap of strings.
    StringIndex,
    /// An index into the heap of GUIDs.
    GuidIndex,
    /// An index into the heap of blobs.
    BlobIndex,
    /// A row of a table, or 0.
    RowIndex(usize),
    /// The first row of a run of a table, which ends where that of the next row begins.
    RunIndex(usize),
    /// A row of one of several tables, with a tag that says of which.
    CodedIndex(Coding),
}

/// A table and its columns.
#[derive(Clone, Copy, Debug)]
pub struct Schema {
    pub number: u8,
    /// Whether its rows are held. Those of other tables are only skipped by their width.
    pub is_held: bool,
    /// Whether a row begins with an address of four bytes, which stands in front of the columns.
    pub has_address: bool,
    pub columns: &'static [Column],
}

const MODULE: [Column; 5] = [
    Column::U16,
    Column::StringIndex,
    Column::GuidIndex,
    Column::GuidIndex,
    Column::GuidIndex,
];

const TYPE_REF: [Column; 3] = [
    Column::CodedIndex(Coding::ResolutionScope),
    Column::StringIndex,
    Column::StringIndex,
];

const TYPE_DEF: [Column; 6] = [
    Column::U32,
    Column::StringIndex,
    Column::StringIndex,
    Column::CodedIndex(Coding::TypeDefOrRef),
    Column::RunIndex(0x04),
    Column::RunIndex(0x06),
];

const FIELD: [Column; 3] = [Column::U16, Column::StringIndex, Column::BlobIndex];

const METHOD_DEF: [Column; 5] = [
    Column::U16,
    Column::U16,
    Column::StringIndex,
    Column::BlobIndex,
    Column::RunIndex(0x08),
];

const PARAM: [Column; 3] = [Column::U16, Column::U16, Column::StringIndex];

const INTERFACE_IMPL: [Column; 2] = [
    Column::RowIndex(0x02),
    Column::CodedIndex(Coding::TypeDefOrRef),
];

const MEMBER_REF: [Column; 3] = [
    Column::CodedIndex(Coding::MemberRefParent),
    Column::StringIndex,
    Column::BlobIndex,
];

const CONSTANT: [Column; 4] = [
    Column::U8,
    Column::U8,
    Column::CodedIndex(Coding::HasConstant),
    Column::BlobIndex,
];

const CUSTOM_ATTRIBUTE: [Column; 3] = [
    Column::CodedIndex(Coding::HasCustomAttribute),
    Column::CodedIndex(Coding::CustomAttributeType),
    Column::BlobIndex,
];

const FIELD_MARSHAL: [Column; 2] = [
    Column::CodedIndex(Coding::HasFieldMarshal),
    Column::BlobIndex,
];

const DECL_SECURITY: [Column; 3] = [
    Column::U16,
    Column::CodedIndex(Coding::HasDeclSecurity),
    Column::BlobIndex,
];

const CLASS_LAYOUT: [Column; 3] = [Column::U16, Column::U32, Column::RowIndex(0x02)];

const FIELD_LAYOUT: [Column; 2] = [Column::U32, Column::RowIndex(0x04)];

const STAND_ALONE_SIG: [Column; 1] = [Column::BlobIndex];

const EVENT_MAP: [Column; 2] = [Column::RowIndex(0x02), Column::RowIndex(0x14)];

const EVENT: [Column; 3] = [
    Column::U16,
    Column::StringIndex,
    Column::CodedIndex(Coding::TypeDefOrRef),
];

const PROPERTY_MAP: [Column; 2] = [Column::RowIndex(0x02), Column::RowIndex(0x17)];

const PROPERTY: [Column; 3] = [Column::U16, Column::StringIndex, Column::BlobIndex];

const METHOD_SEMANTICS: [Column; 3] = [
    Column::U16,
    Column::RowIndex(0x06),
    Column::CodedIndex(Coding::HasSemantics),
];

const METHOD_IMPL: [Column; 3] = [
    Column::RowIndex(0x02),
    Column::CodedIndex(Coding::MethodDefOrRef),
    Column::CodedIndex(Coding::MethodDefOrRef),
];

const MODULE_REF: [Column; 1] = [Column::StringIndex];

const TYPE_SPEC: [Column; 1] = [Column::BlobIndex];

const IMPL_MAP: [Column; 4] = [
    Column::U16,
    Column::CodedIndex(Coding::MemberForwarded),
    Column::StringIndex,
    Column::RowIndex(0x1A),
];

const FIELD_RVA: [Column; 1] = [Column::RowIndex(0x04)];

const ASSEMBLY: [Column; 9] = [
    Column::U32,
    Column::U16,
    Column::U16,
    Column::U16,
    Column::U16,
    Column::U32,
    Column::BlobIndex,
    Column::StringIndex,
    Column::StringIndex,
];

const ASSEMBLY_PROCESSOR: [Column; 1] = [Column::U32];

const ASSEMBLY_OS: [Column; 3] = [Column::U32, Column::U32, Column::U32];

const ASSEMBLY_REF: [Column; 9] = [
    Column::U16,
    Column::U16,
    Column::U16,
    Column::U16,
    Column::U32,
    Column::BlobIndex,
    Column::StringIndex,
    Column::StringIndex,
    Column::BlobIndex,
];

const ASSEMBLY_REF_PROCESSOR: [Column; 2] = [Column::U32, Column::RowIndex(0x23)];

const ASSEMBLY_REF_OS: [Column; 4] = [
    Column::U32,
    Column::U32,
    Column::U32,
    Column::RowIndex(0x23),
];

const FILE: [Column; 3] = [Column::U32, Column::StringIndex, Column::BlobIndex];

const EXPORTED_TYPE: [Column; 5] = [
    Column::U32,
    Column::U32,
    Column::StringIndex,
    Column::StringIndex,
    Column::CodedIndex(Coding::Implementation),
];

const MANIFEST_RESOURCE: [Column; 4] = [
    Column::U32,
    Column::U32,
    Column::StringIndex,
    Column::CodedIndex(Coding::Implementation),
];

const NESTED_CLASS: [Column; 2] = [Column::RowIndex(0x02), Column::RowIndex(0x02)];

const GENERIC_PARAM: [Column; 4] = [
    Column::U16,
    Column::U16,
    Column::CodedIndex(Coding::TypeOrMethodDef),
    Column::StringIndex,
];

const METHOD_SPEC: [Column; 2] = [
    Column::CodedIndex(Coding::MethodDefOrRef),
    Column::BlobIndex,
];

const GENERIC_PARAM_CONSTRAINT: [Column; 2] = [
    Column::RowIndex(0x2A),
    Column::CodedIndex(Coding::TypeDefOrRef),
];

/// The tables and their columns, in the order of their numbers.
const TABLES: [Schema; 38] = [
    Schema {
        number: 0x00,
        is_held: true,
        has_address: false,
        columns: &MODULE,
    },
    Schema {
        number: 0x01,
        is_held: true,
        has_address: false,
        columns: &TYPE_REF,
    },
    Schema {
        number: 0x02,
        is_held: true,
        has_address: false,
        columns: &TYPE_DEF,
    },
    Schema {
        number: 0x04,
        is_held: true,
        has_address: false,
        columns: &FIELD,
    },
    Schema {
        number: 0x06,
        is_held: true,
        has_address: true,
        columns: &METHOD_DEF,
    },
    Schema {
        number: 0x08,
        is_held: true,
        has_address: false,
        columns: &PARAM,
    },
    Schema {
        number: 0x09,
        is_held: true,
        has_address: false,
        columns: &INTERFACE_IMPL,
    },
    Schema {
        number: 0x0A,
        is_held: true,
        has_address: false,
        columns: &MEMBER_REF,
    },
    Schema {
        number: 0x0B,
        is_held: true,
        has_address: false,
        columns: &CONSTANT,
    },
    Schema {
        number: 0x0C,
        is_held: true,
        has_address: false,
        columns: &CUSTOM_ATTRIBUTE,
    },
    Schema {
        number: 0x0D,
        is_held: false,
        has_address: false,
        columns: &FIELD_MARSHAL,
    },
    Schema {
        number: 0x0E,
        is_held: false,
        has_address: false,
        columns: &DECL_SECURITY,
    },
    Schema {
        number: 0x0F,
        is_held: true,
        has_address: false,
        columns: &CLASS_LAYOUT,
    },
    Schema {
        number: 0x10,
        is_held: false,
        has_address: false,
        columns: &FIELD_LAYOUT,
    },
    Schema {
        number: 0x11,
        is_held: true,
        has_address: false,
        columns: &STAND_ALONE_SIG,
    },
    Schema {
        number: 0x12,
        is_held: false,
        has_address: false,
        columns: &EVENT_MAP,
    },
    Schema {
        number: 0x14,
        is_held: false,
        has_address: false,
        columns: &EVENT,
    },
    Schema {
        number: 0x15,
        is_held: false,
        has_address: false,
        columns: &PROPERTY_MAP,
    },
    Schema {
        number: 0x17,
        is_held: false,
        has_address: false,
        columns: &PROPERTY,
    },
    Schema {
        number: 0x18,
        is_held: false,
        has_address: false,
        columns: &METHOD_SEMANTICS,
    },
    Schema {
        number: 0x19,
        is_held: true,
        has_address: false,
        columns: &METHOD_IMPL,
    },
    Schema {
        number: 0x1A,
        is_held: false,
        has_address: false,
        columns: &MODULE_REF,
    },
    Schema {
        number: 0x1B,
        is_held: true,
        has_address: false,
        columns: &TYPE_SPEC,
    },
    Schema {
        number: 0x1C,
        is_held: false,
        has_address: false,
        columns: &IMPL_MAP,
    },
    Schema {
        number: 0x1D,
        is_held: true,
        has_address: true,
        columns: &FIELD_RVA,
    },
    Schema {
        number: 0x20,
        is_held: true,
        has_address: false,
        columns: &ASSEMBLY,
    },
    Schema {
        number: 0x21,
        is_held: false,
        has_address: false,
        columns: &ASSEMBLY_PROCESSOR,
    },
    Schema {
        number: 0x22,
        is_held: false,
        has_address: false,
        columns: &ASSEMBLY_OS,
    },
    Schema {
        number: 0x23,
        is_held: true,
        has_address: false,
        columns: &ASSEMBLY_REF,
    },
    Schema {
        number: 0x24,
        is_held: false,
        has_address: false,
        columns: &ASSEMBLY_REF_PROCESSOR,
    },
    Schema {
        number: 0x25,
        is_held: false,
        has_address: false,
        columns: &ASSEMBLY_REF_OS,
    },
    Schema {
        number: 0x26,
        is_held: false,
        has_address: false,
        columns: &FILE,
    },
    Schema {
        number: 0x27,
        is_held: false,
        has_address: false,
        columns: &EXPORTED_TYPE,
    },
    Schema {
        number: 0x28,
        is_held: false,
        has_address: false,
        columns: &MANIFEST_RESOURCE,
    },
    Schema {
        number: 0x29,
        is_held: true,
        has_address: false,
        columns: &NESTED_CLASS,
    },
    Schema {
        number: 0x2A,
        is_held: true,
        has_address: false,
        columns: &GENERIC_PARAM,
    },
    Schema {
        number: 0x2B,
        is_held: true,
        has_address: false,
        columns: &METHOD_SPEC,
    },
    Schema {
        number: 0x2C,
        is_held: true,
        has_address: false,
        columns: &GENERIC_PARAM_CONSTRAINT,
    },
];

/// The tables and their columns, which are those of the standard, in the order of their numbers (ECMA-335 II.22).
pub fn schemas() -> &'static [Schema]
    ensures { map schema_of result.now ≡ tables }
{
    &TABLES
}
