ghost use Rattle.std.specs.Prelude.{◌≡◌, ◌-◌, ◌^◌, ◌<◌};
ghost use Rattle.md_rows.specs.Tables.{tag_bits, tag_tables};

/// The kinds of coded indexes (ECMA-335 II.24.2.6).
#[derive(Clone, Copy, Debug, PartialEq, Eq)]
pub enum Coding {
    TypeDefOrRef,
    HasConstant,
    HasCustomAttribute,
    HasFieldMarshal,
    HasDeclSecurity,
    MemberRefParent,
    HasSemantics,
    MethodDefOrRef,
    MemberForwarded,
    Implementation,
    CustomAttributeType,
    ResolutionScope,
    TypeOrMethodDef,
}

const TYPE_DEF_OR_REF: [Option<u8>; 3] = [Some(0x02), Some(0x01), Some(0x1B)];

const HAS_CONSTANT: [Option<u8>; 3] = [Some(0x04), Some(0x08), Some(0x17)];

const HAS_CUSTOM_ATTRIBUTE: [Option<u8>; 22] = [
    Some(0x06),
    Some(0x04),
    Some(0x01),
    Some(0x02),
    Some(0x08),
    Some(0x09),
    Some(0x0A),
    Some(0x00),
    Some(0x0E),
    Some(0x17),
    Some(0x14),
    Some(0x11),
    Some(0x1A),
    Some(0x1B),
    Some(0x20),
    Some(0x23),
    Some(0x26),
    Some(0x27),
    Some(0x28),
    Some(0x2A),
    Some(0x2C),
    Some(0x2B),
];

const HAS_FIELD_MARSHAL: [Option<u8>; 2] = [Some(0x04), Some(0x08)];

const HAS_DECL_SECURITY: [Option<u8>; 3] = [Some(0x02), Some(0x06), Some(0x20)];

const MEMBER_REF_PARENT: [Option<u8>; 5] = [
    Some(0x02),
    Some(0x01),
    Some(0x1A),
    Some(0x06),
    Some(0x1B),
];

const HAS_SEMANTICS: [Option<u8>; 2] = [Some(0x14), Some(0x17)];

const METHOD_DEF_OR_REF: [Option<u8>; 2] = [Some(0x06), Some(0x0A)];

const MEMBER_FORWARDED: [Option<u8>; 2] = [Some(0x04), Some(0x06)];

const IMPLEMENTATION: [Option<u8>; 3] = [Some(0x26), Some(0x23), Some(0x27)];

const CUSTOM_ATTRIBUTE_TYPE: [Option<u8>; 4] = [None, None, Some(0x06), Some(0x0A)];

const RESOLUTION_SCOPE: [Option<u8>; 4] = [Some(0x00), Some(0x1A), Some(0x23), Some(0x01)];

const TYPE_OR_METHOD_DEF: [Option<u8>; 2] = [Some(0x02), Some(0x06)];

impl Coding {
    /// The table that each tag names, if it names one.
    pub fn tables(self) -> &'static [Option<u8>]
        ensures { result.now ≡ tag_tables self }
    {
        match self {
            Coding::TypeDefOrRef => &TYPE_DEF_OR_REF,
            Coding::HasConstant => &HAS_CONSTANT,
            Coding::HasCustomAttribute => &HAS_CUSTOM_ATTRIBUTE,
            Coding::HasFieldMarshal => &HAS_FIELD_MARSHAL,
            Coding::HasDeclSecurity => &HAS_DECL_SECURITY,
            Coding::MemberRefParent => &MEMBER_REF_PARENT,
            Coding::HasSemantics => &HAS_SEMANTICS,
            Coding::MethodDefOrRef => &METHOD_DEF_OR_REF,
            Coding::MemberForwarded => &MEMBER_FORWARDED,
            Coding::Implementation => &IMPLEMENTATION,
            Coding::CustomAttributeType => &CUSTOM_ATTRIBUTE_TYPE,
            Coding::ResolutionScope => &RESOLUTION_SCOPE,
            Coding::TypeOrMethodDef => &TYPE_OR_METHOD_DEF,
        }
    }

    /// How many tags there are, which stand in the low bits.
    pub fn tags(self) -> u32
        ensures count { result ≡ 2 ^ tag_bits self }
        ensures some { 0 < result }
    {
        match self {
            Coding::HasFieldMarshal
            | Coding::HasSemantics
            | Coding::MethodDefOrRef
            | Coding::MemberForwarded
            | Coding::TypeOrMethodDef => 2,
            Coding::TypeDefOrRef
            | Coding::HasConstant
            | Coding::HasDeclSecurity
            | Coding::Implementation
            | Coding::ResolutionScope => 4,
            Coding::MemberRefParent | Coding::CustomAttributeType => 8,
            Coding::HasCustomAttribute => 32,
        }
    }

    /// The number of rows of a table that no longer fits two bytes beside the tag.
    pub fn wide_rows(self) -> u32
        ensures { result ≡ 2 ^ (16 - tag_bits self) }
    {
        match self {
            Coding::HasFieldMarshal
            | Coding::HasSemantics
            | Coding::MethodDefOrRef
            | Coding::MemberForwarded
            | Coding::TypeOrMethodDef => 0x8000,
            Coding::TypeDefOrRef
            | Coding::HasConstant
            | Coding::HasDeclSecurity
            | Coding::Implementation
            | Coding::ResolutionScope => 0x4000,
            Coding::MemberRefParent | Coding::CustomAttributeType => 0x2000,
            Coding::HasCustomAttribute => 0x800,
        }
    }
}
