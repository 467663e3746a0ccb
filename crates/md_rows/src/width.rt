ghost use Rattle.std.specs.Prelude.{◌≡◌, ◌+◌, ◌*◌, ◌≤◌, ◌^◌, nat_le, length};
ghost use Rattle.std.specs.List.{list_any};
ghost use Rattle.md_rows.specs.Tables.{tag_bits, tag_tables, schema_of};
ghost use Rattle.md_rows.specs.Widths.{number_at, size_of, wide_if as wide_if_in, width as width_in};
ghost use Rattle.md_rows.specs.Widths.{row_size as row_size_in, columns_size as columns_size_in};
ghost use Rattle.md_rows.specs.Widths.{address_size as address_size_in};
ghost use Rattle.md_rows.specs.Widths.{is_wide_coding as is_wide_coding_in, tag_rows as tag_rows_in};

use crate::coding::Coding;
use crate::layout::Layout;
use crate::schema::{Column, Schema};
use byteorder::{ByteOrder, LittleEndian};

/// How many bytes a column has.
#[derive(Clone, Copy, Debug, PartialEq, Eq)]
pub enum Width {
    One,
    Two,
    Four,
}

impl Width {
    /// The number of bytes.
    pub fn size(self) -> usize
        ensures value { result ≡ size_of self }
        ensures few { result ≤ 4 }
    {
        match self {
            Width::One => 1,
            Width::Two => 2,
            Width::Four => 4,
        }
    }
}

/// The number in the bytes of a column at a place.
pub(crate) fn number(bytes: &[u8], at: usize, width: Width) -> u32
    requires { at + size_of width ≤ length bytes.now }
    ensures { result ≡ number_at bytes.now (size_of width) at }
{
    match width {
        Width::One => bytes[at] as u32,
        Width::Two => LittleEndian::read_u16(&bytes[at..]) as u32,
        Width::Four => LittleEndian::read_u32(&bytes[at..]),
    }
}

/// Four bytes where the test holds, and two where it doesn't.
fn wide_if(wide: bool) -> Width
    ensures { result ≡ wide_if_in wide }
{
    if wide { Width::Four } else { Width::Two }
}

/// The rows of the table of a tag.
fn tag_rows(layout: &Layout, table: Option<u8>) -> u32
    ensures { result ≡ tag_rows_in layout.now table }
{
    match table {
        Some(table) => layout.rows_of(table as usize),
        None => 0,
    }
}

/// Whether a table of a coded index has more rows than fit two bytes beside the tag.
fn is_wide_coding(layout: &Layout, coding: Coding) -> bool
    ensures { result ≡ is_wide_coding_in layout.now coding }
{
    let most = coding.wide_rows();
    has_many_rows(layout, most, coding.tables())
}

/// Whether one of the tables has so many rows.
fn has_many_rows(layout: &Layout, many: u32, tables: &[Option<u8>]) -> bool
    ensures { result ≡ list_any (λ table. nat_le many (tag_rows_in layout.now table)) tables.now }
{
    tables.iter().any(|table| many <= tag_rows(layout, *table))
}

/// How wide a column is (ECMA-335 II.24.2.6).
pub fn width_of(layout: &Layout, column: Column) -> Width
    ensures { result ≡ width_in layout.now column }
{
    match column {
        Column::U8 => Width::One,
        Column::U16 => Width::Two,
        Column::U32 => Width::Four,
        Column::StringIndex => wide_if(layout.wide_strings),
        Column::GuidIndex => wide_if(layout.wide_guids),
        Column::BlobIndex => wide_if(layout.wide_blobs),
        Column::RowIndex(table) => wide_if(0x1_0000 <= layout.rows_of(table)),
        Column::RunIndex(table) => wide_if(0x1_0000 <= layout.rows_of(table)),
        Column::CodedIndex(coding) => wide_if(is_wide_coding(layout, coding)),
    }
}

/// The size of the address that a row may begin with.
pub(crate) fn address_size(schema: &Schema) -> usize
    ensures value { result ≡ address_size_in (schema_of schema.now) }
    ensures few { result ≤ 4 }
{
    if schema.has_address { 4 } else { 0 }
}

/// The size of a row.
pub(crate) fn row_size(layout: &Layout, schema: &Schema) -> usize
    ensures { result ≡ row_size_in layout.now (schema_of schema.now) }
{
    address_size(schema) + columns_size(layout, schema.columns)
}

/// The size of these columns.
fn columns_size(layout: &Layout, columns: &[Column]) -> usize
    ensures value { result ≡ columns_size_in layout.now columns.now }
    ensures few { result ≤ 4 * length columns.now }
{
    let mut size = 0;
    for column in columns {
        size += width_of(layout, *column).size();
    }
    size
}
