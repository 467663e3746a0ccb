ghost use Rattle.std.specs.Prelude.{◌≡◌, ◌+◌, ◌*◌, ◌≤◌, ◌<◌, ◌&&◌, length, Some, None, IfOk, IfSome, if◌then◌else◌};
ghost use Rattle.md_rows.specs.Widths.{valid as valid_in, has_table as has_table_in, is_refused as is_refused_in};
ghost use Rattle.md_rows.specs.Widths.{first_refused as first_refused_in, row_counts as row_counts_in, rows_place};
ghost use Rattle.md_rows.specs.Widths.{fits};
ghost use Rattle.md_rows.specs.Widths.{heap_bit as heap_bit_in, layout_of, number_at};

use crate::layout::Layout;
use byteorder::{ByteOrder, LittleEndian};
use num_core::{List, Memory};
use std::alloc::Global;

/// The size of the header in front of the numbers of rows.
const HEADER: usize = 24;

/// How many tables there can be.
const TABLE_NUMBERS: u8 = 64;

/// The mask of the tables that there are.
pub(crate) fn valid(stream: &[u8]) -> u64
    requires { 24 ≤ length stream.now }
    ensures { result ≡ valid_in stream.now }
{
    LittleEndian::read_u64(&stream[8..])
}

/// Whether there is a table.
fn has_table(mask: u64, table: u8) -> bool
    requires { table < 64 }
    ensures { result ≡ has_table_in mask table }
{
    (mask >> table) % 2 == 1
}

/// Whether a table is one that no assembly of this kind has.
fn is_refused(table: u8) -> bool
    ensures { result ≡ is_refused_in table }
{
    table > 0x2C
        || table == 0x03
        || table == 0x05
        || table == 0x07
        || table == 0x13
        || table == 0x16
        || table == 0x1E
        || table == 0x1F
}

/// Whether there is a table that no assembly of this kind has.
fn is_bad(mask: u64, table: u8) -> bool
    requires { table < 64 }
    ensures { result ≡ (has_table_in mask table && is_refused_in table) }
{
    has_table(mask, table) && is_refused(table)
}

/// The least table that there is and that is refused.
pub(crate) fn first_refused(mask: u64) -> Option<u8>
    ensures { result ≡ first_refused_in mask }
{
    for table in 0..TABLE_NUMBERS {
        if is_bad(mask, table) {
            return Some(table);
        }
    }
    None
}

/// Whether a bit of the sizes of heaps is set.
fn heap_bit(stream: &[u8], bit: u8) -> bool
    requires whole { 24 ≤ length stream.now }
    requires some { 0 < bit }
    ensures { result ≡ heap_bit_in stream.now bit }
{
    stream[6] / bit % 2 == 1
}

/// The number of rows of a table, which stands at a place if there is such a table, and the place behind it.
fn row_count(stream: &[u8], at: usize, is_there: bool) -> Option<(u32, usize)>
    requires { at ≤ length stream.now }
    ensures value { result ≡ (if is_there
        then (if fits stream.now at 4 then Some (number_at stream.now 4 at, at + 4) else None) else Some (0, at)) }
    ensures within { IfSome result (λ found. found.1 ≤ length stream.now) }
{
    if !is_there {
        Some((0, at))
    } else if stream.len() - at >= 4 {
        Some((LittleEndian::read_u32(&stream[at..]), at + 4))
    } else {
        None
    }
}

/// The numbers of rows of all tables, and the place behind them; none where they are cut.
fn row_counts(alloc: Global, stream: &[u8]) -> Result<Option<(List<u32>, usize)>, Memory>
    requires { 24 ≤ length stream.now }
    ensures { IfOk result (λ found. found ≡ (if fits stream.now 0 (rows_place stream.now)
        then Some (row_counts_in stream.now, rows_place stream.now) else None)) }
{
    let mask = valid(stream);
    let mut rows = List::new(alloc);
    let mut at = HEADER;
    for table in 0..TABLE_NUMBERS {
        match row_count(stream, at, has_table(mask, table)) {
            Some((count, next)) => {
                at = next;
                match rows.push(count) {
                    Ok(()) => {}
                    Err(_) => return Err(Memory),
                }
            }
            None => return Ok(None),
        }
    }
    Ok(Some((rows, at)))
}

/// What the header of the stream of tables says; none where it is cut.
pub(crate) fn read_layout(alloc: Global, stream: &[u8]) -> Result<Option<Layout>, Memory>
    ensures value { IfOk result (λ found. found ≡ layout_of stream.now) }
    ensures whole { IfOk result (λ found. IfSome found (λ layout. 24 ≤ length stream.now)) }
    ensures place { IfOk result (λ found. IfSome found (λ layout. layout.place ≤ length stream.now)) }
{
    if stream.len() < HEADER {
        return Ok(None);
    }
    match row_counts(alloc, stream) {
        Ok(Some((rows, place))) => Ok(Some(Layout {
            rows,
            place,
            wide_strings: heap_bit(stream, 1),
            wide_guids: heap_bit(stream, 2),
            wide_blobs: heap_bit(stream, 4),
        })),
        Ok(None) => Ok(None),
        Err(memory) => Err(memory),
    }
}
