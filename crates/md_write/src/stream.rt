ghost use Rattle.std.specs.Prelude.{◌≡◌, ◌++◌, ◌+◌, ◌*◌, ◌<◌, ◌≤◌, ◌^◌, ℕ, map, length};
ghost use Rattle.std.specs.Prelude.{◌==◌, if◌then◌else◌, None, IfOk, OnOk};
ghost use Rattle.std.specs.List.{range_with_len};
ghost use Rattle.md_write.specs.Contents.{padded};
ghost use Rattle.md_write.specs.Heaps.{heaps_of as heaps_in};
ghost use Rattle.md_write.specs.Stream.{row_counts as row_counts_in, row_count as row_count_in, mask_of as mask_in};
ghost use Rattle.md_write.specs.Stream.{counts_bytes, count_bytes, layout_with, heap_sizes as heap_sizes_in};
ghost use Rattle.md_write.specs.Stream.{tables_header, stream_with, stream_of, data_at as data_in, bit_if as bit_in};
ghost use Rattle.md_write.specs.Stream.{is_wide as is_wide_in, code_at};
ghost use Rattle.md_write.specs.Written.{first_too_many};

use crate::heaps::Heaps;
use crate::put::{pad, padded_size, put_long, put_word};
use crate::row::put_tables;
use crate::tables::table_rows;
use md_rows::{Layout, schemas};
use md_tables::Table;
use num_core::{Bytes, List, Memory};
use std::alloc::Global;

/// How many tables there can be.
const TABLE_NUMBERS: u8 = 64;

/// The size of the header in front of the numbers of rows.
const HEADER: usize = 24;

/// The tables whose rows the standard wants in the order of a column.
const SORTED: u64 = 0x1600_3301_FA00;

/// The address of the first body.
pub(crate) const CODE_AT: u64 = 0x2048;

/// How many rows the table of a number has.
fn row_count(tables: &[Table], number: u8) -> u32
    requires { first_too_many tables.now ≡ None }
    ensures { result ≡ row_count_in tables.now number }
{
    table_rows(tables, number).len() as u32
}

/// How many rows each of the tables has.
fn row_counts(alloc: Global, tables: &[Table]) -> Result<List<u32>, Memory>
    requires { first_too_many tables.now ≡ None }
    ensures { IfOk result (λ counts. counts ≡ row_counts_in tables.now) }
{
    let mut counts = List::new(alloc);
    for number in 0..TABLE_NUMBERS {
        match counts.push(row_count(tables, number)) {
            Ok(()) => {}
            Err(_) => return Err(Memory),
        }
    }
    Ok(counts)
}

/// A bit for each table that has rows.
fn mask_of(counts: &[u32]) -> u64
    requires { length counts.now ≤ 64 }
    ensures { result ≡ mask_in counts.now }
{
    let mut mask: u64 = 0;
    let mut left = counts.len();
    while left > 0 {
        left -= 1;
        mask = 2 * mask + bit_of(counts[left]);
    }
    mask
}

/// The bit of a table with so many rows.
fn bit_of(count: u32) -> u64
    ensures value { result ≡ (if count == 0 then 0 else 1) }
    ensures few { result ≤ 1 }
{
    if count == 0 { 0 } else { 1 }
}

/// Adds the number of rows of a table that has rows.
fn put_count(bytes: &mut Bytes, count: u32) -> Result<(), Memory>
    ensures { OnOk result (bytes.new ≡ bytes.old ++ count_bytes count) }
{
    if count == 0 {
        Ok(())
    } else {
        put_word(bytes, count as u64)
    }
}

/// Adds the numbers of rows of the tables that have rows.
fn put_counts(bytes: &mut Bytes, counts: &[u32]) -> Result<(), Memory>
    ensures { OnOk result (bytes.new ≡ bytes.old ++ counts_bytes counts.now) }
{
    for count in counts {
        match put_count(bytes, *count) {
            Ok(()) => {}
            Err(memory) => return Err(memory),
        }
    }
    Ok(())
}

/// The numbers of rows of the tables that have rows, as bytes.
fn counts(alloc: Global, counts: &[u32]) -> Result<Bytes, Memory>
    ensures { IfOk result (λ bytes. bytes ≡ counts_bytes counts.now) }
{
    let mut bytes = Bytes::new(alloc);
    match put_counts(&mut bytes, counts) {
        Ok(()) => Ok(bytes),
        Err(memory) => Err(memory),
    }
}

/// Whether indexes into a heap don't fit two bytes; zeros stand behind it up to a multiple of 4.
fn is_wide(heap: &[u8]) -> bool
    ensures { result ≡ is_wide_in (padded 4 heap.now) }
{
    padded_size(4, heap) >= 0x1_0000
}

/// Whether indexes into the heap of GUIDs don't fit two bytes.
fn is_wide_guids(heap: &[u8]) -> bool
    ensures { result ≡ is_wide_in heap.now }
{
    heap.len() >= 0x1_0000
}

/// How wide columns are, and where rows begin.
fn layout_of(alloc: Global, tables: &[Table], heaps: &Heaps) -> Result<Layout, Memory>
    requires { first_too_many tables.now ≡ None }
    ensures { IfOk result (λ layout. layout ≡ layout_with (row_counts_in tables.now) heaps.now) }
{
    let rows = match row_counts(alloc, tables) {
        Ok(rows) => rows,
        Err(memory) => return Err(memory),
    };
    match counts(alloc, rows.as_slice()) {
        Ok(bytes) => Ok(Layout {
            rows,
            place: HEADER + bytes.len(),
            wide_strings: is_wide(heaps.strings.bytes()),
            wide_guids: is_wide_guids(heaps.guids.bytes()),
            wide_blobs: is_wide(heaps.blobs.bytes()),
        }),
        Err(memory) => Err(memory),
    }
}

/// A bit where the test holds.
fn bit_if(wide: bool, bit: u8) -> u8
    ensures value { result ≡ bit_in wide bit }
    ensures few { result ≤ bit }
{
    if wide { bit } else { 0 }
}

/// The bits of the heaps whose indexes have four bytes.
fn heap_sizes(layout: &Layout) -> u8
    ensures { result ≡ heap_sizes_in layout.now }
{
    bit_if(layout.wide_strings, 1) + bit_if(layout.wide_guids, 2) + bit_if(layout.wide_blobs, 4)
}

/// Adds the header of the stream.
fn put_header(bytes: &mut Bytes, layout: &Layout) -> Result<(), Memory>
    requires { length layout.now.rows ≤ 64 }
    ensures { OnOk result (bytes.new ≡ bytes.old ++ tables_header layout.now) }
{
    put_word(bytes, 0)?;
    bytes.extend_from_slice(&[2, 0, heap_sizes(layout), 1])?;
    put_long(bytes, mask_of(layout.rows.as_slice()))?;
    put_long(bytes, SORTED)?;
    put_counts(bytes, layout.rows.as_slice())?;
    Ok(())
}

/// The stream of tables, of which the bytes of the first field stand at an address.
fn stream_by(
    alloc: Global,
    layout: &Layout,
    heaps: &Heaps,
    data_at: u64,
    tables: &[Table],
) -> Result<Bytes, Memory>
    requires { length layout.now.rows ≤ 64 }
    ensures { IfOk result (λ bytes. bytes ≡ stream_with layout.now heaps.now data_at tables.now) }
{
    let mut bytes = Bytes::new(alloc);
    put_header(&mut bytes, layout)?;
    put_tables(
        &mut bytes,
        heaps,
        layout,
        (CODE_AT, data_at),
        tables,
        schemas(),
    )?;
    pad(&mut bytes, 4)?;
    Ok(bytes)
}

/// The stream of the tables of a module.
pub(crate) fn stream(
    alloc: Global,
    tables: &[Table],
    heaps: &Heaps,
    data_at: u64,
) -> Result<Bytes, Memory>
    requires few { first_too_many tables.now ≡ None }
    requires heaps { heaps.now ≡ heaps_in tables.now }
    requires data { data_at ≡ data_in tables.now }
    ensures { IfOk result (λ bytes. bytes ≡ stream_of tables.now) }
{
    match layout_of(alloc, tables, heaps) {
        Ok(layout) => stream_by(alloc, &layout, heaps, data_at, tables),
        Err(memory) => Err(memory),
    }
}
