ghost use Rattle.std.specs.Prelude.{◌≡◌, ◌+◌, ◌*◌, ◌≤◌, ◌<◌, ◌^◌, ◌++◌, ◌==◌, true, None, Some, length, map, IfOk};
ghost use Rattle.std.specs.Prelude.{IfErr, IfSome, OnOk};
ghost use Rattle.std.specs.List.{list_all, list_any, range_with_len};
ghost use Rattle.il_code.specs.Bodies.{IsFirstBad};
ghost use Rattle.il_code.specs.Clauses.{small_row as small_row_at, fat_row as fat_row_at, is_table as is_table_at};
ghost use Rattle.il_code.specs.Clauses.{has_table as has_table_behind, rows_at, rows_from, clause_of, first_bad_clause};
ghost use Rattle.il_code.specs.Clauses.{is_bad as is_bad_of};
ghost use Rattle.il_code.specs.Clauses.{is_sound as is_sound_of, is_whole as is_whole_of, has_kind as has_kind_of};
ghost use Rattle.il_code.specs.Clauses.{kind_of, try_of, handler_of, overlap as overlap_of, are_equal as are_equal_of};
ghost use Rattle.il_code.specs.Clauses.{is_smaller as is_smaller_of, clash as clash_of, conflict as conflict_of};
ghost use Rattle.il_code.specs.Headers.{aligned as aligned_of, section_end as section_end_of};
ghost use Rattle.il_code.specs.Listing.{AreRising};

use crate::body::{Clause, ClauseKind, Instr};
use crate::bytes::{half_at, word_at};
use crate::fault::BodyFault;
use crate::listing::is_boundary;
use crate::section::{aligned, has_more, is_fat_section, section_end, section_size};
use num_core::{List, Memory};
use std::alloc::Global;

/// An exception handling clause as it stands in a table (ECMA-335 II.25.4.6).
#[derive(Clone, Copy, Debug)]
pub struct Row {
    pub flags: u32,
    pub try_at: u32,
    pub try_size: u32,
    pub handler_at: u32,
    pub handler_size: u32,
    pub class: u32,
}

/// The offsets from one up to another.
#[derive(Clone, Copy, Debug)]
pub struct Span {
    pub from: u32,
    pub to: u64,
}

/// The clauses of the sections behind code that ends at a place, if each of them is a table (ECMA-335 II.25.4.5).
pub(crate) fn read_rows(
    alloc: Global,
    bytes: &[u8],
    mut end: usize,
) -> Result<Option<List<Row>>, Memory>
    requires { end ≤ length bytes.now }
    ensures value { IfOk result (λ rows. rows ≡ rows_from (length bytes.now) bytes.now end) }
    ensures few { IfOk result (λ rows. IfSome rows (λ rows. length rows ≤ length bytes.now)) }
{
    let mut rows = List::new(alloc);
    for _section in 0..bytes.len() {
        let at = aligned(end);
        match section_end(bytes, at) {
            None => return Ok(None),
            Some(next) => {
                if !has_table(bytes, end, at) {
                    return Ok(None);
                }
                add_rows(&mut rows, bytes, at)?;
                if !has_more(bytes, at) {
                    return Ok(Some(rows));
                }
                end = next;
            }
        }
    }
    Ok(None)
}

/// Whether a table of clauses stands at a place, with zeros in front of it from another place on.
fn has_table(bytes: &[u8], end: usize, at: usize) -> bool
    requires place { at ≡ aligned_of end }
    requires behind { end ≤ at }
    requires fits { section_end_of bytes.now at ≤ length bytes.now }
    ensures { result ≡ has_table_behind bytes.now end }
{
    is_filler(&bytes[end..at]) && is_table(bytes, at)
}

/// Whether the bytes are zero.
fn is_filler(bytes: &[u8]) -> bool
    ensures { result ≡ list_all (λ byte. byte == 0) bytes.now }
{
    bytes.iter().all(|byte| *byte == 0)
}

/// Whether the section at a place is a table of clauses.
fn is_table(bytes: &[u8], at: usize) -> bool
    requires { section_end_of bytes.now at ≤ length bytes.now }
    ensures { result ≡ is_table_at bytes.now at }
{
    let size = section_size(bytes, at);
    if bytes[at] % 0x40 != 1 {
        return false;
    }
    if is_fat_section(bytes, at) {
        size % 24 == 4
    } else {
        size % 12 == 4 && half_at(bytes, at + 2) == 0
    }
}

/// Adds the clauses of the table at a place.
fn add_rows(rows: &mut List<Row>, bytes: &[u8], at: usize) -> Result<(), Memory>
    requires { is_table_at bytes.now at ≡ true }
    ensures rows { OnOk result (rows.new ≡ rows.old ++ rows_at bytes.now at) }
    ensures few { OnOk result (length rows.new + at ≤ length rows.old + section_end_of bytes.now at) }
{
    let size = section_size(bytes, at);
    if is_fat_section(bytes, at) {
        add_fat_rows(rows, bytes, at + 4, size / 24)
    } else {
        add_small_rows(rows, bytes, at + 4, size / 12)
    }
}

/// Adds so many clauses of 24 bytes.
fn add_fat_rows(
    rows: &mut List<Row>,
    bytes: &[u8],
    first: usize,
    count: usize,
) -> Result<(), Memory>
    requires { first + 24 * count ≤ length bytes.now }
    ensures { OnOk result (rows.new ≡
        rows.old ++ map (λ k. fat_row_at bytes.now (first + 24 * k)) (range_with_len 0 count)) }
{
    for index in 0..count {
        let row = fat_row(bytes, first + 24 * index);
        rows.push(row).map_err(|_| Memory)?;
    }
    Ok(())
}

/// Adds so many clauses of 12 bytes.
fn add_small_rows(
    rows: &mut List<Row>,
    bytes: &[u8],
    first: usize,
    count: usize,
) -> Result<(), Memory>
    requires { first + 12 * count ≤ length bytes.now }
    ensures { OnOk result (rows.new ≡
        rows.old ++ map (λ k. small_row_at bytes.now (first + 12 * k)) (range_with_len 0 count)) }
{
    for index in 0..count {
        let row = small_row(bytes, first + 12 * index);
        rows.push(row).map_err(|_| Memory)?;
    }
    Ok(())
}

/// A clause of 24 bytes.
fn fat_row(bytes: &[u8], at: usize) -> Row
    requires { at + 24 ≤ length bytes.now }
    ensures { result ≡ fat_row_at bytes.now at }
{
    Row {
        flags: word_at(bytes, at),
        try_at: word_at(bytes, at + 4),
        try_size: word_at(bytes, at + 8),
        handler_at: word_at(bytes, at + 12),
        handler_size: word_at(bytes, at + 16),
        class: word_at(bytes, at + 20),
    }
}

/// A clause of 12 bytes.
fn small_row(bytes: &[u8], at: usize) -> Row
    requires { at + 12 ≤ length bytes.now }
    ensures { result ≡ small_row_at bytes.now at }
{
    Row {
        flags: half_at(bytes, at) as u32,
        try_at: half_at(bytes, at + 2) as u32,
        try_size: bytes[at + 4] as u32,
        handler_at: half_at(bytes, at + 5) as u32,
        handler_size: bytes[at + 7] as u32,
        class: word_at(bytes, at + 8),
    }
}

/// The clauses of code that ends at an offset, or the number of the first bad one.
pub(crate) fn check_clauses(
    alloc: Global,
    instrs: &[Instr],
    end: u32,
    rows: &[Row],
) -> Result<List<Clause>, BodyFault>
    requires rising { AreRising instrs.now }
    requires few { length rows.now < 2 ^ 32 }
    ensures none { OnOk result (first_bad_clause instrs.now end rows.now ≡ None) }
    ensures clauses { IfOk result (λ clauses. clauses ≡ map clause_of rows.now) }
    ensures refused { IfErr result (IsFirstBad (first_bad_clause instrs.now end rows.now)) }
{
    let mut clauses = List::new(alloc);
    for (number, row) in rows.iter().enumerate() {
        if is_bad(instrs, end, rows, number, *row) {
            return Err(BodyFault::BadClause(number as u32));
        }
        clauses
            .push(clause_in(*row))
            .map_err(|_| BodyFault::Memory)?;
    }
    Ok(clauses)
}

/// The clause of a row whose ranges lie inside code.
fn clause_in(row: Row) -> Clause
    requires tries { row.try_at + row.try_size < 2 ^ 32 }
    requires handler { row.handler_at + row.handler_size < 2 ^ 32 }
    ensures { result ≡ clause_of row }
{
    Clause {
        kind: kind(row),
        try_at: row.try_at,
        try_end: row.try_at + row.try_size,
        handler_at: row.handler_at,
        handler_end: row.handler_at + row.handler_size,
        class: row.class,
    }
}

fn kind(row: Row) -> ClauseKind
    ensures { result ≡ kind_of row }
{
    match row.flags {
        0 => ClauseKind::Catch,
        1 => ClauseKind::Filter,
        2 => ClauseKind::Finally,
        _ => ClauseKind::Fault,
    }
}

/// Whether a clause of this number isn't well-formed, or has a conflict with another.
fn is_bad(instrs: &[Instr], end: u32, rows: &[Row], number: usize, row: Row) -> bool
    requires rising { AreRising instrs.now }
    requires number { number < length rows.now }
    ensures { result ≡ is_bad_of instrs.now end rows.now number row }
{
    !is_sound(instrs, end, row)
        || (has_conflict(row, &rows[..number]) || has_conflict(row, &rows[number + 1..]))
}

/// Whether a clause has a conflict with one of the others.
fn has_conflict(row: Row, others: &[Row]) -> bool
    ensures { result ≡ list_any (conflict_of row) others.now }
{
    others.iter().any(|other| conflict(row, *other))
}

/// Whether a clause is well-formed by itself.
fn is_sound(instrs: &[Instr], end: u32, row: Row) -> bool
    requires { AreRising instrs.now }
    ensures { result ≡ is_sound_of instrs.now end row }
{
    (has_kind(row) && is_whole(instrs, end, tries(row)))
        && (is_whole(instrs, end, handler(row)) && !overlap(tries(row), handler(row)))
}

fn has_kind(row: Row) -> bool
    ensures { result ≡ has_kind_of row }
{
    (row.flags == 0 || row.flags == 1) || (row.flags == 2 || row.flags == 4)
}

/// Whether a range is one or more whole instructions of code that ends at an offset.
fn is_whole(instrs: &[Instr], end: u32, span: Span) -> bool
    requires { AreRising instrs.now }
    ensures { result ≡ is_whole_of instrs.now end span }
{
    if span.from as u64 >= span.to || span.to > end as u64 {
        return false;
    }
    is_boundary(instrs, span.from) && (span.to == end as u64 || is_boundary(instrs, span.to as u32))
}

/// The offsets of the try range.
fn tries(row: Row) -> Span
    ensures { result ≡ try_of row }
{
    Span {
        from: row.try_at,
        to: row.try_at as u64 + row.try_size as u64,
    }
}

/// The offsets of the handler.
fn handler(row: Row) -> Span
    ensures { result ≡ handler_of row }
{
    Span {
        from: row.handler_at,
        to: row.handler_at as u64 + row.handler_size as u64,
    }
}

/// Whether the ranges of two clauses may not stand beside each other.
fn conflict(row: Row, other: Row) -> bool
    ensures { result ≡ conflict_of row other }
{
    ((clash(tries(row), tries(other)) && !are_equal(tries(row), tries(other)))
        || clash(tries(row), handler(other)))
        || (clash(handler(row), tries(other)) || clash(handler(row), handler(other)))
}

/// Whether two ranges overlap, and neither lies within the other and is smaller.
fn clash(a: Span, b: Span) -> bool
    ensures { result ≡ clash_of a b }
{
    overlap(a, b) && !(is_smaller(a, b) || is_smaller(b, a))
}

/// Whether two ranges share an offset.
fn overlap(a: Span, b: Span) -> bool
    ensures { result ≡ overlap_of a b }
{
    ((a.from as u64) < a.to && (b.from as u64) < b.to)
        && ((a.from as u64) < b.to && (b.from as u64) < a.to)
}

fn are_equal(a: Span, b: Span) -> bool
    ensures { result ≡ are_equal_of a b }
{
    a.from == b.from && a.to == b.to
}

/// Whether the first range lies within the second and is smaller.
fn is_smaller(a: Span, b: Span) -> bool
    ensures { result ≡ is_smaller_of a b }
{
    (b.from <= a.from && a.to <= b.to) && !are_equal(a, b)
}
