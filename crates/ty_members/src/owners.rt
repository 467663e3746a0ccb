//! The type that has each field and method of a module (ECMA-335 II.22.37).
ghost use Rattle.std.specs.Prelude.{◌≡◌, ◌+◌, ◌-◌, ◌<◌, ◌≤◌, ◌^◌, ℕ, length, replicate, slice_index, slice_set, IfOk};
ghost use Rattle.ty_names.specs.Definitions.{run_begin as begin_in, run_end as end_in, type_count};
ghost use Rattle.ty_names.specs.Modules.{row_count as count_in};
ghost use Rattle.ty_members.specs.Owners.{AreOwners, noted};

use md_tables::Table;
use num_core::{List, Memory};
use std::alloc::Global;
use ty_names::{index_at, row_count};

/// Where the run of a type begins.
pub(crate) fn run_begin(tables: &[Table], column: usize, row: u32) -> u32
    ensures begin { result ≡ begin_in tables.now 0x02 column row }
    ensures first { 1 ≤ result }
{
    index_at(tables, 0x02, row, column).max(1)
}

/// Where the run of a type ends: where that of the next type begins, or the table ends.
pub(crate) fn run_end(tables: &[Table], column: usize, target: u8, row: u32) -> u32
    requires types { type_count tables.now < 2 ^ 32 }
    requires rows { count_in tables.now target + 1 < 2 ^ 32 }
    ensures { result ≡ end_in tables.now 0x02 column target row }
{
    if (row as usize) < row_count(tables, 0x02) {
        run_begin(tables, column, row + 1)
    } else {
        row_count(tables, target) as u32 + 1
    }
}

/// Notes the owner of a row, if it is there.
fn note(owners: &mut [u32], row: u32, owner: u32)
    requires { 1 ≤ row }
    ensures { owners.new ≡ slice_set owners.old (row - 1) owner }
{
    let place = row as usize - 1;
    if place < owners.len() {
        owners[place] = owner;
    }
}

/// Notes the owner of the rows of a run, in place of what was noted before.
fn note_run(owners: &mut [u32], begin: u32, end: u32, owner: u32)
    requires { 1 ≤ begin }
    ensures { (k : ℕ) → k < length owners.old →
        slice_index owners.new k ≡ noted begin end owner (k + 1) (slice_index owners.old k) }
{
    for row in begin..end {
        note(owners, row, owner);
    }
}

/// Notes the owners of all rows of a table whose runs begin in a column of TypeDef, those of the first type last.
fn note_all(owners: &mut [u32], tables: &[Table], column: usize, target: u8)
    requires none { owners.old ≡ replicate (count_in tables.now target) 0 }
    requires types { type_count tables.now < 2 ^ 32 }
    requires rows { count_in tables.now target + 1 < 2 ^ 32 }
    ensures { AreOwners tables.now column target owners.new }
{
    let mut left = row_count(tables, 0x02);
    while 0 < left {
        let owner = left as u32;
        let begin = run_begin(tables, column, owner);
        let end = run_end(tables, column, target, owner);
        note_run(owners, begin, end, owner);
        left -= 1;
    }
}

/// The owner of each row of a table whose runs begin in a column of TypeDef, of several the first, or 0.
pub(crate) fn owners(
    alloc: Global,
    tables: &[Table],
    column: usize,
    target: u8,
) -> Result<List<u32>, Memory>
    requires types { type_count tables.now < 2 ^ 32 }
    requires rows { count_in tables.now target + 1 < 2 ^ 32 }
    ensures { IfOk result (AreOwners tables.now column target) }
{
    let mut owners = Vec::new(alloc);
    owners.resize(row_count(tables, target), 0)?;
    note_all(owners.as_mut_slice(), tables, column, target);
    List::from_slice(alloc, owners.as_slice())
}
