//! How many generic parameters types have (ECMA-335 II.22.20).
ghost use Rattle.std.specs.Prelude.{◌≡◌, ◌+◌, ◌<◌, ◌^◌, ℕ, length, replicate, slice_get, slice_index, count_by, IfOk};
ghost use Rattle.ty_names.specs.Modules.{coded_of as coded_in, row_count as count_in};
ghost use Rattle.ty_names.specs.Definitions.{generic_count, is_row_of};
ghost use Rattle.ty_load.specs.Counting.{AreCounts, counted, is_of};

use crate::cells::coded_of;
use md_tables::{Table, TableRow};
use num_core::{List, Memory};
use std::alloc::Global;
use ty_names::{row_count, rows};

/// Counts a row of GenericParam for the type that has it.
fn count(counts: &mut [u32], parameter: &TableRow)
    requires { (k : ℕ) → k < length counts.old → slice_index counts.old k + 1 < 2 ^ 32 }
    ensures { (k : ℕ) → k < length counts.old →
        slice_index counts.new k ≡ counted parameter.now (k + 1) (slice_index counts.old k) }
{
    let owner = coded_of(parameter, 2);
    let row = owner.row as usize;
    if owner.table == 0x02 && 0 < row && row <= counts.len() {
        counts[row - 1] += 1;
    }
}

/// Counts all rows of GenericParam.
fn count_all(counts: &mut [u32], parameters: &[TableRow])
    requires none { counts.old ≡ replicate (length counts.old) 0 }
    requires size { length parameters.now < 2 ^ 32 }
    ensures { (k : ℕ) → k < length counts.old → slice_index counts.new k ≡ count_by (is_of (k + 1)) parameters.now }
{
    for parameter in parameters {
        count(counts, parameter);
    }
}

/// How many generic parameters each type of a module has, in order of rows.
pub(crate) fn parameter_counts(alloc: Global, tables: &[Table]) -> Result<List<u32>, Memory>
    requires { count_in tables.now 0x2A < 2 ^ 32 }
    ensures { IfOk result (AreCounts tables.now) }
{
    let mut counts = Vec::new(alloc);
    counts.resize(row_count(tables, 0x02), 0)?;
    count_all(counts.as_mut_slice(), rows(tables, 0x2A));
    List::from_slice(alloc, counts.as_slice())
}

/// Whether a row of GenericParam is one of a type.
fn is_parameter_of(parameter: &TableRow, row: u32) -> bool
    ensures { result ≡ is_row_of (coded_in (slice_get parameter.now.cells 2)) 0x02 row }
{
    let owner = coded_of(parameter, 2);
    owner.table == 0x02 && owner.row == row
}

/// How many generic parameters a type has, by going through all of them.
pub(crate) fn parameters_among(tables: &[Table], row: u32) -> u32
    requires { count_in tables.now 0x2A < 2 ^ 32 }
    ensures { result ≡ generic_count tables.now 0x02 row }
{
    let parameters = rows(tables, 0x2A).iter();
    parameters
        .filter(|parameter| is_parameter_of(parameter, row))
        .count() as u32
}
