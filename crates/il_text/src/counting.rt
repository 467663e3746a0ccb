ghost use Rattle.std.specs.Prelude.{◌≡◌, ◌==◌, ◌++◌, map, find, length, OnOk};
ghost use Rattle.std.specs.List.{filter};
ghost use Rattle.std.specs.Option.{option_copied};
ghost use Rattle.md_rows.specs.Tables.{schema_of};
ghost use Rattle.il_text.specs.Assembling.{rows_of_table};
ghost use Rattle.il_text.specs.Counting.{counted, count_of};

use crate::draft::DraftRow;
use md_rows::Schema;
use num_core::{List, Memory};

/// How many rows a table has.
#[derive(Clone, Copy, Debug)]
pub struct TableCount {
    pub table: u8,
    pub rows: usize,
}

/// How many of the rows are those of a table.
fn count_rows(rows: &[DraftRow], table: u8) -> usize
    ensures { result ≡ length (rows_of_table rows.now table) }
{
    rows.iter().filter(|row| row.table == table).count()
}

/// Adds how many rows each of the tables has that is held.
pub(crate) fn push_counts(
    counts: &mut List<TableCount>,
    rows: &[DraftRow],
    schemas: &[Schema],
) -> Result<(), Memory>
    ensures { OnOk result (counts.new ≡ counts.old ++ map (count_of rows.now)
        (filter (λ schema. schema.is_held) (map schema_of schemas.now))) }
{
    match schemas.split_first() {
        None => Ok(()),
        Some((schema, schemas)) => {
            if !schema.is_held {
                return push_counts(counts, rows, schemas);
            }
            let count = TableCount {
                table: schema.number,
                rows: count_rows(rows, schema.number),
            };
            match counts.push(count) {
                Ok(()) => push_counts(counts, rows, schemas),
                Err(_) => Err(Memory),
            }
        }
    }
}

/// The count of the table of a number.
fn numbered(counts: &[TableCount], number: usize) -> Option<&TableCount>
    ensures { option_copied result ≡ find (λ count. count.table == number) counts.now }
{
    counts.iter().find(|count| count.table as usize == number)
}

/// How many rows the table of a number has; one that isn't there has none.
pub(crate) fn row_count(counts: &[TableCount], number: usize) -> usize
    ensures { result ≡ counted counts.now number }
{
    match numbered(counts, number) {
        Some(count) => count.rows,
        None => 0,
    }
}
