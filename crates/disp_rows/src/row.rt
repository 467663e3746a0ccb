ghost use Rattle.std.specs.Prelude.{◌≡◌, ◌↔◌, IsTrue, All};
ghost use Rattle.disp_rows.specs.Rows.{cell_in, AreDistinctColumns};

use num_core::List;

/// A dispatch row: its cells, each a column and the number that stands there.
#[derive(Debug, Drop)]
pub struct Row {
    pub cells: List<(u32, u32)>,
}

/// Whether no row has a column twice.
pub fn have_distinct_columns(rows: &List<Row>) -> bool
    ensures { IsTrue result ↔ All (λ row. AreDistinctColumns row.cells) rows.now }
{
    rows.as_slice()
        .iter()
        .all(|row| are_distinct_columns(row.cells.as_slice()))
}

/// Whether no column stands twice in a row.
fn are_distinct_columns(cells: &[(u32, u32)]) -> bool
    ensures { IsTrue result ↔ AreDistinctColumns cells.now }
{
    let mut rest = cells;
    while let Some((cell, behind)) = rest.split_first() {
        if cell_in(behind, cell.0).is_some() {
            return false;
        }
        rest = behind;
    }
    true
}

/// What stands in a row at a column, if it has such a column.
fn cell_in(cells: &[(u32, u32)], column: u32) -> Option<u32>
    ensures { result ≡ cell_in cells.now column }
{
    for cell in cells {
        if cell.0 == column {
            return Some(cell.1);
        }
    }
    None
}
