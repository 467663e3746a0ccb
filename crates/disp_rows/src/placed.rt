//! Rows as they lie in one array.
ghost use Rattle.std.specs.Prelude.{◌≡◌, Some};
ghost use Rattle.disp_rows.specs.Layout.{found, held, held_behind};

use num_core::List;

/// A cell of the array: the row that it belongs to, and the number that it holds.
#[derive(Clone, Copy, Debug, PartialEq, Eq)]
pub struct Cell {
    pub row: u32,
    pub value: u32,
}

/// Rows laid into one array. The cell of a row at a column stands as many places behind the row's start as the column
/// says, and belongs to another row, or to none, where the row has no such column.
#[derive(Debug, Drop)]
pub struct Placed {
    pub starts: List<u32>,
    pub cells: List<Option<Cell>>,
}

/// The number that a cell holds, if it belongs to this row.
fn held_by(cell: Option<Cell>, row: u32) -> Option<u32>
    ensures { result ≡ held cell row }
{
    match cell {
        Some(cell) => {
            if row == cell.row {
                Some(cell.value)
            } else {
                None
            }
        }
        None => None,
    }
}

impl Placed {
    /// The number in the cell of a row at a column, if the row has such a column.
    pub fn find(&self, row: u32, column: u32) -> Option<u32>
        ensures { result ≡ found self.now row column }
    {
        match self.starts.get(row as usize) {
            Some(start) => self.held_behind(row, column, *start),
            None => None,
        }
    }

    /// The number so many places behind the start of a row, if it belongs to the row.
    fn held_behind(&self, row: u32, column: u32, start: u32) -> Option<u32>
        ensures { result ≡ held_behind self.now.cells row column (Some start) }
    {
        match self.cells.get(start as usize + column as usize) {
            Some(cell) => held_by(*cell, row),
            None => None,
        }
    }
}
