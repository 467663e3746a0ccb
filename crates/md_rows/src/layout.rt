ghost use Rattle.std.specs.Prelude.{◌≡◌};
ghost use Rattle.md_rows.specs.Widths.{rows_of as rows_of_in};

use num_core::List;

/// What the header of the stream of tables says: how many rows tables have, and how wide indexes are (ECMA-335
/// II.24.2.6).
#[derive(Debug, Drop)]
pub struct Layout {
    /// The number of rows of each of the tables 0 to 63.
    pub rows: List<u32>,
    /// The place of the first row of the first table.
    pub place: usize,
    /// Whether indexes into the heap of strings have four bytes, and not two.
    pub wide_strings: bool,
    /// The same of GUIDs.
    pub wide_guids: bool,
    /// The same of blobs.
    pub wide_blobs: bool,
}

impl Layout {
    /// The number of rows of a table; one that isn't there has none.
    pub fn rows_of(&self, table: usize) -> u32
        ensures { result ≡ rows_of_in self.now table }
    {
        match self.rows.get(table) {
            Some(rows) => *rows,
            None => 0,
        }
    }
}
