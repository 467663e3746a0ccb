use num_core::{Bytes, List};

/// What a word is in a column of a row.
#[derive(Debug, Drop)]
pub enum Value {
    Number(u32),
    Name(Bytes),
    Blob(Bytes),
    Index(u32),
    Coded(u8, u32),
}

/// A column of a row, and where its word stands on the line.
#[derive(Debug, Drop)]
pub struct DraftCell {
    pub column: usize,
    pub value: Value,
}

/// A row, and the line that it stands on.
#[derive(Debug, Drop)]
pub struct DraftRow {
    pub table: u8,
    pub line: usize,
    pub cells: List<DraftCell>,
    pub body: Option<Bytes>,
}

/// A body that isn't read to its end.
#[derive(Debug, Drop)]
pub struct OpenBody {
    /// The line that it begins on.
    pub line: usize,
    pub header: Bytes,
    pub code: Bytes,
    /// Whether code was read.
    pub begun: bool,
    /// Whether the code is whole.
    pub closed: bool,
}

/// What was read of a text.
#[derive(Debug, Drop)]
pub struct Draft {
    pub entry: Option<u32>,
    pub user: Option<Bytes>,
    /// The rows, but for the last.
    pub rows: List<DraftRow>,
    /// The row that was read last.
    pub row: Option<DraftRow>,
    pub body: Option<OpenBody>,
}
