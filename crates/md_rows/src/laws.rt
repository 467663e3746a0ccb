ghost use Rattle.md_rows.specs.Reading.{RowsStandAtTheirPlaces};
ghost use Rattle.md_rows.specs.Fits.{CellsFitTheirColumns};

/// A table that was read has in each row the cells of the columns that stand at the row's place, which follows from the
/// numbers of rows and the widths of columns alone (ECMA-335 II.24.2.6).
pub fn rows_at_their_places()
    ensures { RowsStandAtTheirPlaces }
{}

/// A cell is one that its column may hold: a number fits its width, a name has no zero byte, a GUID has 16 bytes or
/// none, and a row lies in its table (ECMA-335 II.22, II.24.2).
pub fn cells_fit_their_columns()
    ensures { CellsFitTheirColumns }
{}
