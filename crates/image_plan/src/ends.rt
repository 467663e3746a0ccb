//! How far the segments reach.
ghost use Rattle.std.specs.Prelude.{◌≡◌, ◌<◌, ◌≤◌, ◌^◌, map, None, IfOk, IfErr, IfSome, OnOk};
ghost use Rattle.image_plan.specs.Places.{code_size as code_size_of, end_of, table_size as table_size_of};
ghost use Rattle.image_plan.specs.Ends.{HasEnds};
ghost use Rattle.image_plan.specs.Places.{code_at, zeros as zeros_of};
ghost use Rattle.image_plan.specs.Planned.{TellsLimit, too_large};

use crate::fault::PlaceFault;
use crate::pieces::{CodePiece, Pieces, TablePiece};
use lir_core::FIXED_BYTES;
use num_core::Bounds;

/// The address of the first byte of the file.
pub(crate) const BASE: u64 = 0x10000;

/// The greatest size of a segment in memory.
const MOST_BYTES: u64 = 536_870_912;

/// Where code begins, and the two segments end, and where the second of them begins.
#[derive(Clone, Copy)]
pub(crate) struct Ends {
    pub(crate) code_at: u64,
    pub(crate) text: u64,
    pub(crate) tables_at: u64,
    pub(crate) tables: u64,
}

/// How many bytes the code of a piece takes.
pub(crate) fn code_size(piece: &CodePiece) -> u64
    requires { code_size_of piece.now < 2 ^ 64 }
    ensures { result ≡ code_size_of piece.now }
{
    4 * piece.code.words.len() as u64
}

/// How many bytes a table takes, with zeros up to the next multiple of 8.
pub(crate) fn table_size(table: &TablePiece) -> u64
    requires { table_size_of table.now < 2 ^ 32 }
    ensures { result ≡ table_size_of table.now }
{
    (table.bytes.len() as u64 + 7) / 8 * 8
}

/// Where code ends whose first piece begins at an address, if it has 64 bits.
fn code_end(begin: u64, pieces: &[CodePiece]) -> Option<u64>
    ensures end { IfSome result (λ end. end ≡ end_of begin (map code_size_of pieces.now)) }
    ensures above { IfSome result (λ end. begin ≤ end) }
{
    let mut at = begin;
    for piece in pieces {
        let size = (piece.code.words.len() as u64).checked_mul(4)?;
        at = at.checked_add(size)?;
    }
    Some(at)
}

/// Where tables end of which the first begins at an address, if it has 64 bits.
pub(crate) fn table_end(begin: u64, tables: &[TablePiece]) -> Option<u64>
    ensures end { IfSome result (λ end. end ≡ end_of begin (map table_size_of tables.now)) }
    ensures above { IfSome result (λ end. begin ≤ end) }
{
    let mut at = begin;
    for table in tables {
        let size = (table.bytes.len() as u64).checked_add(7)? / 8 * 8;
        at = at.checked_add(size)?;
    }
    Some(at)
}

/// How many zeros stand behind the tables: the heap, the stack, and what routines may write where no frame is left.
pub(crate) fn zeros(bounds: Bounds) -> u64
    ensures { result ≡ zeros_of bounds }
{
    bounds.heap + bounds.stack + u64::from(FIXED_BYTES)
}

/// Where the segments end, the first of which has code from an address on; or the size of the first that is too large.
pub(crate) fn ends_of(pieces: &Pieces, bounds: Bounds, begin: u64) -> Result<Ends, PlaceFault>
    requires { begin ≡ code_at }
    ensures ends { IfOk result (HasEnds pieces.now) }
    ensures fits { OnOk result (too_large pieces.now bounds ≡ None) }
    ensures limit { IfErr result (TellsLimit pieces.now bounds) }
{
    let Some(text) = code_end(begin, pieces.code.as_slice()) else {
        return Err(PlaceFault::Memory);
    };
    let text_size = text - BASE;
    if text_size > MOST_BYTES {
        return Err(PlaceFault::ImageLimit(text_size));
    }
    let second = BASE + text_size.div_ceil(4096) * 4096;
    let Some(tables) = table_end(second, pieces.tables.as_slice()) else {
        return Err(PlaceFault::Memory);
    };
    let Some(rest_size) = (tables - second).checked_add(zeros(bounds)) else {
        return Err(PlaceFault::Memory);
    };
    if rest_size > MOST_BYTES {
        return Err(PlaceFault::ImageLimit(rest_size));
    }
    Ok(Ends {
        code_at: begin,
        text,
        tables_at: second,
        tables,
    })
}
