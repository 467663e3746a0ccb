ghost use Rattle.std.specs.Prelude.{◌≡◌};
ghost use Rattle.image_plan.specs.Planned.{code_fixes_fit as code_fixes_fit_of, is_placeable as is_placeable_of};
ghost use Rattle.image_plan.specs.Planned.{table_fixes_fit as table_fixes_fit_of};

use num_core::{Bytes, Fix, FixKind, List};
use rv_gen::Code;
use ty_terms::{MethodName, PartKind};

/// The code of a body, which is that of the method of each of these nodes. Nodes are told by their places among those
/// that are kept. The begin of the piece is the address of the code of each of them.
#[derive(Debug, Drop)]
pub struct CodePiece {
    pub method: MethodName,
    pub nodes: List<u32>,
    pub code: Code,
}

/// Bytes that these nodes need. A fix changes eight of them, which get an address with its lowest byte first.
#[derive(Debug, Drop)]
pub struct TablePiece {
    pub kind: PartKind,
    pub nodes: List<u32>,
    /// What the begin of the piece is the address of.
    pub gives: List<(FixKind, u32)>,
    pub bytes: Bytes,
    pub fixes: List<Fix>,
}

/// What an image is made of.
#[derive(Debug, Drop)]
pub struct Pieces {
    /// The place among `tables` of the one by which the runtime finds the first body.
    pub root: u32,
    pub code: List<CodePiece>,
    pub tables: List<TablePiece>,
}

/// Whether the fixes of code lie in its words.
fn code_fixes_fit(piece: &CodePiece) -> bool
    ensures { result ≡ code_fixes_fit_of piece.now }
{
    let count = piece.code.words.len();
    for fix in piece.code.fixes.as_slice() {
        if fix.at as usize + 1 >= count {
            return false;
        }
    }
    true
}

/// Whether the fixes of a table lie in its bytes.
fn table_fixes_fit(table: &TablePiece) -> bool
    ensures { result ≡ table_fixes_fit_of table.now }
{
    let count = table.bytes.len();
    for fix in table.fixes.as_slice() {
        if fix.at as usize + 8 > count {
            return false;
        }
    }
    true
}

/// Whether there is a root, and each fix changes two words, or eight bytes, of its own piece.
pub fn is_placeable(pieces: &Pieces) -> bool
    ensures { result ≡ is_placeable_of pieces.now }
{
    if pieces.root as usize >= pieces.tables.len() {
        return false;
    }
    for piece in pieces.code.as_slice() {
        if !code_fixes_fit(piece) {
            return false;
        }
    }
    for table in pieces.tables.as_slice() {
        if !table_fixes_fit(table) {
            return false;
        }
    }
    true
}
