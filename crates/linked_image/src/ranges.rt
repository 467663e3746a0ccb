//! What the types of pieces say of the numbers in them.
ghost use Rattle.std.specs.Prelude.{All};
ghost use Rattle.rv_step.specs.Bytes.{AreBytes};
ghost use Rattle.image_plan.specs.declared.pieces.TablePiece.{TablePiece as TablePieceOf};

use image_plan::{Pieces, TablePiece};

/// The numbers in a slice of bytes are those of bytes.
fn are_bytes(bytes: &[u8])
    ensures { AreBytes bytes.now }
{
    for byte in bytes {
        let _byte = *byte;
    }
}

/// So are those in the bytes of each table.
fn all_are_bytes(tables: &[TablePiece])
    ensures { All (λ (table : TablePieceOf). AreBytes table.bytes) tables.now }
{
    for table in tables {
        are_bytes(table.bytes.as_slice());
    }
}

/// The numbers in the bytes of all tables are those of bytes, as it is asked of a program that is placed.
pub fn tables_are_bytes(pieces: &Pieces)
    ensures { All (λ (table : TablePieceOf). AreBytes table.bytes) pieces.now.tables }
{
    all_are_bytes(pieces.tables.as_slice());
}
