ghost use Rattle.std.specs.Prelude.{◌≡◌, ℕ, ◌<◌, ◌≤◌, List, length, take, drop, min, Some, IfOk, OnErr, ◌++◌};
ghost use Rattle.ilc_io.specs.Piece.{Reads};

use std::io;
use std::io::{ErrorKind, Read, Write};

/// The most bytes that one read by way of a reader of std asks for.
const PIECE: usize = 16_384;

/// Copies the first of the bytes that are left to the front of a buffer, as many as fit, and gives how many.
pub fn fill_front(left: &[u8], into: &mut [u8]) -> usize
    ensures bytes { Reads left.now into.old into.new result }
    ensures count { result ≡ min (length left.now) (length into.old) }
{
    let count = left.len().min(into.len());
    into[..count].copy_from_slice(&left[..count]);
    count
}

/// Reads the next bytes of a reader to the front of a buffer, and gives how many. They come by way of a buffer
/// of its own, since a reader may write behind what it gives, and where it fails.
pub fn fill_from<R: Read>(reader: &mut R, into: &mut [u8]) -> io::Result<usize>
    ensures within { IfOk result (λ count. count ≤ length into.old) }
    ensures read { (left : List ℕ) → R.remaining reader.old ≡ Some left →
        IfOk result (λ count. Reads left into.old into.new count) }
    ensures taken { (left : List ℕ) → R.remaining reader.old ≡ Some left →
        IfOk result (λ count. R.remaining reader.new ≡ Some (drop count left)) }
    ensures untouched { OnErr result (into.new ≡ into.old) }
    ensures kept { (left : List ℕ) → R.remaining reader.old ≡ Some left →
        OnErr result (R.remaining reader.new ≡ Some left) }
{
    let mut buffer = [0; PIECE];
    let wanted = into.len().min(PIECE);
    let piece = &mut buffer[..wanted];
    let count = reader.read(piece)?;
    into[..count].copy_from_slice(&piece[..count]);
    Ok(count)
}

/// Writes the first bytes of a piece to a writer, and gives how many. A writer that takes no byte of a piece
/// that has some has failed.
pub fn write_some<W: Write>(writer: &mut W, piece: &[u8]) -> io::Result<usize>
    ensures within { IfOk result (λ count. count ≤ length piece.now) }
    ensures some { IfOk result (λ count. 0 < length piece.now → 0 < count) }
    ensures added { (held : List ℕ) → W.contents writer.old ≡ Some held →
        IfOk result (λ count. W.contents writer.new ≡ Some (held ++ take count piece.now)) }
    ensures kept { (held : List ℕ) → W.contents writer.old ≡ Some held →
        OnErr result (W.contents writer.new ≡ Some held) }
{
    let count = writer.write(piece)?;
    if count > 0 || piece.is_empty() {
        Ok(count)
    } else {
        Err(io::Error::from(ErrorKind::WriteZero))
    }
}
