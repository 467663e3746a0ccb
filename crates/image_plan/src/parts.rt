//! The parts of the file.
ghost use Rattle.std.specs.Prelude.{◌≡◌, ◌++◌, ◌∷◌, [], ◌+◌, ◌-◌, ◌<◌, ◌^◌, length, map, IfOk, OnOk};
ghost use Rattle.image_plan.specs.Ends.{HasEnds};
ghost use Rattle.image_plan.specs.Places.{code_size as code_size_of, end_of, table_size as table_size_of};
ghost use Rattle.image_plan.specs.Planned.{code_parts, pad as pad_of, part as part_of, parts_of, table_parts};

use crate::ends::{BASE, Ends, code_size, table_size};
use crate::pieces::{CodePiece, Pieces, TablePiece};
use elf_file::TEXT_AT;
use num_core::{List, Memory};
use std::alloc::Global;
use ty_terms::{Part, PartKind};

/// How many bytes the headers take.
const HEADERS_SIZE: u64 = TEXT_AT - BASE;

/// Adds the part of so many bytes from an offset on.
fn add(
    alloc: Global,
    parts: &mut List<Part>,
    kind: PartKind,
    nodes: &[u32],
    at: u64,
    size: u64,
) -> Result<(), Memory>
    ensures { OnOk result (parts.new ≡ parts.old ++ part_of kind nodes.now at size ∷ []) }
{
    let part = Part {
        at,
        size,
        kind,
        nodes: List::from_slice(alloc, nodes)?,
    };
    parts.push(part).map_err(|_| Memory)
}

/// Adds so many zeros, if there are any.
fn add_pad(alloc: Global, parts: &mut List<Part>, at: u64, size: u64) -> Result<(), Memory>
    ensures { OnOk result (parts.new ≡ parts.old ++ pad_of at size) }
{
    if size == 0 {
        return Ok(());
    }
    add(alloc, parts, PartKind::Pad, &[], at, size)
}

/// Adds the parts of bodies of which the first begins at an offset.
fn add_bodies(
    alloc: Global,
    parts: &mut List<Part>,
    begin: u64,
    pieces: &[CodePiece],
) -> Result<(), Memory>
    requires below { end_of begin (map code_size_of pieces.now) < 2 ^ 32 }
    ensures { OnOk result (parts.new ≡ parts.old ++ code_parts begin pieces.now) }
{
    let mut at = begin;
    for piece in pieces {
        let size = code_size(piece);
        add(
            alloc,
            parts,
            PartKind::Code,
            piece.nodes.as_slice(),
            at,
            size,
        )?;
        at += size;
    }
    Ok(())
}

/// Adds the part of a table at an offset, and of the zeros behind it.
fn add_table(
    alloc: Global,
    parts: &mut List<Part>,
    at: u64,
    table: &TablePiece,
) -> Result<(), Memory>
    requires below { at + table_size_of table.now < 2 ^ 32 }
    ensures { OnOk result (parts.new ≡ parts.old
        ++ part_of table.now.kind table.now.nodes at (length table.now.bytes)
        ∷ pad_of (at + length table.now.bytes) (table_size_of table.now - length table.now.bytes)) }
{
    let size = table.bytes.len() as u64;
    add(alloc, parts, table.kind, table.nodes.as_slice(), at, size)?;
    add_pad(alloc, parts, at + size, table_size(table) - size)
}

/// Adds the parts of tables of which the first begins at an offset.
fn add_tables(
    alloc: Global,
    parts: &mut List<Part>,
    begin: u64,
    tables: &[TablePiece],
) -> Result<(), Memory>
    requires below { end_of begin (map table_size_of tables.now) < 2 ^ 32 }
    ensures { OnOk result (parts.new ≡ parts.old ++ table_parts begin tables.now) }
{
    let mut at = begin;
    for table in tables {
        add_table(alloc, parts, at, table)?;
        at += table_size(table);
    }
    Ok(())
}

/// The parts of the file.
pub(crate) fn parts(alloc: Global, pieces: &Pieces, ends: Ends) -> Result<List<Part>, Memory>
    requires { HasEnds pieces.now ends }
    ensures { IfOk result (λ parts. parts ≡ parts_of pieces.now) }
{
    let mut parts = List::new(alloc);
    add(alloc, &mut parts, PartKind::Header, &[], 0, HEADERS_SIZE)?;
    let code_at = ends.code_at - BASE;
    let size = code_at - HEADERS_SIZE;
    add(
        alloc,
        &mut parts,
        PartKind::Runtime,
        &[],
        HEADERS_SIZE,
        size,
    )?;
    add_bodies(alloc, &mut parts, code_at, pieces.code.as_slice())?;
    let text_size = ends.text - BASE;
    let second = ends.tables_at - BASE;
    add_pad(alloc, &mut parts, text_size, second - text_size)?;
    add_tables(alloc, &mut parts, second, pieces.tables.as_slice())?;
    Ok(parts)
}
