ghost use Rattle.std.specs.Prelude.{◌≡◌, ◌++◌, ◌∷◌, [], ◌<◌, ◌^◌, length, map, IfOk, OnOk};
ghost use Rattle.num_core.specs.declared.fix.FixKind.TheVariants.{Code as BodyOf};
ghost use Rattle.image_plan.specs.Places.{code_names, code_size as code_size_of, end_of, given_names, named};
ghost use Rattle.image_plan.specs.Places.{names as names_of, routine_begins, routine_names};
ghost use Rattle.image_plan.specs.Places.{table_names, table_size as table_size_of};
ghost use Rattle.image_plan.specs.Ends.{HasEnds};

use crate::ends::{Ends, code_size, table_size};
use crate::pieces::{CodePiece, Pieces, TablePiece};
use num_core::{FixKind, List, Memory};
use std::alloc::Global;

/// A name of an address: what it is the address of, and the number of the routine or the place of the node.
#[derive(Clone, Copy, Debug, PartialEq, Eq)]
pub struct Name {
    pub kind: FixKind,
    pub item: u32,
    pub address: u64,
}

/// Adds a name.
fn add(names: &mut List<Name>, kind: FixKind, address: u64, item: u32) -> Result<(), Memory>
    ensures { OnOk result (names.new ≡ names.old ++ named kind address item ∷ []) }
{
    names.extend_from_slice(&[Name {
        kind,
        item,
        address,
    }])
}

/// Adds the names of routines that begin at these addresses, by their numbers.
fn add_routines(names: &mut List<Name>, begins: &[u64]) -> Result<(), Memory>
    requires { length begins.now < 2 ^ 32 }
    ensures { OnOk result (names.new ≡ names.old ++ routine_names 0 begins.now) }
{
    let mut number = 0;
    for begin in begins {
        add(names, FixKind::Routine, *begin, number)?;
        number += 1;
    }
    Ok(())
}

/// Adds the names that the nodes of a body give to its code.
fn add_nodes(names: &mut List<Name>, at: u64, nodes: &[u32]) -> Result<(), Memory>
    ensures { OnOk result (names.new ≡ names.old ++ map (named BodyOf at) nodes.now) }
{
    for node in nodes {
        add(names, FixKind::Code, at, *node)?;
    }
    Ok(())
}

/// Adds the names of bodies whose code begins at an address.
fn add_bodies(names: &mut List<Name>, begin: u64, pieces: &[CodePiece]) -> Result<(), Memory>
    requires { end_of begin (map code_size_of pieces.now) < 2 ^ 32 }
    ensures { OnOk result (names.new ≡ names.old ++ code_names begin pieces.now) }
{
    let mut at = begin;
    for piece in pieces {
        add_nodes(names, at, piece.nodes.as_slice())?;
        at += code_size(piece);
    }
    Ok(())
}

/// Adds what a table at an address gives.
fn add_gifts(names: &mut List<Name>, at: u64, gifts: &[(FixKind, u32)]) -> Result<(), Memory>
    ensures { OnOk result (names.new ≡ names.old ++ given_names at gifts.now) }
{
    for gift in gifts {
        add(names, gift.0, at, gift.1)?;
    }
    Ok(())
}

/// Adds what tables give of which the first begins at an address.
fn add_tables(names: &mut List<Name>, begin: u64, tables: &[TablePiece]) -> Result<(), Memory>
    requires { end_of begin (map table_size_of tables.now) < 2 ^ 32 }
    ensures { OnOk result (names.new ≡ names.old ++ table_names begin tables.now) }
{
    let mut at = begin;
    for table in tables {
        add_gifts(names, at, table.gives.as_slice())?;
        at += table_size(table);
    }
    Ok(())
}

/// All names, with their addresses.
pub(crate) fn names(
    alloc: Global,
    pieces: &Pieces,
    begins: &[u64],
    ends: Ends,
) -> Result<List<Name>, Memory>
    requires routines { begins.now ≡ routine_begins }
    requires ends { HasEnds pieces.now ends }
    ensures { IfOk result (λ names. names ≡ names_of pieces.now) }
{
    let mut names = List::new(alloc);
    add_routines(&mut names, begins)?;
    add_bodies(&mut names, ends.code_at, pieces.code.as_slice())?;
    add_tables(&mut names, ends.tables_at, pieces.tables.as_slice())?;
    Ok(names)
}
