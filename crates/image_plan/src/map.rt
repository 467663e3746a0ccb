//! Where the code of each CIL instruction lies.
ghost use Rattle.std.specs.Prelude.{◌≡◌, ◌++◌, ◌∷◌, [], ◌<◌, ◌^◌, map as map_all, IfOk, OnOk};
ghost use Rattle.ty_terms.specs.declared.names.MethodName.{MethodName as MethodNameOf};
ghost use Rattle.image_plan.specs.Places.{code_size as code_size_of, end_of};
ghost use Rattle.image_plan.specs.Planned.{map_row, map_rows};

use crate::ends::code_size;
use crate::pieces::CodePiece;
use crate::plan::MapRow;
use num_core::{List, Memory};
use std::alloc::Global;
use ty_terms::MethodName;

/// Adds the rows of code at an address.
fn add_rows(
    alloc: Global,
    map: &mut List<MapRow>,
    begin: u64,
    method: &MethodName,
    rows: &[(u32, u32)],
) -> Result<(), Memory>
    requires { begin < 2 ^ 32 }
    ensures { OnOk result (map.new ≡ map.old ++ map_all (map_row begin method.now) rows.now) }
{
    for row in rows {
        let row = MapRow {
            address: begin + 4 * u64::from(row.0),
            method: method.copy(alloc)?,
            offset: row.1,
        };
        map.push(row).map_err(|_| Memory)?;
    }
    Ok(())
}

/// The rows of the code of bodies of which the first begins at an address.
pub(crate) fn map(alloc: Global, begin: u64, pieces: &[CodePiece]) -> Result<List<MapRow>, Memory>
    requires { end_of begin (map_all code_size_of pieces.now) < 2 ^ 32 }
    ensures { IfOk result (λ map. map ≡ map_rows begin pieces.now) }
{
    let mut rows = List::new(alloc);
    let mut at = begin;
    for piece in pieces {
        add_rows(
            alloc,
            &mut rows,
            at,
            &piece.method,
            piece.code.map.as_slice(),
        )?;
        at += code_size(piece);
    }
    Ok(rows)
}
