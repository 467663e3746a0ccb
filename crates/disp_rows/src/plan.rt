//! Laying rows into one array, each at the first displacement at which its cells meet no other.
ghost use Rattle.std.specs.Prelude.{◌≡◌, ◌≢◌, ℕ, ◌<◌, ◌≤◌, ◌+◌, ◌^◌, length, map, Some, None, IsTrue, IfOk, OnOk};
ghost use Rattle.std.specs.Prelude.{IfSome, All};
ghost use Rattle.disp_rows.specs.Rows.{cell_in, cell_of, AreDistinctColumns};
ghost use Rattle.disp_rows.specs.Layout.{found, held};
ghost use Rattle.disp_rows.specs.Places.{cell_at, cells_of, Fits, HasFree, Reaches, SameCells};

use crate::place::{Place, add_place, cell_at, take_place};
use crate::placed::{Cell, Placed};
use crate::row::Row;
use link_lists::Chain;
use num_core::{List, Memory};
use raw_pool::RawPool;
use std::alloc::Global;

/// Lays all rows into one array, each row moved by its own displacement, and each cell with its row's number.
pub fn plan_rows(alloc: Global, rows: &List<Row>) -> Result<Placed, Memory>
    requires { All (λ row. AreDistinctColumns row.cells) rows.now }
    ensures { IfOk result (λ placed. (row column : ℕ) → found placed row column
        ≡ cell_of (map (λ r. r.cells) rows.now) row column) }
{
    let mut places = RawPool::new(alloc);
    let mut free = Chain::new();
    let mut starts = List::new(alloc);
    for row in rows.as_slice() {
        let Ok(number) = u32::try_from(starts.len()) else {
            return Err(Memory);
        };
        let start = lay_row(&mut places, &mut free, number, row.cells.as_slice())?;
        if starts.push(start).is_err() {
            return Err(Memory);
        }
    }
    let cells = all_cells(alloc, &places)?;
    Ok(Placed { starts, cells })
}

/// The cells of the places in their order.
fn all_cells(alloc: Global, places: &RawPool<Place>) -> Result<List<Option<Cell>>, Memory>
    ensures { IfOk result (λ cells. cells ≡ cells_of places.now) }
{
    let mut cells = List::new(alloc);
    for at in 0..places.len() {
        if cells.push(cell_at(places, at)).is_err() {
            return Err(Memory);
        }
    }
    Ok(cells)
}

/// Lays a row, and tells its start.
fn lay_row(
    places: &mut RawPool<Place>,
    free: &mut Chain<0>,
    row: u32,
    cells: &[(u32, u32)],
) -> Result<u32, Memory>
    requires free { HasFree free.old places.old }
    requires distinct { AreDistinctColumns cells.now }
    requires fresh { (at : ℕ) → held (cell_at places.old at) row ≡ None }
    ensures free { OnOk result (HasFree free.new places.new) }
    ensures row { IfOk result (λ start. (column : ℕ) → held (cell_at places.new (start + column)) row ≡ cell_in cells.now
        column) }
    ensures others { OnOk result ((at other : ℕ) → other ≢ row → held (cell_at places.new at) other
        ≡ held (cell_at places.old at) other) }
{
    let Some(start) = find_start(places, free, cells) else {
        return Err(Memory);
    };
    make_places(places, free, start, cells)?;
    take_places(places, free, row, start, cells);
    Ok(start)
}

/// Whether each cell of a row, laid from a start on, comes to a place that is free or behind the end.
fn fits(places: &RawPool<Place>, cells: &[(u32, u32)], start: u32) -> bool
    ensures { IsTrue result → Fits places.now cells.now start }
{
    for cell in cells {
        let Some(at) = start.checked_add(cell.0) else {
            return false;
        };
        if cell_at(places, at as usize).is_some() {
            return false;
        }
    }
    true
}

/// The least column of a row.
fn least_column(cells: &[(u32, u32)]) -> u32 {
    cells.iter().map(|cell| cell.0).min().unwrap_or(0)
}

/// The first start that lets the least column of a row come to a free place, or else to the end, and at which the row
/// fits.
fn find_start(places: &RawPool<Place>, free: &Chain<0>, cells: &[(u32, u32)]) -> Option<u32>
    requires { HasFree free.now places.now }
    ensures { IfSome result (λ start. Fits places.now cells.now start) }
{
    let first = least_column(cells);
    for at in free.walk(places) {
        if at >= first && fits(places, cells, at - first) {
            return Some(at - first);
        }
    }
    behind_the_end(places, cells, first)
}

/// The start that lets the least column of a row come to the end, or the first start, if the row fits there.
fn behind_the_end(places: &RawPool<Place>, cells: &[(u32, u32)], first: u32) -> Option<u32>
    ensures { IfSome result (λ start. Fits places.now cells.now start) }
{
    let end = u32::try_from(places.len()).ok()?;
    let start = end.saturating_sub(first);
    if fits(places, cells, start) {
        Some(start)
    } else {
        None
    }
}

/// Adds free places until a row that is laid from a start on has a place for each of its cells.
fn make_places(
    places: &mut RawPool<Place>,
    free: &mut Chain<0>,
    start: u32,
    cells: &[(u32, u32)],
) -> Result<(), Memory>
    requires free { HasFree free.old places.old }
    requires fits { Fits places.old cells.now start }
    ensures free { OnOk result (HasFree free.new places.new) }
    ensures cells { OnOk result (SameCells places.old places.new) }
    ensures reach { OnOk result (Reaches places.new cells.now start) }
{
    for cell in cells {
        make_place(places, free, start + cell.0)?;
    }
    Ok(())
}

/// Adds free places until the array has this place.
fn make_place(places: &mut RawPool<Place>, free: &mut Chain<0>, at: u32) -> Result<(), Memory>
    requires { HasFree free.old places.old }
    ensures free { OnOk result (HasFree free.new places.new) }
    ensures cells { OnOk result (SameCells places.old places.new) }
    ensures reach { OnOk result (at < length places.new) }
    ensures longer { OnOk result (length places.old ≤ length places.new) }
{
    while places.len() <= at as usize {
        add_place(places, free)?;
    }
    Ok(())
}

/// Takes the places of a row.
fn take_places(
    places: &mut RawPool<Place>,
    free: &mut Chain<0>,
    row: u32,
    start: u32,
    cells: &[(u32, u32)],
)
    requires free { HasFree free.old places.old }
    requires distinct { AreDistinctColumns cells.now }
    requires fits { Fits places.old cells.now start }
    requires reach { Reaches places.old cells.now start }
    requires fresh { (at : ℕ) → held (cell_at places.old at) row ≡ None }
    ensures free { HasFree free.new places.new }
    ensures row { (column : ℕ) → held (cell_at places.new (start + column)) row ≡ cell_in cells.now column }
    ensures others { (at other : ℕ) → other ≢ row
        → held (cell_at places.new at) other ≡ held (cell_at places.old at) other }
{
    for cell in cells {
        let taken = Cell { row, value: cell.1 };
        take_place(places, free, start + cell.0, taken);
    }
}
