//! A place of the array while rows are laid, and the chain of the free ones.
ghost use Rattle.std.specs.Prelude.{◌≡◌, ℕ, ◌<◌, ◌≤◌, ◌+◌, ◌^◌, length, slice_set, Some, None, IsTrue, OnOk};
ghost use Rattle.disp_rows.specs.Places.{cell_at, cells_of, HasFree, SameCells};

use crate::placed::Cell;
use link_lists::laws::chains_in_a_growing_pool;
use link_lists::{Chain, Link, Linked};
use num_core::Memory;
use raw_pool::RawPool;

/// A place, which is free or has a cell.
#[derive(Drop)]
pub(crate) struct Place {
    pub link: Link,
    pub cell: Option<Cell>,
}

impl Linked<0> for Place {
    ghost use Rattle.link_lists.specs.Links.{free};
    ghost use Rattle.std.specs.Prelude.{◌≡◌};

    ghost link_of = { λ p. p.link };

    ghost rest = { λ p. record p { link = free } };

    fn link(&self) -> Link {
        self.link
    }

    fn set_link(&mut self, to: Link) {
        self.link = to;
    }

    ghost whole = { λ x y link rest i. record { link = link i; cell = (rest i).cell } };
}

/// The cell at a place, if the array has that place and it isn't free.
pub(crate) fn cell_at(places: &RawPool<Place>, at: usize) -> Option<Cell>
    ensures { result ≡ cell_at places.now at }
{
    if at < places.len() {
        places.get(at).cell
    } else {
        None
    }
}

/// Takes a free place for a cell.
pub(crate) fn take_place(places: &mut RawPool<Place>, free: &mut Chain<0>, at: u32, cell: Cell)
    requires free { HasFree free.old places.old }
    requires within { at < length places.old }
    requires none { cell_at places.old at ≡ None }
    ensures free { HasFree free.new places.new }
    ensures cells { cells_of places.new ≡ slice_set (cells_of places.old) at (Some cell) }
{
    free.unlink(places, at);
    let place = places.get_mut(at as usize);
    place.cell = Some(cell);
}

/// Adds a free place at the end.
pub(crate) fn add_place(places: &mut RawPool<Place>, free: &mut Chain<0>) -> Result<(), Memory>
    requires free { HasFree free.old places.old }
    requires short { length places.old < 2 ^ 32 }
    ensures free { OnOk result (HasFree free.new places.new) }
    ensures cells { OnOk result (SameCells places.old places.new) }
    ensures longer { OnOk result (length places.new ≡ length places.old + 1) }
{
    chains_in_a_growing_pool();
    let place = Place {
        link: Link::free(),
        cell: None,
    };
    match places.push(place) {
        Ok(at) => {
            free.push_back(places, at as u32);
            Ok(())
        }
        Err(_) => Err(Memory),
    }
}
