//! A chunk of a pool: memory for so many items, of which the first places hold one.
ghost use Rattle.std.specs.Prelude.{◌≡◌, ◌<◌, ◌≤◌, [], ◌∷◌, ◌++◌, length, IfSome, slice_get, Some, IsTrue};
ghost use Rattle.std.specs.Borrow.{sem};
ghost use Rattle.std.specs.Mem.Slots.{slots_len, slots_filled, SamePlaces};
ghost use Rattle.std.specs.Mem.Slots.Ownership.{Filled};

use crate::block::{Block, Title, give_block, take_block};
use core::slots::Slots;
use std::alloc::Global;
use std::marker::Model;
use std_alloc::room::may_hold;

/// A chunk. Contracts see its items and its number of places.
pub(crate) struct Chunk<T> {
    slots: Slots<T>,
    title: Title<T, Global>,
    filled: usize,
    alloc: Global,
}

impl<T> Model for Chunk<T> {
    ghost use Rattle.std.specs.Prelude.{◌≡◌, ◌≤◌, ℕ, List, take};
    ghost use Rattle.std.specs.Mem.Slots.{slots_ptr, slots_len, slots_items, slots_filled};
    ghost use Rattle.std.specs.Mem.Slots.Ownership.{Filled};

    ghost Value = { List T × ℕ };

    ghost view = { λ c. (take c.filled (slots_items c.slots), slots_len c.slots) };

    ghost invariant = { λ c. (c.filled ≤ slots_len c.slots) × Filled (slots_filled c.slots) 0 c.filled
        × (c.title.start ≡ slots_ptr c.slots) × (c.title.places ≡ slots_len c.slots) × (c.title.alloc ≡ c.alloc) };
}

impl<T> Chunk<T> {
    ghost use Rattle.raw_pool.specs.ChunkLoan.{LendsPlace};

    /// A chunk with so many places and no item, or none for want of memory.
    pub(crate) fn new(alloc: Global, places: usize, like: &T) -> Option<Chunk<T>>
        ensures { IfSome result (λ c. c ≡ ([], places)) }
    {
        if !may_hold::<T>(places) {
            return None;
        }
        let Block { slots, title } = take_block(&alloc, places, like)?;
        Some(Chunk {
            slots,
            title,
            filled: 0,
            alloc,
        })
    }

    /// Puts an item into the first free place.
    pub(crate) fn push(&mut self, item: T)
        requires { length self.old.0 < self.old.1 }
        ensures { self.new ≡ (self.old.0 ++ item ∷ [], self.old.1) }
    {
        self.slots.put(self.filled, item);
        self.filled += 1;
    }

    /// The item at a place.
    pub(crate) fn get(&self, at: usize) -> &T
        requires { at < length self.now.0 }
        ensures { slice_get self.now.0 at ≡ Some result.now }
    {
        self.slots.get(at)
    }

    /// The item at a place, to be changed where it lies.
    pub(crate) fn get_mut(&mut self, at: usize) -> &mut T
        requires { at < length self.old.0 }
        ensures* writes_back { sem 𝓛 (LendsPlace T.row self.entry at result) }
        ensures value { slice_get self.old.0 at ≡ Some result.now }
    {
        self.slots.get_mut(at)
    }
}

/// Drops the items of the first places.
fn drop_items<T: Drop>(slots: &mut Slots<T>, count: usize)
    requires { (count ≤ slots_len slots.old) × Filled (slots_filled slots.old) 0 count }
    ensures { SamePlaces slots.old slots.new }
{
    for at in 0..count {
        slots.take(at);
    }
}

impl<T: Drop> Drop for Chunk<T> {
    fn drop(self) {
        let Chunk {
            mut slots,
            title,
            filled,
            alloc,
        } = self;
        drop_items(&mut slots, filled);
        give_block(&alloc, slots, title);
    }
}
