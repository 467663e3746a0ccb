//! The raw memory of a chunk, as it is asked for and given back. The two functions here alone see its address.
ghost use Rattle.std.specs.Prelude.{◌≡◌, ◌*◌, ◌^◌, ◌<◌, IfSome};
ghost use Rattle.std.specs.Mem.{type_size};
ghost use Rattle.std.specs.Mem.Slots.{slots_ptr, slots_len};

use core::slots::Slots;
use std::alloc::Allocator;
use std::marker::{Model, PhantomData};
use std::mem::{align_of, size_of};

/// The right to give memory for so many items back to the allocator that gave it.
pub(crate) struct Title<T, A: Allocator> {
    by: PhantomData<A>,
    places: usize,
    start: *mut T,
    ghost alloc: { A },
}

impl<T, A: Allocator> Model for Title<T, A> {
    ghost use Rattle.std.specs.Mem.Slots.Ownership.{leased};

    ghost also_owns = { λ title. leased (A.dealloc_token title.alloc) T.row title.start title.places };
}

/// Memory for so many items, place by place, and the title to it.
pub(crate) struct Block<T, A: Allocator> {
    pub slots: Slots<T>,
    pub title: Title<T, A>,
}

/// Takes memory for so many items, with none in it. An item is shown, since a place without one stands for some item
/// in a proof.
pub(crate) fn take_block<T, A: Allocator>(
    alloc: &A,
    places: usize,
    _like: &T,
) -> Option<Block<T, A>>
    requires { places * type_size T.row < 2 ^ 63 }
    ensures { IfSome result (λ b. (slots_len b.slots ≡ places) × (b.title.start ≡ slots_ptr b.slots)
        × (b.title.places ≡ slots_len b.slots) × (b.title.alloc ≡ alloc.now)) }
{
    let size = places * size_of::<T>();
    match alloc.allocate(size, align_of::<T>()) {
        Ok(block) => {
            let start = block as *mut T;
            let slots = unsafe { Slots::from_raw_parts(start, places) };
            let title = Title {
                by: PhantomData,
                places,
                start,
            };
            Some(Block { slots, title })
        }
        Err(_) => None,
    }
}

/// Gives memory back. Items that are still in it are let go.
pub(crate) fn give_block<T, A: Allocator>(alloc: &A, slots: Slots<T>, title: Title<T, A>)
    requires { (title.start ≡ slots_ptr slots) × (title.places ≡ slots_len slots) × (title.alloc ≡ alloc.now) }
{
    let Title {
        by: _,
        places: _,
        start: _,
    } = title;
    let (start, places) = unsafe { slots.into_raw_parts() };
    let size = places * size_of::<T>();
    unsafe { alloc.deallocate(start as *mut u8, size, align_of::<T>()) };
}
