//! The pool: its chunks, of which each has twice as many places as the one before.
ghost use Rattle.std.specs.Prelude.{◌≡◌, ℕ, ◌+◌, ◌*◌, ◌^◌, ◌<◌, ◌≤◌, [], ◌∷◌, ◌++◌, length, slice_get, Some, MatchBool};
ghost use Rattle.std.specs.Prelude.{MatchResult, IfOk, IfErr, OnErr};
ghost use Rattle.std.specs.Borrow.{sem};
ghost use Rattle.raw_pool.specs.Chunks.{with_chunk};

use crate::chunk::Chunk;
use std::alloc::Global;
use std::marker::Model;

/// A pool never has more chunks, so that its length is a `usize` for items without size too.
const MOST_CHUNKS: usize = 63;

/// A pool of items. Contracts see it as the list of its items, in the order in which they came.
///
/// An item stays where it was put: its place in the list and its address never change.
#[derive(Drop)]
pub struct RawPool<T> {
    chunks: Vec<Chunk<T>>,
    len: usize,
    alloc: Global,
}

impl<T> Model for RawPool<T> {
    ghost use Rattle.std.specs.Prelude.{List, ◌≡◌, ◌≤◌, length};

    ghost Value = { List T };

    ghost use Rattle.raw_pool.specs.Chunks.{items_of, AreDoubling};

    ghost view = { λ pool. items_of pool.chunks.items };

    ghost invariant = { λ pool. AreDoubling 1 pool.chunks.items × (length pool.chunks.items ≤ 63) × (pool.len ≡ length
        (items_of pool.chunks.items)) };
}

/// The chunk in which a place of the pool lies, and the place in that chunk.
fn place_of(at: usize) -> (usize, usize)
    requires { at + 1 < 2 ^ 64 }
    ensures { (2 ^ result.0 + result.1 ≡ at + 1) × (result.1 < 2 ^ result.0) }
{
    let chunk = (at + 1).ilog2();
    (chunk as usize, at + 1 - 2usize.pow(chunk))
}

/// Adds a chunk with twice as many places as the last and with no item, unless memory is wanting.
fn add_chunk<T>(chunks: &mut Vec<Chunk<T>>, alloc: Global, like: &T) -> bool
    requires { length chunks.old.items < 63 }
    ensures { MatchBool result (chunks.new.items ≡ chunks.old.items ++ ([], 2 ^ length chunks.old.items) ∷ [])
        (chunks.new.items
        ≡ chunks.old.items) }
{
    let places = 2usize.pow(chunks.len() as u32);
    if chunks.reserve(1).is_err() {
        return false;
    }
    match Chunk::new(alloc, places, like) {
        Some(chunk) => {
            chunks.push_reserved(chunk);
            true
        }
        None => false,
    }
}

/// Sees that there is a chunk of this number, where there are all before it.
fn make_room<T>(chunks: &mut Vec<Chunk<T>>, alloc: Global, chunk: usize, like: &T) -> bool
    requires { length chunks.old.items ≤ 63 }
    ensures room { MatchBool result (chunks.new.items ≡ with_chunk chunk chunks.old.items) (chunks.new.items
        ≡ chunks.old.items) }
    ensures most { length chunks.new.items ≤ 63 }
{
    if chunk != chunks.len() {
        return true;
    }
    chunk < MOST_CHUNKS && add_chunk(chunks, alloc, like)
}

impl<T> RawPool<T> {
    ghost use Rattle.raw_pool.specs.PoolLoan.{LendsItem};

    /// The pool without items, which keeps the allocator that it grows by.
    pub fn new(alloc: Global) -> RawPool<T>
        ensures { result ≡ [] }
    {
        RawPool {
            chunks: Vec::new(alloc),
            len: 0,
            alloc,
        }
    }

    /// The number of items.
    pub fn len(&self) -> usize
        ensures { result ≡ length self.now }
    {
        self.len
    }

    /// Adds an item behind the others and tells its place, or hands it back for want of memory.
    pub fn push(&mut self, item: T) -> Result<usize, T>
        ensures place { IfOk result (λ at. at ≡ length self.old) }
        ensures added { IfOk result (λ _. self.new ≡ self.old ++ item ∷ []) }
        ensures handed_back { IfErr result (λ back. back ≡ item) }
        ensures err { OnErr result (self.new ≡ self.old) }
    {
        let at = self.len;
        let (chunk, _) = place_of(at);
        if !make_room(&mut self.chunks, self.alloc, chunk, &item) {
            return Err(item);
        }
        let last = &mut self.chunks[chunk];
        last.push(item);
        self.len = at + 1;
        Ok(at)
    }

    /// The item at a place.
    pub fn get(&self, at: usize) -> &T
        requires { at < length self.now }
        ensures { slice_get self.now at ≡ Some result.now }
    {
        let _len = self.len;
        let (chunk, within) = place_of(at);
        self.chunks[chunk].get(within)
    }

    /// The item at a place, to be changed where it lies.
    pub fn get_mut(&mut self, at: usize) -> &mut T
        requires { at < length self.old }
        ensures* writes_back { sem 𝓛 (LendsItem T.row self.entry at result) }
        ensures value { slice_get self.old at ≡ Some result.now }
    {
        let _len = self.len;
        let (chunk, within) = place_of(at);
        let chunk = &mut self.chunks[chunk];
        chunk.get_mut(within)
    }
}
