ghost use Rattle.std.specs.Prelude.{◌≡◌, ◌++◌, ◌∷◌, ◌<◌, ◌^◌, ℕ, List, [], None, map, OnOk, IfOk};
ghost use Rattle.std.specs.Map.{lookup};
ghost use Rattle.std.specs.Str.{bytes_eq};
ghost use Rattle.md_heaps.specs.Heaps.{spelling};
ghost use Rattle.md_write.specs.Heap.{spelled, next_index as next_in, index_in as place_of, pushed, with_item, no_heap};
ghost use Rattle.md_write.specs.Heap.{first_heap, index_of as index_of_in};

use crate::kind::HeapKind;
use crate::put::{put_big_half, put_big_word, put_byte};
use indexmap::IndexMap;
use num_core::{Bytes, Memory};
use std::alloc::Global;
use std::marker::Model;

/// A heap of metadata, in which each item stands once (ECMA-335 II.24.2.3 to II.24.2.5).
#[derive(Drop)]
pub(crate) struct Heap {
    kind: HeapKind,
    items: IndexMap<Vec<u8>, usize>,
    bytes: Bytes,
}

impl Model for Heap {
    ghost use Rattle.std.specs.Prelude.{map};
    ghost use Rattle.md_write.specs.Heap.{HeapParts};

    ghost Value = { HeapParts };

    ghost view = { λ heap. record {
      kind = heap.kind;
      items = map (λ entry. (entry.0.items, entry.1)) heap.items.entries;
      bytes = heap.bytes;
    } };
}

impl Heap {
    /// The heap that has the empty item alone.
    pub(crate) fn new(alloc: Global, kind: HeapKind) -> Result<Heap, Memory>
        ensures { IfOk result (λ heap. heap ≡ first_heap kind) }
    {
        let mut heap = Heap::empty(alloc, kind);
        match heap.add(alloc, b"") {
            Ok(()) => Ok(heap),
            Err(memory) => Err(memory),
        }
    }

    fn empty(alloc: Global, kind: HeapKind) -> Heap
        ensures { result ≡ no_heap kind }
    {
        Heap {
            kind,
            items: IndexMap::new(alloc),
            bytes: Bytes::new(alloc),
        }
    }

    /// The bytes of the heap.
    pub(crate) fn bytes(&self) -> &[u8]
        ensures { result.now ≡ self.now.bytes }
    {
        self.bytes.as_slice()
    }

    /// The index of an item, if the heap has it.
    fn index_in(&self, item: &[u8]) -> Option<usize>
        ensures { result ≡ place_of self.now item.now }
    {
        self.items.get(item).copied()
    }

    /// The index by which rows name an item; 0 where the heap hasn't got it.
    pub(crate) fn index_of(&self, item: &[u8]) -> usize
        ensures { result ≡ index_of_in self.now item.now }
    {
        match self.index_in(item) {
            Some(index) => index,
            None => 0,
        }
    }

    /// Adds an item, unless the heap has it.
    pub(crate) fn add(&mut self, alloc: Global, item: &[u8]) -> Result<(), Memory>
        ensures { OnOk result (self.new ≡ with_item self.old item.now) }
    {
        match self.index_in(item) {
            Some(_) => Ok(()),
            None => match self.push(alloc, item) {
                Ok(()) => Ok(()),
                Err(memory) => Err(memory),
            },
        }
    }

    /// The index of the next item.
    fn next_index(&self) -> usize
        ensures { result ≡ next_in self.now.kind self.now.items self.now.bytes }
    {
        match self.kind {
            HeapKind::Guids => self.items.len(),
            HeapKind::Strings => self.bytes.len(),
            HeapKind::Blobs => self.bytes.len(),
        }
    }

    /// Adds an item that the heap hasn't got.
    fn push(&mut self, alloc: Global, item: &[u8]) -> Result<(), Memory>
        requires { place_of self.old item.now ≡ None }
        ensures { OnOk result (self.new ≡ pushed self.old item.now) }
    {
        let index = self.next_index();
        match insert(&mut self.items, alloc, item, index) {
            Ok(()) => put_spelled(&mut self.bytes, self.kind, item),
            Err(memory) => Err(memory),
        }
    }
}

/// Notes the index of an item that has none.
fn insert(
    items: &mut IndexMap<Vec<u8>, usize>,
    alloc: Global,
    item: &[u8],
    index: usize,
) -> Result<(), Memory>
    requires { lookup (bytes_eq item.now)
        (map {B = List ℕ × ℕ} (λ entry. (entry.0.items, entry.1)) items.old.entries) ≡ None }
    ensures { OnOk result (map {B = List ℕ × ℕ} (λ entry. (entry.0.items, entry.1)) items.new.entries
        ≡ map {B = List ℕ × ℕ} (λ entry. (entry.0.items, entry.1)) items.old.entries ++ (item.now, index) ∷ []) }
{
    let key = match Vec::from_slice(alloc, item) {
        Ok(key) => key,
        Err(_) => return Err(Memory),
    };
    match items.insert(key, index) {
        Ok(_) => Ok(()),
        Err(_) => Err(Memory),
    }
}

/// Adds an item as it stands in its heap.
fn put_spelled(bytes: &mut Bytes, kind: HeapKind, item: &[u8]) -> Result<(), Memory>
    ensures { OnOk result (bytes.new ≡ bytes.old ++ spelled kind item.now) }
{
    match kind {
        HeapKind::Strings => put_name(bytes, item),
        HeapKind::Guids => bytes.extend_from_slice(item),
        HeapKind::Blobs => put_blob(bytes, item),
    }
}

/// Adds a name with a zero byte behind it.
fn put_name(bytes: &mut Bytes, name: &[u8]) -> Result<(), Memory>
    ensures { OnOk result (bytes.new ≡ bytes.old ++ spelled HeapKind.Strings name.now) }
{
    match bytes.extend_from_slice(name) {
        Ok(()) => put_byte(bytes, 0),
        Err(memory) => Err(memory),
    }
}

/// Adds a blob behind its length.
fn put_blob(bytes: &mut Bytes, blob: &[u8]) -> Result<(), Memory>
    ensures { OnOk result (bytes.new ≡ bytes.old ++ spelled HeapKind.Blobs blob.now) }
{
    match put_length(bytes, blob.len()) {
        Ok(()) => bytes.extend_from_slice(blob),
        Err(memory) => Err(memory),
    }
}

/// Adds a compressed number (ECMA-335 II.23.2).
fn put_length(bytes: &mut Bytes, length: usize) -> Result<(), Memory>
    requires { length < 2 ^ 63 }
    ensures { OnOk result (bytes.new ≡ bytes.old ++ spelling length) }
{
    if length < 0x80 {
        put_byte(bytes, length as u8)
    } else if length < 0x4000 {
        put_big_half(bytes, 0x8000 + length as u64)
    } else {
        put_big_word(bytes, 0xC000_0000 + length as u64)
    }
}
