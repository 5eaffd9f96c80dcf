//! A chunk of a list.

ghost use Rattle.std.specs.Prelude.{◌≡◌, ◌≤◌, ◌<◌, ◌+◌, [], length, take, drop, Some, slice_get, IfOk, OnErr, OnOk};
ghost use Rattle.std.specs.List.{insert};

use crate::chunks::MOST;
use rings::insert_reserved;
use std::alloc::{AllocError, Global};
use std::marker::Model;

/// Neighbouring items of a list. Contracts see them, and for how many more there is room.
#[derive(Debug, Drop)]
pub(crate) struct Chunk<T> {
    items: Vec<T>,
}

impl<T> Model for Chunk<T> {
    ghost use Rattle.std.specs.Prelude.{◌-◌, vec_len, vec_capacity};
    ghost use Rattle.chunks.specs.Chunks.{Sequence};

    ghost Value = { Sequence T };

    ghost view = { λ c. record { items = c.items.items; room = vec_capacity c.items - vec_len c.items } };
}

impl<T: Copy + Drop> Chunk<T> {
    /// An empty chunk. Allocates nothing.
    pub fn new(alloc: Global) -> Chunk<T>
        ensures { result.items ≡ [] }
    {
        Chunk {
            items: Vec::new(alloc),
        }
    }

    /// The allocator of its items.
    pub fn allocator(&self) -> Global {
        *self.items.allocator()
    }

    /// How many items there are.
    pub fn len(&self) -> usize
        ensures length { result ≡ length self.now.items }
        ensures few { result < 9_223_372_036_854_775_808 }
    {
        self.items.len()
    }

    /// All items.
    #[inline(always)]
    pub fn items(&self) -> &[T]
        ensures { result.now ≡ self.now.items }
    {
        self.items.as_slice()
    }

    /// The item at an index.
    #[inline(always)]
    pub fn at(&self, index: usize) -> &T
        requires { index < length self.now.items }
        ensures { slice_get self.now.items index ≡ Some result.now }
    {
        &self.items[index]
    }

    /// Makes room for one more item.
    ///
    /// # Errors
    /// `AllocError` if allocation fails.
    pub fn reserve_one(&mut self) -> Result<(), AllocError>
        ensures same { self.new.items ≡ self.old.items }
        ensures room { OnOk result (0 < self.new.room) }
        ensures kept { self.old.room ≤ self.new.room }
    {
        self.items.reserve(1)
    }

    /// Inserts an item at an index. Allocates nothing, and shifts the items behind it.
    pub fn put(&mut self, index: usize, item: T)
        requires within { index ≤ length self.old.items }
        requires room { 0 < self.old.room }
        ensures items { self.new.items ≡ insert self.old.items index item }
        ensures room { self.old.room ≤ self.new.room + 1 }
    {
        insert_reserved(&mut self.items, index, item);
    }

    /// Splits off the items from an index on, as a chunk. Both then have room for one more item.
    ///
    /// # Errors
    /// `AllocError` if allocation fails; then all items stay.
    pub fn split_off(&mut self, at: usize) -> Result<Chunk<T>, AllocError>
        requires { at < length self.old.items }
        ensures items { OnOk result (self.new.items ≡ take at self.old.items) }
        ensures room { OnOk result (0 < self.new.room) }
        ensures back_items { IfOk result (λ back. back.items ≡ drop at self.old.items) }
        ensures back_room { IfOk result (λ back. 0 < back.room) }
        ensures refused { OnErr result (self.new.items ≡ self.old.items) }
        ensures kept { self.old.room ≤ self.new.room }
    {
        let behind = &self.items[at..];
        // Allocated once, for as many items as a chunk has at most.
        let mut items = Vec::with_capacity(*self.items.allocator(), MOST.max(behind.len() + 1))?;
        items.extend_from_slice(behind)?;
        self.items.truncate(at);
        Ok(Chunk { items })
    }
}
