//! A list in chunks.

ghost use Rattle.std.specs.Prelude.{◌≡◌, ◌≤◌, ◌<◌, ◌+◌, ◌++◌, [], length, min, option_map, Some, slice_get, OnOk};
ghost use Rattle.std.specs.List.{insert};
ghost use Rattle.chunks.specs.Chunks.{IsIn, IsPart, items_before, room_before};

use crate::chunk::Chunk;
use crate::front::Front;
use crate::reader::{Part, Reader};
use std::alloc::{AllocError, Global};
use std::marker::Model;

/// The most items that a chunk has once there is room for one more.
pub(crate) const MOST: usize = 512;

/// A list that stays fast at a million items: an insert moves at most 512 of them, and adds 1 to a number for each chunk behind it. A read
/// looks at a few of these numbers.
///
/// Up to 512 items are one vector. Contracts see the items, and whether there is room for one more, wherever it goes.
#[derive(Debug, Drop)]
pub struct Chunks<T> {
    front: Option<Box<Front<T>>>,
    /// The last chunk, where a list that grows at its end does so.
    last: Chunk<T>,
}

impl<T> Model for Chunks<T> {
    ghost use Rattle.std.specs.Prelude.{◌≤◌, ◌+◌, ◌++◌, length, min, option_map};
    ghost use Rattle.chunks.specs.Chunks.{Sequence, items_before, room_before};

    ghost Value = { Sequence T };

    ghost view = { λ c. record {
      items = items_before (option_map (λ front. front.value) c.front) ++ c.last.items;
      room = min (room_before (option_map (λ front. front.value) c.front)) (min 1 c.last.room);
    } };

    ghost invariant = { λ c. length (items_before (option_map (λ front. front.value) c.front)) + length c.last.items
        ≤ 9223372036854775808 };
}

impl<T: Copy + Drop> Chunks<T> {
    /// An empty list. Allocates nothing.
    pub fn new(alloc: Global) -> Chunks<T>
        ensures { result.items ≡ [] }
    {
        Chunks {
            front: None,
            last: Chunk::new(alloc),
        }
    }

    /// How many items there are.
    pub fn len(&self) -> usize
        ensures { result ≡ length self.now.items }
    {
        start_of_last(&self.front) + self.last.len()
    }

    /// The item at a position. Looks at a few chunks, however many there are.
    // Inlined, since most lists have one chunk, of which it is a read of a vector.
    #[inline(always)]
    pub fn get(&self, position: usize) -> &T
        requires { position < length self.now.items }
        ensures { slice_get self.now.items position ≡ Some result.now }
    {
        match &self.front {
            None => self.last.at(position),
            Some(_) => self.get_from_part(position),
        }
    }

    /// The item at a position, wherever its chunk is.
    // Not inlined, so that `get`, which is inlined, stays as short as a read of a vector.
    #[inline(never)]
    fn get_from_part(&self, position: usize) -> &T
        requires { position < length self.now.items }
        ensures { slice_get self.now.items position ≡ Some result.now }
    {
        self.part(position).at(position)
    }

    /// Reads items one after another.
    // Inlined, so that a search has it in registers.
    #[inline(always)]
    pub fn reader(&self) -> Reader<'_, T>
        ensures { result ≡ self.now.items }
    {
        match &self.front {
            None => Reader::of_only(self.last.items()),
            Some(front) => Reader::of_parts(
                self,
                Part {
                    start: front.len(),
                    chunk: &self.last,
                },
            ),
        }
    }

    /// The chunk in which a position is. Looks at a few chunks, however many there are.
    // Inlined in the two functions that read one of several chunks, which aren't.
    #[inline(always)]
    pub(crate) fn part(&self, position: usize) -> Part<'_, T>
        requires { position < length self.now.items }
        ensures here { IsIn position result.start result.chunk.now.items }
        ensures part { IsPart self.now.items result.start result.chunk.now.items }
    {
        let Some(front) = &self.front else {
            return Part {
                start: 0,
                chunk: &self.last,
            };
        };
        let start = front.len();
        if position < start {
            front.part(position)
        } else {
            Part {
                start,
                chunk: &self.last,
            }
        }
    }

    /// Makes room for one more item. Only the chunk that the last item was put into can be full; it is then cut, which copies at most half
    /// of it.
    ///
    /// # Errors
    /// `AllocError` if allocation fails; the items stay as they are.
    pub fn reserve_one(&mut self) -> Result<(), AllocError>
        ensures same { self.new.items ≡ self.old.items }
        ensures room { OnOk result (0 < self.new.room) }
        ensures kept { self.old.room ≤ self.new.room }
    {
        make_room(&mut self.front, &mut self.last)
    }

    /// Inserts an item at a position; those from there on shift one later. Allocates nothing. Shifts the items behind it in its chunk, and
    /// adds 1 to the end of each later chunk.
    pub fn insert(&mut self, position: usize, item: T)
        requires within { position ≤ length self.old.items }
        requires room { 0 < self.old.room }
        requires few { length self.old.items < 9_223_372_036_854_775_808 }
        ensures items { self.new.items ≡ insert self.old.items position item }
        ensures room { self.old.room ≤ self.new.room + 1 }
    {
        match &mut self.front {
            None => self.last.put(position, item),
            Some(front) => insert_in(front, &mut self.last, position, item),
        }
    }
}

/// How many items are before the last chunk.
#[inline(always)]
fn start_of_last<T: Copy + Drop>(front: &Option<Box<Front<T>>>) -> usize
    ensures { result ≡ length (items_before (option_map (λ f. f.value) front.now)) }
{
    match front {
        None => 0,
        Some(front) => front.len(),
    }
}

/// Inserts an item at a position of these two parts.
fn insert_in<T: Copy + Drop>(front: &mut Front<T>, last: &mut Chunk<T>, position: usize, item: T)
    requires within { position ≤ length front.old.items + length last.old.items }
    requires room { 0 < front.old.room }
    requires room_in_last { 0 < last.old.room }
    requires few { length front.old.items + length last.old.items < 9_223_372_036_854_775_808 }
    ensures items { front.new.items ++ last.new.items ≡ insert (front.old.items ++ last.old.items) position item }
    ensures room { front.old.room ≤ front.new.room + 1 }
    ensures kept { last.old.room ≤ last.new.room + 1 }
{
    let start = front.len();
    if position < start {
        front.insert(position, item);
    } else {
        front.set_grows(position - start == last.len());
        last.put(position - start, item);
    }
}

/// Makes room for one more item, wherever it goes.
///
/// # Errors
/// `AllocError` if allocation fails.
fn make_room<T: Copy + Drop>(
    front: &mut Option<Box<Front<T>>>,
    last: &mut Chunk<T>,
) -> Result<(), AllocError>
    requires few { length (items_before (option_map (λ f. f.value) front.old)) + length last.old.items ≤ 9_223_372_036_854_775_808 }
    ensures same { items_before (option_map (λ f. f.value) front.new) ++ last.new.items
        ≡ items_before (option_map (λ f. f.value) front.old) ++ last.old.items }
    ensures room { OnOk result (0 < room_before (option_map (λ f. f.value) front.new)) }
    ensures room_in_last { OnOk result (0 < last.new.room) }
    ensures kept { room_before (option_map (λ f. f.value) front.old) ≤ room_before (option_map (λ f. f.value) front.new) }
    ensures kept_in_last { min 1 last.old.room ≤ last.new.room }
{
    if last.len() < MOST {
        return reserve_in(front, last);
    }
    cut_last(front, last)?;
    reserve_in(front, last)
}

/// Makes room for one more item in each of the two parts.
///
/// # Errors
/// `AllocError` if allocation fails.
fn reserve_in<T: Copy + Drop>(
    front: &mut Option<Box<Front<T>>>,
    last: &mut Chunk<T>,
) -> Result<(), AllocError>
    requires few { length (items_before (option_map (λ f. f.value) front.old)) ≤ 9_223_372_036_854_775_808 }
    ensures front { items_before (option_map (λ f. f.value) front.new) ≡ items_before (option_map (λ f. f.value) front.old) }
    ensures last { last.new.items ≡ last.old.items }
    ensures room { OnOk result (0 < room_before (option_map (λ f. f.value) front.new)) }
    ensures room_in_last { OnOk result (0 < last.new.room) }
    ensures kept { room_before (option_map (λ f. f.value) front.old) ≤ room_before (option_map (λ f. f.value) front.new) }
    ensures kept_in_last { last.old.room ≤ last.new.room }
{
    if let Some(front) = front {
        front.reserve_one()?;
    }
    last.reserve_one()
}

/// Moves the first items of a full last chunk to the others.
///
/// # Errors
/// `AllocError` if allocation fails; then all stays.
fn cut_last<T: Copy + Drop>(
    front: &mut Option<Box<Front<T>>>,
    last: &mut Chunk<T>,
) -> Result<(), AllocError>
    requires full { 512 ≤ length last.old.items }
    requires few { length (items_before (option_map (λ f. f.value) front.old)) ≤ 9_223_372_036_854_775_808 }
    ensures same { items_before (option_map (λ f. f.value) front.new) ++ last.new.items
        ≡ items_before (option_map (λ f. f.value) front.old) ++ last.old.items }
    ensures kept { room_before (option_map (λ f. f.value) front.old) ≤ room_before (option_map (λ f. f.value) front.new) }
    ensures kept_in_last { min 1 last.old.room ≤ last.new.room }
{
    match front {
        None => {
            let alloc = last.allocator();
            let mut first = Box::new(alloc, Front::new(alloc))?;
            first.take_first(last)?;
            *front = Some(first);
            Ok(())
        }
        Some(front) => front.take_first(last),
    }
}
