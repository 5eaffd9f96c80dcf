//! The chunks before the last one.

ghost use Rattle.std.specs.Prelude.{◌≡◌, ◌≤◌, ◌<◌, ◌+◌, ◌++◌, [], length, slice_index_or, min, OnErr, OnOk};
ghost use Rattle.std.specs.List.{insert};
ghost use Rattle.chunks.specs.Chunks.{AreRoomyBut, IsIn, IsPart, IsSpot, Sequence, ends_from, joined, room_at};

use crate::chunk::Chunk;
use crate::chunks::MOST;
use crate::ends::{Ends, Spot};
use crate::reader::Part;
use rings::insert_reserved;
use std::alloc::{AllocError, Global};
use std::marker::Model;
use std::mem::replace;

/// Chunks of a list, each with at most 512 items.
///
/// Contracts see the items, and whether there is room for one more, wherever it goes.
#[derive(Debug, Drop)]
pub(crate) struct Front<T> {
    /// In order.
    chunks: Vec<Chunk<T>>,
    ends: Ends,
    /// The chunk that the last item was put into. No other one is full.
    put: usize,
    /// Whether the last item went to the end of the list, behind these chunks.
    grows: bool,
}

impl<T> Model for Front<T> {
    ghost use Rattle.std.specs.Prelude.{◌≡◌, min};
    ghost use Rattle.chunks.specs.Chunks.{AreRoomyBut, Sequence, ends_from, joined, room_at};

    ghost Value = { Sequence T };

    ghost view = { λ f. record { items = joined f.chunks.items; room = min 1 (room_at f.chunks.items f.put) } };

    ghost invariant = { λ f. (f.ends.ends ≡ ends_from 0 f.chunks.items) × AreRoomyBut f.put f.chunks.items };
}

impl<T: Copy + Drop> Front<T> {
    /// No chunks. Allocates nothing.
    pub fn new(alloc: Global) -> Front<T>
        ensures items { result.items ≡ [] }
        ensures room { 0 < result.room }
    {
        Front {
            chunks: Vec::new(alloc),
            ends: Ends::new(alloc),
            put: 0,
            grows: false,
        }
    }

    /// How many items there are.
    pub fn len(&self) -> usize
        ensures { result ≡ length self.now.items }
    {
        self.ends.last()
    }

    /// The chunk in which a position is.
    #[inline(always)]
    pub fn part(&self, position: usize) -> Part<'_, T>
        requires { position < length self.now.items }
        ensures here { IsIn position result.start result.chunk.now.items }
        ensures part { IsPart self.now.items result.start result.chunk.now.items }
    {
        match self.ends.guided(position) {
            Some(spot) => part_at(&self.chunks, spot, position),
            None => self.part_nearby(position),
        }
    }

    /// The chunk in which a position is, where the guide is wrong.
    // Not inlined, so that a read that the guide leads needs no stack.
    #[inline(never)]
    fn part_nearby(&self, position: usize) -> Part<'_, T>
        requires { position < length self.now.items }
        ensures here { IsIn position result.start result.chunk.now.items }
        ensures part { IsPart self.now.items result.start result.chunk.now.items }
    {
        part_at(&self.chunks, self.ends.spot(position), position)
    }

    /// Inserts an item before another one. Allocates nothing. Shifts the items behind it in its chunk, and adds 1 to the end of each chunk
    /// from there on.
    pub fn insert(&mut self, position: usize, item: T)
        requires within { position < length self.old.items }
        requires room { 0 < self.old.room }
        requires few { length self.old.items < 9_223_372_036_854_775_808 }
        ensures items { self.new.items ≡ insert self.old.items position item }
        ensures room { self.old.room ≤ self.new.room + 1 }
    {
        let spot = self.ends.spot(position);
        self.chunks[spot.chunk].put(spot.index, item);
        self.ends.move_on(spot.chunk);
        self.put = spot.chunk;
        self.grows = false;
    }

    /// Says whether an item that went behind these chunks is the last of the list.
    pub fn set_grows(&mut self, grows: bool)
        ensures items { self.new.items ≡ self.old.items }
        ensures room { self.new.room ≡ self.old.room }
    {
        self.grows = grows;
    }

    /// Makes room for one more item, wherever it goes. Cuts the chunk that the last one was put into, if it is full.
    ///
    /// # Errors
    /// `AllocError` if allocation fails.
    pub fn reserve_one(&mut self) -> Result<(), AllocError>
        requires few { length self.old.items ≤ 9_223_372_036_854_775_808 }
        ensures same { self.new.items ≡ self.old.items }
        ensures room { OnOk result (0 < self.new.room) }
        ensures kept { self.old.room ≤ self.new.room }
    {
        make_room(&mut self.chunks, &mut self.ends, self.put)?;
        self.ends.renew_guide()
    }

    /// Takes the first items of a full chunk, as a chunk behind all others: half of them, or all but the last if the list grows at its end,
    /// so that it has full chunks. The rest then has room for one more item.
    ///
    /// # Errors
    /// `AllocError` if allocation fails; then all stays.
    pub fn take_first(&mut self, last: &mut Chunk<T>) -> Result<(), AllocError>
        requires full { 512 ≤ length last.old.items }
        requires few { length self.old.items ≤ 9_223_372_036_854_775_808 }
        ensures same { self.new.items ++ last.new.items ≡ self.old.items ++ last.old.items }
        ensures room { OnOk result (0 < last.new.room) }
        ensures kept { self.old.room ≤ self.new.room }
        ensures kept_last { min 1 last.old.room ≤ last.new.room }
        ensures refused { OnErr result (last.new.items ≡ last.old.items) }
    {
        self.chunks.reserve(1)?;
        self.ends.reserve_one()?;
        let back = last.split_off(first_part(self.grows))?;
        let first = replace(last, back);
        let end = self.ends.last() + first.len();
        self.ends.insert(self.chunks.len(), end);
        self.chunks.push_reserved(first);
        Ok(())
    }
}

/// The chunk in which a position is.
#[inline(always)]
fn part_at<T: Copy + Drop>(chunks: &[Chunk<T>], spot: Spot, position: usize) -> Part<'_, T>
    requires { IsSpot (ends_from 0 chunks.now) position spot }
    ensures here { IsIn position result.start result.chunk.now.items }
    ensures part { IsPart (joined chunks.now) result.start result.chunk.now.items }
{
    Part {
        start: position - spot.index,
        chunk: &chunks[spot.chunk],
    }
}

/// How many of the items of a full last chunk are to be a chunk of their own.
fn first_part(grows: bool) -> usize
    ensures { result < 512 }
{
    if grows { MOST - 1 } else { MOST / 2 }
}

/// Makes room for one more item in the chunk that the last one was put into, if there is a chunk. Cuts it if it is full.
///
/// # Errors
/// `AllocError` if allocation fails.
fn make_room<T: Copy + Drop>(
    chunks: &mut Vec<Chunk<T>>,
    ends: &mut Ends,
    put: usize,
) -> Result<(), AllocError>
    requires ends { ends.old.ends ≡ ends_from 0 chunks.old.items }
    requires spare { AreRoomyBut put chunks.old.items }
    requires few { length (joined chunks.old.items) ≤ 9_223_372_036_854_775_808 }
    ensures items { joined chunks.new.items ≡ joined chunks.old.items }
    ensures ends { ends.new.ends ≡ ends_from 0 chunks.new.items }
    ensures spare { AreRoomyBut put chunks.new.items }
    ensures room { OnOk result (0 < room_at chunks.new.items put) }
    ensures kept { room_at chunks.old.items put ≤ room_at chunks.new.items put }
{
    if put >= chunks.len() {
        return Ok(());
    }
    if chunks[put].len() < MOST {
        return reserve_in(chunks, put);
    }
    cut(chunks, ends, put)
}

/// Makes room for one more item in a chunk.
///
/// # Errors
/// `AllocError` if allocation fails.
fn reserve_in<T: Copy + Drop>(chunks: &mut Vec<Chunk<T>>, put: usize) -> Result<(), AllocError>
    requires inside { put < length chunks.old.items }
    requires spare { AreRoomyBut put chunks.old.items }
    ensures items { joined chunks.new.items ≡ joined chunks.old.items }
    ensures ends { ends_from 0 chunks.new.items ≡ ends_from 0 chunks.old.items }
    ensures spare { AreRoomyBut put chunks.new.items }
    ensures room { OnOk result (0 < room_at chunks.new.items put) }
    ensures kept { room_at chunks.old.items put ≤ room_at chunks.new.items put }
{
    chunks[put].reserve_one()
}

/// Cuts a full chunk in the middle.
///
/// # Errors
/// `AllocError` if allocation fails; then all stays.
fn cut<T: Copy + Drop>(
    chunks: &mut Vec<Chunk<T>>,
    ends: &mut Ends,
    put: usize,
) -> Result<(), AllocError>
    requires inside { put < length chunks.old.items }
    requires ends { ends.old.ends ≡ ends_from 0 chunks.old.items }
    requires spare { AreRoomyBut put chunks.old.items }
    requires full { (d : Sequence T) → 512 ≤ length (slice_index_or chunks.old.items put d).items }
    requires few { length (joined chunks.old.items) ≤ 9_223_372_036_854_775_808 }
    ensures items { joined chunks.new.items ≡ joined chunks.old.items }
    ensures ends { ends.new.ends ≡ ends_from 0 chunks.new.items }
    ensures spare { AreRoomyBut put chunks.new.items }
    ensures room { OnOk result (0 < room_at chunks.new.items put) }
    ensures kept { room_at chunks.old.items put ≤ room_at chunks.new.items put }
{
    chunks.reserve(1)?;
    ends.reserve_one()?;
    let back = chunks[put].split_off(MOST / 2)?;
    ends.insert(put, ends.start(put) + MOST / 2);
    insert_reserved(chunks, put + 1, back);
    Ok(())
}
