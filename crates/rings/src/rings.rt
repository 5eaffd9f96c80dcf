//! A list whose items are in rings, and the moves that keep them there.

ghost use Rattle.std.specs.Prelude.{◌≡◌, ◌<◌, ◌≤◌, ◌+◌, ◌*◌, ◌/◌, ◌++◌, ◌∷◌, [], length, Some, slice_get, slice_index_or, slice_set, take};
ghost use Rattle.std.specs.Prelude.{ℕ, IsTrue, List, OnOk, vec_len, vec_capacity};
ghost use Rattle.std.specs.Fn.{CalledAt};
ghost use Rattle.std.specs.List.{All, insert, remove};
ghost use Rattle.std.specs.List.Retain.{IsFiltered};
ghost use Rattle.rings.specs.Rings.{AreRings, IsClosed, IsSlot, are_zero, straight, turned};
ghost use Rattle.rings.specs.Starts.{capacity_of, starts_of};

use crate::contiguous::{make_all_contiguous, remove_in, retain_in, truncate_in};
use crate::starts::Starts;
use std::alloc::{AllocError, Global};
use std::marker::Model;
use std::mem::{replace, swap};

/// How many slots a ring has.
pub(crate) const RING: usize = 2_048;

/// A list that stays fast at a million items: any position is read in constant time, and an insert moves at most half of its ring, one
/// item of each later ring, and the items behind the rings.
///
/// All items are in one vector: first the full rings of 2,048 slots, each of which begins at one of its slots and wraps around, and then
/// fewer than 2,048 items in their order. So a list below 2,048 items is a vector. Contracts see the items, how many more fit without an
/// allocation, and whether all rings begin at their first slots.
#[derive(Debug, Drop)]
pub struct Rings<T> {
    slots: Vec<T>,
    starts: Starts,
}

impl<T> Model for Rings<T> {
    ghost use Rattle.std.specs.Prelude.{min, ◌-◌, ◌+◌, ◌*◌, length, vec_len, vec_capacity};
    ghost use Rattle.rings.specs.Rings.{AreRings, Sequence, are_zero, straight};
    ghost use Rattle.rings.specs.Starts.{capacity_of, starts_of};

    ghost Value = { Sequence T };

    ghost view = { λ r. record {
      items = straight 2048 (starts_of r.starts) r.slots.items;
      room = min (vec_capacity r.slots - vec_len r.slots) (capacity_of r.starts * 2048 + 2047 - vec_len r.slots);
      is_straight = are_zero (starts_of r.starts);
    } };

    ghost invariant = { λ r. AreRings 2048 (starts_of r.starts) (length r.slots.items) };
}

impl<T> Rings<T> {
    /// Returns an empty list. Allocates nothing.
    pub fn new(alloc: Global) -> Rings<T>
        ensures { result.items ≡ [] }
    {
        Rings {
            slots: Vec::new(alloc),
            starts: Starts::new(),
        }
    }

    /// Returns how many items there are: fewer than 2^63, as in any vector.
    pub fn len(&self) -> usize
        ensures length { result ≡ length self.now.items }
        ensures few { result < 9_223_372_036_854_775_808 }
    {
        self.slots.len()
    }

    /// Returns the item at this position, in constant time.
    pub fn get(&self, position: usize) -> &T
        requires { position < length self.now.items }
        ensures { slice_get self.now.items position ≡ Some result.now }
    {
        item(&self.slots, self.starts.as_slice(), position)
    }

    /// Returns the items from this position on that are adjacent in memory, in constant time: at least one, and behind the rings all of
    /// them. A ring is one or two such runs.
    pub fn run(&self, position: usize) -> &[T]
        requires { position < length self.now.items }
        ensures any { 0 < length result.now }
        ensures within { position + length result.now ≤ length self.now.items }
        ensures items { (i : ℕ) → i < length result.now → slice_get self.now.items (position + i) ≡ slice_get result.now i }
    {
        run_in(&self.slots, self.starts.as_slice(), position)
    }

    /// Puts the value in place of an item, in constant time, and returns that item.
    pub fn replace(&mut self, position: usize, value: T) -> T
        requires { position < length self.old.items }
        ensures items { self.new.items ≡ slice_set self.old.items position value }
        ensures value { slice_get self.old.items position ≡ Some result }
        ensures room { self.new.room ≡ self.old.room }
    {
        write(&mut self.slots, self.starts.as_slice(), position, value)
    }

    /// Makes room for one more item.
    ///
    /// # Errors
    /// Returns `AllocError` if allocation fails; the items stay as they are.
    pub fn reserve_one(&mut self) -> Result<(), AllocError>
        ensures same { self.new.items ≡ self.old.items }
        ensures room { OnOk result (0 < self.new.room) }
        ensures kept { self.old.room ≤ self.new.room }
    {
        self.slots.reserve(1)?;
        if self.slots.len() % RING == RING - 1 {
            self.starts.reserve_one(*self.slots.allocator())?;
        }
        Ok(())
    }

    /// Swaps the items at two positions, in constant time.
    pub fn swap(&mut self, a: usize, b: usize)
        requires a { a < length self.old.items }
        requires b { b < length self.old.items }
        ensures items { (d : T)
            → self.new.items
            ≡ slice_set (slice_set self.old.items a (slice_index_or self.old.items b d)) b (slice_index_or self.old.items a d) }
        ensures room { self.new.room ≡ self.old.room }
    {
        swap_in(&mut self.slots, self.starts.as_slice(), a, b);
    }

    /// Moves the items so that `as_slice` can return them as one slice. Allocates nothing. Costs one move of each ring that doesn't
    /// begin at its first slot.
    pub fn make_contiguous(&mut self)
        ensures items { self.new.items ≡ self.old.items }
        ensures room { self.new.room ≡ self.old.room }
        ensures straight { IsTrue self.new.is_straight }
    {
        make_all_contiguous(&mut self.slots, &mut self.starts);
    }

    /// Returns all items as one slice, once they are contiguous.
    pub fn as_slice(&self) -> &[T]
        requires { IsTrue self.now.is_straight }
        ensures { result.now ≡ self.now.items }
    {
        &self.slots
    }

    /// Removes the item at this position and returns it; those behind it shift one earlier. Allocates nothing. Makes all rings contiguous
    /// first, and shifts the items behind it with a single memmove.
    pub fn remove(&mut self, position: usize) -> T
        requires { position < length self.old.items }
        ensures items { self.new.items ≡ remove self.old.items position }
        ensures value { slice_get self.old.items position ≡ Some result }
        ensures room { self.old.room ≤ self.new.room }
    {
        make_all_contiguous(&mut self.slots, &mut self.starts);
        remove_in(&mut self.slots, &mut self.starts, position)
    }
}

impl<T: Drop> Rings<T> {
    /// Keeps this many items and drops those behind them. Allocates nothing; makes all rings contiguous first.
    pub fn truncate(&mut self, count: usize)
        ensures items { self.new.items ≡ take count self.old.items }
        ensures room { self.old.room ≤ self.new.room }
    {
        make_all_contiguous(&mut self.slots, &mut self.starts);
        truncate_in(&mut self.slots, &mut self.starts, count);
    }

    /// Keeps the items for which `keep` returns true, in their order, and drops the others. Allocates nothing; makes all rings contiguous
    /// first. Calls `keep` once for each item, and shifts those kept left past the removed ones, as `Vec::retain`.
    pub fn retain<F: FnMut(&T) -> bool>(&mut self, keep: F)
        requires { F.IsAlwaysCallable keep }
        ensures kept { IsFiltered (CalledAt F.FnMut) keep self.old.items self.new.items }
        ensures room { self.old.room ≤ self.new.room }
    {
        make_all_contiguous(&mut self.slots, &mut self.starts);
        retain_in(&mut self.slots, &mut self.starts, keep);
    }

    /// Inserts an item at this position; those from there on shift one later. Allocates nothing. In its ring it shifts those before it, or
    /// those from there on, whichever are fewer, so at most half of the ring. It moves one item of each later ring, and shifts those behind
    /// the rings.
    pub fn insert(&mut self, position: usize, value: T)
        requires within { position ≤ length self.old.items }
        requires room { 0 < self.old.room }
        ensures items { self.new.items ≡ insert self.old.items position value }
        ensures room { self.old.room ≤ self.new.room + 1 }
    {
        insert_in(&mut self.slots, &mut self.starts, position, value);
    }
}

/// Returns the slot of a position.
fn slot_of(starts: &[usize], position: usize) -> usize
    requires { All (λ s. s < 2048) starts.now }
    ensures { IsSlot 2048 starts.now position result }
{
    let ring = position / RING;
    if ring >= starts.len() {
        return position;
    }
    ring * RING + (starts[ring] + position % RING) % RING
}

/// Returns the item at a position.
fn item<'a, T>(slots: &'a [T], starts: &[usize], position: usize) -> &'a T
    requires rings { AreRings 2048 starts.now (length slots.now) }
    requires within { position < length slots.now }
    ensures { slice_get (straight 2048 starts.now slots.now) position ≡ Some result.now }
{
    &slots[slot_of(starts, position)]
}

/// Returns the items from a position on that are adjacent in memory: those of a ring end at its last slot, or at the one before its
/// beginning.
fn run_in<'a, T>(slots: &'a [T], starts: &[usize], position: usize) -> &'a [T]
    requires rings { AreRings 2048 starts.now (length slots.now) }
    requires within { position < length slots.now }
    ensures any { 0 < length result.now }
    ensures within { position + length result.now ≤ length slots.now }
    ensures items { (i : ℕ)
        → i < length result.now → slice_get (straight 2048 starts.now slots.now) (position + i) ≡ slice_get result.now i }
{
    let first = slot_of(starts, position);
    if position / RING >= starts.len() {
        return &slots[first..];
    }
    let count = rest_of_ring(position % RING, first % RING);
    &slots[first..first + count]
}

/// Returns how many items of a ring are adjacent in memory, from the place on that is at this slot of the ring.
fn rest_of_ring(place: usize, slot: usize) -> usize
    requires place { place < 2048 }
    requires slot { slot < 2048 }
    ensures any { 0 < result }
    ensures place { place + result ≤ 2048 }
    ensures slot { slot + result ≤ 2048 }
{
    if place < slot {
        RING - slot
    } else {
        RING - place
    }
}

/// Puts the value in place of an item, and returns that item.
fn write<T>(slots: &mut [T], starts: &[usize], position: usize, value: T) -> T
    requires rings { AreRings 2048 starts.now (length slots.old) }
    requires within { position < length slots.old }
    ensures items { straight 2048 starts.now slots.new ≡ slice_set (straight 2048 starts.now slots.old) position value }
    ensures value { slice_get (straight 2048 starts.now slots.old) position ≡ Some result }
    ensures length { length slots.new ≡ length slots.old }
{
    let slot = slot_of(starts, position);
    replace(&mut slots[slot], value)
}

/// Turns a ring back by one slot, so that the value comes first. Returns its last item, which falls out.
fn turn<T>(slots: &mut [T], starts: &mut [usize], ring: usize, value: T) -> T
    requires within { All (λ s. s < 2048) starts.old }
    requires full { length starts.old * 2048 ≤ length slots.old }
    requires ring { ring < length starts.old }
    ensures items { insert (straight 2048 starts.new slots.new) (ring * 2048 + 2048) result
        ≡ insert (straight 2048 starts.old slots.old) (ring * 2048) value }
    ensures within { All (λ s. s < 2048) starts.new }
    ensures starts { length starts.new ≡ length starts.old }
    ensures slots { length slots.new ≡ length slots.old }
{
    let start = starts[ring];
    let before = if start == 0 { RING - 1 } else { start - 1 };
    starts[ring] = before;
    replace(&mut slots[ring * RING + before], value)
}

/// Moves each item one slot on and puts the value into the first, with a single memmove. Returns the item that falls out at the end, which
/// is the value if there are no slots.
fn push_front<T>(items: &mut [T], value: T) -> T
    ensures { items.new ++ result ∷ [] ≡ value ∷ items.old }
{
    if items.is_empty() {
        return value;
    }
    items.rotate_right(1);
    replace(&mut items[0], value)
}

/// Inserts an item at a position of a ring, with a single memmove, or two if those behind it wrap around. Returns the ring's last item,
/// which falls out.
fn push_into<T>(ring: &mut [T], start: usize, position: usize, value: T) -> T
    requires start { start ≤ length ring.old }
    requires position { position ≤ length ring.old }
    ensures items { turned start ring.new ++ result ∷ [] ≡ insert (turned start ring.old) position value }
    ensures length { length ring.new ≡ length ring.old }
{
    let (back, front) = ring.split_at_mut(start);
    let count = front.len();
    if position < count {
        let carried = push_front(&mut front[position..], value);
        return push_front(back, carried);
    }
    push_front(&mut back[position - count..], value)
}

/// Moves a ring's first item to a position, so that those on its way shift one earlier, with a single memmove, or two if they wrap around.
fn sink<T>(ring: &mut [T], start: usize, position: usize)
    requires start { start < length ring.old }
    requires position { position < length ring.old }
    ensures items { (value : T) (rest : List T)
        → turned start ring.old ≡ value ∷ rest
        → turned start ring.new ≡ insert rest position value }
    ensures length { length ring.new ≡ length ring.old }
{
    let (back, front) = ring.split_at_mut(start);
    let count = front.len();
    if position < count {
        front[..=position].rotate_left(1);
        return;
    }
    let behind = position - count;
    front.rotate_left(1);
    back[..=behind].rotate_left(1);
    // The first of each part is now the last that moved there, and belongs in the other's slot.
    swap(&mut front[count - 1], &mut back[behind]);
}

/// Inserts an item at a position in a ring: in its first half by shifting those before it, and else by shifting those from there on, so
/// at most half of the ring. Returns that ring's last item, which falls out.
fn push_at<T>(slots: &mut [T], starts: &mut [usize], position: usize, value: T) -> T
    requires rings { AreRings 2048 starts.old (length slots.old) }
    requires position { position < length starts.old * 2048 }
    ensures items { insert (straight 2048 starts.new slots.new) (position / 2048 * 2048 + 2048) result
        ≡ insert (straight 2048 starts.old slots.old) position value }
    ensures within { All (λ s. s < 2048) starts.new }
    ensures starts { length starts.new ≡ length starts.old }
    ensures slots { length slots.new ≡ length slots.old }
{
    let ring = position / RING;
    let place = position % RING;
    let first = ring * RING;
    if place < RING / 2 {
        let last = turn(slots, starts, ring, value);
        sink(&mut slots[first..first + RING], starts[ring], place);
        return last;
    }
    push_into(&mut slots[first..first + RING], starts[ring], place, value)
}

/// Inserts an item at a position in a ring. Each ring from there on passes its last item to the next; returns that of the last ring.
fn carry<T>(slots: &mut [T], starts: &mut [usize], position: usize, value: T) -> T
    requires rings { AreRings 2048 starts.old (length slots.old) }
    requires position { position < length starts.old * 2048 }
    ensures items { insert (straight 2048 starts.new slots.new) (length starts.old * 2048) result
        ≡ insert (straight 2048 starts.old slots.old) position value }
    ensures within { All (λ s. s < 2048) starts.new }
    ensures starts { length starts.new ≡ length starts.old }
    ensures slots { length slots.new ≡ length slots.old }
{
    let mut carried = push_at(slots, starts, position, value);
    for ring in position / RING + 1..starts.len() {
        carried = turn(slots, starts, ring, carried);
    }
    carried
}

/// Inserts the value into the rings from a position on, and returns which item is then left and where it goes behind the rings.
fn make_way<T>(slots: &mut [T], starts: &mut Starts, position: usize, value: T) -> (usize, T)
    requires rings { AreRings 2048 (starts_of starts.old) (length slots.old) }
    requires position { position ≤ length slots.old }
    ensures items { insert (straight 2048 (starts_of starts.new) slots.new) result.0 result.1
        ≡ insert (straight 2048 (starts_of starts.old) slots.old) position value }
    ensures behind { length (starts_of starts.old) * 2048 ≤ result.0 }
    ensures position { result.0 ≤ length slots.old }
    ensures within { All (λ s. s < 2048) (starts_of starts.new) }
    ensures starts { length (starts_of starts.new) ≡ length (starts_of starts.old) }
    ensures capacity { capacity_of starts.new ≡ capacity_of starts.old }
    ensures slots { length slots.new ≡ length slots.old }
{
    match &mut starts.starts {
        Some(starts) => make_way_in(slots, starts, position, value),
        None => (position, value),
    }
}

/// The same for rings that begin at these slots.
fn make_way_in<T>(slots: &mut [T], starts: &mut [usize], position: usize, value: T) -> (usize, T)
    requires rings { AreRings 2048 starts.old (length slots.old) }
    requires position { position ≤ length slots.old }
    ensures items { insert (straight 2048 starts.new slots.new) result.0 result.1
        ≡ insert (straight 2048 starts.old slots.old) position value }
    ensures behind { length starts.old * 2048 ≤ result.0 }
    ensures position { result.0 ≤ length slots.old }
    ensures within { All (λ s. s < 2048) starts.new }
    ensures starts { length starts.new ≡ length starts.old }
    ensures slots { length slots.new ≡ length slots.old }
{
    let full = starts.len() * RING;
    if position >= full {
        return (position, value);
    }
    let last = carry(slots, starts, position, value);
    (full, last)
}

/// Makes a ring of the items behind the rings if they fill one.
fn close_ring(starts: &mut Starts, count: usize)
    requires within { All (λ s. s < 2048) (starts_of starts.old) }
    requires full { length (starts_of starts.old) * 2048 ≤ count }
    requires rest { count ≤ length (starts_of starts.old) * 2048 + 2048 }
    requires room { count ≤ capacity_of starts.old * 2048 + 2047 }
    ensures closed { IsClosed 2048 (starts_of starts.old) (starts_of starts.new) count }
    ensures rings { AreRings 2048 (starts_of starts.new) count }
    ensures capacity { capacity_of starts.new ≡ capacity_of starts.old }
{
    if count - starts.as_slice().len() * RING == RING {
        starts.push_reserved(0);
    }
}

/// Puts an item at a position. Allocates nothing.
fn insert_in<T: Drop>(slots: &mut Vec<T>, starts: &mut Starts, position: usize, value: T)
    requires rings { AreRings 2048 (starts_of starts.old) (length slots.old.items) }
    requires within { position ≤ length slots.old.items }
    requires room { vec_len slots.old < vec_capacity slots.old }
    requires room_for_start { vec_len slots.old < capacity_of starts.old * 2048 + 2047 }
    ensures items { straight 2048 (starts_of starts.new) slots.new.items
        ≡ insert (straight 2048 (starts_of starts.old) slots.old.items) position value }
    ensures rings { AreRings 2048 (starts_of starts.new) (length slots.new.items) }
    ensures length { vec_len slots.new ≡ vec_len slots.old + 1 }
    ensures slots { vec_capacity slots.new ≡ vec_capacity slots.old }
    ensures starts { capacity_of starts.new ≡ capacity_of starts.old }
{
    let (at, item) = make_way(slots, starts, position, value);
    insert_reserved(slots, at, item);
    close_ring(starts, slots.len());
}

/// Inserts an item into a vector that has room for it, with a single memmove. `Vec::insert` moves sixteen bytes at a time, which shows
/// from a few hundred items on. Allocates nothing.
pub fn insert_reserved<T: Drop>(items: &mut Vec<T>, at: usize, item: T)
    requires within { at ≤ length items.old.items }
    requires room { vec_len items.old < vec_capacity items.old }
    ensures items { items.new.items ≡ insert items.old.items at item }
    ensures length { vec_len items.new ≡ vec_len items.old + 1 }
    ensures capacity { vec_capacity items.new ≡ vec_capacity items.old }
{
    let last = push_front(&mut items[at..], item);
    items.push_reserved(last);
}

/// Swaps the items at two positions.
fn swap_in<T>(slots: &mut [T], starts: &[usize], a: usize, b: usize)
    requires rings { AreRings 2048 starts.now (length slots.old) }
    requires a { a < length slots.old }
    requires b { b < length slots.old }
    ensures items { (d : T)
        → straight 2048 starts.now slots.new
        ≡ slice_set (slice_set (straight 2048 starts.now slots.old) a (slice_index_or (straight 2048 starts.now slots.old) b d)) b
        (slice_index_or (straight 2048 starts.now slots.old) a d) }
    ensures length { length slots.new ≡ length slots.old }
{
    let first = slot_of(starts, a);
    let second = slot_of(starts, b);
    slots.swap(first, second);
}
