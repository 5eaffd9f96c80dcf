//! Entries by id, in one list.

ghost use Rattle.std.specs.Prelude.{◌≡◌, ◌↔◌, ◌≤◌, ◌<◌, ◌+◌, ◌&&◌, ℕ, List, [], length, Some, nat_le, nat_lt, slice_get, slice_index};
ghost use Rattle.std.specs.Prelude.{slice_index_or, IsTrue, OnOk, MatchResult};
ghost use Rattle.std.specs.List.{All, filter, zip};
ghost use Rattle.std.specs.Ordering.{is_gt};
ghost use Rattle.std.specs.FinMap.{put, is_sorted};
ghost use Rattle.ids.specs.Members.{AreDistinct};
ghost use Rattle.semantics.specs.Ids.{OpId as TheId, id_cmp};
ghost use Rattle.semantics.specs.Vectors.{covers};
ghost use Rattle.semantics.specs.Tables.{by_table};
ghost use Rattle.semantics.specs.Context.{without};
ghost use Rattle.version.specs.Columns.{is_uncovered};
ghost use Rattle.columns.specs.Rank.{GoesTo, StandsAt, keys_of};
ghost use Rattle.columns.specs.Entries.{AreIndicesIn, entries_of, indices_of, put_index};

use crate::entry::Entry;
use ids::OpId;
use rings::Rings;
use std::alloc::{AllocError, Global};
use std::cmp::Ordering;
use std::marker::Model;
use version::VersionVector;

/// A finite map by id. Id, index and value are next to each other, so that a read or a put touches one place in memory, and a
/// late insert shifts entries with one memmove.
///
/// Contracts see the entries in ascending order of id, the index of each entry's replica in the table, and for how many more entries there
/// is room.
#[derive(Debug, Drop)]
pub struct EntryList<T> {
    entries: Rings<Entry<T>>,
}

impl<T> Model for EntryList<T> {
    ghost use Rattle.std.specs.Prelude.{IsTrue};
    ghost use Rattle.std.specs.FinMap.{is_sorted};
    ghost use Rattle.semantics.specs.Ids.{id_cmp};
    ghost use Rattle.columns.specs.Entries.{Entries, entries_of, indices_of};

    ghost Value = { Entries T };

    ghost view = { λ m. record {
      entries = entries_of m.entries.items;
      indices = indices_of m.entries.items;
      room = m.entries.room;
    } };

    ghost invariant = { λ m. IsTrue (is_sorted id_cmp (entries_of m.entries.items)) };
}

impl<T> EntryList<T> {
    pub fn new(alloc: Global) -> EntryList<T>
        ensures entries { result.entries ≡ [] }
        ensures indices { result.indices ≡ [] }
    {
        EntryList {
            entries: Rings::new(alloc),
        }
    }

    /// How many entries there are.
    pub fn len(&self) -> usize
        ensures length { result ≡ length self.now.entries }
        ensures rising { IsTrue (is_sorted id_cmp self.now.entries) }
        ensures indexed { length self.now.indices ≡ length self.now.entries }
        ensures few { result < 9_223_372_036_854_775_808 }
    {
        self.entries.len()
    }

    /// The id at a position, and its value.
    pub fn at(&self, position: usize) -> (OpId, &T)
        requires { position < length self.now.entries }
        ensures { slice_get self.now.entries position ≡ Some (result.0, result.1.now) }
    {
        let entry = self.entries.get(position);
        (entry.id(), &entry.value)
    }

    /// Makes room for one more entry.
    ///
    /// # Errors
    /// `AllocError` if allocation fails.
    pub fn reserve_one(&mut self) -> Result<(), AllocError>
        ensures entries { self.new.entries ≡ self.old.entries }
        ensures indices { self.new.indices ≡ self.old.indices }
        ensures room { OnOk result (0 < self.new.room) }
        ensures kept { self.old.room ≤ self.new.room }
    {
        self.entries.reserve_one()
    }
}

/// The id at a position.
fn id_at<T>(entries: &Rings<Entry<T>>, position: usize) -> OpId
    requires { position < length entries.now.items }
    ensures { (d : TheId) → slice_index_or (keys_of (entries_of entries.now.items)) position d ≡ result }
{
    entries.get(position).id()
}

/// The position of an id, or `Err` with the one where it would be inserted. One comparison for an id greater than all, otherwise a
/// binary search.
fn find_id<T>(entries: &Rings<Entry<T>>, id: OpId) -> Result<usize, usize>
    requires { IsTrue (is_sorted id_cmp (entries_of entries.now.items)) }
    ensures { MatchResult result (StandsAt id_cmp id (keys_of (entries_of entries.now.items)))
        (GoesTo id_cmp id (keys_of (entries_of entries.now.items))) }
{
    if is_greatest(entries, id) {
        return Err(entries.len());
    }
    let mut low = 0;
    let mut high = entries.len();
    while low < high {
        let middle = low + (high - low) / 2;
        match id.cmp(&id_at(entries, middle)) {
            Ordering::Less => high = middle,
            Ordering::Equal => return Ok(middle),
            Ordering::Greater => low = middle + 1,
        }
    }
    Err(low)
}

/// Whether the id is greater than all that are there.
fn is_greatest<T>(entries: &Rings<Entry<T>>, id: OpId) -> bool
    requires { IsTrue (is_sorted id_cmp (entries_of entries.now.items)) }
    ensures { IsTrue result ↔ GoesTo id_cmp id (keys_of (entries_of entries.now.items)) (length entries.now.items) }
{
    let count = entries.len();
    if count == 0 {
        return true;
    }
    is_above(id, id_at(entries, count - 1))
}

/// Whether an id is greater than another. Counters decide nearly always, so they are compared first, and alone.
fn is_above(id: OpId, other: OpId) -> bool
    ensures { result ≡ is_gt (id_cmp id other) }
{
    if id.counter != other.counter {
        return id.counter > other.counter;
    }
    id.replica.number() > other.replica.number()
}

/// Whether the vector covers the id of an entry, whose index may be past the vector.
fn is_covered<T>(vector: &VersionVector, entry: &Entry<T>) -> bool
    ensures { result ≡ (nat_lt entry.now.index (length vector.now) && nat_le entry.now.counter (slice_index vector.now entry.now.index)) }
{
    entry.index < vector.width() && vector.covers(entry.index, entry.counter)
}

impl<T: Drop> EntryList<T> {
    /// Puts an entry where its id belongs; `index` is the index of the id's replica in the table. Replaces the id's value, if it has one.
    ///
    /// Allocates nothing. A binary search and one insert into `Rings`; for the greatest id one comparison and one push.
    pub fn put(&mut self, id: OpId, index: usize, value: T)
        requires { 0 < self.old.room }
        ensures entries { self.new.entries ≡ put id_cmp id value self.old.entries }
        ensures indices { self.new.indices ≡ put_index id index (keys_of self.old.entries) self.old.indices }
        ensures indexed { (table : List ℕ) → slice_get table index ≡ Some id.replica → AreIndicesIn table self.old.entries self.old.indices
            → AreIndicesIn table self.new.entries self.new.indices }
        ensures room { self.old.room ≤ self.new.room + 1 }
    {
        put_in(&mut self.entries, id, index, value);
    }

    /// Removes the entries whose ids the vector covers. Allocates nothing, makes the rings contiguous, looks at each entry once, and shifts
    /// the entries that stay to the front.
    pub fn clear(&mut self, vector: &VersionVector)
        requires { All (λ index. index < length vector.now) self.old.indices }
        ensures kept { zip self.new.entries self.new.indices
            ≡ filter (λ e. is_uncovered vector.now (e.0.0.counter, e.1)) (zip self.old.entries self.old.indices) }
        ensures without { (table : List ℕ) → AreDistinct table → length table ≤ length vector.now
            → AreIndicesIn table self.old.entries self.old.indices
            → self.new.entries ≡ without (covers (by_table table vector.now)) self.old.entries }
        ensures indexed { (table : List ℕ) → AreIndicesIn table self.old.entries self.old.indices
            → AreIndicesIn table self.new.entries self.new.indices }
        ensures room { self.old.room ≤ self.new.room }
    {
        self.entries.retain(|entry| !is_covered(vector, entry));
    }
}

/// Puts an entry where its id belongs. Replaces the id's value, if it has one.
fn put_in<T: Drop>(entries: &mut Rings<Entry<T>>, id: OpId, index: usize, value: T)
    requires rising { IsTrue (is_sorted id_cmp (entries_of entries.old.items)) }
    requires room { 0 < entries.old.room }
    ensures entries { entries_of entries.new.items ≡ put id_cmp id value (entries_of entries.old.items) }
    ensures indices { indices_of entries.new.items
        ≡ put_index id index (keys_of (entries_of entries.old.items)) (indices_of entries.old.items) }
    ensures room { entries.old.room ≤ entries.new.room + 1 }
{
    let OpId { counter, replica } = id;
    match find_id(entries, id) {
        Ok(position) => {
            let entry = Entry {
                counter,
                index: entries.get(position).index,
                replica,
                value,
            };
            let _ = entries.replace(position, entry);
        }
        Err(position) => {
            let entry = Entry {
                counter,
                index,
                replica,
                value,
            };
            entries.insert(position, entry);
        }
    }
}
