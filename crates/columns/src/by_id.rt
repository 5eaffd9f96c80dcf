//! Values by id.

ghost use Rattle.std.specs.Prelude.{◌≡◌, ◌≤◌, ◌<◌, ◌+◌, ℕ, List, [], length, Some, slice_get, IsTrue, OnOk};
ghost use Rattle.std.specs.List.{All, filter, zip};
ghost use Rattle.std.specs.FinMap.{put, is_sorted};
ghost use Rattle.ids.specs.Members.{AreDistinct};
ghost use Rattle.semantics.specs.Ids.{id_cmp};
ghost use Rattle.semantics.specs.Vectors.{covers};
ghost use Rattle.semantics.specs.Tables.{by_table};
ghost use Rattle.semantics.specs.Context.{without};
ghost use Rattle.version.specs.Columns.{is_uncovered};
ghost use Rattle.columns.specs.Rank.{keys_of};
ghost use Rattle.columns.specs.Entries.{AreIndicesIn, put_index};

use crate::entry::Entry;
use crate::held::Held;
use cursor::Scalar;
use ids::OpId;
use std::alloc::{AllocError, Global};
use std::marker::Model;
use version::VersionVector;

/// A finite map by id.
///
/// Most maps hold one entry, so a single one is inline: the map is 48 bytes with a scalar, and allocates nothing. From the second entry on
/// all are in a vector behind a box, which stays when entries are removed.
///
/// Contracts see the entries, in ascending order of id, the index of each entry's replica in the table, and for how many more entries there
/// is room.
#[derive(Debug, Drop)]
pub struct ById<T> {
    held: Held<T>,
    alloc: Global,
}

/// The register of an element: the ids of its values, each with its value.
pub type Register = ById<Scalar>;

impl<T> Model for ById<T> {
    ghost use Rattle.columns.specs.Entries.{Entries};
    ghost use Rattle.columns.specs.Held.{held_entries};

    ghost Value = { Entries T };

    ghost view = { λ m. held_entries m.held };
}

impl<T> ById<T> {
    /// Returns an empty map, which has room for one entry. Allocates nothing.
    pub fn new(alloc: Global) -> ById<T>
        ensures entries { result.entries ≡ [] }
        ensures indices { result.indices ≡ [] }
    {
        ById {
            held: Held::Empty,
            alloc,
        }
    }

    /// How many entries there are.
    pub fn len(&self) -> usize
        ensures length { result ≡ length self.now.entries }
        ensures rising { IsTrue (is_sorted id_cmp self.now.entries) }
        ensures indexed { length self.now.indices ≡ length self.now.entries }
    {
        match &self.held {
            Held::Empty => 0,
            Held::Single(_) => 1,
            Held::Many(list) => list.len(),
        }
    }

    /// The id at a position, and its value.
    pub fn at(&self, position: usize) -> (OpId, &T)
        requires { position < length self.now.entries }
        ensures { slice_get self.now.entries position ≡ Some (result.0, result.1.now) }
    {
        match &self.held {
            Held::Empty => unreachable!(),
            Held::Single(entry) => (entry.id(), &entry.value),
            Held::Many(list) => list.at(position),
        }
    }
}

impl<T: Drop> ById<T> {
    /// Makes room for one more entry. Allocates nothing before the second entry, nor if there is room.
    ///
    /// # Errors
    /// `AllocError` if allocation fails.
    pub fn reserve_one(&mut self) -> Result<(), AllocError>
        ensures entries { self.new.entries ≡ self.old.entries }
        ensures indices { self.new.indices ≡ self.old.indices }
        ensures room { OnOk result (0 < self.new.room) }
        ensures kept { self.old.room ≤ self.new.room }
    {
        match &mut self.held {
            Held::Empty => Ok(()),
            Held::Single(_) => self.held.spread(self.alloc),
            Held::Many(list) => list.reserve_one(),
        }
    }

    /// Inserts an entry in the order of ids; `index` is the index of the id's replica in the table. Replaces the id's value, if it has one.
    ///
    /// Allocates nothing. The first entry is one write; a later one is a binary search and one insert into `Rings`, and for the greatest id
    /// one comparison and one push.
    pub fn put(&mut self, id: OpId, index: usize, value: T)
        requires { 0 < self.old.room }
        ensures entries { self.new.entries ≡ put id_cmp id value self.old.entries }
        ensures indices { self.new.indices ≡ put_index id index (keys_of self.old.entries) self.old.indices }
        ensures indexed { (table : List ℕ) → slice_get table index ≡ Some id.replica → AreIndicesIn table self.old.entries self.old.indices
            → AreIndicesIn table self.new.entries self.new.indices }
        ensures room { self.old.room ≤ self.new.room + 1 }
    {
        match &mut self.held {
            Held::Empty => self.held = Held::Single(Entry::new(id, index, value)),
            Held::Single(_) => unreachable!(),
            Held::Many(list) => list.put(id, index, value),
        }
    }

    /// Removes the entries whose ids the vector covers. Allocates nothing. With several entries it makes the rings contiguous, looks at
    /// each entry once, and moves the entries that stay to the front.
    pub fn clear(&mut self, vector: &VersionVector)
        requires { All (λ index. index < length vector.now) self.old.indices }
        ensures kept { zip self.new.entries self.new.indices
            ≡ filter (λ e. is_uncovered vector.now (e.0.0.counter, e.1)) (zip self.old.entries self.old.indices) }
        ensures without { (table : List ℕ) → AreDistinct table → length table ≤ length vector.now
            → AreIndicesIn table self.old.entries self.old.indices
            → self.new.entries ≡ without (covers (by_table table vector.now)) self.old.entries }
        ensures indexed { (table : List ℕ) → AreIndicesIn table self.old.entries self.old.indices
            → AreIndicesIn table self.new.entries self.new.indices }
        ensures room { self.old.room ≤ self.new.room }
    {
        match &mut self.held {
            Held::Empty => {}
            Held::Single(entry) => {
                if vector.covers(entry.index, entry.counter) {
                    let _ = self.held.take_single();
                }
            }
            Held::Many(list) => list.clear(vector),
        }
    }
}
