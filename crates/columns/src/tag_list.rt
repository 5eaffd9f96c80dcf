//! Tags by id, in one list.

ghost use Rattle.std.specs.Prelude.{◌≡◌, ◌≤◌, ◌<◌, ◌+◌, ℕ, List, [], length, Some, slice_get, IsTrue, IfOk, OnOk};
ghost use Rattle.std.specs.List.{All, filter, zip};
ghost use Rattle.std.specs.FinMap.{put, is_sorted};
ghost use Rattle.ids.specs.Members.{AreDistinct};
ghost use Rattle.semantics.specs.Ids.{id_cmp};
ghost use Rattle.semantics.specs.Vectors.{covers};
ghost use Rattle.semantics.specs.Tables.{by_table};
ghost use Rattle.semantics.specs.Context.{without};
ghost use Rattle.version.specs.Columns.{is_uncovered};
ghost use Rattle.columns.specs.Rank.{keys_of};
ghost use Rattle.columns.specs.Entries.{AreIndicesIn, put_index};
ghost use Rattle.columns.specs.Kinds.{AreKinds};

use crate::entry_list::EntryList;
use crate::kinds::Kinds;
use cursor::Tag;
use ids::OpId;
use std::alloc::{AllocError, Global};
use std::marker::Model;
use version::VersionVector;

/// Tags by id, and the kinds of value that are present, which are then known without a look at each entry.
///
/// Contracts see what those of `EntryList` see.
#[derive(Debug, Drop)]
pub struct TagList {
    entries: EntryList<Tag>,
    kinds: Kinds,
}

impl Model for TagList {
    ghost use Rattle.cursor.specs.declared.tag.Tag.{Tag};
    ghost use Rattle.columns.specs.Entries.{Entries};
    ghost use Rattle.columns.specs.Kinds.{AreKinds};

    ghost Value = { Entries Tag };

    ghost view = { λ l. l.entries };

    ghost invariant = { λ l. AreKinds l.kinds l.entries.entries };
}

impl TagList {
    pub fn new(alloc: Global) -> TagList
        ensures entries { result.entries ≡ [] }
        ensures indices { result.indices ≡ [] }
    {
        TagList {
            entries: EntryList::new(alloc),
            kinds: Kinds::NONE,
        }
    }

    /// How many entries there are.
    pub fn len(&self) -> usize
        ensures length { result ≡ length self.now.entries }
        ensures rising { IsTrue (is_sorted id_cmp self.now.entries) }
        ensures indexed { length self.now.indices ≡ length self.now.entries }
        ensures few { result < 9_223_372_036_854_775_808 }
    {
        self.entries.len()
    }

    /// The id at a position, and its tag.
    pub fn at(&self, position: usize) -> (OpId, &Tag)
        requires { position < length self.now.entries }
        ensures { slice_get self.now.entries position ≡ Some (result.0, result.1.now) }
    {
        self.entries.at(position)
    }

    /// A copy of the entries.
    ///
    /// # Errors
    /// `AllocError` if allocation fails.
    pub fn copy(&self, alloc: Global) -> Result<Vec<(OpId, Tag)>, AllocError>
        ensures { IfOk result (λ v. v.items ≡ self.now.entries) }
    {
        let mut tags = Vec::with_capacity(alloc, self.len())?;
        for position in 0..self.len() {
            let (id, tag) = self.at(position);
            tags.push((id, *tag))?;
        }
        Ok(tags)
    }

    /// The kinds of value that are present.
    pub fn kinds(&self) -> Kinds
        ensures { AreKinds result self.now.entries }
    {
        self.kinds
    }

    /// Makes room for one more entry.
    ///
    /// # Errors
    /// `AllocError` if allocation fails.
    pub fn reserve_one(&mut self) -> Result<(), AllocError>
        ensures entries { self.new.entries ≡ self.old.entries }
        ensures indices { self.new.indices ≡ self.old.indices }
        ensures room { OnOk result (0 < self.new.room) }
        ensures kept { self.old.room ≤ self.new.room }
    {
        self.entries.reserve_one()
    }

    /// Puts an entry where its id belongs; `index` is the index of the id's replica in the table. Replaces the id's tag, if it has one.
    ///
    /// Costs what `put` of `EntryList` costs. Looks at each entry if a tag is replaced.
    pub fn put(&mut self, id: OpId, index: usize, tag: Tag)
        requires { 0 < self.old.room }
        ensures entries { self.new.entries ≡ put id_cmp id tag self.old.entries }
        ensures indices { self.new.indices ≡ put_index id index (keys_of self.old.entries) self.old.indices }
        ensures indexed { (table : List ℕ) → slice_get table index ≡ Some id.replica → AreIndicesIn table self.old.entries self.old.indices
            → AreIndicesIn table self.new.entries self.new.indices }
        ensures room { self.old.room ≤ self.new.room + 1 }
    {
        let count = self.entries.len();
        self.entries.put(id, index, tag);
        // A replaced tag may have been the only one of its kind.
        self.kinds = if self.entries.len() > count {
            self.kinds.with(tag)
        } else {
            kinds_of(&self.entries)
        };
    }

    /// Removes the entries whose ids the vector covers. Costs what `clear` of `EntryList` costs and, if entries went, a look at each of the
    /// others.
    pub fn clear(&mut self, vector: &VersionVector)
        requires { All (λ index. index < length vector.now) self.old.indices }
        ensures kept { zip self.new.entries self.new.indices
            ≡ filter (λ e. is_uncovered vector.now (e.0.0.counter, e.1)) (zip self.old.entries self.old.indices) }
        ensures without { (table : List ℕ) → AreDistinct table → length table ≤ length vector.now
            → AreIndicesIn table self.old.entries self.old.indices
            → self.new.entries ≡ without (covers (by_table table vector.now)) self.old.entries }
        ensures indexed { (table : List ℕ) → AreIndicesIn table self.old.entries self.old.indices
            → AreIndicesIn table self.new.entries self.new.indices }
        ensures room { self.old.room ≤ self.new.room }
    {
        let count = self.entries.len();
        self.entries.clear(vector);
        if self.entries.len() < count {
            self.kinds = kinds_of(&self.entries);
        }
    }
}

/// The kinds of value that are present at these ids. Looks at each entry.
fn kinds_of(entries: &EntryList<Tag>) -> Kinds
    ensures { AreKinds result entries.now.entries }
{
    let mut kinds = Kinds::NONE;
    for position in 0..entries.len() {
        kinds = kinds.with(*entries.at(position).1);
    }
    kinds
}
