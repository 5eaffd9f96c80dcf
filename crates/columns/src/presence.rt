//! The presence of an element.

ghost use Rattle.std.specs.Prelude.{◌≡◌, ◌≤◌, ◌<◌, ◌+◌, ℕ, List, [], length, Some, slice_get, IsTrue, IfOk, OnOk};
ghost use Rattle.std.specs.List.{All, filter, zip};
ghost use Rattle.std.specs.FinMap.{put, is_sorted};
ghost use Rattle.ids.specs.Members.{AreDistinct};
ghost use Rattle.semantics.specs.Ids.{id_cmp};
ghost use Rattle.semantics.specs.Vectors.{covers};
ghost use Rattle.semantics.specs.Tables.{by_table};
ghost use Rattle.semantics.specs.Context.{without};
ghost use Rattle.version.specs.Columns.{is_uncovered};
ghost use Rattle.columns.specs.Rank.{keys_of};
ghost use Rattle.columns.specs.Entries.{AreIndicesIn, put_index};
ghost use Rattle.columns.specs.Kinds.{AreKinds};

use crate::entry::Entry;
use crate::held_tags::HeldTags;
use crate::kinds::Kinds;
use crate::tag_columns::FEW;
use crate::tag_list::TagList;
use cursor::Tag;
use ids::OpId;
use std::alloc::{AllocError, Global};
use std::marker::Model;
use version::VersionVector;

/// How many ids that replicas write in turn stand in a list before any go into columns.
const MANY: usize = 8_192;

/// The presence of an element: the ids that keep it visible, each with its tag, and the kinds of value that are present.
///
/// As in a register, a single entry is inline, and two or more are in a box, which also has the kinds of value; so a presence is 32 bytes.
/// From the 512th entry on, new ids go into columns by replica, of eight bytes an id, as soon as two of one replica come together; where
/// replicas write in turn, from the 8,192th on.
///
/// Contracts see the entries in ascending order of id, the index of each entry's replica in the table, and for how many more entries there
/// is room.
#[derive(Debug, Drop)]
pub struct Presence {
    held: HeldTags,
    alloc: Global,
}

const _: () = prove!(size_of::<Presence>() == 32);

impl Model for Presence {
    ghost use Rattle.cursor.specs.declared.tag.Tag.{Tag};
    ghost use Rattle.columns.specs.Entries.{Entries};
    ghost use Rattle.columns.specs.HeldTags.{held_tags};

    ghost Value = { Entries Tag };

    ghost view = { λ p. held_tags p.held };
}

impl Presence {
    /// Returns an empty presence, which has room for one entry. Allocates nothing.
    pub fn new(alloc: Global) -> Presence
        ensures entries { result.entries ≡ [] }
        ensures indices { result.indices ≡ [] }
    {
        Presence {
            held: HeldTags::Empty,
            alloc,
        }
    }

    /// How many entries there are.
    pub fn len(&self) -> usize
        ensures length { result ≡ length self.now.entries }
        ensures rising { IsTrue (is_sorted id_cmp self.now.entries) }
        ensures indexed { length self.now.indices ≡ length self.now.entries }
    {
        match &self.held {
            HeldTags::Empty => 0,
            HeldTags::Single(_) => 1,
            HeldTags::Many(list) => list.len(),
            HeldTags::Wide(columns) => columns.len(),
        }
    }

    /// A copy of the entries: each id with its tag, in ascending order. Where k replicas have columns, it looks at each entry about log2 k
    /// times.
    ///
    /// # Errors
    /// `AllocError` if allocation fails.
    pub fn copy(&self, alloc: Global) -> Result<Vec<(OpId, Tag)>, AllocError>
        ensures { IfOk result (λ v. v.items ≡ self.now.entries) }
    {
        match &self.held {
            HeldTags::Empty => Ok(Vec::new(alloc)),
            HeldTags::Single(entry) => Ok(vec![in alloc; (entry.id(), entry.value)]?),
            HeldTags::Many(list) => list.copy(alloc),
            HeldTags::Wide(columns) => columns.copy(alloc),
        }
    }

    /// The kinds of value that are present. Looks at one entry at most, or at each column.
    pub fn kinds(&self) -> Kinds
        ensures { AreKinds result self.now.entries }
    {
        match &self.held {
            HeldTags::Empty => Kinds::NONE,
            HeldTags::Single(entry) => Kinds::NONE.with(entry.value),
            HeldTags::Many(list) => list.kinds(),
            HeldTags::Wide(columns) => columns.kinds(),
        }
    }

    /// Makes room for one more entry. Allocates nothing before the second entry, nor if there is room, except for a column if the last
    /// entry wanted one or filled its own.
    ///
    /// # Errors
    /// `AllocError` if allocation fails.
    pub fn reserve_one(&mut self) -> Result<(), AllocError>
        ensures entries { self.new.entries ≡ self.old.entries }
        ensures indices { self.new.indices ≡ self.old.indices }
        ensures room { OnOk result (0 < self.new.room) }
        ensures kept { self.old.room ≤ self.new.room }
    {
        match &mut self.held {
            HeldTags::Empty => Ok(()),
            HeldTags::Single(_) => self.held.spread(self.alloc),
            HeldTags::Many(list) => {
                list.reserve_one()?;
                if !wants_columns(list) {
                    return Ok(());
                }
                self.held.widen(self.alloc)
            }
            HeldTags::Wide(columns) => columns.reserve_one(),
        }
    }

    /// Puts an entry where its id belongs; `index` is the index of the id's replica in the table. Replaces the id's tag, if it has one.
    ///
    /// Allocates nothing. The first entry is one write. Later ones cost a binary search and an insert into `Rings`; the greatest id one
    /// comparison and one push. With columns, the greatest id of a replica is one comparison and one push, whatever ids others have. Looks
    /// at each entry of the list if a tag is replaced, which no write of a document does.
    pub fn put(&mut self, id: OpId, index: usize, tag: Tag)
        requires { 0 < self.old.room }
        ensures entries { self.new.entries ≡ put id_cmp id tag self.old.entries }
        ensures indices { self.new.indices ≡ put_index id index (keys_of self.old.entries) self.old.indices }
        ensures indexed { (table : List ℕ) → slice_get table index ≡ Some id.replica → AreIndicesIn table self.old.entries self.old.indices
            → AreIndicesIn table self.new.entries self.new.indices }
        ensures room { self.old.room ≤ self.new.room + 1 }
    {
        match &mut self.held {
            HeldTags::Empty => self.held = HeldTags::Single(Entry::new(id, index, tag)),
            HeldTags::Single(_) => unreachable!(),
            HeldTags::Many(list) => list.put(id, index, tag),
            HeldTags::Wide(columns) => columns.put(id, index, tag),
        }
    }

    /// Removes the entries whose ids the vector covers. Allocates nothing. With two or more entries it makes the rings of the list
    /// contiguous, looks at each entry of the list once, shifts those that stay to the front, and looks at these again if others went. A
    /// column costs a binary search and what goes.
    pub fn clear(&mut self, vector: &VersionVector)
        requires { All (λ index. index < length vector.now) self.old.indices }
        ensures kept { zip self.new.entries self.new.indices
            ≡ filter (λ e. is_uncovered vector.now (e.0.0.counter, e.1)) (zip self.old.entries self.old.indices) }
        ensures without { (table : List ℕ) → AreDistinct table → length table ≤ length vector.now
            → AreIndicesIn table self.old.entries self.old.indices
            → self.new.entries ≡ without (covers (by_table table vector.now)) self.old.entries }
        ensures indexed { (table : List ℕ) → AreIndicesIn table self.old.entries self.old.indices
            → AreIndicesIn table self.new.entries self.new.indices }
        ensures room { self.old.room ≤ self.new.room }
    {
        match &mut self.held {
            HeldTags::Empty => {}
            HeldTags::Single(entry) => {
                if vector.covers(entry.index, entry.counter) {
                    let _ = self.held.take_single();
                }
            }
            HeldTags::Many(list) => list.clear(vector),
            HeldTags::Wide(columns) => columns.clear(vector),
        }
    }
}

/// Whether a list is so long that ids go into columns: from 512 on where the last two are of one replica, and else from 8,192 on, since
/// ids that many replicas write in turn go to the end of a list as cheaply. Looks at each sixteenth id alone.
fn wants_columns(list: &TagList) -> bool {
    let count = list.len();
    if count < FEW || count % 16 != 0 {
        return false;
    }
    count >= MANY || ends_in_a_run(list, count)
}

/// Whether the last two of so many entries are of one replica.
fn ends_in_a_run(list: &TagList, count: usize) -> bool
    requires two { 1 < count }
    requires all { count ≡ length list.now.entries }
{
    list.at(count - 1).0.replica == list.at(count - 2).0.replica
}
