//! Tags by id, in a column for each replica.

ghost use Rattle.std.specs.Prelude.{◌≡◌, ◌≤◌, ◌<◌, ◌+◌, ℕ, List, [], length, Some, slice_get, IsTrue, IfOk, OnOk};
ghost use Rattle.std.specs.List.{All, filter, zip};
ghost use Rattle.std.specs.FinMap.{put, is_sorted};
ghost use Rattle.ids.specs.Members.{AreDistinct};
ghost use Rattle.semantics.specs.Ids.{id_cmp};
ghost use Rattle.semantics.specs.Vectors.{covers};
ghost use Rattle.semantics.specs.Tables.{by_table};
ghost use Rattle.semantics.specs.Context.{without};
ghost use Rattle.version.specs.Columns.{is_uncovered};
ghost use Rattle.columns.specs.Rank.{keys_of};
ghost use Rattle.columns.specs.Entries.{AreIndicesIn, put_index};
ghost use Rattle.columns.specs.Kinds.{AreKinds};

use crate::kinds::Kinds;
use crate::replica_column::ReplicaColumn;
use crate::replica_columns::{
    MARKS, clear_columns, kinds_of, merge, place_of, put_standing, reserve_column,
};
use crate::tag_list::TagList;
use cursor::Tag;
use ids::{OpId, ReplicaId};
use std::alloc::{AllocError, Global};
use std::marker::Model;
use version::VersionVector;

/// How many ids stand in the list before a replica gets a column.
pub const FEW: usize = 512;

/// How many more have to stand there for each column, so that hundreds of replicas with a few ids each get few columns.
const EACH: usize = 16;

/// The column that the next `reserve_one` makes, or extends.
#[derive(Clone, Copy, Debug)]
struct Wanted {
    replica: ReplicaId,
    index: usize,
    tag: Tag,
}

/// Tags by id: a list, and for each replica a column of ids that came in ascending order.
///
/// An id that is the greatest of its replica is pushed to the replica's column. What doesn't fit goes into the list: an id that isn't the
/// greatest, one with another tag or index, and the first one, for which there is no column yet.
///
/// A replica's column is found by its mark (without one it has none, and nothing is searched) and the hint at its index. So among hundreds
/// of replicas that write in turn an id costs about what it costs in one list.
///
/// Contracts see what those of `TagList` see. The room is that of the list: what a full column can't take goes into the list.
#[derive(Debug, Drop)]
pub struct TagColumns {
    list: TagList,
    columns: Vec<ReplicaColumn>,
    /// How many ids are in columns.
    count: usize,
    /// The places at which the columns of replicas are looked for first, by their indices in the table.
    places: Vec<usize>,
    /// Which replicas may have a column.
    marks: [bool; MARKS],
    wanted: Option<Wanted>,
}

impl Model for TagColumns {
    ghost use Rattle.std.specs.Prelude.{◌≡◌, ◌≤◌, length};
    ghost use Rattle.cursor.specs.declared.tag.Tag.{Tag};
    ghost use Rattle.columns.specs.Entries.{Entries};
    ghost use Rattle.columns.specs.Marks.{AreMarked};
    ghost use Rattle.columns.specs.ReplicaColumns.{AreCounted, replicas_of, with_columns};

    ghost Value = { Entries Tag };

    ghost view = { λ t. with_columns t.list t.columns.items };

    ghost invariant = { λ t. AreCounted t.list t.columns.items t.count × AreMarked t.marks (replicas_of t.columns.items) };
}

impl TagColumns {
    /// Returns an empty map. Allocates nothing.
    pub fn new(alloc: Global) -> TagColumns
        ensures { result.entries ≡ [] }
    {
        TagColumns {
            list: TagList::new(alloc),
            columns: Vec::new(alloc),
            count: 0,
            places: Vec::new(alloc),
            marks: [false; MARKS],
            wanted: None,
        }
    }

    /// Replaces everything by the entries of a list.
    pub fn hold(&mut self, list: TagList)
        ensures { self.new ≡ list }
    {
        prove!(list.len() <= usize::MAX);
        let alloc = *self.columns.allocator();
        *self = TagColumns {
            list,
            columns: Vec::new(alloc),
            count: 0,
            places: Vec::new(alloc),
            marks: [false; MARKS],
            wanted: None,
        };
    }

    /// How many entries there are.
    pub fn len(&self) -> usize
        ensures length { result ≡ length self.now.entries }
        ensures rising { IsTrue (is_sorted id_cmp self.now.entries) }
        ensures indexed { length self.now.indices ≡ length self.now.entries }
    {
        self.list.len() + self.count
    }

    /// A copy of the entries. Costs what `merge` of the columns costs.
    ///
    /// # Errors
    /// `AllocError` if allocation fails.
    pub fn copy(&self, alloc: Global) -> Result<Vec<(OpId, Tag)>, AllocError>
        ensures { IfOk result (λ v. v.items ≡ self.now.entries) }
    {
        prove!(self.list.len() <= usize::MAX);
        merge(&self.columns, self.list.copy(alloc)?, alloc)
    }

    /// The kinds of value that are present. Looks at each column.
    pub fn kinds(&self) -> Kinds
        ensures { AreKinds result self.now.entries }
    {
        prove!(self.list.len() <= usize::MAX);
        kinds_of(&self.columns, self.list.kinds())
    }

    /// Makes room for one more entry: in the list, and in the column that the last entry filled, or would have gone to.
    ///
    /// # Errors
    /// `AllocError` if allocation fails.
    pub fn reserve_one(&mut self) -> Result<(), AllocError>
        ensures entries { self.new.entries ≡ self.old.entries }
        ensures indices { self.new.indices ≡ self.old.indices }
        ensures room { OnOk result (0 < self.new.room) }
        ensures kept { self.old.room ≤ self.new.room }
    {
        self.list.reserve_one()?;
        if let Some(
            Wanted {
                replica,
                index,
                tag,
            },
        ) = self.wanted
        {
            reserve_column(
                &self.list,
                &mut self.columns,
                &mut self.places,
                &mut self.marks,
                replica,
                index,
                tag,
            )?;
            self.wanted = None;
        }
        Ok(())
    }

    /// Puts an entry where its id belongs; `index` is the index of the id's replica in the table. Replaces the id's tag, if it has one.
    ///
    /// Allocates nothing. One push if the id is the greatest of its replica and this has a column; else what `put` of `TagList` costs.
    // Not inlined into `Presence::put`, so that a put into a list, which most are, saves no registers for it.
    #[inline(never)]
    pub fn put(&mut self, id: OpId, index: usize, tag: Tag)
        requires { 0 < self.old.room }
        ensures entries { self.new.entries ≡ put id_cmp id tag self.old.entries }
        ensures indices { self.new.indices ≡ put_index id index (keys_of self.old.entries) self.old.indices }
        ensures indexed { (table : List ℕ) → slice_get table index ≡ Some id.replica → AreIndicesIn table self.old.entries self.old.indices
            → AreIndicesIn table self.new.entries self.new.indices }
        ensures room { self.old.room ≤ self.new.room + 1 }
    {
        let replica = id.replica;
        let wants = self.put_entry(id, index, tag);
        let enough = self.columns.len().saturating_mul(EACH).saturating_add(FEW);
        if wants && self.list.len() >= enough {
            self.want(Wanted {
                replica,
                index,
                tag,
            });
        }
    }

    /// Removes the entries whose ids the vector covers. Costs what `clear` of `TagList` costs, and for each column a binary search and what
    /// goes.
    pub fn clear(&mut self, vector: &VersionVector)
        requires { All (λ index. index < length vector.now) self.old.indices }
        ensures kept { zip self.new.entries self.new.indices
            ≡ filter (λ e. is_uncovered vector.now (e.0.0.counter, e.1)) (zip self.old.entries self.old.indices) }
        ensures without { (table : List ℕ) → AreDistinct table → length table ≤ length vector.now
            → AreIndicesIn table self.old.entries self.old.indices
            → self.new.entries ≡ without (covers (by_table table vector.now)) self.old.entries }
        ensures indexed { (table : List ℕ) → AreIndicesIn table self.old.entries self.old.indices
            → AreIndicesIn table self.new.entries self.new.indices }
        ensures room { self.old.room ≤ self.new.room }
    {
        prove!(self.list.len() <= usize::MAX);
        self.list.clear(vector);
        prove!(self.list.len() <= usize::MAX);
        self.count = clear_columns(&mut self.columns, self.count, vector);
    }

    /// Puts an entry, and returns whether the column of its replica should be made or extended.
    fn put_entry(&mut self, id: OpId, index: usize, tag: Tag) -> bool
        requires { 0 < self.old.room }
        ensures entries { self.new.entries ≡ put id_cmp id tag self.old.entries }
        ensures indices { self.new.indices ≡ put_index id index (keys_of self.old.entries) self.old.indices }
        ensures indexed { (table : List ℕ) → slice_get table index ≡ Some id.replica → AreIndicesIn table self.old.entries self.old.indices
            → AreIndicesIn table self.new.entries self.new.indices }
        ensures room { self.old.room ≤ self.new.room + 1 }
    {
        prove!(self.list.len() <= usize::MAX);
        let place = place_of(&self.columns, &self.places, &self.marks, id.replica, index);
        put_standing(
            &mut self.list,
            &mut self.columns,
            &mut self.count,
            place,
            id,
            index,
            tag,
        )
    }

    /// Notes the column that the next `reserve_one` makes, or extends.
    fn want(&mut self, wanted: Wanted)
        ensures { self.new ≡ self.old }
    {
        self.wanted = Some(wanted);
    }
}
