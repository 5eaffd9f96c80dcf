//! The ids of one replica.

ghost use Rattle.std.specs.Prelude.{◌≡◌, ◌<◌, ◌+◌, ◌++◌, ◌∷◌, [], IsTrue, IfOk, ◌==◌, not, cond, nat_lt, length};
ghost use Rattle.std.specs.List.{filter, list_any};
ghost use Rattle.version.specs.Columns.{is_uncovered};
ghost use Rattle.columns.specs.ReplicaColumns.{IsSameColumn, is_rising};

use crate::rising_counters::RisingCounters;
use cursor::Tag;
use ids::ReplicaId;
use std::alloc::{AllocError, Global};
use version::VersionVector;

/// Ids of one replica that all have one tag. Only their counters are kept, in ascending order, so an id takes eight bytes.
#[derive(Debug, Drop)]
pub struct ReplicaColumn {
    pub replica: ReplicaId,
    /// The index of the replica in the table.
    pub index: usize,
    pub tag: Tag,
    /// No id of the replica has a greater counter, neither here nor in the list that goes with the columns. So an id above it is new, and
    /// the greatest, which is known without a look at either.
    pub greatest: u64,
    pub counters: RisingCounters,
}

/// For how many ids a new column has room.
const FIRST_ROOM: usize = 32;

impl ReplicaColumn {
    /// An empty column, with room for its first ids.
    ///
    /// # Errors
    /// `AllocError` if allocation fails.
    pub fn with_room(
        alloc: Global,
        replica: ReplicaId,
        index: usize,
        tag: Tag,
        greatest: u64,
    ) -> Result<ReplicaColumn, AllocError>
        ensures counters { IfOk result (λ c. c.counters.items ≡ []) }
        ensures replica { IfOk result (λ c. c.replica ≡ replica) }
        ensures greatest { IfOk result (λ c. c.greatest ≡ greatest) }
    {
        let counters = RisingCounters::with_room(alloc, FIRST_ROOM)?;
        Ok(ReplicaColumn {
            replica,
            index,
            tag,
            greatest,
            counters,
        })
    }

    /// Makes room for one more id.
    ///
    /// # Errors
    /// `AllocError` if allocation fails.
    pub fn reserve_one(&mut self) -> Result<(), AllocError>
        ensures same { IsSameColumn self.old self.new }
        ensures greatest { self.new.greatest ≡ self.old.greatest }
        ensures counters { self.new.counters.items ≡ self.old.counters.items }
    {
        self.counters.reserve_one()
    }

    /// Whether there is room for one more id.
    pub fn has_room(&self) -> bool
        ensures { result ≡ nat_lt 0 self.now.counters.room }
    {
        self.counters.has_room()
    }

    /// Whether there is room for an id with this index and this tag.
    pub fn takes(&self, index: usize, tag: Tag) -> bool
        ensures room { IsTrue result → 0 < self.now.counters.room }
        ensures index { IsTrue result → self.now.index ≡ index }
        ensures tag { IsTrue result → self.now.tag ≡ tag }
    {
        self.index == index && self.tag == tag && self.has_room()
    }

    /// Raises the greatest counter of the replica to this one.
    pub fn raise(&mut self, counter: u64)
        ensures same { IsSameColumn self.old self.new }
        ensures greatest { self.new.greatest ≡ counter }
        ensures counters { self.new.counters ≡ self.old.counters }
    {
        self.greatest = counter;
    }

    /// Appends a counter. Allocates nothing.
    pub fn push_reserved(&mut self, counter: u64)
        requires { 0 < self.old.counters.room }
        ensures same { IsSameColumn self.old self.new }
        ensures greatest { self.new.greatest ≡ self.old.greatest }
        ensures counters { self.new.counters.items ≡ self.old.counters.items ++ counter ∷ [] }
    {
        self.counters.push_reserved(counter);
    }

    /// Removes a counter if it is there, and returns whether it was. Binary search; moves those behind it.
    pub fn remove(&mut self, counter: u64) -> bool
        requires { IsTrue (is_rising self.old.counters.items) }
        ensures same { IsSameColumn self.old self.new }
        ensures greatest { self.new.greatest ≡ self.old.greatest }
        ensures counters { self.new.counters.items ≡ filter (λ k. not (k == counter)) self.old.counters.items }
        ensures there { result ≡ list_any (λ k. k == counter) self.old.counters.items }
        ensures gone { length self.new.counters.items + cond result 1 0 ≡ length self.old.counters.items }
    {
        self.counters.remove(counter)
    }

    /// Removes the ids that the vector covers, which are the first ones, and returns how many they were. Costs what `cut` of
    /// `RisingCounters` costs.
    pub fn cut(&mut self, vector: &VersionVector) -> usize
        requires rising { IsTrue (is_rising self.old.counters.items) }
        requires within { 0 < length self.old.counters.items → self.old.index < length vector.now }
        ensures same { IsSameColumn self.old self.new }
        ensures greatest { self.new.greatest ≡ self.old.greatest }
        ensures counters { self.new.counters.items
            ≡ filter (λ k. is_uncovered vector.now (k, self.old.index)) self.old.counters.items }
        ensures gone { length self.new.counters.items + result ≡ length self.old.counters.items }
    {
        if self.counters.is_empty() {
            return 0;
        }
        self.counters.cut(vector.get(self.index))
    }
}
