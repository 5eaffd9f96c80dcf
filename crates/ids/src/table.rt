//! The table of a document's replicas.

ghost use Rattle.std.specs.Prelude.{◌≡◌, ◌<◌, ◌≤◌, ◌+◌, ◌++◌, ◌∷◌, ◌↔◌, ◌⊎◌, ℕ, [], length, slice_get, slice_index_or, false, Some, Err};
ghost use Rattle.std.specs.Prelude.{IsTrue, IsFalse, IfOk, OnOk, IfErr, IfSome, IsNone};
ghost use Rattle.ids.specs.Members.{AreDistinct, is_member, in_order};
ghost use Rattle.ids.specs.Configurations.{are_members};
ghost use Rattle.ids.specs.Tables.{joined, lacks_room};
ghost use Rattle.ids.specs.Vectors.{most_named};

use crate::growing::GrowingVector;
use crate::members::are_members;
use crate::named_vector::counter_of;
use crate::{MOST_NAMED, OpId, Refusal, ReplicaId};
use std::alloc::{AllocError, Global};
use std::marker::Model;

/// The replicas of a document: at most 256 distinct numbers, each with its index. First come the members that the table was made of, in
/// ascending order, and then others in the order in which they joined. Contracts see the numbers, and for how many more there is room.
#[derive(Debug, Drop)]
pub struct ReplicaTable {
    replicas: Vec<ReplicaId>,
    /// Each replica with its index plus 1, as a vector holds counters, so that a binary search works whatever the order of the table.
    places: GrowingVector,
}

impl Model for ReplicaTable {
    ghost use Rattle.std.specs.Prelude.{◌-◌, min, vec_capacity, vec_len};
    ghost use Rattle.ids.specs.Tables.{IsTable, Table};

    ghost Value = { Table };

    ghost view = { λ t. record {
      numbers = t.replicas.items;
      room = min (vec_capacity t.replicas - vec_len t.replicas) t.places.room;
    } };

    ghost invariant = { λ t. IsTable t.replicas.items t.places.ids };
}

impl ReplicaTable {
    ghost use Rattle.ids.specs.declared.refusal.Refusal.TheVariants.{NoMemory, BadConfig};

    /// The table of these members, sorted.
    ///
    /// # Errors
    /// `BadConfig` if these aren't 1 to 64 distinct numbers above 0, else `NoMemory` if allocation fails.
    pub fn new(alloc: Global, members: &[u32]) -> Result<ReplicaTable, Refusal>
        ensures table { IfOk result (λ table. table.numbers ≡ in_order members.now) }
        ensures same { IfOk result (λ table. (p : ℕ) → is_member table.numbers p ≡ is_member members.now p) }
        ensures members { OnOk result (IsTrue (are_members members.now)) }
        ensures bad_config { (result ≡ Err BadConfig) ↔ IsFalse (are_members members.now) }
        ensures other { IfErr result (λ why. (why ≡ BadConfig) ⊎ (why ≡ NoMemory)) }
    {
        if !are_members(members) {
            return Err(Refusal::BadConfig);
        }
        let mut numbers = members.to_vec(alloc)?;
        numbers.sort_unstable();
        Ok(table_of(alloc, numbers.as_slice())?)
    }

    /// The index of a replica, or `None` if it isn't in the table. Binary search.
    pub fn index_of(&self, replica: ReplicaId) -> Option<usize>
        ensures found { IfSome result (λ index. slice_get self.now.numbers index ≡ Some replica) }
        ensures none { IsNone result ↔ IsFalse (is_member self.now.numbers replica) }
    {
        match counter_of(self.places.ids(), replica) {
            0 => None,
            place => Some(place as usize - 1),
        }
    }

    /// The replica at an index, or `None` past the end.
    pub fn at(&self, index: usize) -> Option<ReplicaId>
        ensures { result ≡ slice_get self.now.numbers index }
    {
        self.replicas.get(index).copied()
    }

    /// How many replicas there are, at most 256.
    pub fn len(&self) -> usize
        ensures length { result ≡ length self.now.numbers }
        ensures few { result ≤ most_named }
        ensures distinct { AreDistinct self.now.numbers }
    {
        self.replicas.len()
    }

    /// Whether the replica isn't in the table, and the table is full. Binary search in a full table.
    pub fn lacks_room_for(&self, replica: ReplicaId) -> bool
        ensures { result ≡ lacks_room self.now.numbers replica }
    {
        self.replicas.len() >= MOST_NAMED && self.index_of(replica).is_none()
    }

    /// Makes room for one more replica.
    ///
    /// # Errors
    /// `AllocError` if allocation fails.
    pub fn reserve_one(&mut self) -> Result<(), AllocError>
        ensures numbers { self.new.numbers ≡ self.old.numbers }
        ensures room { OnOk result (0 < self.new.room) }
        ensures kept { self.old.room ≤ self.new.room }
    {
        self.replicas.reserve(1)?;
        self.places.reserve_one()
    }

    /// Appends a replica that isn't in the table. Returns its index. Allocates nothing.
    pub fn join(&mut self, replica: ReplicaId) -> usize
        requires new { is_member self.old.numbers replica ≡ false }
        requires few { length self.old.numbers < most_named }
        requires room { 0 < self.old.room }
        ensures numbers { self.new.numbers ≡ self.old.numbers ++ replica ∷ [] }
        ensures index { result ≡ length self.old.numbers }
        ensures room { self.old.room ≤ self.new.room + 1 }
    {
        let index = self.replicas.len();
        let counter = index as u64 + 1;
        self.places.raise(OpId { counter, replica });
        self.replicas.push_reserved(replica);
        index
    }

    /// The index of a replica, which joins if it isn't in the table. Binary search.
    pub fn index_or_join(&mut self, replica: ReplicaId) -> usize
        requires fits { lacks_room self.old.numbers replica ≡ false }
        requires room { 0 < self.old.room }
        ensures numbers { self.new.numbers ≡ joined replica self.old.numbers }
        ensures index { slice_get self.new.numbers result ≡ Some replica }
        ensures room { self.old.room ≤ self.new.room + 1 }
    {
        match self.index_of(replica) {
            Some(index) => index,
            None => self.join(replica),
        }
    }
}

/// The table of these numbers, in their order.
fn table_of(alloc: Global, numbers: &[u32]) -> Result<ReplicaTable, AllocError>
    requires distinct { AreDistinct numbers.now }
    requires few { length numbers.now ≤ most_named }
    requires above_zero { (k : ℕ) → k < length numbers.now → 0 < slice_index_or numbers.now k 0 }
    ensures { IfOk result (λ table. table.numbers ≡ numbers.now) }
{
    let mut table = ReplicaTable {
        replicas: Vec::new(alloc),
        places: GrowingVector::new(alloc),
    };
    for number in numbers {
        let Some(replica) = ReplicaId::new(*number) else {
            unreachable!()
        };
        table.reserve_one()?;
        table.join(replica);
    }
    Ok(table)
}

impl Clone for ReplicaTable {
    ghost is_clone = { λ s t. t.numbers ≡ s.numbers };

    fn clone(&self) -> Result<ReplicaTable, AllocError> {
        Ok(ReplicaTable {
            replicas: self.replicas.clone()?,
            places: self.places.clone()?,
        })
    }
}
