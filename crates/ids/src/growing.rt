//! A version vector that grows.

ghost use Rattle.std.specs.Prelude.{◌≡◌, ◌<◌, ◌≤◌, ◌+◌, [], OnOk};
ghost use Rattle.ids.specs.Vectors.{IsCanonical, greatest, raise};

use crate::OpId;
use crate::named_vector::greatest_counter;
use std::alloc::{AllocError, Global};
use std::marker::Model;

/// The greatest counter, above 0, of each replica that it names. The vector of all that was applied is one. Contracts see the pairs as ids,
/// in ascending order of replica, and for how many more replicas there is room.
#[derive(Debug, Drop)]
pub struct GrowingVector {
    ids: Vec<OpId>,
}

impl Model for GrowingVector {
    ghost use Rattle.std.specs.Prelude.{◌-◌, vec_capacity, vec_len};
    ghost use Rattle.ids.specs.Vectors.{IsCanonical};
    ghost use Rattle.ids.specs.Growing.{Growing};

    ghost Value = { Growing };

    ghost view = { λ v. record { ids = v.ids.items; room = vec_capacity v.ids - vec_len v.ids } };

    ghost invariant = { λ v. IsCanonical v.ids.items };
}

impl GrowingVector {
    /// The vector that names nothing. Allocates nothing.
    pub fn new(alloc: Global) -> GrowingVector
        ensures { result.ids ≡ [] }
    {
        GrowingVector {
            ids: Vec::new(alloc),
        }
    }

    /// The pairs, each as the id of its replica with its counter.
    pub fn ids(&self) -> &[OpId]
        ensures ids { result.now ≡ self.now.ids }
        ensures canonical { IsCanonical self.now.ids }
    {
        self.ids.as_slice()
    }

    /// The greatest counter, 0 if nothing is named. Looks at each pair.
    pub fn greatest(&self) -> u64
        ensures { result ≡ greatest self.now.ids }
    {
        greatest_counter(self.ids.as_slice())
    }

    /// Makes room for one more replica.
    ///
    /// # Errors
    /// `AllocError` if allocation fails.
    pub fn reserve_one(&mut self) -> Result<(), AllocError>
        ensures same { self.new.ids ≡ self.old.ids }
        ensures room { OnOk result (0 < self.new.room) }
        ensures kept { self.old.room ≤ self.new.room }
    {
        self.ids.reserve(1)
    }

    /// Raises the counter of the id's replica to the id's, unless it is greater already; a replica that isn't named yet is inserted in
    /// order. Binary search. Allocates nothing.
    pub fn raise(&mut self, id: OpId)
        requires counted { 0 < id.counter }
        requires room { 0 < self.old.room }
        ensures ids { self.new.ids ≡ raise id self.old.ids }
        ensures room { self.old.room ≤ self.new.room + 1 }
    {
        match self
            .ids
            .binary_search_by_key(&id.replica, |other| other.replica)
        {
            Ok(position) => {
                let other = &mut self.ids[position];
                other.counter = id.counter.max(other.counter);
            }
            Err(position) => {
                if self.ids.insert(position, id).is_err() {
                    unreachable!()
                }
            }
        }
    }
}

impl Clone for GrowingVector {
    ghost is_clone = { λ s t. t.ids ≡ s.ids };

    fn clone(&self) -> Result<GrowingVector, AllocError> {
        Ok(GrowingVector {
            ids: self.ids.clone()?,
        })
    }
}
