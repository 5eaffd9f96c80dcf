//! Version vectors that name their replicas.

ghost use Rattle.std.specs.Prelude.{◌≡◌, ◌<◌, ◌≤◌, ◌∷◌, ◌++◌, [], ℕ, length, MatchResult, IfOk, slice_index_or};
ghost use Rattle.std.specs.Cmp;
ghost use Rattle.std.specs.Cmp.Lexicographic.{pointwise};
ghost use Rattle.ids.specs.Ids.{is_same_id};
ghost use Rattle.ids.specs.SameVectors.{same_vector_equiv};
ghost use Rattle.ids.specs.Vectors.{AreBelow, IsCanonical, IsNamed, at, covers, greatest, is_at_most, most_named};
ghost use Rattle.ids.specs.declared.id.OpId.{OpId as Id};

use crate::{OpId, ReplicaId};
use std::alloc::{AllocError, Global};
use std::marker::Model;

/// The most replicas that a vector names.
pub const MOST_NAMED: usize = 256;

/// The greatest counter, above 0, of each replica that it names: at most 256 pairs, in ascending order of replica. Contracts see them as
/// ids.
#[derive(Debug, Drop)]
pub struct NamedVector {
    ids: Vec<OpId>,
}

impl Model for NamedVector {
    ghost use Rattle.ids.specs.Vectors.{IsNamed, Vector};

    ghost Value = { Vector };

    ghost view = { λ v. v.ids.items };

    ghost invariant = { λ v. IsNamed v.ids.items };
}

impl NamedVector {
    /// The vector that names nothing. Allocates nothing.
    pub fn new(alloc: Global) -> NamedVector
        ensures { result ≡ [] }
    {
        NamedVector {
            ids: Vec::new(alloc),
        }
    }

    /// The vector that names nothing, with room for this many pairs.
    ///
    /// # Errors
    /// `AllocError` if allocation fails.
    pub fn with_capacity(alloc: Global, pairs: usize) -> Result<NamedVector, AllocError>
        ensures { IfOk result (λ v. v ≡ []) }
    {
        Ok(NamedVector {
            ids: Vec::with_capacity(alloc, pairs)?,
        })
    }

    /// The vector of these pairs, which it copies.
    ///
    /// # Errors
    /// `AllocError` if allocation fails.
    pub fn of(alloc: Global, ids: &[OpId]) -> Result<NamedVector, AllocError>
        requires { IsNamed ids.now }
        ensures { IfOk result (λ v. v ≡ ids.now) }
    {
        Ok(NamedVector {
            ids: ids.to_vec(alloc)?,
        })
    }

    /// Names one more replica, which is greater than all that are named.
    ///
    /// # Errors
    /// `AllocError` if allocation fails. The vector then stays as it was.
    pub fn push(&mut self, id: OpId) -> Result<(), AllocError>
        requires counted { 0 < id.counter }
        requires above { AreBelow id.replica self.old }
        requires room { length self.old < most_named }
        ensures { MatchResult result (λ _. self.new ≡ self.old ++ id ∷ []) (λ _. self.new ≡ self.old) }
    {
        self.ids.push(id)?;
        Ok(())
    }

    /// The pairs, each as the id of its replica with its counter.
    pub fn ids(&self) -> &[OpId]
        ensures ids { result.now ≡ self.now }
        ensures named { IsNamed self.now }
    {
        self.ids.as_slice()
    }

    /// The counter named for a replica, 0 if it isn't named. Binary search.
    pub fn at(&self, replica: ReplicaId) -> u64
        ensures { result ≡ at self.now replica }
    {
        counter_of(self.ids.as_slice(), replica)
    }

    /// Whether the vector covers an id: its counter is at most the one named for its replica. Binary search.
    pub fn covers(&self, id: OpId) -> bool
        ensures { result ≡ covers self.now id }
    {
        id.counter <= self.at(id.replica)
    }

    /// The greatest counter, 0 if nothing is named. Looks at each pair.
    pub fn greatest(&self) -> u64
        ensures { result ≡ greatest self.now }
    {
        greatest_counter(self.ids.as_slice())
    }

    /// Whether each counter is at most the one that these pairs name for its replica. One comparison for each while both name the same
    /// replicas, else a binary search.
    pub fn is_at_most(&self, others: &[OpId]) -> bool
        requires { IsCanonical others.now }
        ensures { result ≡ is_at_most self.now others.now }
    {
        for (index, id) in self.ids.iter().enumerate() {
            if id.counter > counter_near(others, index, id.replica) {
                return false;
            }
        }
        true
    }
}

/// The greatest counter of these pairs, 0 if there are none. Looks at each.
pub fn greatest_counter(ids: &[OpId]) -> u64
    ensures { result ≡ greatest ids.now }
{
    let mut most = 0;
    for id in ids {
        most = id.counter.max(most);
    }
    most
}

/// The counter that these pairs name for a replica, 0 if none does. Binary search.
pub fn counter_of(ids: &[OpId], replica: ReplicaId) -> u64
    requires { IsCanonical ids.now }
    ensures { result ≡ at ids.now replica }
{
    match ids.binary_search_by_key(&replica, |id| id.replica) {
        Ok(index) => ids[index].counter,
        Err(_) => 0,
    }
}

/// The counter that these pairs name for a replica, 0 if none does. Tries this position first, which is right if that many smaller replicas
/// are named; else binary search.
pub fn counter_near(ids: &[OpId], position: usize, replica: ReplicaId) -> u64
    requires { IsCanonical ids.now }
    ensures { result ≡ at ids.now replica }
{
    match ids.get(position) {
        Some(id) if id.replica == replica => id.counter,
        _ => counter_of(ids, replica),
    }
}

impl Clone for NamedVector {
    ghost is_clone = { λ s t. t ≡ s };

    fn clone(&self) -> Result<NamedVector, AllocError> {
        Ok(NamedVector {
            ids: self.ids.clone()?,
        })
    }
}

impl PartialEq for NamedVector {
    ghost eq = { λ v w. pointwise is_same_id v w };

    ghost laws = { Cmp.partial_equiv_from_equiv same_vector_equiv };

    fn eq(&self, other: &NamedVector) -> bool {
        self.ids == other.ids
    }
}

impl Eq for NamedVector {
    ghost laws = { same_vector_equiv };
}
