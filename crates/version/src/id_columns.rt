//! Ids in columns, and the vector's filter over them.

ghost use Rattle.std.specs.Prelude.{◌≡◌, ◌≤◌, ◌<◌, ◌+◌, [], length, Some, slice_get, vec_len, vec_capacity, OnOk};
ghost use Rattle.std.specs.List.{All, insert, zip, items_where_true};
ghost use Rattle.lanes.specs.Kernels.{packed};
ghost use Rattle.version.specs.Columns.{OfOneLength, uncovered, first_bits};

use crate::marks::keep_marked;
use crate::vector::VersionVector;
use rings::Rings;
use std::alloc::{AllocError, Global};
use std::marker::Model;

/// Ids of replicas of a table, in an order that the caller chooses: a column of counters and a column of the replicas' indices in the
/// table, with scratch room for the bound that a vector sets for each id and for one bit of each.
///
/// Contracts see the ids, and for how many more there is room.
#[derive(Debug, Drop)]
pub struct IdColumns {
    counters: Rings<u64>,
    indices: Rings<usize>,
    bounds: Vec<u64>,
    mask: Vec<u64>,
}

impl Model for IdColumns {
    ghost use Rattle.std.specs.Prelude.{min, ◌-◌, vec_len, vec_capacity};
    ghost use Rattle.std.specs.List.{zip};
    ghost use Rattle.version.specs.Columns.{Columns, OfOneLength};

    ghost Value = { Columns };

    ghost view = { λ c. record {
      ids = zip c.counters.items c.indices.items;
      room = min (min c.counters.room c.indices.room)
          (min (vec_capacity c.bounds - vec_len c.bounds) (vec_capacity c.mask - vec_len c.mask));
    } };

    ghost invariant = { λ c. OfOneLength c.counters.items c.indices.items c.bounds.items c.mask.items };
}

impl IdColumns {
    pub fn new(alloc: Global) -> IdColumns
        ensures { result.ids ≡ [] }
    {
        IdColumns {
            counters: Rings::new(alloc),
            indices: Rings::new(alloc),
            bounds: Vec::new(alloc),
            mask: Vec::new(alloc),
        }
    }

    /// How many ids there are.
    pub fn len(&self) -> usize
        ensures { result ≡ length self.now.ids }
    {
        self.counters.len()
    }

    /// The counter of the id at a position, and the index of its replica.
    pub fn at(&self, position: usize) -> (u64, usize)
        requires { position < length self.now.ids }
        ensures { slice_get self.now.ids position ≡ Some result }
    {
        (*self.counters.get(position), *self.indices.get(position))
    }

    /// Makes room for one more id.
    ///
    /// # Errors
    /// `AllocError` if allocation fails.
    pub fn reserve_one(&mut self) -> Result<(), AllocError>
        ensures same { self.new.ids ≡ self.old.ids }
        ensures room { OnOk result (0 < self.new.room) }
        ensures kept { self.old.room ≤ self.new.room }
    {
        self.counters.reserve_one()?;
        self.indices.reserve_one()?;
        self.bounds.reserve(1)?;
        self.mask.reserve(1)
    }

    /// Inserts an id at a position. Allocates nothing. Costs as much as an insert into `Rings`, so at the end it is one push.
    pub fn insert(&mut self, position: usize, counter: u64, index: usize)
        requires within { position ≤ length self.old.ids }
        requires room { 0 < self.old.room }
        ensures ids { self.new.ids ≡ insert self.old.ids position (counter, index) }
        ensures room { self.old.room ≤ self.new.room + 1 }
    {
        self.counters.insert(position, counter);
        self.indices.insert(position, index);
        self.bounds.push_reserved(0);
        if self.mask.len() < self.counters.len().div_ceil(64) {
            self.mask.push_reserved(0);
        }
    }
}

impl VersionVector {
    /// Keeps, in order, the ids that the vector doesn't cover. Allocates nothing.
    pub fn keep_uncovered(&self, ids: &mut IdColumns)
        requires { All (λ id. id.1 < length self.now) ids.old.ids }
        ensures ids { ids.new.ids ≡ items_where_true (uncovered self.now ids.old.ids) ids.old.ids }
        ensures room { ids.old.room ≤ ids.new.room }
    {
        ids.counters.make_contiguous();
        ids.indices.make_contiguous();
        mark_uncovered(
            self,
            ids.counters.as_slice(),
            ids.indices.as_slice(),
            &mut ids.bounds,
            &mut ids.mask,
        );
        keep_ids(
            &mut ids.counters,
            &mut ids.indices,
            &mut ids.bounds,
            &mut ids.mask,
        );
    }
}

/// Sets the bit of each id that the vector doesn't cover, and clears the others. The ids are given as two columns; the bounds are
/// scratch. Allocates nothing.
fn mark_uncovered(
    vector: &VersionVector,
    counters: &[u64],
    indices: &[usize],
    bounds: &mut Vec<u64>,
    mask: &mut Vec<u64>,
)
    requires width { OfOneLength counters.now indices.now bounds.old.items mask.old.items }
    requires within { All (λ id. id.1 < length vector.now) (zip counters.now indices.now) }
    ensures marks { mask.new.items ≡ packed (uncovered vector.now (zip counters.now indices.now)) }
    ensures bounds { length bounds.new.items ≡ length bounds.old.items }
    ensures mask { length mask.new.items ≡ length mask.old.items }
    ensures capacity_of_bounds { vec_capacity bounds.new ≡ vec_capacity bounds.old }
    ensures capacity_of_mask { vec_capacity mask.new ≡ vec_capacity mask.old }
{
    for (position, index) in indices.iter().enumerate() {
        bounds[position] = vector.get(*index);
    }
    lanes::mask_over(counters, bounds, mask);
}

/// Keeps, in order, the ids whose bits are set.
fn keep_ids(
    counters: &mut Rings<u64>,
    indices: &mut Rings<usize>,
    bounds: &mut Vec<u64>,
    mask: &mut Vec<u64>,
)
    requires { OfOneLength counters.old.items indices.old.items bounds.old.items mask.old.items }
    ensures ids { zip counters.new.items indices.new.items
        ≡ items_where_true (first_bits mask.old.items (length counters.old.items)) (zip counters.old.items indices.old.items) }
    ensures width { OfOneLength counters.new.items indices.new.items bounds.new.items mask.new.items }
    ensures few { length counters.new.items ≤ length counters.old.items }
    ensures capacity_of_counters { counters.old.room ≤ counters.new.room }
    ensures capacity_of_indices { indices.old.room ≤ indices.new.room }
    ensures capacity_of_bounds { vec_capacity bounds.new ≡ vec_capacity bounds.old }
    ensures capacity_of_mask { vec_capacity mask.new ≡ vec_capacity mask.old }
{
    keep_marked(counters, mask);
    keep_marked(indices, mask);
    bounds.truncate(counters.len());
    mask.truncate(counters.len().div_ceil(64));
}
