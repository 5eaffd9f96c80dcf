//! The ids of one replica, with a number for each.

ghost use Rattle.std.specs.Prelude.{◌≡◌, ◌<◌, ◌==◌, ◌++◌, ◌∷◌, [], IsTrue, IfOk, ℕ, false, length, nat_lt, slice_set, slice_index_or};
ghost use Rattle.std.specs.Prelude.{vec_len, vec_capacity};
ghost use Rattle.std.specs.Prelude.{MatchOption};
ghost use Rattle.std.specs.List.{list_any};
ghost use Rattle.columns.specs.NumberColumns.{IsNumberColumn, numbered_in};
ghost use Rattle.semantics.specs.Ids.{id_at, id_cmp};
ghost use Rattle.std.specs.FinMap.{find};
ghost use Rattle.columns.specs.ReplicaColumns.{is_rising};

use ids::ReplicaId;
use std::alloc::{AllocError, Global};
use std::cmp::Ordering;

/// For how many ids a new column has room.
const FIRST_ROOM: usize = 32;

/// The ids of one replica by their counters, in ascending order, and the number of each: 16 bytes an id.
#[derive(Debug, Drop)]
pub struct NumberColumn {
    pub replica: ReplicaId,
    pub counters: Vec<u64>,
    pub numbers: Vec<usize>,
}

impl NumberColumn {
    /// An empty column, with room for its first ids.
    ///
    /// # Errors
    /// `AllocError` if allocation fails.
    pub fn with_room(alloc: Global, replica: ReplicaId) -> Result<NumberColumn, AllocError>
        ensures counters { IfOk result (λ c. c.counters.items ≡ []) }
        ensures numbers { IfOk result (λ c. c.numbers.items ≡ []) }
        ensures replica { IfOk result (λ c. c.replica ≡ replica) }
    {
        let counters = Vec::with_capacity(alloc, FIRST_ROOM)?;
        let numbers = Vec::with_capacity(alloc, FIRST_ROOM)?;
        Ok(NumberColumn {
            replica,
            counters,
            numbers,
        })
    }

    /// Makes room for one more id.
    ///
    /// # Errors
    /// `AllocError` if allocation fails.
    pub fn reserve_one(&mut self) -> Result<(), AllocError>
        ensures replica { self.new.replica ≡ self.old.replica }
        ensures counters { self.new.counters.items ≡ self.old.counters.items }
        ensures numbers { self.new.numbers.items ≡ self.old.numbers.items }
    {
        self.counters.reserve(1)?;
        self.numbers.reserve(1)
    }

    /// Whether there is room for one more id.
    pub fn has_room(&self) -> bool
        ensures counters { IsTrue result → vec_len self.now.counters < vec_capacity self.now.counters }
        ensures numbers { IsTrue result → vec_len self.now.numbers < vec_capacity self.now.numbers }
    {
        self.counters.len() < self.counters.capacity()
            && self.numbers.len() < self.numbers.capacity()
    }

    /// Whether the counter is greater than all that are there.
    pub fn is_behind(&self, counter: u64) -> bool
        requires { IsTrue (is_rising self.now.counters.items) }
        ensures { IsTrue result → IsTrue (is_rising (self.now.counters.items ++ counter ∷ [])) }
    {
        match self.counters.last() {
            None => true,
            Some(last) => *last < counter,
        }
    }

    /// The position of a counter, or `None` if it isn't there. Compares it with the last one first, since most that are asked for are that
    /// one or newer; binary search for the others.
    pub fn position(&self, counter: u64) -> Option<usize>
        requires { IsTrue (is_rising self.now.counters.items) }
        ensures { MatchOption result (list_any (λ k. k == counter) self.now.counters.items ≡ false)
            (λ i. (i < length self.now.counters.items) × ((d : ℕ) → slice_index_or self.now.counters.items i d ≡ counter)) }
    {
        let count = self.counters.len();
        if count == 0 {
            return None;
        }
        let last = self.counters[count - 1];
        match counter.cmp(&last) {
            Ordering::Greater => None,
            Ordering::Equal => Some(count - 1),
            Ordering::Less => search(&self.counters, counter),
        }
    }

    /// The number of a counter, or `None` if it isn't there. Binary search.
    pub fn get(&self, counter: u64) -> Option<usize>
        requires { IsNumberColumn self.now }
        ensures { result ≡ find id_cmp (id_at counter self.now.replica) (numbered_in self.now) }
    {
        match self.position(counter) {
            None => None,
            Some(position) => Some(self.numbers[position]),
        }
    }

    /// Appends an id and its number. Allocates nothing.
    pub fn push_reserved(&mut self, counter: u64, number: usize)
        requires counters { vec_len self.old.counters < vec_capacity self.old.counters }
        requires numbers { vec_len self.old.numbers < vec_capacity self.old.numbers }
        ensures replica { self.new.replica ≡ self.old.replica }
        ensures counters { self.new.counters.items ≡ self.old.counters.items ++ counter ∷ [] }
        ensures numbers { self.new.numbers.items ≡ self.old.numbers.items ++ number ∷ [] }
    {
        self.counters.push_reserved(counter);
        self.numbers.push_reserved(number);
    }

    /// Sets the number of the id at a position.
    pub fn set(&mut self, position: usize, number: usize)
        requires { position < length self.old.numbers.items }
        ensures replica { self.new.replica ≡ self.old.replica }
        ensures counters { self.new.counters.items ≡ self.old.counters.items }
        ensures numbers { self.new.numbers.items ≡ slice_set self.old.numbers.items position number }
    {
        self.numbers[position] = number;
    }
}

/// The position of a counter among ascending ones, or `None` if it isn't there. Binary search.
fn search(counters: &[u64], counter: u64) -> Option<usize>
    requires { IsTrue (is_rising counters.now) }
    ensures { MatchOption result (list_any (λ k. k == counter) counters.now ≡ false)
        (λ i. (i < length counters.now) × ((d : ℕ) → slice_index_or counters.now i d ≡ counter)) }
{
    match counters.binary_search(&counter) {
        Ok(position) => Some(position),
        Err(_) => None,
    }
}
