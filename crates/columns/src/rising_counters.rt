//! Counters in ascending order.

ghost use Rattle.std.specs.Prelude.{◌≡◌, ◌≤◌, ◌<◌, ◌+◌, ◌++◌, ◌∷◌, ◌==◌, [], ℕ, drop, length, get_or, IsTrue, IfOk, IfSome, MatchOption};
ghost use Rattle.std.specs.Prelude.{cond};
ghost use Rattle.std.specs.Prelude.{is_some, nat_lt, not};
ghost use Rattle.std.specs.List.{filter, list_any, remove};
ghost use Rattle.columns.specs.ReplicaColumns.{is_rising};

use std::alloc::{AllocError, Global};
use std::marker::Model;

/// Counters in ascending order. Removing the first ones costs nothing for those that stay.
///
/// Contracts see the counters, and for how many more there is room.
#[derive(Debug, Drop)]
pub struct RisingCounters {
    counters: Vec<u64>,
    /// How many of the first counters are removed. Their room is used again once they are more than half of all.
    gone: usize,
}

impl Model for RisingCounters {
    ghost use Rattle.std.specs.Prelude.{◌≤◌, ◌-◌, drop, length, vec_len, vec_capacity};
    ghost use Rattle.columns.specs.RisingCounters.{Risen};

    ghost Value = { Risen };

    ghost view = { λ c. record { items = drop c.gone c.counters.items; room = vec_capacity c.counters - vec_len c.counters } };

    ghost invariant = { λ c. c.gone ≤ length c.counters.items };
}

impl RisingCounters {
    /// No counters, with room for this many.
    ///
    /// # Errors
    /// `AllocError` if allocation fails.
    pub fn with_room(alloc: Global, count: usize) -> Result<RisingCounters, AllocError>
        ensures { IfOk result (λ c. c.items ≡ []) }
    {
        let counters = Vec::with_capacity(alloc, count)?;
        Ok(RisingCounters { counters, gone: 0 })
    }

    /// How many counters there are.
    pub fn len(&self) -> usize
        ensures { result ≡ length self.now.items }
    {
        self.counters.len() - self.gone
    }

    /// Whether there is none.
    pub fn is_empty(&self) -> bool
        ensures { result ≡ (length self.now.items == 0) }
    {
        self.len() == 0
    }

    /// The counter at a position.
    pub fn at(&self, position: usize) -> u64
        requires { position < length self.now.items }
        ensures { (d : ℕ) → result ≡ get_or self.now.items position d }
    {
        self.counters[self.gone + position]
    }

    /// Whether there is room for one more counter.
    pub fn has_room(&self) -> bool
        ensures { result ≡ nat_lt 0 self.now.room }
    {
        self.counters.len() < self.counters.capacity()
    }

    /// Makes room for one more counter.
    ///
    /// # Errors
    /// `AllocError` if allocation fails.
    pub fn reserve_one(&mut self) -> Result<(), AllocError>
        ensures { self.new.items ≡ self.old.items }
    {
        self.counters.reserve(1)
    }

    /// Appends a counter. Allocates nothing.
    pub fn push_reserved(&mut self, counter: u64)
        requires { 0 < self.old.room }
        ensures { self.new.items ≡ self.old.items ++ counter ∷ [] }
    {
        self.counters.push_reserved(counter);
    }

    /// Removes a counter if it is there, and returns whether it was. Binary search; shifts those behind it.
    pub fn remove(&mut self, counter: u64) -> bool
        requires { IsTrue (is_rising self.old.items) }
        ensures counters { self.new.items ≡ filter (λ k. not (k == counter)) self.old.items }
        ensures there { result ≡ list_any (λ k. k == counter) self.old.items }
        ensures gone { length self.new.items + cond result 1 0 ≡ length self.old.items }
    {
        let gone = self.gone;
        match position_in(self.counters.split_at(gone).1, counter) {
            Some(position) => {
                let _ = self.counters.remove(gone + position);
                true
            }
            None => false,
        }
    }

    /// Removes the counters up to a bound, which are the first ones, and returns how many they were. A binary search, and amortized
    /// constant time for each that goes.
    pub fn cut(&mut self, bound: u64) -> usize
        requires { IsTrue (is_rising self.old.items) }
        ensures counters { self.new.items ≡ filter (λ k. nat_lt bound k) self.old.items }
        ensures gone { length self.new.items + result ≡ length self.old.items }
    {
        let gone = self.gone;
        let more = count_up_to(self.counters.split_at(gone).1, bound);
        let all = gone + more;
        if all > self.counters.len() / 2 {
            drop_front(&mut self.counters, all);
            self.gone = 0;
        } else {
            self.gone = all;
        }
        more
    }
}

/// The position of a counter, or `None` if it isn't there. Binary search.
fn position_in(counters: &[u64], counter: u64) -> Option<usize>
    requires { IsTrue (is_rising counters.now) }
    ensures within { IfSome result (λ i. i < length counters.now) }
    ensures left { MatchOption result (counters.now ≡ filter (λ k. not (k == counter)) counters.now)
        (λ i. remove counters.now i ≡ filter (λ k. not (k == counter)) counters.now) }
    ensures there { is_some result ≡ list_any (λ k. k == counter) counters.now }
{
    match counters.binary_search(&counter) {
        Ok(position) => Some(position),
        Err(_) => None,
    }
}

/// How many counters there are up to a bound. Binary search.
fn count_up_to(counters: &[u64], bound: u64) -> usize
    requires { IsTrue (is_rising counters.now) }
    ensures within { result ≤ length counters.now }
    ensures behind { drop result counters.now ≡ filter (λ k. nat_lt bound k) counters.now }
{
    counters.partition_point(|counter| *counter <= bound)
}

/// Removes the first `count` counters and moves the others to the front.
fn drop_front(counters: &mut Vec<u64>, count: usize)
    requires { count ≤ length counters.old.items }
    ensures { counters.new.items ≡ drop count counters.old.items }
{
    counters.rotate_left(count);
    counters.truncate(counters.len() - count);
}
