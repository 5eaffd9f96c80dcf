//! The ids of operations.

ghost use Rattle.std.specs.Prelude.{◌≡◌, ◌<◌, MatchOption};
ghost use Rattle.std.specs.Ordering.{nat_cmp, ordering_then};
ghost use Rattle.ids.specs.declared.id.OpId.{OpId};

use std::fmt;
use std::marker::Model;

/// The greatest counter of an id.
pub const MOST_COUNTER: u64 = 4_611_686_018_427_387_904;

/// The number of a replica, from 1 to 4,294,967,295. Contracts see the number.
#[derive(Clone, Copy, Debug, PartialEq, Eq, PartialOrd, Ord)]
pub struct ReplicaId {
    number: u32,
}

impl Model for ReplicaId {
    ghost use Rattle.std.specs.Prelude.{ℕ, ◌<◌};

    ghost Value = { ℕ };

    ghost view = { λ r. r.number };

    ghost invariant = { λ r. 0 < r.number };

    ghost inverse = { λ n. record { number = n } };
}

impl ReplicaId {
    /// The replica with this number, or `None` for 0.
    pub fn new(number: u32) -> Option<ReplicaId>
        ensures { MatchOption result (number ≡ 0) (λ r. (r ≡ number) × (0 < number)) }
    {
        if number == 0 {
            return None;
        }
        Some(ReplicaId { number })
    }

    /// The number, never 0.
    pub fn number(self) -> u32
        ensures number { result ≡ self }
        ensures above_zero { 0 < result }
    {
        self.number
    }
}

/// The id of an operation: a Lamport timestamp, printed `counter@replica`. Ids are ordered by counter, ties by replica.
#[derive(Clone, Copy, Debug, PartialEq, Eq, PartialOrd, Ord)]
pub struct OpId {
    pub counter: u64,
    pub replica: ReplicaId,
}

impl fmt::Display for OpId {
    fn fmt<W: fmt::Write>(&self, f: &mut fmt::Formatter<W>) -> fmt::Result {
        write!(f, "{}@{}", self.counter, self.replica.number())
    }
}

/// Ids are ordered by counter, ties by replica.
pub fn ids_are_ordered_by_counter()
    ensures { (a b : OpId) → ⟦<OpId as Ord>⟧.cmp a b ≡ ordering_then (nat_cmp a.counter b.counter) (nat_cmp a.replica b.replica) }
{}
