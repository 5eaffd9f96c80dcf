//! An exchange leaves all that the other history had, unless the receiver's is full or its table has no room.

ghost use Rattle.std.specs.Prelude.{◌≤◌, ℕ, List};
ghost use Rattle.semantics.specs.Operations.{Operation};
ghost use Rattle.semantics.specs.LegalHistory.{IsLegal};
ghost use Rattle.semantics.specs.NamedIds.{greatest_counter};
ghost use Rattle.semantics.specs.Vectors.{Vector, at};
ghost use Rattle.semantics.specs.Stamped.{Stamped};
ghost use Rattle.semantics.specs.Entries.{missing};
ghost use Rattle.semantics.specs.Replica.{Replica, operations};
ghost use Rattle.semantics.specs.Drain.{receive_all};
ghost use Rattle.semantics.specs.OneWorld.{IsHistoryOf};
ghost use Rattle.semantics.specs.Exchange.{CanReceive, HasReceived, IsSettled, HasAll};

/// Delivering what is missing, in order, each followed by a drain, leaves the union of both histories, and nothing waits.
pub fn an_exchange_leaves_the_union()
    ensures { (r : Replica) (F : List Stamped) (v : Vector) → CanReceive r F v →
        HasReceived r (receive_all r (missing v F)) F }
{}

/// In one world, whatever waits: delivering what a history has above a vector, in order, each followed by a drain, leaves the receiver with
/// all of it, unless its history is full or its table has no room for one of the replicas.
pub fn an_exchange_is_complete()
    ensures { (K : List Operation) (p : ℕ) (r : Replica) (v : Vector) (F : List Stamped) → IsLegal K → IsSettled K p r →
        ((q : ℕ) → at v q ≤ greatest_counter (operations r) q) → IsHistoryOf K F →
        IsSettled K p (receive_all r (missing v F)) × HasAll r (receive_all r (missing v F)) F }
{}
