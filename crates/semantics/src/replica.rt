//! Deliveries, drains and own operations preserve the invariant of a replica.

ghost use Rattle.std.specs.Prelude.{◌≡◌, ◌≤◌, ◌+◌, ℕ, length, Ok};
ghost use Rattle.semantics.specs.NamedIds.{NamesAll};
ghost use Rattle.semantics.specs.Stamped.{Stamped, operation_after};
ghost use Rattle.semantics.specs.Making.{Command, make};
ghost use Rattle.semantics.specs.Entries.{IsAbove};
ghost use Rattle.semantics.specs.Replica.{Replica, operations, commit_own, IsRunning};
ghost use Rattle.semantics.specs.Delivery.{deliver};
ghost use Rattle.semantics.specs.Drain.{drain, drain_for, receive, Drains, IsDrained};

/// A delivery preserves the invariant of a replica.
pub fn deliveries_keep_replicas()
    ensures { (r : Replica) (s : Stamped) → IsRunning r → IsRunning (deliver r s) }
{}

/// A drain preserves the invariant of a replica, and appends some of what waited. Afterwards none that waits is ready, unless the history
/// is full.
pub fn drains_keep_replicas()
    ensures { (r : Replica) → IsRunning r → IsRunning (drain r) × Drains r (drain r) × IsDrained (drain r) }
{}

/// A drain may end early: it preserves the invariant of a replica then too, and the next one resumes where it stopped.
pub fn drains_may_end_early()
    ensures kept { (n : ℕ) (r : Replica) → IsRunning r → IsRunning (drain_for n r) × Drains r (drain_for n r) }
    ensures goes_on { (n m : ℕ) (r : Replica) → drain_for (n + m) r ≡ drain_for m (drain_for n r) }
{}

/// An own operation preserves the invariant of a replica.
pub fn own_operations_keep_replicas()
    ensures { (r : Replica) (client serial : ℕ) (c : Command) (s : Stamped) → IsRunning r →
        NamesAll (operations r) s.vector → make (operations r) r.own c ≡ Ok (operation_after (operations r) s) →
        IsAbove client serial r.entries → IsRunning (commit_own r client serial c s) }
{}

/// At most 4,096 operations wait after a delivery and its drain, so there is a slot for each ready one.
pub fn a_slot_is_kept_for_the_ready()
    ensures { (r : Replica) (s : Stamped) → IsRunning r → length r.waiting ≤ 4096 →
        length (receive r s).waiting ≤ 4096 }
{}
