//! What holds of many replicas whose histories are of one world.

ghost use Rattle.std.specs.Prelude.{◌≡◌, ◌↔◌, ℕ, List, Ok, IsTrue, IsFalse};
ghost use Rattle.semantics.specs.Ids.{OpId};
ghost use Rattle.semantics.specs.Operations.{Operation};
ghost use Rattle.semantics.specs.LegalHistory.{IsLegal, Follows, IsAmong, has_id};
ghost use Rattle.semantics.specs.Questions.{Question};
ghost use Rattle.semantics.specs.DocumentAnswer.{document_answer};
ghost use Rattle.semantics.specs.Vectors.{at};
ghost use Rattle.semantics.specs.Stamped.{Stamped, IsLegalStamped, Means, operations_of};
ghost use Rattle.semantics.specs.Faults.{is_ready};
ghost use Rattle.semantics.specs.Making.{Command, make, is_full};
ghost use Rattle.semantics.specs.Replica.{Replica, operations, has_full_table, IsRunning};
ghost use Rattle.semantics.specs.Drain.{drain, IsDrained};
ghost use Rattle.semantics.specs.OneWorld.{AreWithin, AreOfOneWorld, IsHistoryOf, IsOfWorld, IsReplicaOf};
ghost use Rattle.semantics.specs.Runs.{Replicas, IsReached};

/// In every run of replicas with distinct numbers, whatever arrives in whatever order, all histories are of one legal history, and a
/// replica drops nothing unless its table is full.
pub fn every_run_is_one_world()
    ensures { (members : ℕ → List ℕ) (W : Replicas) → IsReached members W →
        (K : List Operation) × IsLegal K × ((p : ℕ) → IsReplicaOf K p (W p)) }
{}

/// In every run, replicas that hold the same ids answer every question alike.
pub fn replicas_of_a_run_answer_alike()
    ensures { (members : ℕ → List ℕ) (W : Replicas) → IsReached members W → (p q : ℕ) →
        ((a : OpId) → has_id (operations (W p)) a ≡ has_id (operations (W q)) a) →
        (x : Question) → document_answer (operations (W p)) x ≡ document_answer (operations (W q)) x }
{}

/// In one world an id is that of one operation, with one vector.
pub fn ids_are_of_one_operation()
    ensures { (G F : List Stamped) → IsLegalStamped G → IsLegalStamped F → AreOfOneWorld (operations_of G) (operations_of F) →
        (s t : Stamped) → IsAmong s G → IsAmong t F → s.id ≡ t.id →
        ((p : ℕ) → at s.vector p ≡ at t.vector p) × (s.place ≡ t.place) × (s.mutation ≡ t.mutation) }
{}

/// In one world an operation is ready exactly if all that it depends on is applied.
pub fn ready_is_to_have_all()
    ensures { (G F : List Stamped) (s : Stamped) (o : Operation) → IsLegalStamped G → IsLegalStamped F →
        AreOfOneWorld (operations_of G) (operations_of F) → Means (operations_of F) s o →
        (IsTrue (is_ready (operations_of G) s)
        ↔ ((a : OpId) → IsTrue (o.deps a) → IsTrue (has_id (operations_of G) a))) }
{}

/// A world grows by what a replica makes, if the replica has all its own operations of the world.
pub fn made_grows_the_world()
    ensures { (K H : List Operation) (p : ℕ) (c : Command) (o : Operation) → IsLegal K → IsLegal H → AreWithin H K →
        make H p c ≡ Ok o → ((x : Operation) → IsAmong x K → x.id.replica ≡ p → IsTrue (has_id H x.id)) → Follows K o }
{}

/// In one world a drain drops nothing, unless the table is full then.
pub fn drains_drop_nothing()
    ensures { (K : List Operation) (r : Replica) → IsLegal K → IsRunning r → AreWithin (operations r) K →
        ((s : Stamped) → IsAmong s r.waiting → IsOfWorld K s) →
        (IsFalse (has_full_table (drain r)) → (drain r).dropped ≡ r.dropped) × AreWithin (operations (drain r)) K }
{}

/// In one world each operation of a history that was delivered, in whatever order, is applied after a drain, unless the history is full.
pub fn a_world_settles()
    ensures { (K : List Operation) (r : Replica) (F : List Stamped) → IsLegal K → IsRunning r → IsDrained r →
        IsFalse (is_full r.entries) → AreWithin (operations r) K → IsHistoryOf K F →
        ((s : Stamped) → IsAmong s F → IsFalse (has_id (operations r) s.id) → IsAmong s r.waiting) →
        (a : OpId) → IsTrue (has_id (operations_of F) a) → IsTrue (has_id (operations r) a) }
{}
