//! What a journal determines, and what holds of replicas that resume from theirs.

ghost use Rattle.std.specs.Prelude.{◌≡◌, ℕ, List, map};
ghost use Rattle.semantics.specs.Entries.{Entry, IsEntryHistory, applied};
ghost use Rattle.semantics.specs.Journals.{recorded};
ghost use Rattle.semantics.specs.Lives.{IsLived, Lives};
ghost use Rattle.semantics.specs.OneWorld.{AreOfOneWorld};
ghost use Rattle.semantics.specs.Replica.{IsRunning, operations};

/// A journal determines the operations of a history: two histories of one replica with the same records have the same.
pub fn records_determine_operations()
    ensures { (p : ℕ) (G F : List Entry) → IsEntryHistory p G → IsEntryHistory p F → map recorded G ≡ map recorded F
        → applied G ≡ applied F }
{}

/// Replicas that end at any moment, and resume from a journal that has all that they handed out, are replicas like any other: the invariant
/// of each holds, and any two are of one world, so that an id is that of one operation wherever it stands (`ids_are_of_one_operation`).
pub fn lives_are_of_one_world()
    ensures histories { (members : ℕ → List ℕ) (L : Lives) → IsLived members L → (p : ℕ)
        → ((L.now p).own ≡ p) × IsRunning (L.now p) }
    ensures one_world { (members : ℕ → List ℕ) (L : Lives) → IsLived members L → (p q : ℕ)
        → AreOfOneWorld (operations (L.now p)) (operations (L.now q)) }
{}
