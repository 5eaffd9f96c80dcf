//! What the answer to a delivery says of the operation and of the history.

ghost use Rattle.std.specs.Prelude.{◌≡◌, ◌≤◌, ℕ, List, false};
ghost use Rattle.ids.specs.declared.refusal.Refusal.{Refusal};
ghost use Rattle.semantics.specs.LegalHistory.{has_id};
ghost use Rattle.semantics.specs.Stamped.{Stamped};
ghost use Rattle.semantics.specs.Entries.{Entry, applied, first_entries};
ghost use Rattle.semantics.specs.Delivery.{Kept, NotKept};
ghost use Rattle.semantics.specs.PeerAnswers.{WasAnswered, IsTrueOf};

/// A refusal is true of the operation and of some beginning of the history, not before the floor; and what was kept was new before
/// the floor.
pub fn deliveries_are_answered_truly()
    ensures refused { (p : ℕ) (ps : List ℕ) (G : List Entry) (s : Stamped) (floor m : ℕ) (e : Refusal)
        → WasAnswered p ps G s floor m (NotKept e) →
        (k : ℕ) × (floor ≤ k) × (k ≤ m) × IsTrueOf p ps (first_entries k G) s e }
    ensures kept { (p : ℕ) (ps : List ℕ) (G : List Entry) (s : Stamped) (floor m : ℕ) → WasAnswered p ps G s floor m Kept →
        has_id (applied (first_entries floor G)) s.id ≡ false }
{}
