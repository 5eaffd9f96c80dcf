//! Which answers of a replica are legal, and that they stay so.

ghost use Rattle.std.specs.Prelude.{◌≡◌, ◌≤◌, ℕ, List, ◌∷◌, length, Some, Err};
ghost use Rattle.semantics.specs.Stamped.{Stamped};
ghost use Rattle.ids.specs.declared.refusal.Refusal.{Refusal};
ghost use Rattle.semantics.specs.Making.{Command, make};
ghost use Rattle.semantics.specs.Entries.{Entry, Own, IsEntryHistory, IsAbove, applied, entry_at};
ghost use Rattle.semantics.specs.LegalAnswer.{Submitted, Reply, Made, RefusedAt, IsLegalAnswer, IsLegalReading, Asked, Reading};
ghost use Rattle.semantics.specs.Ids.{OpId};

/// What a replica itself replies is legal: the id of what it appended, or the refusal of its rules.
pub fn own_replies_are_legal()
    ensures made { (p : ℕ) (G : List Entry) (x : Submitted) (c : Command) (s : Stamped) →
        IsLegalAnswer p (Own x.client x.serial c s ∷ G) x c (Made s.id (length G)) }
    ensures refused { (p : ℕ) (G : List Entry) (x : Submitted) (c : Command) (why : Refusal) → IsAbove x.client x.serial G →
        make (applied G) p c ≡ Err why → IsLegalAnswer p G x c (RefusedAt why (length G)) }
{}

/// A legal reply stays legal as the history grows.
pub fn replies_stay_legal()
    ensures made { (p : ℕ) (G : List Entry) (e : Entry) (x : Submitted) (c : Command) (a : OpId) (n : ℕ) →
        IsLegalAnswer p G x c (Made a n) → IsLegalAnswer p (e ∷ G) x c (Made a n) }
    ensures refused { (p : ℕ) (G : List Entry) (e : Entry) (x : Submitted) (c : Command) (why : Refusal) (m : ℕ) →
        IsLegalAnswer p G x c (RefusedAt why m) → IsLegalAnswer p (e ∷ G) x c (RefusedAt why m) }
{}

/// A legal reading stays legal as the history grows.
pub fn readings_stay_legal()
    ensures { (G : List Entry) (e : Entry) (m : ℕ) (q : Asked) (r : Reading) →
        IsLegalReading G m q r → IsLegalReading (e ∷ G) m q r }
{}

/// A command stands in an entry history at most once: no two entries have the same client and serial.
pub fn serials_stand_once()
    ensures { (p : ℕ) (G : List Entry) (client serial n m : ℕ) (c d : Command) (s t : Stamped) → IsEntryHistory p G →
        entry_at n G ≡ Some (Own client serial c s) → entry_at m G ≡ Some (Own client serial d t) → n ≡ m }
{}
