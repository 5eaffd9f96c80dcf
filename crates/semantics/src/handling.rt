//! Handling submissions preserves the invariant of a replica, and its replies are legal.

ghost use Rattle.std.specs.Prelude.{◌≡◌, ◌+◌, ◌<◌, ℕ, true, List, [], ◌∷◌, ◌++◌, length};
ghost use Rattle.ids.specs.declared.refusal.Refusal.{Refusal};
ghost use Rattle.ids.specs.declared.refusal.Refusal.TheVariants.{BadFloor};
ghost use Rattle.semantics.specs.Entries.{IsAbove, Entry};
ghost use Rattle.semantics.specs.LegalAnswer.{Submitted, Reply, RefusedAt};
ghost use Rattle.semantics.specs.Replica.{IsRunning};
ghost use Rattle.semantics.specs.Engine.{Handled};
ghost use Rattle.semantics.specs.WorldHistory.{BeginsWith, of_client};
ghost use Rattle.semantics.specs.Handling.{Handler, Resumes, Handles, IsAfter, is_outside_rules};
ghost use Rattle.semantics.specs.PeerAnswers.{IsAnswer};
ghost use Rattle.semantics.specs.Batches.{ComeFrom, IsBatch, IsResumed, items_of};

/// Handling a submission preserves the invariant of a replica, whether an allocation fails or not, and the reply is a legal answer.
pub fn handling_keeps_replicas()
    ensures { (w v : Handler) (x : Submitted) (y : Reply) → IsRunning w.replica → IsAbove x.client x.serial w.replica.entries →
        Handles w x y v → IsAfter w.replica x y v.replica }
{}

/// A legal answer stays one as the history grows.
pub fn answers_stay()
    ensures { (p : ℕ) (ps : List ℕ) (G F : List Entry) (x : Submitted) (y : Reply) → BeginsWith G F → IsAnswer p ps F x y
        → IsAnswer p ps G x y }
{}

/// Resuming a drain that ended early preserves the invariant of a writer.
pub fn resuming_keeps_replicas()
    ensures { (w v : Handler) (took : List Submitted) → IsRunning w.replica → ComeFrom took w.replica.entries → Resumes w v
        → IsResumed w took v }
{}

/// Handling submissions one after another preserves the invariant of a writer, and all their replies are legal answers in the history at
/// the end.
pub fn batches_grow()
    ensures none { (w : Handler) (took : List Submitted) → IsRunning w.replica → ComeFrom took w.replica.entries → IsBatch w took [] w }
    ensures one_more { (w u v : Handler) (took got : List Submitted) (hs : List Handled) (h : Handled) → IsBatch w took hs u →
        got ≡ took ++ items_of hs → h.submitted.serial ≡ length (of_client h.submitted.client got) + 1 →
        Handles u h.submitted h.reply v → IsBatch w took (hs ++ h ∷ []) v }
{}

/// A submission that is refused because an allocation failed, or for its floor, changes nothing. It is refused for its floor exactly if the
/// floor is above the history.
pub fn refused_items_change_nothing()
    ensures same { (w v : Handler) (x : Submitted) (e : Refusal) (m : ℕ) → is_outside_rules e ≡ true → Handles w x (RefusedAt e m) v
        → v ≡ w }
    ensures floor { (w v : Handler) (x : Submitted) (y : Reply) → Handles w x y v →
        (length w.replica.entries < x.floor → y ≡ RefusedAt BadFloor (length w.replica.entries))
        × ((m : ℕ) → y ≡ RefusedAt BadFloor m → length w.replica.entries < x.floor) }
{}
