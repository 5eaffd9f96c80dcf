//! Where expressions lead as a history grows.

ghost use Rattle.std.specs.Prelude.{◌≡◌, ◌<◌, ◌++◌, ◌∷◌, [], IsTrue, List, Ok};
ghost use Rattle.std.specs.List.{list_all};
ghost use Rattle.semantics.specs.Ids.{OpId};
ghost use Rattle.semantics.specs.Elements.{Element, Item, Place, At, depth};
ghost use Rattle.semantics.specs.Operations.{Operation};
ghost use Rattle.semantics.specs.Limits.{most_keys};
ghost use Rattle.semantics.specs.Context.{doc, has_item};
ghost use Rattle.semantics.specs.Questions.{Step, ById, counts_none, resolve};
ghost use Rattle.semantics.specs.DocumentAnswer.{lists_of, visible_items};

/// An expression that counts no items leads to the same place after more operations, whatever these are.
pub fn steps_by_id_stay()
    ensures { (J H : List Operation) (x : List Step) (p : Place) → IsTrue (list_all counts_none x) →
        resolve (lists_of (doc H)) x ≡ Ok p → resolve (lists_of (doc (J ++ H))) x ≡ Ok p }
{}

/// Each item that a list shows can be entered by its id, unless its path would have more than 32 keys.
pub fn what_is_shown_can_be_entered()
    ensures { (H : List Operation) (x : List Step) (l : Element) (a : OpId) → resolve (lists_of (doc H)) x ≡ Ok (At l) →
        depth l < most_keys → IsTrue (has_item a (visible_items (doc H) l)) →
        resolve (lists_of (doc H)) (x ++ ById a ∷ []) ≡ Ok (At (Item l a)) }
{}
