//! Glances at parts of a document.

ghost use Rattle.std.specs.Prelude.{◌≡◌, ◌∷◌, ℕ, suc, false, List, None};
ghost use Rattle.std.specs.List.{flat_map};
ghost use Rattle.semantics.specs.Elements.{Element};
ghost use Rattle.semantics.specs.Operations.{Operation};
ghost use Rattle.semantics.specs.Paths.{child};
ghost use Rattle.semantics.specs.LegalHistory.{IsLegal, HaveSameOperations};
ghost use Rattle.semantics.specs.Context.{doc};
ghost use Rattle.semantics.specs.Glances.{Shown, beneath, glance_of, hops_below, live_shown, row_at, rows_of, shown_by};

/// A glance at the document of a legal history shows what its operations show as a set.
pub fn glances_are_of_the_view()
    ensures { (H O : List Operation) → IsLegal H → HaveSameOperations O H → (depth elements : ℕ) (e : Element) →
        glance_of (shown_by (doc H)) depth elements e ≡ glance_of (live_shown O) depth elements e }
{}

/// The rows of an element are its own row, made of what the other questions answer there, and then those of the glances at its fields and
/// its items, one deeper.
pub fn glances_hold_those_beneath()
    ensures { (S : Shown) (depth : ℕ) (e : Element) → rows_of S (suc depth) 0 None e
        ≡ row_at S 0 None e false ∷ flat_map (λ h. beneath h (rows_of S depth 0 None (child e h))) (hops_below S e) }
{}
