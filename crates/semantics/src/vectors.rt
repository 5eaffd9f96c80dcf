//! What a version vector names, and how a column of counters stands for it.

ghost use Rattle.std.specs.Prelude.{◌≡◌, ◌≤◌, ℕ, List, ◌∷◌, ◌++◌, length};
ghost use Rattle.semantics.specs.Ids.{OpId};
ghost use Rattle.semantics.specs.Operations.{Operation};
ghost use Rattle.semantics.specs.LegalHistory.{IsLegal, Follows, has_id};
ghost use Rattle.semantics.specs.NamedIds.{vector_of, greatest_counter, names, StandsFor, NamesAll};
ghost use Rattle.semantics.specs.Vectors.{Vector, at, greatest, is_at_most, IsCanonical};
ghost use Rattle.ids.specs.Members.{AreDistinct};
ghost use Rattle.semantics.specs.Tables.{all_at_most, by_table, component, greatest_in};
ghost use Rattle.semantics.specs.Stamped.{Stamped};
ghost use Rattle.semantics.specs.Faults.{is_ready};

/// What a vector names stays the same as the history grows, where all that it names was applied.
pub fn names_stay()
    ensures { (H : List Operation) (o : Operation) → Follows H o →
        (v : Vector) → ((p : ℕ) → at v p ≤ greatest_counter H p) →
        (a : OpId) → names (o ∷ H) v a ≡ names H v a }
{}

/// The vector of all that was applied stands for all ids of the history.
pub fn vector_stands_for_all()
    ensures { (H : List Operation) (v : Vector) → NamesAll H v → StandsFor v (has_id H) H }
{}

/// The vector of all that was applied names each replica's greatest counter, in canonical form.
pub fn the_applied_vector_names_all()
    ensures names { (H : List Operation) → NamesAll H (vector_of H) }
    ensures canonical { (H : List Operation) → IsLegal H → IsCanonical (vector_of H) }
{}

/// Columns of counters, indexed by a table of replica numbers, stand for vectors.
pub fn tables_name_vectors()
    ensures at { (ps cs : List ℕ) → AreDistinct ps →
        (p : ℕ) → at (by_table ps cs) p ≡ component ps cs p }
    ensures greatest { (ps cs : List ℕ) → length cs ≤ length ps →
        greatest (by_table ps cs) ≡ greatest_in cs }
    ensures canonical { (ps cs : List ℕ) → IsCanonical (by_table ps cs) }
    ensures same { (u v : Vector) → IsCanonical u → IsCanonical v →
        ((p : ℕ) → at u p ≡ at v p) → u ≡ v }
{}

/// Comparing columns compares their vectors, and an operation is ready exactly if its column is at most that of all that was applied.
pub fn columns_compare_vectors()
    ensures compared { (ps cs ds : List ℕ) → AreDistinct ps → length cs ≡ length ps → length ds ≡ length ps →
        is_at_most (by_table ps cs) (by_table ps ds) ≡ all_at_most cs ds }
    ensures ready { (H : List Operation) (ps cs ds : List ℕ) (s : Stamped) → s.vector ≡ by_table ps cs →
        AreDistinct ps → length cs ≡ length ps → length ds ≡ length ps →
        ((p : ℕ) → component ps ds p ≡ greatest_counter H p) → is_ready H s ≡ all_at_most cs ds }
{}

/// A longer table changes no vector.
pub fn tables_may_grow()
    ensures { (ps qs cs : List ℕ) → length cs ≤ length ps → by_table (ps ++ qs) cs ≡ by_table ps cs }
{}
