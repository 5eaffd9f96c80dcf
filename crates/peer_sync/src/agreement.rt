//! Tokens of different engines give the same answers.

ghost use Rattle.std.specs.Prelude.{◌≡◌, ℕ, List};
ghost use Rattle.semantics.specs.Entries.{Entry, IsEntryHistory, missing, stamped_entries};
ghost use Rattle.semantics.specs.LegalAnswer.{OfDocument, reading_of};
ghost use Rattle.semantics.specs.Questions.{Question};
ghost use Rattle.semantics.specs.Stamped.{HaveSameStamped};
ghost use Rattle.semantics.specs.Vectors.{Vector};

/// Tokens of two engines whose histories hold the same operations give the same answers, whatever the order of these operations. By the
/// contracts of `ReaderToken::ask` and `Client::ask`, a token that has read the history G answers `reading_of G`, refusals included: that
/// is the same for both engines for each question to the document; and both have the same operations to send to a peer.
pub fn tokens_answer_alike()
    ensures document { (p q : ℕ) (G F : List Entry) → IsEntryHistory p G → IsEntryHistory q F
        → HaveSameStamped (stamped_entries G) (stamped_entries F) →
        (x : Question) → reading_of G (OfDocument x) ≡ reading_of F (OfDocument x) }
    ensures missing { (G F : List Entry) → HaveSameStamped (stamped_entries G) (stamped_entries F) →
        (v : Vector) → HaveSameStamped (missing v (stamped_entries G)) (missing v (stamped_entries F)) }
{}
