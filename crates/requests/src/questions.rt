//! Questions as JSON.
#![tactic(auto, using(crate::proofs::WrongLengths::question_lengths))]

ghost use Rattle.std.specs.Prelude.{◌≡◌, ℕ, List, Ok};
ghost use Rattle.serde_json.specs.View.{view, items_view};
ghost use Rattle.semantics.specs.Questions.{AppliedVector, Step, Question as TheQuestion};
ghost use Rattle.semantics.specs.LegalAnswer.{Asked, OfDocument};
ghost use Rattle.document.specs.Documents.{asked_of};
ghost use Rattle.wire.specs.Forms.{IsRead, and_then, json_form};
ghost use Rattle.requests.specs.declared.edition.Edition.{Edition};
ghost use Rattle.requests.specs.Questions.{applied_of, asking_of, missing_of, question_form};
ghost use Rattle.requests.specs.Written.{question_json};

use crate::edition::Edition;
use crate::expressions::expression_in;
use document::{Expr, Question};
use ids::Refusal;
use serde_json::Value;
use std::alloc::Global;
use wire::{phrase_in, vector_in};

/// The question of a JSON value: a word, and for most the expression that it asks about.
///
/// # Errors
/// `BadLine` if it has another form, `KeyTooLong` for the first key of more than 256 bytes, or `NoMemory` if allocation fails.
pub fn question_in(alloc: Global, edition: Edition, value: &Value) -> Result<Question, Refusal>
    ensures { IsRead asked_of result (question_form edition (view value.now)) }
{
    let (word, parts) = phrase_in(value)?;
    match word {
        "values" => Ok(Question::Values(asked_in(alloc, edition, parts)?)),
        "keys" => Ok(Question::Keys(asked_in(alloc, edition, parts)?)),
        "items" => Ok(Question::Items(asked_in(alloc, edition, parts)?)),
        "conflicts" => Ok(Question::Conflicts(asked_in(alloc, edition, parts)?)),
        "missing" => missing_in(alloc, parts),
        "vector" => {
            check_none(parts)?;
            Ok(Question::Vector)
        }
        _ => Err(Refusal::BadLine),
    }
}

/// The expression of a question.
fn asked_in(alloc: Global, edition: Edition, parts: &[Value]) -> Result<Expr, Refusal>
    ensures { (what : List Step → TheQuestion) → IsRead (λ e. OfDocument (what e)) result (asking_of edition what (items_view parts.now)) }
{
    let [expression] = parts else {
        return Err(Refusal::BadLine);
    };
    expression_in(alloc, edition, expression)
}

/// The vector of a question.
fn missing_in(alloc: Global, parts: &[Value]) -> Result<Question, Refusal>
    ensures { IsRead asked_of result (missing_of (items_view parts.now)) }
{
    let [vector] = parts else {
        return Err(Refusal::BadLine);
    };
    Ok(Question::Missing(vector_in(alloc, vector)?))
}

/// Tests that nothing follows the word.
fn check_none(parts: &[Value]) -> Result<(), Refusal>
    ensures { IsRead (λ _. OfDocument AppliedVector) result (applied_of (items_view parts.now)) }
{
    let [] = parts else {
        return Err(Refusal::BadLine);
    };
    Ok(())
}

/// A text that is read as a question has the JSON that writing it gives, whatever its spaces and escapes.
pub fn questions_are_written_alike()
    ensures { (edition : Edition) (text : List ℕ) (q : Asked) → and_then (question_form edition) (json_form text) ≡ Ok q
        → json_form text ≡ Ok (question_json q) }
{}
