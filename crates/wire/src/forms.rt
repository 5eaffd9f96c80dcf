//! The parts of a line, as JSON has them.

ghost use Rattle.std.specs.Prelude.{◌≡◌, Ok, Err, MatchResult};
ghost use Rattle.ids.specs.declared.refusal.Refusal.TheVariants.{BadLine};
ghost use Rattle.serde_json.specs.View.{view, items_view};
ghost use Rattle.wire.specs.Forms.{IsOrNoMemory, json_form, list_form, number_form, phrase_form, text_form};

use ids::Refusal;
use serde_json::Value;
use std::alloc::Global;

/// The JSON of a line's text.
///
/// # Errors
/// `BadLine` if the text is no JSON, or `NoMemory` if allocation fails.
pub fn json_of(alloc: Global, text: &[u8]) -> Result<Value, Refusal>
    ensures { MatchResult result (λ v. json_form text.now ≡ Ok (view v)) (λ why. IsOrNoMemory (Err why) (json_form text.now)) }
{
    match Value::from_slice(alloc, text) {
        Ok(value) => Ok(value),
        Err(error) => {
            if error.is_memory() {
                return Err(Refusal::NoMemory);
            }
            Err(Refusal::BadLine)
        }
    }
}

/// A list's parts.
///
/// # Errors
/// `BadLine` if it isn't a list.
pub fn list_in(value: &Value) -> Result<&[Value], Refusal>
    ensures { MatchResult result (λ parts. list_form (view value.now) ≡ Ok (items_view parts.now))
        (λ why. list_form (view value.now) ≡ Err why) }
{
    match value.as_array() {
        Some(parts) => Ok(parts.as_slice()),
        None => Err(Refusal::BadLine),
    }
}

/// A list's first word and its other parts.
///
/// # Errors
/// `BadLine` if it isn't a list that begins with a text.
pub fn phrase_in(value: &Value) -> Result<(&str, &[Value]), Refusal>
    ensures { MatchResult result (λ p. phrase_form (view value.now) ≡ Ok (p.0.now, items_view p.1.now))
        (λ why. phrase_form (view value.now) ≡ Err why) }
{
    let (first, others) = list_in(value)?.split_first().ok_or(Refusal::BadLine)?;
    Ok((text_in(first)?, others))
}

/// A text.
///
/// # Errors
/// `BadLine` if it isn't a text.
pub fn text_in(value: &Value) -> Result<&str, Refusal>
    ensures { MatchResult result (λ text. text_form (view value.now) ≡ Ok text.now) (λ why. text_form (view value.now) ≡ Err why) }
{
    value.as_str().ok_or(Refusal::BadLine)
}

/// A whole number from 0 to 18,446,744,073,709,551,615.
///
/// # Errors
/// `BadLine` if it isn't such a number.
pub fn number_in(value: &Value) -> Result<u64, Refusal>
    ensures { result ≡ number_form (view value.now) }
{
    value.as_u64().ok_or(Refusal::BadLine)
}
