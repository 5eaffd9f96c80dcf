//! Parts of a line, taken one after another from its tokens.
//!
//! Each function takes one part off the front, without a JSON value in between, or gives up: what is wrong with a line is then found by
//! reading all of it as JSON.

ghost use Rattle.std.specs.Prelude.{◌≡◌, ◌∷◌, ◌==◌, None, Ok, Some, IfSome, false, true, map, slice_index};
ghost use Rattle.std.specs.Bool.{OnTrue};
ghost use Rattle.json.specs.Json.{read_key};
ghost use Rattle.json.specs.Token.{begin_array};
ghost use Rattle.semantics.specs.Elements.{Plain, Whole};
ghost use Rattle.serde_json.specs.Data.{Num, array, item, negative, no_items, number, string, unsigned};
ghost use Rattle.serde_json.specs.Find.{as_i64};
ghost use Rattle.serde_json.specs.Read.{number_from, number_of};
ghost use Rattle.document.specs.cursor.Steps.{step_of};
ghost use Rattle.document.specs.value.Forms.{value_form};
ghost use Rattle.document.specs.value.Values.{value_of};
ghost use Rattle.wire.specs.OpIds.{id_form, id_of};
ghost use Rattle.requests.specs.Expressions.{expression_form, path_step_form};
ghost use Rattle.requests.specs.Taken.{ArePartsTakenAs, IsReadAs, IsTakenAs};

use crate::edition::Edition;
use document::{ExprStep as Step, Key, Scalar, Val};
use fast_float::Numeral;
use ids::{MOST_COUNTER, OpId, ReplicaId};
use json::{Reader, Token};
use std::alloc::Global;

/// Room for the steps of an expression: most lead to a field of a map, or to an item of a list, of the root.
const USUAL_STEPS: usize = 2;

/// Whether a list begins here; takes its bracket then.
pub fn opens(reader: &mut Reader<'_>) -> bool
    ensures { OnTrue result (reader.old ≡ begin_array ∷ reader.new) }
{
    matches!(reader.next(), Some(Token::BeginArray))
}

/// A text.
pub fn take_text<'a>(reader: &mut Reader<'a>) -> Option<&'a str>
    ensures { IfSome result (λ text. IsReadAs 0 reader.old (string text.now) reader.new) }
{
    match reader.next()? {
        Token::String(text) => Some(text),
        _ => None,
    }
}

/// A whole number that isn't negative and has 64 bits.
pub fn take_whole(reader: &mut Reader<'_>) -> Option<u64>
    ensures { IfSome result (λ whole. IsReadAs 0 reader.old (number (unsigned whole)) reader.new) }
{
    match reader.next()? {
        Token::Number(text) => whole_of(text),
        _ => None,
    }
}

/// The id of an operation.
pub fn take_id(reader: &mut Reader<'_>) -> Option<OpId>
    ensures { IfSome result (λ id. IsTakenAs 1 id_form reader.old id reader.new) }
{
    if !opens(reader) {
        return None;
    }
    take_id_parts(reader)
}

/// The parts of an id, behind the bracket that begins them.
fn take_id_parts(reader: &mut Reader<'_>) -> Option<OpId>
    ensures { IfSome result (λ id. ArePartsTakenAs 0 id_of reader.old id reader.new) }
{
    let counter = take_whole(reader)?;
    let replica = take_whole(reader)?;
    if !reader.take_end_array() {
        return None;
    }
    id_of_numbers(counter, replica)
}

/// The id with this counter and this replica's number, if they are within their limits.
fn id_of_numbers(counter: u64, replica: u64) -> Option<OpId>
    ensures { IfSome result
        (λ id. id_of (item (number (unsigned counter)) (item (number (unsigned replica)) no_items)) ≡ Ok id) }
{
    if counter < 1 || counter > MOST_COUNTER {
        return None;
    }
    let replica = ReplicaId::new(u32::try_from(replica).ok()?)?;
    Some(OpId { counter, replica })
}

/// The steps of an expression.
pub fn take_steps(alloc: Global, edition: Edition, reader: &mut Reader<'_>) -> Option<Vec<Step>>
    ensures { IfSome result (λ steps. IsTakenAs 2 (expression_form edition) reader.old (map step_of steps.items) reader.new) }
{
    if !opens(reader) {
        return None;
    }
    let mut steps = Vec::with_capacity(alloc, USUAL_STEPS).ok()?;
    while !reader.take_end_array() {
        steps.push(take_step(alloc, edition, reader)?).ok()?;
    }
    Some(steps)
}

/// A step: a key, an index, or in the second edition an id.
fn take_step(alloc: Global, edition: Edition, reader: &mut Reader<'_>) -> Option<Step>
    ensures { IfSome result (λ step. IsTakenAs 1 (path_step_form edition) reader.old (step_of step) reader.new) }
{
    match reader.next()? {
        Token::String(text) => Some(Step::Get(Key::new(alloc, text).ok()?)),
        Token::Number(text) => Some(Step::Idx(whole_of(text)?)),
        Token::BeginArray => take_item(edition, reader),
        _ => None,
    }
}

/// A step to an item by its id, behind the bracket that begins the id.
fn take_item(edition: Edition, reader: &mut Reader<'_>) -> Option<Step>
    ensures { IfSome result (λ step. ArePartsTakenAs 0 (λ ds. path_step_form edition (array ds)) reader.old (step_of step) reader.new) }
{
    match edition {
        Edition::First => None,
        Edition::Second => Some(Step::Item(take_id_parts(reader)?)),
    }
}

/// A value.
pub fn take_value(alloc: Global, reader: &mut Reader<'_>) -> Option<Val>
    ensures { IfSome result (λ v. IsTakenAs 1 value_form reader.old (value_of v) reader.new) }
{
    match reader.next()? {
        Token::String(text) => Some(Val::text(alloc, text).ok()?),
        Token::Number(text) => Some(whole_value(signed_of(text)?)),
        Token::Bool(truth) => Some(Val::Scalar(Scalar::Bool(truth))),
        Token::Null => Some(Val::Scalar(Scalar::Null)),
        Token::BeginArray if reader.take_end_array() => Some(Val::EmptyList),
        Token::BeginObject if is_over(reader) => Some(Val::EmptyMap),
        _ => None,
    }
}

/// The value that is this number.
fn whole_value(whole: i64) -> Val
    ensures { value_of result ≡ Plain (Whole whole) }
{
    Val::Scalar(Scalar::Whole(whole))
}

/// Whether an object ends here; takes its bracket then.
fn is_over(reader: &mut Reader<'_>) -> bool
    ensures { OnTrue result (read_key reader.old ≡ Some (None, reader.new)) }
{
    matches!(reader.next_key(), Ok(None))
}

/// The number of a text, if it is whole and has 64 bits with its sign.
fn signed_of(text: &str) -> Option<i64>
    ensures { IfSome result (λ z. (n : Num) × (number_of text.now ≡ Some n) × (as_i64 n ≡ Some z)) }
{
    let digits = text.as_bytes();
    if has_minus(digits) {
        return negative_in(&Numeral::scan(&digits[1..]));
    }
    signed(whole_in(&Numeral::scan(digits))?)
}

/// The same number, if it has 63 bits.
fn signed(whole: u64) -> Option<i64>
    ensures { IfSome result (λ z. as_i64 (unsigned whole) ≡ Some z) }
{
    i64::try_from(whole).ok()
}

/// The number of a text, if it is whole, isn't negative and has 64 bits.
fn whole_of(text: &str) -> Option<u64>
    ensures { IfSome result (λ whole. number_of text.now ≡ Some (unsigned whole)) }
{
    let digits = text.as_bytes();
    if has_minus(digits) {
        return None;
    }
    whole_in(&Numeral::scan(digits))
}

/// The number of a numeral.
fn whole_in(numeral: &Numeral<'_>) -> Option<u64>
    ensures { IfSome result (λ whole. number_from false numeral.now ≡ Some (unsigned whole)) }
{
    numeral.to_u64()
}

/// The number of a numeral with a minus in front, if it isn't `-0`.
fn negative_in(numeral: &Numeral<'_>) -> Option<i64>
    ensures { IfSome result (λ z. number_from true numeral.now ≡ Some (negative z)) }
{
    let number = numeral.to_i64(true)?;
    if number < 0 { Some(number) } else { None }
}

fn has_minus(digits: &[u8]) -> bool
    ensures { result ≡ (slice_index digits.now 0 == 45) }
{
    !digits.is_empty() && digits[0] == b'-'
}
