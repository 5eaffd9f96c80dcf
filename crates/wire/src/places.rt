//! Reading places: a path of keys with the tag of what is entered at each, and a last key.
#![tactic(auto, using(crate::proofs::WrongLengths::wrong_lengths))]

ghost use Rattle.std.specs.Prelude.{◌≡◌, ◌≤◌, ◌+◌, ℕ, None, IfOk, MatchResult, length, map};
ghost use Rattle.serde_json.specs.View.{view, items_view};
ghost use Rattle.semantics.specs.Limits.{most_keys};
ghost use Rattle.semantics.specs.Elements.{Doc};
ghost use Rattle.semantics.specs.Paths.{down};
ghost use Rattle.operation.specs.cursor.Steps.{hop_of, tag_of};
ghost use Rattle.wire.specs.Forms.{IsRead, IsOrNoMemory, and_then, phrase_form};
ghost use Rattle.wire.specs.Parts.{entered_as, key_meant, keys_ahead, part_meant};
ghost use Rattle.wire.specs.Places.{element_at, entered_of, is_list_head, key_form, numbered_key, only_key, parts_of, path_form};
ghost use Rattle.wire.specs.Places.{place_at_last, place_below, place_form, tag_form};

use crate::forms::{list_in, number_in, phrase_in};
use crate::op_ids::id_of;
use ids::{OpId, Refusal};
use operation::{Hop, Key, MOST_KEYS, Place, Tag};
use serde_json::Value;
use std::alloc::Global;

/// A key as it is written.
#[derive(Debug, Drop)]
enum WrittenKey {
    Root,
    Head,
    Field(Key),
    Item(OpId),
}

/// A key, and the tag of what is entered there.
#[derive(Debug, Drop)]
struct Part {
    key: WrittenKey,
    entered: Tag,
}

/// The place of a path and a last key.
///
/// # Errors
/// The first of these: `BadLine` if the path is no list; `TooDeep` if it has more than 32 parts; the first fault of its parts from
/// the left, and then of the last key: `BadLine` for another form, `KeyTooLong` for a text of more than 256 bytes; `BadLine` if the
/// keys don't fit what is entered.
pub(crate) fn place_in(alloc: Global, path: &Value, last: &Value) -> Result<Place, Refusal>
    ensures { IsOrNoMemory result (place_form (view path.now) (view last.now)) }
{
    let parts = path_in(alloc, path)?;
    let last = key_in(alloc, last)?;
    place_of(alloc, parts, last)
}

fn path_in(alloc: Global, value: &Value) -> Result<Vec<Part>, Refusal>
    ensures read { IsRead (λ parts. map part_meant parts.items) result (path_form (view value.now)) }
    ensures few { IfOk result (λ parts. length parts.items ≤ 32) }
{
    let values = list_in(value)?;
    if values.len() > MOST_KEYS {
        return Err(Refusal::TooDeep);
    }
    parts_in(alloc, values)
}

fn parts_in(alloc: Global, values: &[Value]) -> Result<Vec<Part>, Refusal>
    ensures read { IsRead (λ parts. map part_meant parts.items) result (parts_of (items_view values.now)) }
    ensures length { IfOk result (λ parts. length parts.items ≡ length values.now) }
{
    let mut parts = Vec::new(alloc);
    for value in values {
        parts.push(part_in(alloc, value)?)?;
    }
    Ok(parts)
}

fn part_in(alloc: Global, value: &Value) -> Result<Part, Refusal>
    ensures { IsRead part_meant result (and_then entered_of (phrase_form (view value.now))) }
{
    let (word, keys) = phrase_in(value)?;
    let entered = tag_in(word)?;
    let key = only_key_in(alloc, keys)?;
    Ok(Part { key, entered })
}

/// The tag of what is entered.
fn tag_in(word: &str) -> Result<Tag, Refusal>
    ensures { MatchResult result (λ t. tag_form word.now ≡ Ok (tag_of t)) (λ why. tag_form word.now ≡ Err why) }
{
    match word {
        "m" => Ok(Tag::Map),
        "l" => Ok(Tag::List),
        _ => Err(Refusal::BadLine),
    }
}

/// The key of a list that holds nothing else.
fn only_key_in(alloc: Global, values: &[Value]) -> Result<WrittenKey, Refusal>
    ensures { IsRead key_meant result (only_key (items_view values.now)) }
{
    let [key] = values else {
        return Err(Refusal::BadLine);
    };
    key_in(alloc, key)
}

/// A text is a field's key, a list an item's, and a number the root's or a head's.
fn key_in(alloc: Global, value: &Value) -> Result<WrittenKey, Refusal>
    ensures { IsRead key_meant result (key_form (view value.now)) }
{
    if let Some(name) = value.as_str() {
        return Ok(WrittenKey::Field(Key::new(alloc, name)?));
    }
    if let Some(parts) = value.as_array() {
        return Ok(WrittenKey::Item(id_of(parts)?));
    }
    numbered_key(number_in(value)?)
}

fn numbered_key(number: u64) -> Result<WrittenKey, Refusal>
    ensures { IsRead key_meant result (numbered_key number) }
{
    match number {
        0 => Ok(WrittenKey::Root),
        1 => Ok(WrittenKey::Head),
        _ => Err(Refusal::BadLine),
    }
}

/// The place to which the parts, which begin with the root, and a last key lead.
fn place_of(alloc: Global, parts: Vec<Part>, last: WrittenKey) -> Result<Place, Refusal>
    requires { length parts.items ≤ most_keys }
    ensures { IsOrNoMemory result (place_below Doc None (map part_meant parts.items) (key_meant last)) }
{
    let mut hops = Vec::new(alloc);
    let mut entered = None;
    for part in parts {
        enter(&mut hops, entered, part.key)?;
        entered = Some(part.entered);
    }
    place_at_last(hops, entered, last)
}

/// Appends the hop to a key of the map or the list here. The root, if nothing is entered, is no hop.
fn enter(hops: &mut Vec<Hop>, entered: Option<Tag>, key: WrittenKey) -> Result<(), Refusal>
    ensures element { MatchResult result
        (λ _. element_at (down Doc (map hop_of hops.old.items)) (entered_as entered) (key_meant key)
        ≡ Ok (down Doc (map hop_of hops.new.items)))
        (λ why. IsOrNoMemory (Err why) (element_at (down Doc (map hop_of hops.old.items)) (entered_as entered) (key_meant key))) }
    ensures length { length hops.new.items ≤ length hops.old.items + keys_ahead entered }
{
    match (entered, key) {
        (None, WrittenKey::Root) => {}
        (Some(Tag::Map), WrittenKey::Field(name)) => hops.push(Hop::Field(name))?,
        (Some(Tag::List), WrittenKey::Item(id)) => hops.push(Hop::Item(id))?,
        _ => return Err(Refusal::BadLine),
    }
    Ok(())
}

/// The place of the last key: the head of a list that is entered, or an element.
fn place_at_last(
    mut hops: Vec<Hop>,
    entered: Option<Tag>,
    last: WrittenKey,
) -> Result<Place, Refusal>
    requires { length hops.items + keys_ahead entered ≤ most_keys }
    ensures { IsOrNoMemory result (place_at_last (down Doc (map hop_of hops.items)) (entered_as entered) (key_meant last)) }
{
    if is_list_head(entered, &last) {
        return Place::new(hops, true);
    }
    enter(&mut hops, entered, last)?;
    Place::new(hops, false)
}

fn is_list_head(entered: Option<Tag>, last: &WrittenKey) -> bool
    ensures { result ≡ is_list_head (entered_as entered) (key_meant last.now) }
{
    matches!((entered, last), (Some(Tag::List), WrittenKey::Head))
}
