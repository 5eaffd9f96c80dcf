//! A glance as human-readable JSON.
#![tactic(auto, using(crate::proofs::NoFloats::no_floats))]

ghost use Rattle.std.specs.Prelude.{◌≡◌, ◌<◌, ◌≤◌, IfOk, OnOk, false, length};
ghost use Rattle.serde_json.specs.View.{items_view, members_view, view};
ghost use Rattle.serde_json.specs.Written.{has_float, items_have_float, members_have_float};
ghost use Rattle.requests.specs.Glances.{HasNoFloat};

use document::{Glance, Hop, Key, Row};
use serde_json::{Map, Value, json, push, put};
use std::alloc::{AllocError, Global};

/// The content beneath an element, as JSON.
#[derive(Drop)]
struct Beneath {
    fields: Map<String, Value>,
    items: Vec<Value>,
}

/// A glance as human-readable JSON: a map is an object, a list is an array, a value is itself, and an element at which nothing is present
/// is `null`.
///
/// What JSON has no word for is under the key `?`. An object that may have been cut short has `"?":"cut"`; such an array ends in
/// `{"?":"cut"}`. An element at which several things are present at once, because of concurrent writes, is an object with `"?":"conflict"`
/// and those of `"values"`, `"map"` and `"list"` that are present. A key of the document that begins with `?` gets one more `?`. Which of
/// several replicas wrote, and the ids of items, aren't in it. Takes time and memory in proportion to the glance.
///
/// # Errors
/// `AllocError` if allocation fails.
pub fn glance_json(alloc: Global, glance: &Glance) -> Result<Value, AllocError>
    ensures { IfOk result (λ v. has_float (view v) ≡ false) }
{
    if glance.rows.is_empty() {
        return cut_mark(alloc);
    }
    let (value, _behind) = element_json(alloc, glance, 0)?;
    Ok(value)
}

/// The element of the row at a position with everything beneath it, and the position of the first row that isn't beneath it.
fn element_json(alloc: Global, glance: &Glance, at: usize) -> Result<(Value, usize), AllocError>
    requires { at < length glance.now.rows.items }
    ensures next { IfOk result (λ r. (at < r.1) × (r.1 ≤ length glance.now.rows.items)) }
    ensures floats { IfOk result (λ r. has_float (view r.0) ≡ false) }
{
    let row = &glance.rows[at];
    let mut beneath = Beneath {
        fields: Map::new(alloc),
        items: Vec::new(alloc),
    };
    let mut next = at + 1;
    'rows: while next < glance.rows.len() && glance.rows[next].depth > row.depth {
        let (value, behind) = element_json(alloc, glance, next)?;
        beneath.add(alloc, &glance.rows[next], value)?;
        next = behind;
    }
    if row.is_cut || (glance.is_cut && next == glance.rows.len()) {
        beneath.mark_cut(alloc, row)?;
    }
    let value = shown(alloc, row, beneath)?;
    Ok((value, next))
}

impl Beneath {
    /// Adds the value of an element, as its row says: under its key, or as the next item.
    fn add(&mut self, alloc: Global, row: &Row, value: Value) -> Result<(), AllocError>
        requires value { has_float (view value) ≡ false }
        requires beneath { HasNoFloat self.old }
        ensures { OnOk result (HasNoFloat self.new) }
    {
        match &row.entered {
            Some(Hop::Field(key)) => {
                put(
                    &mut self.fields,
                    alloc,
                    name_of(alloc, key)?.as_str(),
                    value,
                )
            }
            _ => push(&mut self.items, value),
        }
    }

    /// Marks that more may be in what is still open. Fields come before items, so if there are items then all fields are there.
    fn mark_cut(&mut self, alloc: Global, row: &Row) -> Result<(), AllocError>
        requires { HasNoFloat self.old }
        ensures { OnOk result (HasNoFloat self.new) }
    {
        if self.items.is_empty() {
            put(&mut self.fields, alloc, "?", json!(in alloc; "cut")?)?;
        }
        if row.kinds.list {
            push(&mut self.items, cut_mark(alloc)?)?;
        }
        Ok(())
    }
}

/// The mark for elements that aren't shown.
fn cut_mark(alloc: Global) -> Result<Value, AllocError>
    ensures { IfOk result (λ v. has_float (view v) ≡ false) }
{
    json!(in alloc; {"?": "cut"})
}

/// The name of a key in the object.
fn name_of(alloc: Global, key: &Key) -> Result<String, AllocError> {
    let mut name = String::new(alloc);
    if key.as_str().starts_with('?') {
        name.push('?')?;
    }
    name.push_str(key.as_str())?;
    Ok(name)
}

/// What an element shows: the one thing that is present there, or the conflict of several.
fn shown(alloc: Global, row: &Row, beneath: Beneath) -> Result<Value, AllocError>
    requires { HasNoFloat beneath }
    ensures { IfOk result (λ v. has_float (view v) ≡ false) }
{
    let Beneath { fields, items } = beneath;
    let mut values = values_of(alloc, row)?;
    match (values.len(), row.kinds.map, row.kinds.list) {
        (0, false, false) => Ok(Value::Null),
        (0, true, false) => Ok(Value::Object(fields)),
        (0, false, true) => Ok(Value::Array(items)),
        (1, false, false) => Ok(values.pop().unwrap_or(Value::Null)),
        (_, has_map, has_list) => {
            let mut all = Map::new(alloc);
            put(&mut all, alloc, "?", json!(in alloc; "conflict")?)?;
            let has_values = !values.is_empty();
            put_standing(&mut all, alloc, has_values, "values", Value::Array(values))?;
            put_standing(&mut all, alloc, has_map, "map", Value::Object(fields))?;
            put_standing(&mut all, alloc, has_list, "list", Value::Array(items))?;
            Ok(Value::Object(all))
        }
    }
}

/// Puts one side of a conflict, if it is present.
fn put_standing(
    all: &mut Map<String, Value>,
    alloc: Global,
    is_there: bool,
    name: &str,
    value: Value,
) -> Result<(), AllocError>
    requires value { has_float (view value) ≡ false }
    requires all { members_have_float (members_view all.old.entries) ≡ false }
    ensures { OnOk result (members_have_float (members_view all.new.entries) ≡ false) }
{
    if is_there {
        put(all, alloc, name, value)?;
    }
    Ok(())
}

/// The values of an element's register.
fn values_of(alloc: Global, row: &Row) -> Result<Vec<Value>, AllocError>
    ensures { IfOk result (λ vs. items_have_float (items_view vs.items) ≡ false) }
{
    let mut values = Vec::with_capacity(alloc, row.values.len())?;
    for (_id, scalar) in &row.values {
        push(&mut values, scalar.to_json(alloc)?)?;
    }
    Ok(values)
}
