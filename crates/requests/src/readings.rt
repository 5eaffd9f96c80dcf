//! The answers to questions, written as JSON.

ghost use Rattle.std.specs.Prelude.{◌≡◌, ◌∷◌, ℕ, [], map, codes, OnOk};
ghost use Rattle.serde_json.specs.Data.{Data, array, string};
ghost use Rattle.serde_json.specs.View.{items_of};
ghost use Rattle.document.specs.cursor.Steps.{tag_of};
ghost use Rattle.document.specs.value.Values.{scalar_of};
ghost use Rattle.document.specs.operation.Ops.{stamped_of};
ghost use Rattle.document.specs.Documents.{said_by};
ghost use Rattle.wire.specs.Operations.{id_json, operation_json, phrase};
ghost use Rattle.wire.specs.Vectors.{count};
ghost use Rattle.wire.specs.Writing.{IsWritten, tokens_of};
ghost use Rattle.requests.specs.Readings.{conflict_json, reading_json, row_json, tag_name};

use document::{Key, Op, Reading, Scalar, Shared, Tag};
use ids::OpId;
use json::Writer;
use std::alloc::AllocError;
use wire::{put_id, put_op, put_scalar, put_vector};

/// Writes the reply to a question, for a token that has seen this many entries.
///
/// # Errors
/// `AllocError` if allocation fails.
pub fn put_reading(out: &mut Writer, seen: u64, reading: &Reading) -> Result<(), AllocError>
    ensures { OnOk result (IsWritten (tokens_of (reading_json seen (said_by reading.now))) out.old out.new) }
{
    out.begin_array()?;
    out.string("reading")?;
    out.u64(seen)?;
    put_answer(out, reading)?;
    out.end_array()
}

/// Writes the part of the reply after the number of entries.
fn put_answer(out: &mut Writer, reading: &Reading) -> Result<(), AllocError>
    ensures { OnOk result ((answer : Data)
        × ((seen : ℕ) → reading_json seen (said_by reading.now) ≡ phrase (codes "reading") (count seen ∷ answer ∷ []))
        × IsWritten (tokens_of answer) out.old out.new) }
{
    match reading {
        Reading::Values(values) => put_values(out, values),
        Reading::Keys(keys) => put_keys(out, keys),
        Reading::Items(items) => put_items(out, items),
        Reading::Conflicts(pairs) => put_conflicts(out, pairs),
        Reading::Missing(ops) => put_ops(out, ops),
        Reading::Vector(vector) => put_vector(out, vector.ids()),
    }
}

fn put_values(out: &mut Writer, values: &[(OpId, Scalar)]) -> Result<(), AllocError>
    ensures { OnOk result
        (IsWritten (tokens_of (array (items_of (map (λ p. row_json (p.0, scalar_of p.1)) values.now)))) out.old out.new) }
{
    out.begin_array()?;
    for (id, scalar) in values {
        put_row(out, *id, scalar)?;
    }
    out.end_array()
}

/// Writes the id of a value, and the value.
fn put_row(out: &mut Writer, id: OpId, scalar: &Scalar) -> Result<(), AllocError>
    ensures { OnOk result (IsWritten (tokens_of (row_json (id, scalar_of scalar.now))) out.old out.new) }
{
    out.begin_array()?;
    put_id(out, id)?;
    put_scalar(out, scalar)?;
    out.end_array()
}

fn put_keys(out: &mut Writer, keys: &[Key]) -> Result<(), AllocError>
    ensures { OnOk result (IsWritten (tokens_of (array (items_of (map string keys.now)))) out.old out.new) }
{
    out.begin_array()?;
    for key in keys {
        out.string(key.as_str())?;
    }
    out.end_array()
}

fn put_items(out: &mut Writer, items: &[OpId]) -> Result<(), AllocError>
    ensures { OnOk result (IsWritten (tokens_of (array (items_of (map id_json items.now)))) out.old out.new) }
{
    out.begin_array()?;
    for id in items {
        put_id(out, *id)?;
    }
    out.end_array()
}

fn put_conflicts(out: &mut Writer, pairs: &[(OpId, Tag)]) -> Result<(), AllocError>
    ensures { OnOk result
        (IsWritten (tokens_of (array (items_of (map (λ p. conflict_json (p.0, tag_of p.1)) pairs.now)))) out.old out.new) }
{
    out.begin_array()?;
    for (id, tag) in pairs {
        put_conflict(out, *id, *tag)?;
    }
    out.end_array()
}

/// Writes the id of a conflict, and its tag.
fn put_conflict(out: &mut Writer, id: OpId, tag: Tag) -> Result<(), AllocError>
    ensures { OnOk result (IsWritten (tokens_of (conflict_json (id, tag_of tag))) out.old out.new) }
{
    out.begin_array()?;
    put_id(out, id)?;
    out.string(name_of(tag))?;
    out.end_array()
}

fn name_of(tag: Tag) -> &'static str
    ensures { result.now ≡ tag_name (tag_of tag) }
{
    match tag {
        Tag::Map => "map",
        Tag::List => "list",
        Tag::Reg => "reg",
    }
}

/// Writes the operations in their order.
fn put_ops(out: &mut Writer, ops: &[Shared<Op>]) -> Result<(), AllocError>
    ensures { OnOk result
        (IsWritten (tokens_of (array (items_of (map (λ o. operation_json (stamped_of o)) ops.now)))) out.old out.new) }
{
    out.begin_array()?;
    for op in ops {
        put_op(out, op)?;
    }
    out.end_array()
}
