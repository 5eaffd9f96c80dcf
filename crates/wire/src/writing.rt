//! Writing operations, their ids, vectors and values: token by token into a text, without a JSON value in between.

ghost use Rattle.std.specs.Prelude.{◌≡◌, ◌++◌, ◌∷◌, [], ℕ, List, map, IfOk, Ok, OnOk};
ghost use Rattle.ids.specs.Vectors.{IsCanonical};
ghost use Rattle.serde_json.specs.Data.{Data};
ghost use Rattle.semantics.specs.Elements.{Plain};
ghost use Rattle.operation.specs.cursor.Steps.{hop_of};
ghost use Rattle.operation.specs.value.Forms.{IsWithinLimits, json_of, scalar_json};
ghost use Rattle.operation.specs.value.Values.{scalar_of, value_of};
ghost use Rattle.operation.specs.Ops.{mutation_of, stamped_of};
ghost use Rattle.wire.specs.Deltas.{delta};
ghost use Rattle.wire.specs.Messages.{op_line};
ghost use Rattle.wire.specs.Operations.{entered_json, id_json, last_from, last_json, mutation_json, operation_json, parts_from};
ghost use Rattle.wire.specs.Operations.{path_json, phrase, root_json};
ghost use Rattle.wire.specs.Profiles.{IsSentBeside, line_form, op2_json, op2_line};
ghost use Rattle.wire.specs.Reading.{op_form};
ghost use Rattle.wire.specs.Sent.{AreReplicaNumbers, AreTypedKeys, CanBeSent, IsReplicaNumber, IsSent, IsSentMutation, IsTypedKey};
ghost use Rattle.wire.specs.Sent.{IsTypedPlace};
ghost use Rattle.wire.specs.Vectors.{pair_json, vector_json};
ghost use Rattle.wire.specs.Writing.{IsWritten, key_before, key_of, tokens_of, tokens_of_all};

use crate::deltas::Differences;
use ids::OpId;
use json::Writer;
use operation::{Hop, MOST_KEY_BYTES, MOST_KEYS, Mutation, Op, Place, Scalar, Val};
use std::alloc::AllocError;

/// The text followed by the operation's line. If the operation can be sent, its line is read back as the same operation. Allocates for the
/// text alone.
///
/// # Errors
/// `AllocError` if allocation fails.
pub(crate) fn with_line(text: Vec<u8>, op: &Op) -> Result<Vec<u8>, AllocError>
    ensures line { IfOk result (λ t. t.items ≡ text.items ++ op_line (stamped_of op.now)) }
    ensures reads_back { OnOk result
        (CanBeSent (stamped_of op.now) → op_form (op_line (stamped_of op.now)) ≡ Ok (stamped_of op.now)) }
{
    let mut out = Writer::new(text);
    put_op(&mut out, op)?;
    Ok(out.into_inner())
}

/// The text followed by the operation's line relative to a base, as `with_line`.
///
/// # Errors
/// `AllocError` if allocation fails.
pub(crate) fn with_line_beside(text: Vec<u8>, base: &[OpId], op: &Op) -> Result<Vec<u8>, AllocError>
    requires { IsCanonical base.now }
    ensures line { IfOk result (λ t. t.items ≡ text.items ++ op2_line base.now (stamped_of op.now)) }
    ensures reads_back { OnOk result
        (CanBeSent (stamped_of op.now) → line_form base.now (op2_line base.now (stamped_of op.now)) ≡ Ok (stamped_of op.now)) }
{
    let mut out = Writer::new(text);
    put_op_beside(&mut out, base, op)?;
    Ok(out.into_inner())
}

/// Writes an operation.
///
/// # Errors
/// `AllocError` if allocation fails.
pub fn put_op(out: &mut Writer, op: &Op) -> Result<(), AllocError>
    ensures json { OnOk result (IsWritten (tokens_of (operation_json (stamped_of op.now))) out.old out.new) }
    ensures sent { OnOk result (CanBeSent (stamped_of op.now) → IsSent (stamped_of op.now)) }
{
    prove!(op.id.replica.number() >= 1);
    out.begin_array()?;
    out.string("op")?;
    put_id(out, op.id)?;
    put_vector(out, op.deps.ids())?;
    put_place(out, &op.place)?;
    put_mutation(out, &op.mutation)?;
    out.end_array()
}

/// Writes an operation, with its vector as the differences from a base.
fn put_op_beside(out: &mut Writer, base: &[OpId], op: &Op) -> Result<(), AllocError>
    requires { IsCanonical base.now }
    ensures json { OnOk result (IsWritten (tokens_of (op2_json base.now (stamped_of op.now))) out.old out.new) }
    ensures sent { OnOk result (CanBeSent (stamped_of op.now) → IsSentBeside base.now (stamped_of op.now)) }
{
    prove!(op.id.replica.number() >= 1);
    out.begin_array()?;
    out.string("op2")?;
    put_id(out, op.id)?;
    put_differences(out, base, op.deps.ids())?;
    put_place(out, &op.place)?;
    put_mutation(out, &op.mutation)?;
    out.end_array()
}

/// Writes an id: counter and replica.
///
/// # Errors
/// `AllocError` if allocation fails.
pub fn put_id(out: &mut Writer, id: OpId) -> Result<(), AllocError>
    ensures { OnOk result (IsWritten (tokens_of (id_json id)) out.old out.new) }
{
    out.begin_array()?;
    out.u64(id.counter)?;
    out.u64(u64::from(id.replica.number()))?;
    out.end_array()
}

/// Writes a pair: replica and counter.
fn put_pair(out: &mut Writer, id: OpId) -> Result<(), AllocError>
    ensures json { OnOk result (IsWritten (tokens_of (pair_json id)) out.old out.new) }
    ensures typed { OnOk result (IsReplicaNumber id.replica) }
{
    out.begin_array()?;
    out.u64(u64::from(id.replica.number()))?;
    out.u64(id.counter)?;
    out.end_array()
}

/// Writes a pair for each of these ids.
///
/// # Errors
/// `AllocError` if allocation fails.
pub fn put_vector(out: &mut Writer, ids: &[OpId]) -> Result<(), AllocError>
    ensures json { OnOk result (IsWritten (tokens_of (vector_json ids.now)) out.old out.new) }
    ensures typed { OnOk result (AreReplicaNumbers ids.now) }
{
    out.begin_array()?;
    for id in ids {
        put_pair(out, *id)?;
    }
    out.end_array()
}

/// Writes a pair for each difference of these ids from a base.
fn put_differences(out: &mut Writer, base: &[OpId], ids: &[OpId]) -> Result<(), AllocError>
    requires base { IsCanonical base.now }
    requires ids { IsCanonical ids.now }
    ensures json { OnOk result (IsWritten (tokens_of (vector_json (delta base.now ids.now))) out.old out.new) }
    ensures typed { OnOk result (AreReplicaNumbers (delta base.now ids.now)) }
{
    out.begin_array()?;
    for id in Differences::new(base, ids) {
        put_pair(out, id)?;
    }
    out.end_array()
}

/// Writes the keys that a place stands in, each with its tag, and then its own key; a head stands in its list.
fn put_place(out: &mut Writer, place: &Place) -> Result<(), AllocError>
    ensures json { OnOk result (IsWritten (tokens_of (path_json place.now) ++ tokens_of (last_json place.now)) out.old out.new) }
    ensures typed { OnOk result (IsTypedPlace place.now) }
{
    prove!(place.depth() <= MOST_KEYS);
    out.begin_array()?;
    let last = put_parts(out, place.hops())?;
    if place.is_head() {
        put_part(out, "l", last)?;
        out.end_array()?;
        return out.u64(1);
    }
    out.end_array()?;
    put_key(out, last)
}

/// Writes the part before each hop, and returns the last hop.
fn put_parts<'a>(out: &mut Writer, hops: &'a [Hop]) -> Result<Option<&'a Hop>, AllocError>
    ensures json { OnOk result ((ds : List Data)
        → out.new.tokens ++ tokens_of_all ds ≡ out.old.tokens ++ tokens_of_all (parts_from root_json (map hop_of hops.entry.now) ++ ds)) }
    ensures before { OnOk result (out.new.before ≡ out.old.before) }
    ensures last { IfOk result (λ hop. key_before (key_of hop) ≡ last_from root_json (map hop_of hops.entry.now)) }
    ensures typed { OnOk result (AreTypedKeys (map hop_of hops.entry.now)) }
{
    let mut last = None;
    for hop in hops {
        put_part(out, tag_before(hop), last)?;
        last = Some(hop);
    }
    Ok(last)
}

/// The tag of what is entered before a hop.
fn tag_before(hop: &Hop) -> &'static str
    ensures tag { (before : Data) → phrase result.now (before ∷ []) ≡ entered_json before (hop_of hop.now) }
    ensures typed { IsTypedKey (hop_of hop.now) }
{
    match hop {
        Hop::Field(key) => {
            prove!(key.as_str().len() <= MOST_KEY_BYTES);
            "m"
        }
        Hop::Item(id) => {
            prove!(id.replica.number() >= 1);
            "l"
        }
    }
}

/// Writes the key of a hop, or of the root, with the tag of what is entered there.
fn put_part(out: &mut Writer, tag: &str, hop: Option<&Hop>) -> Result<(), AllocError>
    ensures { OnOk result (IsWritten (tokens_of (phrase tag.now (key_before (key_of hop.entry) ∷ []))) out.old out.new) }
{
    out.begin_array()?;
    out.string(tag)?;
    put_key(out, hop)?;
    out.end_array()
}

/// Writes the key of a hop, or of the root.
fn put_key(out: &mut Writer, hop: Option<&Hop>) -> Result<(), AllocError>
    ensures { OnOk result (IsWritten (tokens_of (key_before (key_of hop.entry))) out.old out.new) }
{
    match hop {
        None => out.u64(0),
        Some(Hop::Field(key)) => out.string(key.as_str()),
        Some(Hop::Item(id)) => put_id(out, *id),
    }
}

fn put_mutation(out: &mut Writer, mutation: &Mutation) -> Result<(), AllocError>
    ensures json { OnOk result (IsWritten (tokens_of (mutation_json (mutation_of mutation.now))) out.old out.new) }
    ensures within { OnOk result (IsSentMutation (mutation_of mutation.now)) }
{
    match mutation {
        Mutation::Assign(value) => put_written(out, "a", value),
        Mutation::Insert(value) => put_written(out, "i", value),
        Mutation::Delete => {
            out.begin_array()?;
            out.string("d")?;
            out.end_array()
        }
    }
}

/// Writes a word, and the value that is written.
fn put_written(out: &mut Writer, word: &str, value: &Val) -> Result<(), AllocError>
    ensures json { OnOk result (IsWritten (tokens_of (phrase word.now (json_of (value_of value.now) ∷ []))) out.old out.new) }
    ensures within { OnOk result (IsWithinLimits (value_of value.now)) }
{
    out.begin_array()?;
    out.string(word)?;
    put_value(out, value)?;
    out.end_array()
}

/// Writes a value.
///
/// # Errors
/// `AllocError` if allocation fails.
pub fn put_value(out: &mut Writer, value: &Val) -> Result<(), AllocError>
    ensures json { OnOk result (IsWritten (tokens_of (json_of (value_of value.now))) out.old out.new) }
    ensures within { IsWithinLimits (value_of value.now) }
{
    match value {
        Val::Scalar(scalar) => put_scalar(out, scalar),
        Val::EmptyMap => {
            out.begin_object()?;
            out.end_object()
        }
        Val::EmptyList => {
            out.begin_array()?;
            out.end_array()
        }
    }
}

/// Writes a value that is no map and no list.
///
/// # Errors
/// `AllocError` if allocation fails.
pub fn put_scalar(out: &mut Writer, scalar: &Scalar) -> Result<(), AllocError>
    ensures json { OnOk result (IsWritten (tokens_of (scalar_json (scalar_of scalar.now))) out.old out.new) }
    ensures within { IsWithinLimits (Plain (scalar_of scalar.now)) }
{
    match scalar {
        Scalar::Null => out.null(),
        Scalar::Bool(truth) => out.boolean(*truth),
        Scalar::Whole(whole) => out.i64(*whole),
        Scalar::Text(text) => out.string(text.as_str()),
    }
}
