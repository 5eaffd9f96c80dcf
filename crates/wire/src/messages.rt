//! Messages: an operation or a vector, each as the text of one line without its line feed.
#![tactic(auto, using(crate::proofs::WrongLengths::wrong_lengths))]

ghost use Rattle.std.specs.Prelude.{◌≡◌, ℕ, List, Ok, OnOk, IfOk, IsTrue, IsUtf8};
ghost use Rattle.ids.specs.Vectors.{IsNamed};
ghost use Rattle.serde_json.specs.View.{items_view};
ghost use Rattle.operation.specs.Ops.{stamped_of};
ghost use Rattle.wire.specs.Forms.{IsRead, json_form};
ghost use Rattle.wire.specs.Messages.{hello_form, hello_json, only_vector, op_line, vector_line};
ghost use Rattle.semantics.specs.Stamped.{Stamped};
ghost use Rattle.semantics.specs.Vectors.{Vector};
ghost use Rattle.wire.specs.Operations.{operation_json};
ghost use Rattle.wire.specs.Reading.{op_form, operation_form};
ghost use Rattle.wire.specs.Sent.{AreReplicaNumbers, CanBeSent, IsSent, are_counters};
ghost use Rattle.wire.specs.Writing.{IsWritten, tokens_of};

use crate::canonical::read_canonical;
use crate::forms::{json_of, phrase_in};
use crate::reading::operation_in;
use crate::vectors::vector_in;
use crate::writing::{put_vector, with_line};
use ids::{NamedVector, Refusal};
use json::Writer;
use operation::{Op, Shared};
use serde_json::Value;
use std::alloc::{AllocError, Global};

/// Capacity for a line of usual length.
pub(crate) const LINE_BYTES: usize = 128;

/// The line of an operation. If its counters are within the limits of the wire, `read_op` reads it as the same operation.
///
/// # Errors
/// `AllocError` if allocation fails.
pub fn write_op(alloc: Global, op: &Op) -> Result<Vec<u8>, AllocError>
    ensures line { IfOk result (λ text. text.items ≡ op_line (stamped_of op.now)) }
    ensures reads_back { IfOk result
        (λ text. CanBeSent (stamped_of op.now) → op_form text.items ≡ Ok (stamped_of op.now)) }
{
    with_line(Vec::with_capacity(alloc, LINE_BYTES)?, op)
}

/// The line of a vector, a hello. If its counters are within the limits of the wire, `read_vector` reads it as the same vector.
///
/// # Errors
/// `AllocError` if allocation fails.
pub fn write_vector(alloc: Global, vector: &NamedVector) -> Result<Vec<u8>, AllocError>
    ensures line { IfOk result (λ text. text.items ≡ vector_line vector.now) }
    ensures reads_back { IfOk result
        (λ text. IsTrue (are_counters vector.now) → hello_form text.items ≡ Ok vector.now) }
{
    let mut out = Writer::new(Vec::with_capacity(alloc, LINE_BYTES)?);
    put_hello(&mut out, vector)?;
    Ok(out.into_inner())
}

/// Writes a vector after its word.
fn put_hello(out: &mut Writer, vector: &NamedVector) -> Result<(), AllocError>
    ensures json { OnOk result (IsWritten (tokens_of (hello_json vector.now)) out.old out.new) }
    ensures typed { OnOk result (AreReplicaNumbers vector.now) }
    ensures named { OnOk result (IsNamed vector.now) }
{
    out.begin_array()?;
    out.string("hello")?;
    put_vector(out, vector.ids())?;
    out.end_array()
}

/// The operation on a line.
///
/// A line in the form that `write_op` writes is read directly, unless a character in it is escaped by its number, it has the least whole
/// number, or it is longer than 32 KB. Any other line is parsed whole as JSON before its parts are looked at. Takes time and memory in
/// proportion to its length: whoever takes lines from others must bound their length first. JSON nested deeper than 127 lists and objects
/// is refused.
///
/// # Errors
/// The first fault in this order: `BadLine` if the text is no JSON, or no list of six that begins with `op`; then the faults of the
/// id, the vector, the path with its last key, and the mutation with its value. A part of another form is `BadLine`, and so is a vector of
/// more than 256 pairs; a path of more than 32 parts is `TooDeep`, a key of more than 256 bytes `KeyTooLong`, a text
/// of more than 4,096 bytes `TextTooLong`, and a number as a value that isn't whole `NotWhole`. `NoMemory` if allocation fails.
pub fn read_op(alloc: Global, text: &[u8]) -> Result<Shared<Op>, Refusal>
    ensures { IsRead stamped_of result (op_form text.now) }
{
    let op = op_in(alloc, text)?;
    Ok(Shared::new(alloc, op)?)
}

/// The operation on a line: read directly if the line is as it would be written, else as any JSON.
fn op_in(alloc: Global, text: &[u8]) -> Result<Op, Refusal>
    ensures { IsRead stamped_of result (op_form text.now) }
{
    if let Some(op) = read_canonical(alloc, text) {
        return Ok(op);
    }
    let value = json_of(alloc, text)?;
    operation_in(alloc, &value)
}

/// The vector on a line.
///
/// # Errors
/// `BadLine` if the text is no JSON or no hello, or if its vector has more than 256 pairs, or one of another form or out of ascending
/// order. `NoMemory` if allocation fails.
pub fn read_vector(alloc: Global, text: &[u8]) -> Result<NamedVector, Refusal>
    ensures { IsRead (λ v. v) result (hello_form text.now) }
{
    let value = json_of(alloc, text)?;
    let (word, parts) = phrase_in(&value)?;
    match word {
        "hello" => only_vector_in(alloc, parts),
        _ => Err(Refusal::BadLine),
    }
}

/// The vector of a list that holds nothing else.
fn only_vector_in(alloc: Global, parts: &[Value]) -> Result<NamedVector, Refusal>
    ensures { IsRead (λ v. v) result (only_vector (items_view parts.now)) }
{
    let [vector] = parts else {
        return Err(Refusal::BadLine);
    };
    vector_in(alloc, vector)
}

/// The JSON of an operation whose lengths and numbers are within their limits is read as that operation.
pub fn operations_are_read_back()
    ensures { (s : Stamped) → IsSent s → operation_form (operation_json s) ≡ Ok s }
{}

/// The line of an operation whose lengths and numbers are within their limits and whose texts are UTF-8 is read as that operation.
pub fn lines_are_read_back()
    ensures { (s : Stamped) → IsSent s → IsUtf8 (op_line s) → op_form (op_line s) ≡ Ok s }
{}

/// A line that is read as an operation or as a vector has the JSON that writing it gives, whatever its spaces and escapes.
pub fn what_is_read_is_written_alike()
    ensures operation { (text : List ℕ) (s : Stamped) → op_form text ≡ Ok s → json_form text ≡ Ok (operation_json s) }
    ensures vector { (text : List ℕ) (v : Vector) → hello_form text ≡ Ok v → json_form text ≡ Ok (hello_json v) }
{}
