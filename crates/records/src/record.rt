//! The lines of a journal, one at a time.
#![tactic(auto, using(crate::proofs::WrongLengths::record_lengths))]

ghost use Rattle.std.specs.Prelude.{◌≡◌, IfSome, IsUtf8, Ok};
ghost use Rattle.serde_json.specs.View.{view, items_view};
ghost use Rattle.semantics.specs.Journals.{Received, Recorded as TheRecorded};
ghost use Rattle.requests.specs.Taken.{IsTakenAs};
ghost use Rattle.requests.specs.wire.Forms.{IsRead, and_then};
ghost use Rattle.requests.specs.wire.Reading.{operation_form};
ghost use Rattle.records.specs.Lines.{IsSentRecord, commanded_of, record_form, record_line, record_of};
ghost use Rattle.records.specs.Replays.{record_meant};

use ids::{OpId, Refusal};
use json::{Reader, Scratch};
use requests::{
    Command, Edition, Op, Shared, command_in, id_in, json_of, opens, operation_in, phrase_in,
    read_op, take_command, take_id, take_text,
};
use serde_json::Value;
use std::alloc::Global;

/// What a line of a journal records of an entry.
#[derive(Debug, Drop)]
pub enum Recorded {
    /// The id of an own operation, and the command that it was made of.
    Commanded(OpId, Shared<Command>),
    /// The operation that a peer sent.
    Received(Shared<Op>),
}

/// The beginning of an own command's line, as `lines_of` writes it.
const OWN: &[u8] = b"[\"own\"";

/// What a line of a journal, without its line feed, records. The scratch is memory that reading needs, kept from line to line.
///
/// # Errors
/// `BadLine` if the text is no JSON, or neither `["own",ID,COMMAND]` nor the line of an operation in the first profile; else the first
/// fault of its parts from the left, as `read_op` has them. `NoMemory` if allocation fails.
pub fn read_record(alloc: Global, scratch: &mut Scratch, line: &[u8]) -> Result<Recorded, Refusal>
    ensures { IsRead record_meant result (record_form line.now) }
{
    if line.starts_with(OWN) {
        if let Some(said) = own_on(alloc, scratch, line) {
            return Ok(said);
        }
    } else if let Ok(op) = read_op(alloc, line) {
        return Ok(Recorded::Received(op));
    }
    let value = json_of(alloc, line)?;
    record_in(alloc, &value)
}

/// The own command on a line, read from its tokens. `None` if the line is no such one, or if allocation fails.
fn own_on(alloc: Global, scratch: &mut Scratch, line: &[u8]) -> Option<Recorded>
    ensures { IfSome result (λ said. record_form line.now ≡ Ok (record_meant said)) }
{
    let Ok(text) = str::from_utf8(line) else {
        return None;
    };
    let Ok(mut reader) = Reader::new(text, scratch) else {
        return None;
    };
    let said = take_own(alloc, &mut reader)?;
    if reader.next().is_some() {
        return None;
    }
    Some(said)
}

/// An id and a command, behind their word.
fn take_own(alloc: Global, reader: &mut Reader<'_>) -> Option<Recorded>
    ensures { IfSome result (λ said. IsTakenAs 4 record_of reader.old (record_meant said) reader.new) }
{
    if !opens(reader) || take_text(reader)? != "own" {
        return None;
    }
    let id = take_id(reader)?;
    let command = Shared::new(alloc, take_command(alloc, Edition::Second, reader)?).ok()?;
    if !reader.take_end_array() {
        return None;
    }
    Some(Recorded::Commanded(id, command))
}

/// The record that a JSON value is.
fn record_in(alloc: Global, value: &Value) -> Result<Recorded, Refusal>
    ensures { IsRead record_meant result (record_of (view value.now)) }
{
    let (word, parts) = phrase_in(value)?;
    match word {
        "own" => commanded_in(alloc, parts),
        _ => received_in(alloc, value),
    }
}

/// An id and a command.
fn commanded_in(alloc: Global, parts: &[Value]) -> Result<Recorded, Refusal>
    ensures { IsRead record_meant result (commanded_of (items_view parts.now)) }
{
    let [id, command] = parts else {
        return Err(Refusal::BadLine);
    };
    let id = id_in(id)?;
    let command = Shared::new(alloc, command_in(alloc, Edition::Second, command)?)?;
    Ok(Recorded::Commanded(id, command))
}

/// An operation.
fn received_in(alloc: Global, value: &Value) -> Result<Recorded, Refusal>
    ensures { IsRead record_meant result (and_then (λ s. Ok (Received s)) (operation_form (view value.now))) }
{
    let op = Shared::new(alloc, operation_in(alloc, value)?)?;
    Ok(Recorded::Received(op))
}

/// The line of a record whose lengths and numbers are within their limits and whose texts are UTF-8 is read as that record.
pub fn records_are_read_back()
    ensures { (x : TheRecorded) → IsSentRecord x → IsUtf8 (record_line x) → record_form (record_line x) ≡ Ok x }
{}
