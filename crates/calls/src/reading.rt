//! Reading calls from their lines.
#![tactic(auto, using(crate::proofs::WrongLengths::call_lengths))]

ghost use Rattle.std.specs.Prelude.{◌≡◌, ℕ, IfSome, List, Ok, string_bytes};
ghost use Rattle.serde_json.specs.View.{view, items_view};
ghost use Rattle.requests.specs.wire.Forms.{IsRead};
ghost use Rattle.calls.specs.Calls.{Call as TheCall, ask_form, call_form, call_of, call_of_json, glance_of, nothing_of};
ghost use Rattle.calls.specs.Calls.{other_call_of, text_of, write_form};

use crate::call::Call;
use ids::Refusal;
use json::{Reader, Scratch};
use requests::{
    Edition, command_in, expression_in, json_of, number_in, phrase_in, question_in, take_command,
    text_in,
};
use serde_json::Value;
use std::alloc::Global;

/// The beginnings of most lines that write.
const WRITES: [&[u8]; 3] = [b"[\"assign\"", b"[\"insert\"", b"[\"delete\""];

/// What a line calls for, without its line feed. It may contain JSON white space and escapes.
///
/// Takes time and memory in proportion to the line's length: whoever takes lines from others must bound their length first.
///
/// # Errors
/// `BadLine` if the text is no JSON, or no list that begins with the word of a call; else the first fault of its parts from the left. A
/// part of another form, a missing part and an extra part are `BadLine`; a key of more than 256 bytes is `KeyTooLong`; in the value of a
/// command, a text of more than 4,096 bytes is `TextTooLong` and a number that isn't whole is `NotWhole`. `NoMemory` if allocation fails.
pub fn read_call(alloc: Global, line: &[u8]) -> Result<Call, Refusal>
    ensures { IsRead call_of result (call_form line.now) }
{
    if WRITES.iter().any(|start| line.starts_with(*start))
        && let Some(call) = write_on(alloc, line)
    {
        return Ok(call);
    }
    let value = json_of(alloc, line)?;
    call_in(alloc, &value)
}

/// The write on a line, read from its tokens. `None` if the line is none, or if allocation fails.
fn write_on(alloc: Global, line: &[u8]) -> Option<Call>
    ensures { IfSome result (λ call. call_form line.now ≡ Ok (call_of call)) }
{
    let Ok(text) = str::from_utf8(line) else {
        return None;
    };
    let mut scratch = Scratch::new(alloc);
    let Ok(mut reader) = Reader::new(text, &mut scratch) else {
        return None;
    };
    let command = take_command(alloc, Edition::Second, &mut reader)?;
    if reader.next().is_some() {
        return None;
    }
    Some(Call::Write(command))
}

/// The call that a JSON value is.
fn call_in(alloc: Global, value: &Value) -> Result<Call, Refusal>
    ensures { IsRead call_of result (call_of_json (view value.now)) }
{
    let (word, parts) = phrase_in(value)?;
    match word {
        "assign" => command_call_in(alloc, value),
        "insert" => command_call_in(alloc, value),
        "delete" => command_call_in(alloc, value),
        "glance" => glance_in(alloc, parts),
        _ => other_call_in(alloc, word, value, parts),
    }
}

/// A call whose word isn't that of a command or a glance.
fn other_call_in(alloc: Global, word: &str, value: &Value, parts: &[Value]) -> Result<Call, Refusal>
    ensures { IsRead call_of result (other_call_of (view value.now) (word.now, items_view parts.now)) }
{
    match word {
        "hello" => {
            check_none(parts)?;
            Ok(Call::Hello)
        }
        "answer" => Ok(Call::Answer(only_text_in(alloc, parts)?)),
        "receive" => Ok(Call::Receive(only_text_in(alloc, parts)?)),
        "save" => {
            check_none(parts)?;
            Ok(Call::Save)
        }
        "status" => {
            check_none(parts)?;
            Ok(Call::Status)
        }
        _ => question_call_in(alloc, value),
    }
}

/// A command.
fn command_call_in(alloc: Global, value: &Value) -> Result<Call, Refusal>
    ensures { IsRead call_of result (write_form (view value.now)) }
{
    Ok(Call::Write(command_in(alloc, Edition::Second, value)?))
}

/// A question.
fn question_call_in(alloc: Global, value: &Value) -> Result<Call, Refusal>
    ensures { IsRead call_of result (ask_form (view value.now)) }
{
    Ok(Call::Ask(question_in(alloc, Edition::Second, value)?))
}

/// An expression, the depth below its element, and the number of elements.
fn glance_in(alloc: Global, parts: &[Value]) -> Result<Call, Refusal>
    ensures { IsRead call_of result (glance_of (items_view parts.now)) }
{
    let [expression, depth, elements] = parts else {
        return Err(Refusal::BadLine);
    };
    let expression = expression_in(alloc, Edition::Second, expression)?;
    let depth = number_in(depth)?;
    let elements = number_in(elements)?;
    Ok(Call::Glance {
        expression,
        depth,
        elements,
    })
}

/// The text of a list that holds nothing else.
fn only_text_in(alloc: Global, parts: &[Value]) -> Result<String, Refusal>
    ensures { (what : List ℕ → TheCall) → IsRead (λ s. what (string_bytes s)) result (text_of what (items_view parts.now)) }
{
    let [text] = parts else {
        return Err(Refusal::BadLine);
    };
    Ok(String::from_str(alloc, text_in(text)?)?)
}

/// Tests that nothing follows the word.
fn check_none(parts: &[Value]) -> Result<(), Refusal>
    ensures { (what : TheCall) → IsRead (λ _. what) result (nothing_of what (items_view parts.now)) }
{
    let [] = parts else {
        return Err(Refusal::BadLine);
    };
    Ok(())
}
