//! Commands as JSON.
#![tactic(auto, using(crate::proofs::WrongLengths::command_lengths))]

ghost use Rattle.std.specs.Prelude.{◌≡◌, ◌∷◌, [], ℕ, List, Ok, OnOk};
ghost use Rattle.serde_json.specs.View.{view, items_view};
ghost use Rattle.semantics.specs.Elements.{Value as TheValue};
ghost use Rattle.semantics.specs.Operations.{Mutation as TheMutation};
ghost use Rattle.semantics.specs.Making.{Command as TheCommand};
ghost use Rattle.document.specs.value.Forms.{IsWithinLimits, json_of};
ghost use Rattle.document.specs.value.Values.{value_of};
ghost use Rattle.document.specs.operation.Ops.{command_of};
ghost use Rattle.wire.specs.Forms.{IsRead, and_then, json_form};
ghost use Rattle.wire.specs.Operations.{phrase};
ghost use Rattle.wire.specs.Sent.{IsSentMutation};
ghost use Rattle.wire.specs.Writing.{IsWritten, tokens_of};
ghost use Rattle.requests.specs.declared.edition.Edition.{Edition};
ghost use Rattle.requests.specs.declared.edition.Edition.TheVariants.{Second};
ghost use Rattle.requests.specs.Commands.{command_form, delete_of, writing_of};
ghost use Rattle.requests.specs.Written.{AreTypedSteps, HasCounters, IsSentCommand, command_json, expression_json};

use crate::edition::Edition;
use crate::expressions::{expression_in, put_expression};
use document::{Command, Expr, Val};
use ids::Refusal;
use json::Writer;
use serde_json::Value;
use std::alloc::{AllocError, Global};
use wire::{phrase_in, put_value};

/// The command of a JSON value: `["assign",EXPRESSION,VALUE]`, `["insert",EXPRESSION,VALUE]` or `["delete",EXPRESSION]`.
///
/// # Errors
/// `BadLine` if it has another form, `KeyTooLong`, `TextTooLong` or `NotWhole` for the first part that isn't within its limit, or
/// `NoMemory` if allocation fails.
pub fn command_in(alloc: Global, edition: Edition, value: &Value) -> Result<Command, Refusal>
    ensures { IsRead command_of result (command_form edition (view value.now)) }
{
    let (word, parts) = phrase_in(value)?;
    match word {
        "assign" => {
            let (expression, value) = writing_in(alloc, edition, parts)?;
            Ok(Command::Assign(expression, value))
        }
        "insert" => {
            let (expression, value) = writing_in(alloc, edition, parts)?;
            Ok(Command::InsertAfter(expression, value))
        }
        "delete" => delete_in(alloc, edition, parts),
        _ => Err(Refusal::BadLine),
    }
}

/// An expression, and the value that is written there.
fn writing_in(alloc: Global, edition: Edition, parts: &[Value]) -> Result<(Expr, Val), Refusal>
    ensures { (how : TheValue → TheMutation)
        → IsRead (λ p. record { expression = p.0; mutation = how (value_of p.1) }) result (writing_of edition how (items_view parts.now)) }
{
    let [expression, written] = parts else {
        return Err(Refusal::BadLine);
    };
    let expression = expression_in(alloc, edition, expression)?;
    Ok((expression, Val::from_json(alloc, written)?))
}

fn delete_in(alloc: Global, edition: Edition, parts: &[Value]) -> Result<Command, Refusal>
    ensures { IsRead command_of result (delete_of edition (items_view parts.now)) }
{
    let [expression] = parts else {
        return Err(Refusal::BadLine);
    };
    Ok(Command::Delete(expression_in(alloc, edition, expression)?))
}

/// Writes a command.
///
/// # Errors
/// `AllocError` if allocation fails.
pub fn put_command(out: &mut Writer, command: &Command) -> Result<(), AllocError>
    ensures json { OnOk result (IsWritten (tokens_of (command_json (command_of command.now))) out.old out.new) }
    ensures steps { OnOk result (AreTypedSteps (command_of command.now).expression) }
    ensures mutation { OnOk result (IsSentMutation (command_of command.now).mutation) }
{
    match command {
        Command::Assign(expression, value) => put_writing(out, "assign", expression, value),
        Command::InsertAfter(expression, value) => put_writing(out, "insert", expression, value),
        Command::Delete(expression) => {
            out.begin_array()?;
            out.string("delete")?;
            put_expression(out, expression)?;
            out.end_array()
        }
    }
}

/// Writes a word, an expression, and the value that is written there.
fn put_writing(
    out: &mut Writer,
    word: &str,
    expression: &Expr,
    value: &Val,
) -> Result<(), AllocError>
    ensures json { OnOk result (IsWritten
        (tokens_of (phrase word.now (expression_json expression.now ∷ json_of (value_of value.now) ∷ []))) out.old out.new) }
    ensures steps { OnOk result (AreTypedSteps expression.now) }
    ensures value { OnOk result (IsWithinLimits (value_of value.now)) }
{
    out.begin_array()?;
    out.string(word)?;
    put_expression(out, expression)?;
    put_value(out, value)?;
    out.end_array()
}

/// The JSON of a command whose steps and value are within their limits is read as that command, in the second edition. So is that of each
/// command of the program if its ids have counters within the limits of the wire.
pub fn commands_are_read_back()
    ensures back { (c : TheCommand) → IsSentCommand c → command_form Second (command_json c) ≡ Ok c }
    ensures sent { (c : TheCommand) → AreTypedSteps c.expression → HasCounters c.expression → IsSentMutation c.mutation → IsSentCommand c }
{}

/// A text that is read as a command has the JSON that writing it gives, whatever its spaces and escapes.
pub fn commands_are_written_alike()
    ensures { (edition : Edition) (text : List ℕ) (c : TheCommand) → and_then (command_form edition) (json_form text) ≡ Ok c
        → json_form text ≡ Ok (command_json c) }
{}
