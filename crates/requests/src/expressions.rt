//! Expressions as JSON.
#![tactic(auto)]

ghost use Rattle.std.specs.Prelude.{map, OnOk};
ghost use Rattle.document.specs.cursor.Steps.{step_of};
ghost use Rattle.serde_json.specs.View.{view, items_view};
ghost use Rattle.wire.specs.Forms.{IsRead, IsOrNoMemory};
ghost use Rattle.wire.specs.Writing.{IsWritten, tokens_of};
ghost use Rattle.requests.specs.Expressions.{expression_form, item_form, path_step_form, path_steps_of};
ghost use Rattle.requests.specs.Written.{AreTypedSteps, IsTypedStep, expression_json, path_step_json};

use crate::edition::Edition;
use document::{Expr, ExprStep as Step, Key};
use ids::Refusal;
use json::Writer;
use serde_json::Value;
use std::alloc::{AllocError, Global};
use wire::{id_in, list_in, number_in, put_id};

/// An expression: a list of keys of maps, and of items of lists, by their indices or their ids.
///
/// # Errors
/// `BadLine` if it has another form, `KeyTooLong` for the first key of more than 256 bytes, or `NoMemory` if allocation fails.
pub fn expression_in(alloc: Global, edition: Edition, value: &Value) -> Result<Expr, Refusal>
    ensures { IsOrNoMemory result (expression_form edition (view value.now)) }
{
    Ok(Expr::new(steps_in(alloc, edition, list_in(value)?)?))
}

fn steps_in(alloc: Global, edition: Edition, parts: &[Value]) -> Result<Vec<Step>, Refusal>
    ensures { IsRead (λ steps. map step_of steps.items) result (path_steps_of edition (items_view parts.now)) }
{
    let mut steps = Vec::new(alloc);
    for part in parts {
        steps.push(step_in(alloc, edition, part)?)?;
    }
    Ok(steps)
}

/// A step: a text is a key, and anything else leads to an item.
fn step_in(alloc: Global, edition: Edition, value: &Value) -> Result<Step, Refusal>
    ensures { IsRead step_of result (path_step_form edition (view value.now)) }
{
    match value.as_str() {
        Some(key) => Ok(Step::Get(Key::new(alloc, key)?)),
        None => item_in(edition, value),
    }
}

/// A step to an item: a number is its index in the list, and in the second edition a list is its id.
fn item_in(edition: Edition, value: &Value) -> Result<Step, Refusal>
    ensures { IsRead step_of result (item_form edition (view value.now)) }
{
    match edition {
        Edition::Second if value.is_array() => Ok(Step::Item(id_in(value)?)),
        _ => Ok(Step::Idx(number_in(value)?)),
    }
}

/// Writes an expression.
pub fn put_expression(out: &mut Writer, expression: &Expr) -> Result<(), AllocError>
    ensures json { OnOk result (IsWritten (tokens_of (expression_json expression.now)) out.old out.new) }
    ensures typed { OnOk result (AreTypedSteps expression.now) }
{
    out.begin_array()?;
    for step in expression.steps() {
        put_step(out, step)?;
    }
    out.end_array()
}

/// Writes a step: a key as a text, an index as a number, an id as a list.
fn put_step(out: &mut Writer, step: &Step) -> Result<(), AllocError>
    ensures json { OnOk result (IsWritten (tokens_of (path_step_json (step_of step.now))) out.old out.new) }
    ensures typed { IsTypedStep (step_of step.now) }
{
    match step {
        Step::Get(key) => out.string(key.as_str()),
        Step::Idx(index) => out.u64(*index),
        Step::Item(id) => {
            prove!(id.replica.number() >= 1);
            put_id(out, *id)
        }
    }
}
