//! Commands, taken from the tokens of their lines.

ghost use Rattle.std.specs.Prelude.{IfSome};
ghost use Rattle.document.specs.operation.Ops.{command_of};
ghost use Rattle.requests.specs.Commands.{command_form};
ghost use Rattle.requests.specs.Taken.{IsTakenAs};

use crate::edition::Edition;
use crate::parts::{opens, take_steps, take_text, take_value};
use document::{Command, Expr};
use json::Reader;
use std::alloc::Global;

/// A command. `None` if what comes next isn't one, or if allocation fails: what is wrong is then to be found by reading the line as JSON.
pub fn take_command(alloc: Global, edition: Edition, reader: &mut Reader<'_>) -> Option<Command>
    ensures { IfSome result (λ command. IsTakenAs 3 (command_form edition) reader.old (command_of command) reader.new) }
{
    if !opens(reader) {
        return None;
    }
    let word = take_text(reader)?;
    let expression = Expr::new(take_steps(alloc, edition, reader)?);
    let command = match word {
        "assign" => Command::Assign(expression, take_value(alloc, reader)?),
        "insert" => Command::InsertAfter(expression, take_value(alloc, reader)?),
        "delete" => Command::Delete(expression),
        _ => return None,
    };
    if !reader.take_end_array() {
        return None;
    }
    Some(command)
}
