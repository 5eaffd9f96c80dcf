//! Pushes, read from the tokens of their lines.
//!
//! Most lines of a long script push a command. They are read here without the JSON values in between, which took a fifth of the time. Any
//! other line is given up, good or bad.

ghost use Rattle.std.specs.Prelude.{◌≡◌, Ok, IfSome};
ghost use Rattle.world.specs.Acts.{step_of as step_meant};
ghost use Rattle.world.specs.wire.Forms.{and_then, json_form};
ghost use Rattle.requests.specs.Taken.{IsTakenAs};
ghost use Rattle.scripts.specs.Steps.{step_form};

use json::{Reader, Scratch};
use requests::{Edition, opens, take_command, take_text, take_whole};
use std::alloc::Global;
use world::{Shared, WorldAct, WorldStep};

/// The push on a line. `None` if the line is none, or if allocation fails. The scratch is memory that reading needs, kept from line to
/// line.
pub fn push_on(
    alloc: Global,
    scratch: &mut Scratch,
    edition: Edition,
    text: &[u8],
) -> Option<WorldStep>
    ensures { IfSome result (λ step. and_then (step_form edition) (json_form text.now) ≡ Ok (step_meant step)) }
{
    let text = str::from_utf8(text).ok()?;
    let mut reader = Reader::new(text, scratch).ok()?;
    let step = take_push(alloc, edition, &mut reader)?;
    if reader.next().is_some() {
        return None;
    }
    Some(step)
}

/// An engine, a client of it, and a command, behind their word.
fn take_push(alloc: Global, edition: Edition, reader: &mut Reader<'_>) -> Option<WorldStep>
    ensures { IfSome result (λ step. IsTakenAs 4 (step_form edition) reader.old (step_meant step) reader.new) }
{
    if !opens(reader) || take_text(reader)? != "push" {
        return None;
    }
    let engine = take_whole(reader)? as usize;
    let client = take_whole(reader)? as usize;
    let command = Shared::new(alloc, take_command(alloc, edition, reader)?).ok()?;
    if !reader.take_end_array() {
        return None;
    }
    Some(WorldStep {
        engine,
        act: WorldAct::Push { client, command },
    })
}
