//! A script's steps, one per line.
#![tactic(auto, using(crate::proofs::WrongLengths::step_lengths))]

ghost use Rattle.std.specs.Prelude.{◌≡◌, ℕ, List, Ok};
ghost use Rattle.serde_json.specs.View.{view, items_view};
ghost use Rattle.semantics.specs.LegalAnswer.{Asked};
ghost use Rattle.semantics.specs.Making.{Command as TheCommand};
ghost use Rattle.semantics.specs.World.{Push, Ask, step_by};
ghost use Rattle.world.specs.Acts.{step_of as step_meant};
ghost use Rattle.requests.specs.declared.edition.Edition.{Edition};
ghost use Rattle.world.specs.wire.Forms.{IsRead, and_then, json_form};
ghost use Rattle.scripts.specs.Steps.{ask_of, line_of, push_of, step_form, step_line};
ghost use Rattle.scripts.specs.Written.{ask_json, push_json};

use crate::exists::is_there;
use crate::numbered_steps::numbered_step_in;
use crate::numbers::index_in;
use crate::pushes::push_on;
use ids::{Config, Refusal};
use json::Scratch;
use requests::{Edition, command_in, question_in};
use serde_json::Value;
use std::alloc::Global;
use world::{Shared, WorldAct, WorldStep, json_of, phrase_in, text_in};

/// The step on a line, whose engine, client and token exist. The scratch is memory that reading needs, kept from line to line.
pub fn read_step(
    alloc: Global,
    scratch: &mut Scratch,
    edition: Edition,
    text: &[u8],
    engines: &[Config],
) -> Result<WorldStep, Refusal>
    ensures { IsRead step_meant result (step_line edition engines.now text.now) }
{
    let step = match push_on(alloc, scratch, edition, text) {
        Some(step) => step,
        None => step_in(alloc, edition, &json_of(alloc, text)?)?,
    };
    if !is_there(&step, engines) {
        return Err(Refusal::BadLine);
    }
    Ok(step)
}

fn step_in(alloc: Global, edition: Edition, value: &Value) -> Result<WorldStep, Refusal>
    ensures { IsRead step_meant result (step_form edition (view value.now)) }
{
    let (word, parts) = phrase_in(value)?;
    match word {
        "push" => push_in(alloc, edition, parts),
        "ask" => ask_in(alloc, edition, parts),
        "line" => line_in(alloc, parts),
        _ => numbered_step_in(word, parts),
    }
}

/// An engine, a client of it, and a command.
fn push_in(alloc: Global, edition: Edition, parts: &[Value]) -> Result<WorldStep, Refusal>
    ensures { IsRead step_meant result (push_of edition (items_view parts.now)) }
{
    let [engine, client, command] = parts else {
        return Err(Refusal::BadLine);
    };
    let engine = index_in(engine)?;
    let client = index_in(client)?;
    let command = Shared::new(alloc, command_in(alloc, edition, command)?)?;
    Ok(WorldStep {
        engine,
        act: WorldAct::Push { client, command },
    })
}

/// An engine, a token of it, and a question.
fn ask_in(alloc: Global, edition: Edition, parts: &[Value]) -> Result<WorldStep, Refusal>
    ensures { IsRead step_meant result (ask_of edition (items_view parts.now)) }
{
    let [engine, token, question] = parts else {
        return Err(Refusal::BadLine);
    };
    let engine = index_in(engine)?;
    let token = index_in(token)?;
    let question = question_in(alloc, edition, question)?;
    Ok(WorldStep {
        engine,
        act: WorldAct::Ask { token, question },
    })
}

/// An engine, a client of it, and a text of lines, of either profile.
fn line_in(alloc: Global, parts: &[Value]) -> Result<WorldStep, Refusal>
    ensures { IsRead step_meant result (line_of (items_view parts.now)) }
{
    let [engine, client, text] = parts else {
        return Err(Refusal::BadLine);
    };
    let engine = index_in(engine)?;
    let client = index_in(client)?;
    let text = Vec::from_slice(alloc, text_in(text)?.as_bytes())?;
    Ok(WorldStep {
        engine,
        act: WorldAct::Line { client, text },
    })
}

/// A line that is read as a step with a command or a question has the JSON that writing it gives, whatever its spaces and escapes.
pub fn what_is_read_is_written_alike()
    ensures push { (edition : Edition) (text : List ℕ) (e c : ℕ) (k : TheCommand)
        → and_then (step_form edition) (json_form text) ≡ Ok (step_by e (Push c k)) → json_form text ≡ Ok (push_json e c k) }
    ensures ask { (edition : Edition) (text : List ℕ) (e t : ℕ) (q : Asked)
        → and_then (step_form edition) (json_form text) ≡ Ok (step_by e (Ask t q)) → json_form text ≡ Ok (ask_json e t q) }
{}
