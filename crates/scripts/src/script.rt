//! A whole script: a world and the steps to run in it.

ghost use Rattle.std.specs.Prelude.{◌≡◌, List, map, Ok, IfErr, IfOk, MatchResult, true};
ghost use Rattle.std.specs.List.{list_all};
ghost use Rattle.ids.specs.Configurations.{Configuration, is_within_limits};
ghost use Rattle.semantics.specs.World.{opened};
ghost use Rattle.world.specs.Acts.{step_of};
ghost use Rattle.world.specs.Worlds.{world_of};
ghost use Rattle.scripts.specs.Engines.{if_within_limits};
ghost use Rattle.scripts.specs.Errors.{IsErrorOf};
ghost use Rattle.world.specs.wire.Lines.{on_line, unless_bad};
ghost use Rattle.scripts.specs.Scripts.{script_form, steps_left};

use crate::configuration::read_engines;
use crate::error::ScriptError;
use crate::steps::read_step;
use ids::{Config, Refusal};
use json::Scratch;
use requests::Edition;
use std::alloc::Global;
use world::{Lines, World, WorldStep};

/// A script that was read.
#[derive(Debug, Drop)]
pub struct Script {
    /// The world of its first line.
    pub world: World,
    /// The steps of its other lines.
    pub steps: Vec<WorldStep>,
}

/// Reads a script and checks each line.
///
/// # Errors
/// `BadLine` for the first bad line, else `NoMemory` if allocation fails.
pub fn read_script(alloc: Global, bytes: &[u8]) -> Result<Script, ScriptError>
    ensures ok { IfOk result
        (λ s. (gs : List Configuration) × (script_form bytes.now ≡ Ok (gs, map step_of s.steps.items))
        × (world_of s.world ≡ opened gs)) }
    ensures err { IfErr result (IsErrorOf (script_form bytes.now)) }
{
    let mut lines = Lines::new(bytes);
    let Some(first) = lines.take_line() else {
        return Err(ScriptError::of_line(1, Refusal::BadLine));
    };
    match read_engines(alloc, first.text) {
        Ok((edition, engines)) => open(alloc, edition, engines.as_slice(), &mut lines),
        Err(why) => Err(ScriptError::of_line(1, why)),
    }
}

/// The world of these engines, with the steps on the remaining lines.
fn open(
    alloc: Global,
    edition: Edition,
    engines: &[Config],
    lines: &mut Lines<'_>,
) -> Result<Script, ScriptError>
    ensures allowed { IfOk result (λ s. list_all is_within_limits engines.now ≡ true) }
    ensures world { IfOk result (λ s. world_of s.world ≡ opened engines.now) }
    ensures steps { IfOk result
        (λ s. steps_left edition engines.now lines.old.taken lines.old.rest.now ≡ Ok (map step_of s.steps.items)) }
    ensures err { IfErr result (IsErrorOf (unless_bad
        (λ gs. steps_left edition gs lines.old.taken lines.old.rest.now) (on_line 1 (if_within_limits engines.now)))) }
{
    match World::new(alloc, engines) {
        Ok(world) => with_steps(alloc, world, edition, engines, lines),
        Err(why) => Err(ScriptError::of_line(1, why)),
    }
}

fn with_steps(
    alloc: Global,
    world: World,
    edition: Edition,
    engines: &[Config],
    lines: &mut Lines<'_>,
) -> Result<Script, ScriptError>
    ensures world { IfOk result (λ s. s.world ≡ world) }
    ensures steps { MatchResult result
        (λ s. steps_left edition engines.now lines.old.taken lines.old.rest.now
        ≡ Ok (map step_of s.steps.items))
        (IsErrorOf (steps_left edition engines.now lines.old.taken lines.old.rest.now)) }
{
    let steps = read_steps(alloc, edition, lines, engines)?;
    Ok(Script { world, steps })
}

/// The steps on the remaining lines.
fn read_steps(
    alloc: Global,
    edition: Edition,
    lines: &mut Lines<'_>,
    engines: &[Config],
) -> Result<Vec<WorldStep>, ScriptError>
    ensures { MatchResult result
        (λ v. steps_left edition engines.now lines.old.taken lines.old.rest.now
        ≡ Ok (map step_of v.items))
        (IsErrorOf (steps_left edition engines.now lines.old.taken lines.old.rest.now)) }
{
    let mut scratch = Scratch::new(alloc);
    let mut steps = Vec::new(alloc);
    while let Some(line) = lines.take_line() {
        match read_step(alloc, &mut scratch, edition, line.text, engines) {
            Ok(step) => steps.push(step)?,
            Err(why) => return Err(ScriptError::of_line(line.number, why)),
        }
    }
    match lines.cut_line() {
        Some(number) => Err(ScriptError::of_line(number, Refusal::BadLine)),
        None => Ok(steps),
    }
}
