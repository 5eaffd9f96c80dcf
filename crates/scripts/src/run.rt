//! Runs a script.

ghost use Rattle.std.specs.Prelude.{◌≡◌, List, Ok, IfErr, IfOk, map, string_bytes};
ghost use Rattle.ids.specs.Configurations.{Configuration};
ghost use Rattle.semantics.specs.World.{opened, world_after};
ghost use Rattle.world.specs.Acts.{step_of};
ghost use Rattle.world.specs.Worlds.{world_of};
ghost use Rattle.scripts.specs.Errors.{IsErrorOf};
ghost use Rattle.scripts.specs.Runs.{IsReplyText};
ghost use Rattle.scripts.specs.Scripts.{script_form};

use crate::error::ScriptError;
use crate::replies::reply_lines;
use crate::script::{Script, read_script};
use std::alloc::Global;

/// The replies to a script that was run, and the script.
#[derive(Debug, Drop)]
pub struct Replies {
    /// One line of JSON for each step.
    pub lines: String,
    /// The script, whose world is as the last step left it. To drop a long one takes time, which a program that ends next can save.
    pub script: Script,
}

/// The replies to the steps of a script, in a new world of its engines, as one line of JSON each. Every line of the script is checked
/// before its first step is run.
///
/// # Errors
/// `BadLine` for the first bad line, else `NoMemory` if allocation fails.
pub fn replies_to(alloc: Global, script: &[u8]) -> Result<Replies, ScriptError>
    ensures ok { IfOk result (λ r. IsReplyText script.now (string_bytes r.lines)) }
    ensures ran { IfOk result
        (λ r. (gs : List Configuration) × (script_form script.now ≡ Ok (gs, map step_of r.script.steps.items))
        × (world_of r.script.world ≡ world_after (opened gs) (map step_of r.script.steps.items))) }
    ensures err { IfErr result (IsErrorOf (script_form script.now)) }
{
    let Script { mut world, steps } = read_script(alloc, script)?;
    let replies = world.run(alloc, steps.as_slice())?;
    let lines = reply_lines(alloc, replies.as_slice())?;
    Ok(Replies {
        lines,
        script: Script { world, steps },
    })
}
