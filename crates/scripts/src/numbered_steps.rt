//! A script's steps whose parts are numbers alone.

ghost use Rattle.serde_json.specs.View.{items_view};
ghost use Rattle.world.specs.Acts.{step_of as step_meant};
ghost use Rattle.world.specs.wire.Forms.{IsRead};
ghost use Rattle.scripts.specs.NumberedSteps.{engine_step_of, message_step_of, numbered_step_of};

use crate::numbers::{four_in, one_in, three_in, two_in};
use ids::Refusal;
use serde_json::Value;
use world::{WorldAct, WorldStep};

/// The step of this word with these parts.
pub fn numbered_step_in(word: &str, parts: &[Value]) -> Result<WorldStep, Refusal>
    ensures { IsRead step_meant result (numbered_step_of (word.now, items_view parts.now)) }
{
    match word {
        "poll" => {
            let (engine, client, serial) = three_in(parts)?;
            Ok(WorldStep {
                engine,
                act: WorldAct::Poll { client, serial },
            })
        }
        "learn" => {
            let (engine, token, client, serial) = four_in(parts)?;
            Ok(WorldStep {
                engine,
                act: WorldAct::Learn {
                    token,
                    client,
                    serial,
                },
            })
        }
        _ => message_step_in(word, parts),
    }
}

/// A step that names a message.
fn message_step_in(word: &str, parts: &[Value]) -> Result<WorldStep, Refusal>
    ensures { IsRead step_meant result (message_step_of (word.now, items_view parts.now)) }
{
    match word {
        "hello" => {
            let (engine, token) = two_in(parts)?;
            Ok(WorldStep {
                engine,
                act: WorldAct::SayHello { token },
            })
        }
        "bundle" => {
            let (engine, token, message) = three_in(parts)?;
            let message = message as usize;
            Ok(WorldStep {
                engine,
                act: WorldAct::AnswerHello { token, message },
            })
        }
        "deliver" => {
            let (engine, client, message) = three_in(parts)?;
            let message = message as usize;
            Ok(WorldStep {
                engine,
                act: WorldAct::Deliver { client, message },
            })
        }
        _ => engine_step_in(word, parts),
    }
}

/// A step that names an engine alone.
fn engine_step_in(word: &str, parts: &[Value]) -> Result<WorldStep, Refusal>
    ensures { IsRead step_meant result (engine_step_of (word.now, items_view parts.now)) }
{
    match word {
        "take" => Ok(WorldStep {
            engine: one_in(parts)?,
            act: WorldAct::Take,
        }),
        "publish" => Ok(WorldStep {
            engine: one_in(parts)?,
            act: WorldAct::Publish,
        }),
        "give" => Ok(WorldStep {
            engine: one_in(parts)?,
            act: WorldAct::Give,
        }),
        "step" => Ok(WorldStep {
            engine: one_in(parts)?,
            act: WorldAct::WholeStep,
        }),
        "dropped" => Ok(WorldStep {
            engine: one_in(parts)?,
            act: WorldAct::Dropped,
        }),
        _ => Err(Refusal::BadLine),
    }
}
