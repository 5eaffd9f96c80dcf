//! Whether the engine, client and token of a step exist.

ghost use Rattle.std.specs.Prelude.{◌≡◌};
ghost use Rattle.world.specs.Acts.{step_of};
ghost use Rattle.scripts.specs.Exists.{has_client as client_there, has_token as token_there, is_there as step_there};

use ids::Config;
use world::{WorldAct, WorldStep};

/// Whether a step's engine is one of these, and its client and token are that engine's. A message need not exist.
pub fn is_there(step: &WorldStep, engines: &[Config]) -> bool
    ensures { result ≡ step_there engines.now (step_of step.now) }
{
    let engine = step.engine;
    match &step.act {
        WorldAct::Push { client, .. }
        | WorldAct::Poll { client, .. }
        | WorldAct::Deliver { client, .. }
        | WorldAct::Line { client, .. } => has_client(engines, engine, *client),
        WorldAct::Ask { token, .. }
        | WorldAct::SayHello { token }
        | WorldAct::AnswerHello { token, .. } => { has_token(engines, engine, *token) }
        WorldAct::Learn { token, client, .. } => {
            has_token(engines, engine, *token) && has_client(engines, engine, *client)
        }
        WorldAct::Take
        | WorldAct::Publish
        | WorldAct::Give
        | WorldAct::WholeStep
        | WorldAct::Dropped => engine < engines.len(),
    }
}

fn has_client(engines: &[Config], engine: usize, client: usize) -> bool
    ensures { result ≡ client_there engines.now engine client }
{
    match engines.get(engine) {
        Some(config) => client < config.clients as usize,
        None => false,
    }
}

/// Whether the engine has this token: its tokens are first its clients', then its readers'.
fn has_token(engines: &[Config], engine: usize, token: usize) -> bool
    ensures { result ≡ token_there engines.now engine token }
{
    match engines.get(engine) {
        Some(config) => token < config.clients as usize + config.readers as usize,
        None => false,
    }
}
