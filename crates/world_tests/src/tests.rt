//! What no script can say of a world: engines, clients and tokens that aren't there, how many steps are done, and memory that is refused.
//! What a script can say is played by sessions, in `tests/scripts`.

mod absent;
mod lives;

use cursor::{Expr, Step as PathStep};
use document::Question;
use ids::{Config, Refusal};
use operation::{Command, Shared};
use std::alloc::Global;
use value::{Key, Scalar, Val};
use world::*;

/// A step of an engine.
#[derive(Clone, Copy)]
enum Act<'a> {
    /// This client assigns this value at this key.
    Push(usize, &'a str, i64),
    Step,
    /// This client polls this serial.
    Poll(usize, u64),
    /// This token asks for the values at this key.
    Ask(usize, &'a str),
    /// This token learns of the answer to this client's serial.
    Learn(usize, usize, u64),
    /// This token says hello, or answers the hello of this number.
    Hello(usize),
    Bundle(usize, usize),
    /// This client receives the bundle of this number, or these lines.
    Deliver(usize, usize),
    Lines(usize, &'a str),
    Dropped,
}

/// An engine of this number and these members, with this many clients and one reader.
fn config(alloc: Global, own: u32, members: &[u32], clients: u32) -> Result<Config, Refusal> {
    Ok(Config {
        own,
        members: members.to_vec(alloc)?,
        clients,
        readers: 1,
        queue: 8,
        batch: 8,
        serials: 8,
    })
}

fn at(alloc: Global, key: &str) -> Result<Expr, Refusal> {
    let step = PathStep::Get(Key::new(alloc, key)?);
    Ok(Expr::new(vec![in alloc; step]?))
}

fn assigning(alloc: Global, client: usize, key: &str, whole: i64) -> Result<WorldAct, Refusal> {
    let command = Command::Assign(at(alloc, key)?, Val::Scalar(Scalar::Whole(whole)));
    let command = Shared::new(alloc, command)?;
    Ok(WorldAct::Push { client, command })
}

fn asking(alloc: Global, token: usize, key: &str) -> Result<WorldAct, Refusal> {
    let question = Question::Values(at(alloc, key)?);
    Ok(WorldAct::Ask { token, question })
}

fn receiving(alloc: Global, client: usize, text: &str) -> Result<WorldAct, Refusal> {
    let text = text.as_bytes().to_vec(alloc)?;
    Ok(WorldAct::Line { client, text })
}

fn act_of(alloc: Global, act: Act) -> Result<WorldAct, Refusal> {
    match act {
        Act::Push(client, key, whole) => assigning(alloc, client, key, whole),
        Act::Ask(token, key) => asking(alloc, token, key),
        Act::Lines(client, text) => receiving(alloc, client, text),
        _ => Ok(plain_act(act)),
    }
}

/// An act without parts that need an allocation.
fn plain_act(act: Act) -> WorldAct {
    match act {
        Act::Poll(client, serial) => WorldAct::Poll { client, serial },
        Act::Learn(token, client, serial) => WorldAct::Learn {
            token,
            client,
            serial,
        },
        Act::Hello(token) => WorldAct::SayHello { token },
        Act::Bundle(token, message) => WorldAct::AnswerHello { token, message },
        Act::Deliver(client, message) => WorldAct::Deliver { client, message },
        Act::Dropped => WorldAct::Dropped,
        _ => WorldAct::WholeStep,
    }
}

fn step(alloc: Global, engine: usize, act: Act) -> Result<WorldStep, Refusal> {
    let act = act_of(alloc, act)?;
    Ok(WorldStep { engine, act })
}

/// The steps of these acts of an engine.
fn steps(alloc: Global, engine: usize, acts: &[Act]) -> Result<Vec<WorldStep>, Refusal> {
    let mut steps = Vec::new(alloc);
    for act in acts {
        steps.push(step(alloc, engine, *act)?)?;
    }
    Ok(steps)
}
