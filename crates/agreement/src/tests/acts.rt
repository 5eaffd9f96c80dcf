//! What is done with both engines.

use super::dice::Dice;
use cursor::{Expr, Place, Step as Hop};
use document::Question;
use ids::Refusal;
use operation::{Command, Mutation, Op, Shared};
use std::alloc::Global;
use std::process::Abort;
use value::{Key, Scalar, Text, Val};

/// How many clients there are.
pub const CLIENTS: u64 = 2;

/// The members. The engine is of replica 1.
pub const MEMBERS: &[u32] = &[1, 3, 4];

/// How many replicas write: the members, and replica 2, whose index in the table is after theirs.
const REPLICAS: u64 = 4;

/// Something that is done with an engine. Tokens are first the clients', then the reader's.
#[derive(Debug, Drop)]
pub enum Act {
    Submit {
        client: usize,
        command: Command,
    },
    Deliver {
        client: usize,
        op: Shared<Op>,
    },
    Step,
    /// A step whose batch is one, which is a take, a publish and a give.
    SingleSteps,
    Poll {
        client: usize,
        serial: u64,
    },
    Ask {
        token: usize,
        probe: Probe,
    },
    Learn {
        token: usize,
        client: usize,
        serial: u64,
    },
    /// The reader says hello to a peer, and answers the hellos of others.
    Send,
}

/// What a document is asked for.
#[derive(Clone, Copy, Debug)]
pub enum Kind {
    Values,
    Keys,
    Items,
    Conflicts,
    Vector,
}

/// A question to the document.
#[derive(Debug, Drop)]
pub struct Probe {
    pub kind: Kind,
    pub place: Expr,
}

impl Probe {
    pub fn question(&self) -> Result<Question, Refusal> {
        let place = self.place.clone()?;
        Ok(match self.kind {
            Kind::Values => Question::Values(place),
            Kind::Keys => Question::Keys(place),
            Kind::Items => Question::Items(place),
            Kind::Conflicts => Question::Conflicts(place),
            Kind::Vector => Question::Vector,
        })
    }
}

/// This many acts; at the end, what both engines have is sent to a peer.
pub fn random_acts(rt: &impl Abort, alloc: Global, dice: Dice, count: u32) -> Vec<Act> {
    let mut dice = dice;
    let mut acts = Vec::new(alloc);
    for _ in 0..count {
        let act = next_act(rt, alloc, &mut dice);
        acts.push(act).expect(rt, "memory");
    }
    acts.push(Act::Send).expect(rt, "memory");
    acts
}

/// The next act of a play. Commands, operations and questions use few elements, so that they meet.
fn next_act(rt: &impl Abort, alloc: Global, dice: &mut Dice) -> Act {
    let client = dice.roll(CLIENTS) as usize;
    let token = dice.roll(CLIENTS + 1) as usize;
    let serial = dice.roll(16);
    match dice.roll(12) {
        0..=3 => Act::Submit {
            client,
            command: command(alloc, dice).expect(rt, "not refused"),
        },
        4..=5 => Act::Deliver {
            client,
            op: op(alloc, dice).expect(rt, "an operation"),
        },
        6..=7 => Act::Step,
        8 => Act::Poll { client, serial },
        9 => Act::Learn {
            token,
            client,
            serial,
        },
        _ => Act::Ask {
            token,
            probe: next_probe(rt, alloc, dice),
        },
    }
}

fn key(alloc: Global, dice: &mut Dice) -> Result<Key, Refusal> {
    Key::new(alloc, if dice.roll(2) == 0 { "a" } else { "b" })
}

/// An expression of at most two steps.
fn expression(alloc: Global, dice: &mut Dice) -> Result<Expr, Refusal> {
    let mut steps = Vec::new(alloc);
    for _ in 0..dice.roll(3) {
        let step = if dice.roll(3) == 0 {
            Hop::Idx(dice.roll(3))
        } else {
            Hop::Get(key(alloc, dice)?)
        };
        steps.push(step)?;
    }
    Ok(Expr::new(steps))
}

fn value(alloc: Global, dice: &mut Dice) -> Result<Val, Refusal> {
    Ok(match dice.roll(4) {
        0 => Val::EmptyMap,
        1 | 2 => Val::EmptyList,
        _ => Val::Scalar(scalar(alloc, dice)?),
    })
}

fn scalar(alloc: Global, dice: &mut Dice) -> Result<Scalar, Refusal> {
    Ok(match dice.roll(4) {
        0 => Scalar::Null,
        1 => Scalar::Bool(true),
        2 => Scalar::Whole(7),
        _ => Scalar::Text(Text::new(alloc, "text")?),
    })
}

fn command(alloc: Global, dice: &mut Dice) -> Result<Command, Refusal> {
    let place = expression(alloc, dice)?;
    Ok(match dice.roll(5) {
        0 => Command::Delete(place),
        1 | 2 => Command::InsertAfter(place, value(alloc, dice)?),
        _ => Command::Assign(place, value(alloc, dice)?),
    })
}

fn next_probe(rt: &impl Abort, alloc: Global, dice: &mut Dice) -> Probe {
    let place = expression(alloc, dice).expect(rt, "not refused");
    let kind = match dice.roll(5) {
        0 => Kind::Values,
        1 => Kind::Keys,
        2 => Kind::Items,
        3 => Kind::Conflicts,
        _ => Kind::Vector,
    };
    Probe { kind, place }
}

/// A counter of at most 2, most often 0.
fn low_counter(dice: &mut Dice) -> u64 {
    dice.roll(4).saturating_sub(1)
}

/// The counters of a vector that names at most two operations of each replica.
fn counters(dice: &mut Dice) -> [u64; 4] {
    [
        low_counter(dice),
        low_counter(dice),
        low_counter(dice),
        low_counter(dice),
    ]
}

/// The counter after these operations, or occasionally a greater one.
fn counter_after(deps: [u64; 4], dice: &mut Dice) -> u64 {
    let [first, second, third, fourth] = deps;
    let next = first.max(second).max(third).max(fourth).saturating_add(1);
    if dice.roll(8) == 0 {
        next.saturating_add(1)
    } else {
        next
    }
}

/// A place at a key of the document.
fn key_place(alloc: Global, dice: &mut Dice) -> Result<Place, Refusal> {
    let key = key(alloc, dice)?;
    Place::doc(alloc).get(alloc, key)
}

fn mutation(alloc: Global, dice: &mut Dice) -> Result<Mutation, Refusal> {
    if dice.roll(4) == 0 {
        return Ok(Mutation::Delete);
    }
    Ok(Mutation::Assign(value(alloc, dice)?))
}

/// An operation of any replica: most are ready one after another, some come too early, some are known, some are forged.
fn op(alloc: Global, dice: &mut Dice) -> Result<Shared<Op>, Refusal> {
    let replica = dice.roll(REPLICAS) as u32 + 1;
    let deps = counters(dice);
    let counter = counter_after(deps, dice);
    let place = key_place(alloc, dice)?;
    let mutation = mutation(alloc, dice)?;
    fixtures::op(alloc, (counter, replica), &deps, place, mutation)
}
