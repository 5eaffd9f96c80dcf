//! A world's engine and an engine of threads, with the same configuration.

ghost use Rattle.std.specs.Prelude.{◌≡◌};
ghost use Rattle.ids.specs.Members.{in_order};

use super::acts::{Act, CLIENTS, MEMBERS, Probe};
use super::peers::send_the_same;
use document::Reading;
use engine::{
    Client, EngineName, Notice, Parts, ReaderToken, Step, Ticket, Writer, close, open, prepare,
};
use ids::{Config, Refusal, ReplicaId};
use operation::{Command, Op, Reply, Shared};
use std::alloc::Global;
use std::marker::Brand;
use std::process::Abort;
use std::sync::Wait;
use wire::write_op;
use world::{World, WorldAct, WorldReply, WorldStep};

/// An engine of replica 1 with a queue of this capacity, whose steps take a batch of this size.
fn config(rt: &impl Abort, alloc: Global, queue: u32, batch: u32) -> Config {
    Config {
        own: 1,
        members: MEMBERS.to_vec(alloc).expect(rt, "memory"),
        clients: CLIENTS as u32,
        readers: 1,
        queue,
        batch,
        serials: 12,
    }
}

/// An engine of threads.
#[derive(Drop)]
struct Engine<'a, N: EngineName> {
    writer: &'a mut Writer<N>,
    clients: &'a mut Vec<Client<N>>,
    reader: &'a mut ReaderToken<N>,
}

/// Plays these acts on a new world and a new engine, with queues of this capacity and batches of this size. Fails if their answers differ.
pub fn play<R: Wait + Abort>(rt: &R, alloc: Global, queue: u32, batch: u32, acts: &[Act]) {
    let mut world = World::new(alloc, &[config(rt, alloc, queue, batch)]).expect(rt, "a world");
    let parts = prepare(alloc, config(rt, alloc, queue, batch)).expect(rt, "an engine");
    play_in::<Brand, R>(rt, alloc, &mut world, parts, acts)
}

fn play_in<N: EngineName, R: Wait + Abort>(
    rt: &R,
    alloc: Global,
    world: &mut World,
    parts: Parts,
    acts: &[Act],
)
    requires book { parts.opened.seen.book ≡ N.book }
    requires own { parts.config.own ≡ N.own }
    requires table { in_order parts.config.members ≡ N.table }
{
    let (mut writer, mut clients, mut readers) = open::<N>(rt, alloc, parts).expect(
        rt,
        "an engine",
    );
    match readers.get_mut(0) {
        Some(reader) => {
            let mut engine = Engine {
                writer: &mut writer,
                clients: &mut clients,
                reader,
            };
            act_on_both(rt, alloc, world, &mut engine, acts)
        }
        None => panic!(rt; "no reader"),
    };
    let _final = close(rt, writer, clients);
}

/// Plays an act on both, and asserts that they give the same answer.
fn act_on_both<N: EngineName, R: Wait + Abort>(
    rt: &R,
    alloc: Global,
    world: &mut World,
    engine: &mut Engine<N>,
    acts: &[Act],
) {
    for (number, act) in acts.iter().enumerate() {
        let same = is_same(rt, alloc, world, engine, act);
        assert!(rt; same, "act {number}: {act:?}");
    }
}

/// Plays an act on both. Returns whether they give the same answer.
fn is_same<N: EngineName, R: Wait + Abort>(
    rt: &R,
    alloc: Global,
    world: &mut World,
    engine: &mut Engine<N>,
    act: &Act,
) -> bool {
    match act {
        Act::Submit { client, command } => submit(rt, alloc, world, engine, *client, command),
        Act::Deliver { client, op } => deliver(rt, alloc, world, engine, *client, op),
        Act::Step => step(rt, alloc, world, engine),
        Act::SingleSteps => single_steps(rt, alloc, world, engine),
        Act::Poll { client, serial } => poll(rt, alloc, world, engine, *client, *serial),
        Act::Ask { token, probe } => ask(rt, alloc, world, engine, *token, probe),
        Act::Learn {
            token,
            client,
            serial,
        } => learn(rt, alloc, world, engine, *token, *client, *serial),
        Act::Send => send_the_same(rt, alloc, world, engine.reader),
    }
}

/// The reply of the world's engine to an act.
pub fn reply(rt: &impl Abort, alloc: Global, world: &mut World, act: WorldAct) -> WorldReply {
    let step = WorldStep { engine: 0, act };
    let mut replies = world.run(alloc, &[step]).expect(rt, "not refused");
    replies.pop().expect(rt, "no reply")
}

fn client_of<'a, N: EngineName, A: Abort>(
    rt: &A,
    engine: &'a mut Engine<'_, N>,
    client: usize,
) -> &'a mut Client<N> {
    engine.clients.get_mut(client).expect(rt, "no such client")
}

fn submit<N: EngineName, R: Wait + Abort>(
    rt: &R,
    alloc: Global,
    world: &mut World,
    engine: &mut Engine<N>,
    client: usize,
    command: &Command,
) -> bool {
    let ticket = submitted(rt, alloc, engine, client, command);
    let act = WorldAct::Push {
        client,
        command: Shared::new(alloc, command.clone().expect(rt, "memory")).expect(rt, "memory"),
    };
    let told = reply(rt, alloc, world, act);
    is_same_ticket(&told, &ticket)
}

/// The answer that a client of the engine of threads gets to a command.
fn submitted<N: EngineName, R: Wait + Abort>(
    rt: &R,
    alloc: Global,
    engine: &mut Engine<N>,
    client: usize,
    command: &Command,
) -> Result<Ticket, Refusal> {
    let client = client_of(rt, engine, client);
    client.submit(rt, alloc, command.clone().expect(rt, "memory"))
}

fn is_same_ticket(told: &WorldReply, ticket: &Result<Ticket, Refusal>) -> bool {
    match (told, ticket) {
        (WorldReply::Ticket(serial), Ok(ticket)) => *serial == ticket.serial,
        (WorldReply::Denied(why), Err(refusal)) => why == refusal,
        _ => false,
    }
}

/// The world's engine receives the operation as a line.
fn deliver<N: EngineName, R: Wait + Abort>(
    rt: &R,
    alloc: Global,
    world: &mut World,
    engine: &mut Engine<N>,
    client: usize,
    op: &Shared<Op>,
) -> bool {
    let ticket = delivered(rt, alloc, engine, client, op);
    let act = WorldAct::Line {
        client,
        text: line_of(rt, alloc, op),
    };
    let told = reply(rt, alloc, world, act);
    is_same_receipt(&told, &ticket)
}

/// The answer that a client of the engine of threads gets to an operation.
fn delivered<N: EngineName, R: Wait + Abort>(
    rt: &R,
    alloc: Global,
    engine: &mut Engine<N>,
    client: usize,
    op: &Shared<Op>,
) -> Result<Ticket, Refusal> {
    let client = client_of(rt, engine, client);
    client.deliver(rt, alloc, op.clone().expect(rt, "memory"))
}

fn is_same_receipt(told: &WorldReply, ticket: &Result<Ticket, Refusal>) -> bool {
    let WorldReply::Received {
        first,
        submitted,
        stopped,
    } = told
    else {
        return false;
    };
    match (stopped, ticket) {
        (None, Ok(ticket)) => *submitted == 1 && *first == ticket.serial,
        (Some((line, why)), Err(refusal)) => *line == 1 && *submitted == 0 && why == refusal,
        _ => false,
    }
}

fn line_of(rt: &impl Abort, alloc: Global, op: &Op) -> Vec<u8> {
    let mut text = write_op(alloc, op).expect(rt, "not refused");
    text.push(b'\n').expect(rt, "memory");
    text
}

fn step<N: EngineName, R: Wait + Abort>(
    rt: &R,
    alloc: Global,
    world: &mut World,
    engine: &mut Engine<N>,
) -> bool {
    let told = reply(rt, alloc, world, WorldAct::WholeStep);
    let stepped = engine.writer.step(rt, alloc);
    is_same_step(&told, &stepped)
}

/// The engine steps with batches of one, and the world's engine takes, publishes and gives.
fn single_steps<N: EngineName, R: Wait + Abort>(
    rt: &R,
    alloc: Global,
    world: &mut World,
    engine: &mut Engine<N>,
) -> bool {
    let took = reply(rt, alloc, world, WorldAct::Take);
    let published = reply(rt, alloc, world, WorldAct::Publish);
    let gave = reply(rt, alloc, world, WorldAct::Give);
    let stepped = engine.writer.step(rt, alloc);
    is_idle(&took) == is_idle(&gave) && is_same_step(&published, &stepped)
}

fn is_idle(told: &WorldReply) -> bool {
    matches!(told, WorldReply::Idle)
}

fn is_same_step(told: &WorldReply, stepped: &Step) -> bool {
    match (told, stepped) {
        (WorldReply::Published(count), Step::Published(answered)) => *count == *answered as u64,
        (WorldReply::Idle, Step::Idle) => true,
        _ => false,
    }
}

fn ticket(rt: &impl Abort, client: usize, serial: u64) -> Ticket {
    Ticket {
        replica: ReplicaId::new(1).expect(rt, "numbered 0"),
        client,
        serial,
    }
}

fn poll<N: EngineName, A: Abort>(
    rt: &A,
    alloc: Global,
    world: &mut World,
    engine: &mut Engine<N>,
    client: usize,
    serial: u64,
) -> bool {
    let ticket = ticket(rt, client, serial);
    let answer = client_of(rt, engine, client).poll(&ticket);
    let act = WorldAct::Poll { client, serial };
    let told = reply(rt, alloc, world, act);
    polled(&told) == Some(answer)
}

/// The answer to a poll, as an engine of threads gives it.
fn polled(told: &WorldReply) -> Option<Result<Option<Reply>, Refusal>> {
    match told {
        WorldReply::Replied(reply) => Some(Ok(Some(*reply))),
        WorldReply::Unanswered => Some(Ok(None)),
        WorldReply::Denied(why) => Some(Err(*why)),
        _ => None,
    }
}

fn ask<N: EngineName, A: Abort>(
    rt: &A,
    alloc: Global,
    world: &mut World,
    engine: &mut Engine<N>,
    token: usize,
    probe: &Probe,
) -> bool {
    let told = told(rt, alloc, world, token, probe);
    let read = read(rt, alloc, engine, token, probe);
    is_same_answer(&told, &read, seen_len(engine, token) as u64)
}

/// The reply of the world's engine to a question.
fn told(
    rt: &impl Abort,
    alloc: Global,
    world: &mut World,
    token: usize,
    probe: &Probe,
) -> WorldReply {
    let act = WorldAct::Ask {
        token,
        question: probe.question().expect(rt, "not refused"),
    };
    reply(rt, alloc, world, act)
}

/// Whether the world's reply is this answer, from a token that has seen this many entries.
fn is_same_answer(told: &WorldReply, read: &Result<Reading, Refusal>, length: u64) -> bool {
    match (told, read) {
        (WorldReply::Read { seen, reading, .. }, Ok(read)) => {
            *seen == length && is_same_reading(reading, read)
        }
        (WorldReply::NotRead { seen, why }, Err(refusal)) => *seen == length && why == refusal,
        _ => false,
    }
}

fn read<N: EngineName, A: Abort>(
    rt: &A,
    alloc: Global,
    engine: &mut Engine<N>,
    token: usize,
    probe: &Probe,
) -> Result<Reading, Refusal> {
    match engine.clients.get_mut(token) {
        Some(client) => client_reads(rt, alloc, client, probe),
        None => reader_reads(rt, alloc, engine.reader, probe),
    }
}

fn client_reads<N: EngineName, A: Abort>(
    rt: &A,
    alloc: Global,
    client: &mut Client<N>,
    probe: &Probe,
) -> Result<Reading, Refusal> {
    let question = probe.question().expect(rt, "not refused");
    client.ask(alloc, &question)
}

fn reader_reads<N: EngineName, A: Abort>(
    rt: &A,
    alloc: Global,
    reader: &mut ReaderToken<N>,
    probe: &Probe,
) -> Result<Reading, Refusal> {
    let question = probe.question().expect(rt, "not refused");
    reader.ask(alloc, &question)
}

fn seen_len<N: EngineName>(engine: &Engine<N>, token: usize) -> usize {
    match engine.clients.get(token) {
        Some(client) => client.seen_len(),
        None => engine.reader.seen_len(),
    }
}

fn is_same_reading(one: &Reading, other: &Reading) -> bool {
    match (one, other) {
        (Reading::Values(one), Reading::Values(other)) => one == other,
        (Reading::Keys(one), Reading::Keys(other)) => one == other,
        (Reading::Items(one), Reading::Items(other)) => one == other,
        (Reading::Conflicts(one), Reading::Conflicts(other)) => one == other,
        (Reading::Vector(one), Reading::Vector(other)) => one == other,
        (Reading::Missing(one), Reading::Missing(other)) => one == other,
        _ => false,
    }
}

/// A token learns of an answer, if there is one.
fn learn<N: EngineName, A: Abort>(
    rt: &A,
    alloc: Global,
    world: &mut World,
    engine: &mut Engine<N>,
    token: usize,
    client: usize,
    serial: u64,
) -> bool {
    let ticket = ticket(rt, client, serial);
    let length = learnt(rt, engine, token, &ticket);
    let act = WorldAct::Learn {
        token,
        client,
        serial,
    };
    let told = reply(rt, alloc, world, act);
    is_same_lesson(&told, length)
}

/// How many entries a token has seen once it has learnt of a ticket's answer. `None` if there is no answer.
fn learnt<N: EngineName, A: Abort>(
    rt: &A,
    engine: &mut Engine<N>,
    token: usize,
    ticket: &Ticket,
) -> Option<u64> {
    let Some(notice) = notice(client_of(rt, engine, ticket.client), ticket) else {
        return None;
    };
    match engine.clients.get_mut(token) {
        Some(client) => client.learn(&notice),
        None => engine.reader.learn(&notice),
    }
    Some(seen_len(engine, token) as u64)
}

fn notice<N: EngineName>(client: &Client<N>, ticket: &Ticket) -> Option<Notice<N>> {
    match client.notice_of(ticket) {
        Ok(Some(notice)) => Some(notice.again()),
        _ => None,
    }
}

fn is_same_lesson(told: &WorldReply, length: Option<u64>) -> bool {
    match (told, length) {
        (WorldReply::Seen(seen), Some(length)) => *seen == length,
        (WorldReply::Unanswered, None) => true,
        _ => false,
    }
}
