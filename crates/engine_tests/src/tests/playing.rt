//! What a test does with an engine, as a table of turns, and what plays them.

ghost use Rattle.std.specs.Prelude.{◌≡◌};
ghost use Rattle.ids.specs.Members.{in_order};

use super::*;
use cursor::Expr;
use document::{Question, Reading};
use fixtures::{field, op};
use ids::ReplicaId;
use operation::{Command, Mutation, Op, Reply, Shared};
use std::marker::Brand;
use std::process::Abort;
use std::sync::Wait;
use value::{Scalar, Val};

/// Who reads: a client by its number, or the reader.
#[derive(Clone, Copy, Debug)]
pub enum Token {
    Client(usize),
    Reader,
}

/// The answer to a poll.
#[derive(Clone, Copy, Debug, PartialEq, Eq)]
pub enum Told {
    Nothing,
    /// The counter of the replica's own operation, and its position.
    Made(u64, u64),
    Kept(u64),
    Known(u64),
    Refused(Refusal, u64),
    Foreign,
}

/// One turn: something that is done with an engine, and its answer.
#[derive(Clone, Copy, Debug)]
pub enum Turn {
    /// A client assigns a number at the key `a`: the serial of its ticket.
    Assign(usize, i64, Result<u64, Refusal>),
    /// A client assigns this many numbers, from 1 on, at the key `a`.
    AssignAll(usize, u32),
    /// A client deletes at the head of a list, where a delete isn't allowed.
    DeleteHead(usize, Result<u64, Refusal>),
    /// A client delivers the operation of replica 2 with this counter, which assigns its counter at the key `b` and
    /// depends on all its earlier ones.
    Deliver(usize, u32, Result<u64, Refusal>),
    /// The writer steps.
    Step(Step),
    /// A client polls the ticket of this client and serial.
    Poll(usize, (usize, u64), Told),
    /// A client asks for the ticket of a serial: whether it has one.
    TicketOf(usize, u64, bool),
    /// A token reads the number at a key; how many entries it has then seen.
    Read(Token, &'static str, Option<i64>, usize),
    /// A token reads the keys of the document: how many there are, and how many entries it has then seen.
    Keys(Token, usize, usize),
    /// A token learns the notice of this client's serial; how many entries it has then seen.
    Learn(Token, (usize, u64), usize),
}

/// An engine whose parts a test may use one after another.
#[derive(Drop)]
pub struct Stage<'a, N: EngineName> {
    pub writer: &'a mut Writer<N>,
    pub clients: &'a mut Vec<Client<N>>,
    pub reader: &'a mut ReaderToken<N>,
}

/// Opens an engine of this configuration, and plays these turns on it.
pub fn on_new<R: Wait + Abort>(rt: &R, alloc: Global, config: Config, turns: &[Turn]) {
    let parts = prepare(alloc, config).expect(rt, "an engine");
    on_parts::<Brand, R>(rt, alloc, parts, turns)
}

fn on_parts<N: EngineName, R: Wait + Abort>(rt: &R, alloc: Global, parts: Parts, turns: &[Turn])
    requires book { parts.opened.seen.book ≡ N.book }
    requires own { parts.config.own ≡ N.own }
    requires table { in_order parts.config.members ≡ N.table }
{
    let (mut writer, mut clients, mut readers) = open::<N>(rt, alloc, parts).expect(
        rt,
        "an engine",
    );
    with_reader(rt, alloc, &mut writer, &mut clients, &mut readers, turns);
    let _final = close(rt, writer, clients);
}

fn with_reader<N: EngineName, R: Wait + Abort>(
    rt: &R,
    alloc: Global,
    writer: &mut Writer<N>,
    clients: &mut Vec<Client<N>>,
    readers: &mut Vec<ReaderToken<N>>,
    turns: &[Turn],
) {
    let mut reader = readers.pop().expect(rt, "a reader");
    let mut stage = Stage {
        writer,
        clients,
        reader: &mut reader,
    };
    for turn in turns {
        take_turn(rt, alloc, &mut stage, *turn);
    }
}

/// Plays a turn.
fn take_turn<N: EngineName, R: Wait + Abort>(
    rt: &R,
    alloc: Global,
    stage: &mut Stage<N>,
    turn: Turn,
) {
    match turn {
        Turn::Assign(client, number, want) => {
            assert_eq!(rt; assign(rt, alloc, stage, client, number), want);
        }
        Turn::AssignAll(client, count) => {
            for number in 1..=count {
                let serial = assign(rt, alloc, stage, client, i64::from(number));
                assert_eq!(rt; serial, Ok(u64::from(number)));
            }
        }
        Turn::DeleteHead(client, want) => {
            assert_eq!(rt; delete_head(rt, alloc, stage, client), want);
        }
        Turn::Deliver(client, counter, want) => {
            assert_eq!(rt; deliver(rt, alloc, stage, client, counter), want);
        }
        Turn::Step(want) => assert_eq!(rt; stage.writer.step(rt, alloc), want),
        Turn::Poll(client, of, want) => assert_eq!(rt; poll(rt, stage, client, of), want),
        Turn::TicketOf(client, serial, want) => {
            assert_eq!(rt; has_ticket(rt, stage, client, serial), want);
        }
        Turn::Read(token, key, want, length) => {
            assert_eq!(rt; number_at(rt, alloc, stage, token, key), want);
            assert_eq!(rt; seen_len(rt, stage, token), length);
        }
        Turn::Keys(token, count, length) => {
            assert_eq!(rt; keys(rt, alloc, stage, token), count);
            assert_eq!(rt; seen_len(rt, stage, token), length);
        }
        Turn::Learn(token, of, length) => {
            learn(rt, stage, token, of);
            assert_eq!(rt; seen_len(rt, stage, token), length);
        }
    }
}

fn client_of<'a, N: EngineName, A: Abort>(
    rt: &A,
    stage: &'a mut Stage<'_, N>,
    number: usize,
) -> &'a mut Client<N> {
    stage.clients.get_mut(number).expect(rt, "no such client")
}

/// A client assigns a number at the key `a`: the serial of its ticket, or why it is refused.
fn assign<N: EngineName, R: Wait + Abort>(
    rt: &R,
    alloc: Global,
    stage: &mut Stage<N>,
    client: usize,
    number: i64,
) -> Result<u64, Refusal> {
    let client = client_of(rt, stage, client);
    let command = Command::Assign(
        at(alloc, "a").expect(rt, "an expression"),
        Val::Scalar(Scalar::Whole(number)),
    );

    client
        .submit(rt, alloc, command)
        .map(|ticket| ticket.serial)
}

/// A client deletes at the head of the root's list.
fn delete_head<N: EngineName, R: Wait + Abort>(
    rt: &R,
    alloc: Global,
    stage: &mut Stage<N>,
    client: usize,
) -> Result<u64, Refusal> {
    let client = client_of(rt, stage, client);
    let command = Command::Delete(Expr::root(alloc).idx(0).expect(rt, "an expression"));

    client
        .submit(rt, alloc, command)
        .map(|ticket| ticket.serial)
}

/// A client delivers the operation of replica 2 with this counter.
fn deliver<N: EngineName, R: Wait + Abort>(
    rt: &R,
    alloc: Global,
    stage: &mut Stage<N>,
    client: usize,
    counter: u32,
) -> Result<u64, Refusal> {
    let client = client_of(rt, stage, client);
    let op = op_of_two(rt, alloc, counter);
    client.deliver(rt, alloc, op).map(|ticket| ticket.serial)
}

fn op_of_two(rt: &impl Abort, alloc: Global, number: u32) -> Shared<Op> {
    let counter = u64::from(number);
    let place = field(alloc, "b").expect(rt, "a place");
    let mutation = Mutation::Assign(Val::Scalar(Scalar::Whole(i64::from(number))));
    op(
        alloc,
        (counter, 2),
        &[0, counter.saturating_sub(1), 0],
        place,
        mutation,
    )
    .expect(rt, "an operation")
}

fn ticket(rt: &impl Abort, of: (usize, u64)) -> Ticket {
    Ticket {
        replica: ReplicaId::new(1).expect(rt, "numbered 0"),
        client: of.0,
        serial: of.1,
    }
}

fn poll<N: EngineName, A: Abort>(
    rt: &A,
    stage: &mut Stage<N>,
    client: usize,
    of: (usize, u64),
) -> Told {
    let client = stage.clients.get_mut(client).expect(rt, "no such client");
    match client.poll(&ticket(rt, of)) {
        Err(Refusal::Foreign) => Told::Foreign,
        Err(_) => panic!(rt; "a poll is refused as Foreign alone"),
        Ok(None) => Told::Nothing,
        Ok(Some(Reply::Made(id, position))) => Told::Made(id.counter, position),
        Ok(Some(Reply::Kept(length))) => Told::Kept(length),
        Ok(Some(Reply::Known(length))) => Told::Known(length),
        Ok(Some(Reply::Refused(why, length))) => Told::Refused(why, length),
    }
}

/// Whether the client has a ticket of the serial; its serial is then that one.
fn has_ticket<N: EngineName, A: Abort>(
    rt: &A,
    stage: &mut Stage<N>,
    client: usize,
    serial: u64,
) -> bool {
    let client = client_of(rt, stage, client);
    match client.ticket_of(serial) {
        Ok(ticket) => ticket.serial == serial,
        Err(Refusal::Foreign) => false,
        Err(_) => panic!(rt; "a serial is refused as Foreign alone"),
    }
}

fn ask<N: EngineName, A: Abort>(
    rt: &A,
    alloc: Global,
    stage: &mut Stage<N>,
    token: Token,
    question: &Question,
) -> Reading {
    match token {
        Token::Reader => stage.reader.ask(alloc, question).expect(rt, "an answer"),
        Token::Client(number) => {
            let client = stage.clients.get_mut(number).expect(rt, "no such client");
            client.ask(alloc, question).expect(rt, "an answer")
        }
    }
}

/// The number at a key of the document, if there is one.
fn number_at<N: EngineName, A: Abort>(
    rt: &A,
    alloc: Global,
    stage: &mut Stage<N>,
    token: Token,
    key: &str,
) -> Option<i64> {
    let question = Question::Values(at(alloc, key).expect(rt, "an expression"));
    let Reading::Values(values) = ask(rt, alloc, stage, token, &question) else {
        panic!(rt; "no values");
    };
    match values.first() {
        None => None,
        Some((_, Scalar::Whole(number))) => Some(*number),
        Some(_) => panic!(rt; "no number"),
    }
}

/// How many keys the document has.
fn keys<N: EngineName, A: Abort>(
    rt: &A,
    alloc: Global,
    stage: &mut Stage<N>,
    token: Token,
) -> usize {
    let question = Question::Keys(Expr::root(alloc));
    let Reading::Keys(keys) = ask(rt, alloc, stage, token, &question) else {
        panic!(rt; "no keys");
    };
    keys.len()
}

fn seen_len<N: EngineName, A: Abort>(rt: &A, stage: &Stage<N>, token: Token) -> usize {
    match token {
        Token::Reader => stage.reader.seen_len(),
        Token::Client(number) => {
            let client = stage.clients.get(number).expect(rt, "no such client");
            client.seen_len()
        }
    }
}

/// The reader learns the notice of an answer.
fn learn<N: EngineName, A: Abort>(rt: &A, stage: &mut Stage<N>, token: Token, of: (usize, u64)) {
    let from = stage.clients.get(of.0).expect(rt, "no such client");
    let notice = from
        .notice_of(&ticket(rt, of))
        .expect(rt, "not refused")
        .expect(rt, "no answer")
        .again();
    match token {
        Token::Reader => stage.reader.learn(&notice),
        Token::Client(number) => {
            let client = stage.clients.get_mut(number).expect(rt, "no such client");
            client.learn(&notice);
        }
    }
}
