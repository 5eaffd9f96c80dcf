//! What a test does with two engines, as a table of turns, and what plays them.

use super::early::{early_op, first_line};
use super::full::receive_all;
use super::showing::{Shown, To, assert_shown, expr};
use super::store::{assert_kept, read_back};
use super::*;
use engine::{Client, EngineName, ReaderToken, Step, Ticket, Writer};
use ids::ReplicaId;
use operation::{Command, Reply};
use std::alloc::Global;
use std::process::Abort;
use std::sync::Wait;
use value::Val;

/// One of the two engines.
#[derive(Clone, Copy)]
pub enum Side {
    One,
    Two,
}

/// A value that a command writes.
#[derive(Clone, Copy)]
pub enum Wrote {
    Map,
    List,
    Words(&'static str),
}

/// What a client writes.
#[derive(Clone, Copy)]
pub enum Writing {
    Assign(&'static [To], Wrote),
    Insert(&'static [To], Wrote),
    Delete(&'static [To]),
}

/// The answer to a peer's operation.
#[derive(Clone, Copy)]
pub enum Told {
    Kept(u64),
    Known(u64),
    Refused(Refusal, u64),
}

/// One turn: something that is done with an engine, and its answer.
#[derive(Clone, Copy)]
pub enum Turn {
    /// Its client writes, and its writer steps.
    Write(Writing),
    /// Its writer steps.
    Step(Step),
    /// Its reader says this hello.
    Hello(&'static str),
    /// Its reader answers this hello.
    Answer(&'static str, Result<&'static str, Refusal>),
    /// Its client receives these bytes: the first serial, how many were submitted, how many bytes their lines have, and the stop.
    Receive(&'static str, u64, u64, usize, Option<(u64, Refusal)>),
    /// Its client receives these lines, and goes on after a step of its writer whenever the queue is full: how often that happened.
    ReceiveAll(&'static str, u32),
    /// Its client receives the answers of this file, and its writer steps until idle after each: how many operations were submitted, and
    /// the stop of the last answer.
    ReadBack(&'static str, u64, Option<(u64, Refusal)>),
    /// Its reader answers this hello, which is kept in the file from this byte to that one.
    Keep(&'static str, usize, usize),
    /// Its client receives this line, its writer steps, and the client polls.
    Take(&'static str, Told),
    /// The same for the first line of this replica.
    TakeFirst(u32, Told),
    /// The same for each of these replicas, from the first to the last: each is kept, in a history that was empty.
    TakeFirsts(u32, u32),
    /// Its client delivers the operation of replica 2 with this counter, which depends on replica 3's one before it, and polls after a
    /// step.
    TakeEarly(u64, Told),
    /// The same for each of these counters, from the first to the last.
    TakeAllEarly(u64, u64, Told),
    /// How many operations of peers it has dropped.
    Dropped(u64),
    /// It says this hello, the other engine gives this answer, its client receives the answer, and its writer steps.
    Pull(&'static str, &'static str),
    /// Its reader asks what is at a place.
    Show(&'static [To], Shown),
    /// How many entries its reader has seen.
    Seen(usize),
}

/// What one engine does.
pub type Row = (Side, Turn);

/// The value that a command writes.
fn val(alloc: Global, value: Wrote) -> Result<Val, Refusal> {
    Ok(match value {
        Wrote::Map => Val::EmptyMap,
        Wrote::List => Val::EmptyList,
        Wrote::Words(words) => Val::text(alloc, words)?,
    })
}

/// The command that writes this.
pub fn command(alloc: Global, writing: Writing) -> Result<Command, Refusal> {
    Ok(match writing {
        Writing::Assign(path, value) => Command::Assign(expr(alloc, path)?, val(alloc, value)?),
        Writing::Insert(path, value) => Command::InsertAfter(
            expr(alloc, path)?,
            val(alloc, value)?,
        ),
        Writing::Delete(path) => Command::Delete(expr(alloc, path)?),
    })
}

/// An engine and its ends, which a test may use one after another.
#[derive(Drop)]
pub struct Stage<'a, N: EngineName> {
    pub own: u32,
    pub writer: &'a mut Writer<N>,
    pub client: &'a mut Client<N>,
    pub reader: &'a mut ReaderToken<N>,
}

/// Plays these rows on two engines in order.
pub fn play<N: EngineName, M: EngineName, R: Wait + Abort>(
    rt: &R,
    alloc: Global,
    one: &mut Stage<N>,
    two: &mut Stage<M>,
    acts: &[&[Row]],
) {
    for rows in acts {
        play_act(rt, alloc, one, two, rows);
    }
}

fn play_act<N: EngineName, M: EngineName, R: Wait + Abort>(
    rt: &R,
    alloc: Global,
    one: &mut Stage<N>,
    two: &mut Stage<M>,
    rows: &[Row],
) {
    for (side, turn) in rows {
        match side {
            Side::One => play_turn(rt, alloc, one, two, *turn),
            Side::Two => play_turn(rt, alloc, two, one, *turn),
        }
    }
}

/// Does a turn of one engine, which may get what the other has.
fn play_turn<N: EngineName, M: EngineName, R: Wait + Abort>(
    rt: &R,
    alloc: Global,
    stage: &mut Stage<N>,
    other: &mut Stage<M>,
    turn: Turn,
) {
    match turn {
        Turn::Pull(hello, bundle) => pull(rt, alloc, stage, other, hello, bundle),
        turn => take_turn(rt, alloc, stage, turn),
    }
}

/// One engine takes what the other has, by these bytes, and handles all of it.
fn pull<N: EngineName, M: EngineName, R: Wait + Abort>(
    rt: &R,
    alloc: Global,
    to: &mut Stage<N>,
    from: &mut Stage<M>,
    want_hello: &str,
    want_bundle: &str,
) {
    assert_hello(rt, alloc, to.reader, want_hello);
    assert_answer(rt, alloc, from.reader, want_hello, Ok(want_bundle));
    let received = receive(rt, alloc, to.client, want_bundle.as_bytes());
    assert_eq!(rt; received.stopped, None);
    assert_eq!(rt; received.bytes, want_bundle.len());
    let handled = match received.submitted {
        0 => Step::Idle,
        count => Step::Published(count as usize),
    };
    step(rt, alloc, to.writer, handled);
}

/// Plays a turn of one engine.
fn take_turn<N: EngineName, R: Wait + Abort>(
    rt: &R,
    alloc: Global,
    stage: &mut Stage<N>,
    turn: Turn,
) {
    match turn {
        Turn::Write(writing) => write(rt, alloc, stage, writing),
        Turn::Step(want) => step(rt, alloc, stage.writer, want),
        Turn::Receive(text, first_serial, submitted, bytes, stopped) => {
            let want = Received {
                first_serial,
                submitted,
                bytes,
                stopped,
            };
            assert_received(rt, alloc, stage.client, text, want);
        }
        Turn::ReceiveAll(bundle, full) => receive_all(
            rt,
            alloc,
            stage.writer,
            stage.client,
            bundle,
            full,
        ).expect(rt, "not refused"),
        Turn::ReadBack(file, submitted, stopped) => {
            let want = (submitted, stopped);
            read_back(rt, alloc, stage.writer, stage.client, file, want);
        }
        Turn::Take(line, want) => take_line(rt, alloc, stage, line, want),
        Turn::TakeFirst(replica, want) => take_first(rt, alloc, stage, replica, want),
        Turn::TakeFirsts(first, last) => take_firsts(rt, alloc, stage, first, last),
        Turn::TakeEarly(counter, want) => take_early(rt, alloc, stage, counter, want),
        Turn::TakeAllEarly(first, last, want) => take_all_early(
            rt, alloc, stage, first, last, want,
        ),
        Turn::Dropped(want) => assert_eq!(rt; stage.writer.dropped(), want),
        turn => read(rt, alloc, stage.reader, turn),
    }
}

/// Makes the writer step, and asserts the result.
fn step<N: EngineName, R: Wait + Abort>(rt: &R, alloc: Global, writer: &mut Writer<N>, want: Step) {
    assert_eq!(rt; writer.step(rt, alloc), want);
}

/// Makes the client receive these bytes, and asserts how much is submitted.
fn assert_received<N: EngineName, R: Wait + Abort>(
    rt: &R,
    alloc: Global,
    client: &mut Client<N>,
    text: &str,
    want: Received,
) {
    let received = receive(rt, alloc, client, text.as_bytes());
    assert!(rt; received == want, "of {text}");
}

/// Receives a line, and asserts how the writer answers it.
fn take_line<N: EngineName, R: Wait + Abort>(
    rt: &R,
    alloc: Global,
    stage: &mut Stage<N>,
    line: &str,
    want: Told,
) {
    let received = receive(rt, alloc, stage.client, line.as_bytes());
    assert!(rt;
        received.submitted == 1 && received.stopped.is_none(),
        "of {line}"
    );
    handle(rt, alloc, stage, received.first_serial, want)
}

/// Receives the first line of this replica, and asserts how the writer answers it.
fn take_first<N: EngineName, R: Wait + Abort>(
    rt: &R,
    alloc: Global,
    stage: &mut Stage<N>,
    replica: u32,
    want: Told,
) {
    let line = first_line(rt, alloc, replica);
    take_line(rt, alloc, stage, line.as_str(), want)
}

/// Receives the first lines of these replicas, each of which makes the history longer by one.
fn take_firsts<N: EngineName, R: Wait + Abort>(
    rt: &R,
    alloc: Global,
    stage: &mut Stage<N>,
    first: u32,
    last: u32,
) {
    let mut length: u64 = 0;
    for replica in first..=last {
        length = length.saturating_add(1);
        take_first(rt, alloc, stage, replica, Told::Kept(length));
    }
}

/// Delivers the operations of these counters, as `take_early` does each.
fn take_all_early<N: EngineName, R: Wait + Abort>(
    rt: &R,
    alloc: Global,
    stage: &mut Stage<N>,
    first: u64,
    last: u64,
    want: Told,
) {
    for counter in first..=last {
        take_early(rt, alloc, stage, counter, want);
    }
}

/// Delivers an operation of replica 2 that depends on one of replica 3, and asserts how the writer answers it.
fn take_early<N: EngineName, R: Wait + Abort>(
    rt: &R,
    alloc: Global,
    stage: &mut Stage<N>,
    counter: u64,
    want: Told,
) {
    let serial = deliver_early(rt, alloc, stage.client, counter);
    handle(rt, alloc, stage, serial, want)
}

/// Delivers that operation: its serial.
fn deliver_early<N: EngineName, R: Wait + Abort>(
    rt: &R,
    alloc: Global,
    client: &mut Client<N>,
    counter: u64,
) -> u64 {
    let op = early_op(rt, alloc, counter);
    let ticket = client.deliver(rt, alloc, op).expect(rt, "a ticket");
    ticket.serial
}

/// Steps, and asserts the reply to what was submitted under this serial.
fn handle<N: EngineName, R: Wait + Abort>(
    rt: &R,
    alloc: Global,
    stage: &mut Stage<N>,
    serial: u64,
    want: Told,
) {
    step(rt, alloc, stage.writer, Step::Published(1));
    let reply = poll(stage, serial).expect(rt, "an answer");
    assert!(rt; is_told(reply, want), "{reply:?}");
}

/// Whether this is the answer to a peer's operation.
fn is_told(reply: Option<Reply>, want: Told) -> bool {
    match (reply, want) {
        (Some(Reply::Kept(length)), Told::Kept(want)) => length == want,
        (Some(Reply::Known(length)), Told::Known(want)) => length == want,
        (Some(Reply::Refused(why, length)), Told::Refused(want, of)) => why == want && length == of,
        _ => false,
    }
}

/// The reply to a client's poll of this serial.
pub fn poll<N: EngineName>(stage: &mut Stage<N>, serial: u64) -> Result<Option<Reply>, Refusal> {
    let ticket = Ticket {
        replica: ReplicaId::new(stage.own).ok_or(Refusal::Foreign)?,
        client: 0,
        serial,
    };
    stage.client.poll(&ticket)
}

/// Submits a command, and steps.
fn write<N: EngineName, R: Wait + Abort>(
    rt: &R,
    alloc: Global,
    stage: &mut Stage<N>,
    writing: Writing,
) {
    let command = command(alloc, writing).expect(rt, "not refused");
    stage
        .client
        .submit(rt, alloc, command)
        .expect(rt, "a ticket");
    step(rt, alloc, stage.writer, Step::Published(1));
}

/// Plays a turn of a reader.
fn read<N: EngineName>(rt: &impl Abort, alloc: Global, reader: &mut ReaderToken<N>, turn: Turn) {
    match turn {
        Turn::Hello(want) => assert_hello(rt, alloc, reader, want),
        Turn::Answer(said, want) => assert_answer(rt, alloc, reader, said, want),
        Turn::Keep(said, from, to) => assert_kept(rt, alloc, reader, said, from, to),
        Turn::Seen(want) => assert_eq!(rt; reader.seen_len(), want),
        Turn::Show(path, want) => assert_shown(rt, alloc, reader, path, want),
        _ => panic!(rt; "no turn of a reader"),
    }
}

/// Compares the hello of a reader.
fn assert_hello<N: EngineName>(
    rt: &impl Abort,
    alloc: Global,
    reader: &mut ReaderToken<N>,
    want: &str,
) {
    let said = hello(alloc, reader).expect(rt, "a hello");
    assert_eq!(rt; said.as_slice(), want.as_bytes());
}

/// Asserts the answer to a hello, or why it is refused.
fn assert_answer<N: EngineName>(
    rt: &impl Abort,
    alloc: Global,
    reader: &mut ReaderToken<N>,
    said: &str,
    want: Result<&str, Refusal>,
) {
    let answered = answer(alloc, reader, said.as_bytes());
    assert!(rt; is_answer(&answered, want), "of {said}");
}

/// Whether it is this answer, or was refused for this reason.
fn is_answer(answered: &Result<Vec<u8>, Refusal>, want: Result<&str, Refusal>) -> bool {
    match (answered, want) {
        (Ok(text), Ok(want)) => text.as_slice() == want.as_bytes(),
        (Err(why), Err(want)) => *why == want,
        _ => false,
    }
}
