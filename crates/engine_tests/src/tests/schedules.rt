//! Threads that contend: a reader that never pauses, and clients that crowd a queue of capacity 1.

ghost use Rattle.std.specs.Prelude.{◌≡◌};
ghost use Rattle.ids.specs.Members.{in_order};

use super::*;
use document::{Question, Reading};
use ids::ReplicaId;
use operation::{Command, Entry};
use std::marker::Brand;
use std::process::Abort;
use std::sync::Wait;
use std::thread::{Threads, for_each_mut, join, yield_now};
use value::{Scalar, Val};

/// How many turns a thread may take before it gives up.
const MOST_TURNS: u32 = 10_000_000;

/// How many items the list has that is read, and how many publishes come after it is made.
const ITEMS: usize = 500;

const PUBLISHES: u32 = 1_000;

/// How many entries there are at the end: one of them makes the list.
const ENTRIES: usize = 1_501;

/// How many clients write, and how many commands each of them submits.
const CLIENTS: usize = 8;

const EACH: u32 = 100;

/// How many commands that is in all.
const SUBMITTED: usize = 800;

/// How a thread ended.
#[derive(Clone, Copy, Debug, PartialEq, Eq)]
enum Ended {
    /// It did its work.
    Done,
    /// It saw less than before.
    SawLess,
    /// It was shown a different list.
    AnotherList,
    /// A step of the writer answered a different number of submissions.
    AnotherStep,
    TooManyTurns,
}

/// An engine of replica 1 alone, with one reader, whose steps take one submission.
fn alone(rt: &impl Abort, alloc: Global, clients: u32) -> Config {
    Config {
        own: 1,
        members: vec![in alloc; 1].expect(rt, "memory"),
        clients,
        readers: 1,
        queue: 1,
        batch: 1,
        serials: 4_000,
    }
}

#[test]
fn a_reader_without_pause_never_sees_less(rt: HostRuntime) {
    let alloc = rt.alloc();
    let parts = prepare(alloc, alone(&rt, alloc, 1)).expect(&rt, "an engine");
    publishes_meanwhile::<Brand, _>(&rt, alloc, parts)
}

fn publishes_meanwhile<N: EngineName + Send + Sync, R: Threads + Wait + Abort + Sync>(
    rt: &R,
    alloc: Global,
    parts: Parts,
)
    requires book { parts.opened.seen.book ≡ N.book }
    requires own { parts.config.own ≡ N.own }
    requires table { in_order parts.config.members ≡ N.table }
{
    let (mut writer, mut clients, mut readers) = open::<N>(rt, alloc, parts).expect(
        rt,
        "an engine",
    );
    match (clients.first_mut(), readers.first_mut()) {
        (Some(client), Some(reader)) => publish_while_read(rt, alloc, &mut writer, client, reader),
        _ => panic!(rt; "no client"),
    };
    let _final = close(rt, writer, clients);
}

/// Makes the list; then one thread publishes, while another one reads the list.
fn publish_while_read<N: EngineName + Send + Sync, R: Threads + Wait + Abort + Sync>(
    rt: &R,
    alloc: Global,
    writer: &mut Writer<N>,
    client: &mut Client<N>,
    reader: &mut ReaderToken<N>,
) {
    publish(
        rt,
        alloc,
        writer,
        client,
        Command::Assign(at(alloc, "l").expect(rt, "an expression"), Val::EmptyList),
    )
    .expect(rt, "not refused");
    for _ in 0..ITEMS {
        publish(
            rt,
            alloc,
            writer,
            client,
            Command::InsertAfter(head(rt, alloc), Val::EmptyMap),
        )
        .expect(rt, "not refused");
    }
    let (published, read) = join(
        rt,
        move || publish_all(rt, alloc, writer, client),
        move || read_all(alloc, reader),
    );
    assert_eq!(rt; published.expect(rt, "not refused"), Ended::Done);
    assert_eq!(rt; read.expect(rt, "not refused"), Ended::Done);
}

/// Submits a command, which the writer publishes by itself.
fn publish<N: EngineName, R: Wait>(
    rt: &R,
    alloc: Global,
    writer: &mut Writer<N>,
    client: &mut Client<N>,
    command: Command,
) -> Result<Ended, Refusal> {
    client.submit(rt, alloc, command)?;
    match writer.step(rt, alloc) {
        Step::Published(1) => Ok(Ended::Done),
        _ => Ok(Ended::AnotherStep),
    }
}

/// The head of the list.
fn head(rt: &impl Abort, alloc: Global) -> Expr {
    Expr::root(alloc)
        .get(alloc, "l")
        .expect(rt, "a place")
        .idx(0)
        .expect(rt, "an expression")
}

/// Publishes numbers at a key, one after another.
fn publish_all<N: EngineName, R: Wait>(
    rt: &R,
    alloc: Global,
    writer: &mut Writer<N>,
    client: &mut Client<N>,
) -> Result<Ended, Refusal> {
    for number in 0..PUBLISHES {
        let command = assign(alloc, number)?;
        if publish(rt, alloc, writer, client, command)? != Ended::Done {
            return Ok(Ended::AnotherStep);
        }
    }
    Ok(Ended::Done)
}

fn assign(alloc: Global, number: u32) -> Result<Command, Refusal> {
    Ok(Command::Assign(
        at(alloc, "a")?,
        Val::Scalar(Scalar::Whole(i64::from(number))),
    ))
}

/// Reads the list until all is published, without a pause.
fn read_all<N: EngineName>(alloc: Global, reader: &mut ReaderToken<N>) -> Result<Ended, Refusal> {
    for _ in 0..MOST_TURNS {
        let before = reader.seen_len();
        let items = count_items(alloc, reader)?;
        let seen = reader.seen_len();
        if items != ITEMS {
            return Ok(Ended::AnotherList);
        }
        if seen < before {
            return Ok(Ended::SawLess);
        }
        if seen == ENTRIES {
            return Ok(Ended::Done);
        }
    }
    Ok(Ended::TooManyTurns)
}

/// How many items the list has.
fn count_items<N: EngineName>(
    alloc: Global,
    reader: &mut ReaderToken<N>,
) -> Result<usize, Refusal> {
    let question = Question::Items(at(alloc, "l")?);
    match reader.ask(alloc, &question)? {
        Reading::Items(items) => Ok(items.len()),
        _ => Ok(0),
    }
}

#[test]
fn eight_clients_crowd_one_slot(rt: HostRuntime) {
    let alloc = rt.alloc();
    let parts = prepare(alloc, alone(&rt, alloc, CLIENTS as u32)).expect(&rt, "an engine");
    crowd::<Brand, _>(&rt, alloc, parts)
}

fn crowd<N: EngineName + Send + Sync, R: Threads + Wait + Abort + Sync>(
    rt: &R,
    alloc: Global,
    parts: Parts,
)
    requires book { parts.opened.seen.book ≡ N.book }
    requires own { parts.config.own ≡ N.own }
    requires table { in_order parts.config.members ≡ N.table }
{
    let (mut writer, mut clients, mut readers) = open::<N>(rt, alloc, parts).expect(
        rt,
        "an engine",
    );
    write_and_learn(rt, alloc, &mut writer, &mut clients, &mut readers);
    let last = close(rt, writer, clients);

    assert_whole(rt, &last);
}

/// Asserts that all that the clients submitted is published, each client's in order, and that nothing is left.
fn assert_whole<R: Abort>(rt: &R, last: &Final) {
    assert_eq!(rt; last.left, 0);
    assert_eq!(rt; last.history.len(), SUBMITTED);
    for client in 0..CLIENTS {
        assert!(rt; is_whole(&last.history, client));
    }
}

/// All clients write at the same time; then a reader that never asked learns of the result.
fn write_and_learn<N: EngineName + Send + Sync, R: Threads + Wait + Abort + Sync>(
    rt: &R,
    alloc: Global,
    writer: &mut Writer<N>,
    clients: &mut Vec<Client<N>>,
    readers: &mut Vec<ReaderToken<N>>,
) {
    assert_eq!(rt; write_at_once(rt, alloc, writer, clients), Ended::Done);
    let first = first_notice(rt, clients);
    let reader = readers.get_mut(0).expect(rt, "a reader");
    learn_late(rt, alloc, reader, &writer.notice(), &first)
}

/// Each client writes in a thread of its own, while the writer steps.
fn write_at_once<N: EngineName + Send + Sync, R: Threads + Wait + Sync>(
    rt: &R,
    alloc: Global,
    writer: &mut Writer<N>,
    clients: &mut Vec<Client<N>>,
) -> Ended {
    let (answered, ()) = join(
        rt,
        move || answer_all(rt, alloc, writer),
        move || {
            for_each_mut(
                rt,
                clients,
                CLIENTS,
                &|_: usize, client: &mut Client<N>| {
                    // If a submission fails, the writer misses it.
                    let _refused = write_each(rt, alloc, client);
                },
            )
        },
    );
    answered
}

/// Steps until the submissions of all clients are answered.
fn answer_all<N: EngineName, R: Wait>(rt: &R, alloc: Global, writer: &mut Writer<N>) -> Ended {
    let mut answered = 0usize;
    for _ in 0..MOST_TURNS {
        if answered == SUBMITTED {
            return Ended::Done;
        }
        match writer.step(rt, alloc) {
            Step::Published(count) => answered = answered.saturating_add(count),
            Step::Idle | Step::Held => yield_now(),
        }
    }
    Ended::TooManyTurns
}

/// Submits numbers, drops each ticket, and never polls.
fn write_each<N: EngineName, R: Wait>(
    rt: &R,
    alloc: Global,
    client: &mut Client<N>,
) -> Result<(), Refusal> {
    for number in 0..EACH {
        submit_until_taken(rt, alloc, client, number)?;
    }
    Ok(())
}

/// Submits a number, again while the queue is full.
fn submit_until_taken<N: EngineName, R: Wait>(
    rt: &R,
    alloc: Global,
    client: &mut Client<N>,
    number: u32,
) -> Result<(), Refusal> {
    for _ in 0..MOST_TURNS {
        match client.submit(rt, alloc, assign(alloc, number)?) {
            Err(Refusal::QueueFull) => yield_now(),
            Err(why) => return Err(why),
            Ok(_ticket) => return Ok(()),
        }
    }
    Err(Refusal::QueueFull)
}

/// Asserts that a reader that never asked learns of all 800 entries, and that learning of the first one alone then takes nothing away.
fn learn_late<N: EngineName, R: Abort>(
    rt: &R,
    alloc: Global,
    reader: &mut ReaderToken<N>,
    whole: &Notice<N>,
    first: &Notice<N>,
) {
    assert_eq!(rt; reader.seen_len(), 0);
    reader.learn(whole);
    assert_eq!(rt; reader.seen_len(), SUBMITTED);
    assert_eq!(rt; greatest(rt, alloc, reader), 800);
    assert_eq!(rt; reader.seen_len(), SUBMITTED);
    reader.learn(first);
    assert_eq!(rt; reader.seen_len(), SUBMITTED);
    assert_eq!(rt; greatest(rt, alloc, reader), 800);
}

/// The greatest counter that a reader is shown of one replica's operations 1, 2, 3 and so on, which is how many there are.
fn greatest<N: EngineName, A: Abort>(rt: &A, alloc: Global, reader: &mut ReaderToken<N>) -> u64 {
    match reader.ask(alloc, &Question::Vector).expect(rt, "an answer") {
        Reading::Vector(vector) => vector.greatest(),
        _ => 0,
    }
}

/// The notice of the history with one entry, which came with the answer to some client's first serial.
fn first_notice<N: EngineName, A: Abort>(rt: &A, clients: &Vec<Client<N>>) -> Notice<N> {
    let replica = ReplicaId::new(1).expect(rt, "numbered 0");
    for (number, client) in clients.iter().enumerate() {
        let ticket = Ticket {
            replica,
            client: number,
            serial: 1,
        };
        if let Some(notice) = client.notice_of(&ticket).expect(rt, "not refused") {
            if notice.len() == 1 {
                return notice.again();
            }
        }
    }
    panic!(rt; "no notice of length 1")
}

/// Whether the history has each serial of a client, in order.
fn is_whole(history: &[Entry], client: usize) -> bool {
    let mut last = 0u64;
    for entry in history {
        if let Some(serial) = serial_by(entry, client) {
            last = last.saturating_add(1);
            if serial != last {
                return false;
            }
        }
    }
    last == u64::from(EACH)
}

/// The serial of an entry, if it is this client's.
fn serial_by(entry: &Entry, client: usize) -> Option<u64> {
    match entry {
        Entry::Own {
            client: by,
            serial,
            ..
        } if *by == client => Some(*serial),
        _ => None,
    }
}
