//! Clients, a reader and the writer, each in a thread of its own.

ghost use Rattle.std.specs.Prelude.{◌≡◌};
ghost use Rattle.ids.specs.Members.{in_order};

use super::*;
use cursor::Expr;
use document::{Question, Reading};
use operation::{Command, Reply};
use std::marker::Brand;
use std::process::Abort;
use std::sync::Wait;
use std::thread::{Threads, join, yield_now};
use value::{Scalar, Val};

/// How many commands each client submits.
const EACH: u64 = 40;

#[test]
fn two_clients_write_while_a_reader_asks(rt: HostRuntime) {
    let alloc = rt.alloc();
    let parts = prepare(alloc, config(&rt, alloc, 2, 3)).expect(&rt, "an engine");
    in_threads::<Brand, _>(&rt, alloc, parts)
}

fn in_threads<N: EngineName + Send + Sync, R: Threads + Wait + Abort + Sync>(
    rt: &R,
    alloc: Global,
    parts: Parts,
)
    requires book { parts.opened.seen.book ≡ N.book }
    requires own { parts.config.own ≡ N.own }
    requires table { in_order parts.config.members ≡ N.table }
{
    let (mut writer, mut clients, mut readers) = open::<N>(rt, alloc, parts).expect(
        rt,
        "an engine",
    );
    together(
        rt,
        alloc,
        &mut writer,
        clients.as_mut_slice(),
        readers.as_mut_slice(),
    );
    let Final { history, left } = close(rt, writer, clients);

    assert_eq!(rt; history.len() as u64, 2 * EACH);
    assert_eq!(rt; left, 0);
}

/// Each of two clients writes, while the writer steps and the reader asks.
fn together<N: EngineName + Send + Sync, R: Threads + Wait + Abort + Sync>(
    rt: &R,
    alloc: Global,
    writer: &mut Writer<N>,
    clients: &mut [Client<N>],
    readers: &mut [ReaderToken<N>],
) {
    let reader = readers.first_mut().expect(rt, "a reader");
    let (first, rest) = clients.split_first_mut().expect(rt, "a client");
    let second = rest.first_mut().expect(rt, "a second client");
    let ((_, grows), (one, two)) = run(rt, alloc, writer, reader, first, second);
    assert!(rt; one && two);
    assert!(rt; grows);
    assert_eq!(rt; reader.seen_len() as u64, 2 * EACH);
}

/// Whether the reader saw only growing histories, and each client read back what it wrote.
fn run<N: EngineName + Send + Sync, R: Threads + Wait + Sync>(
    rt: &R,
    alloc: Global,
    writer: &mut Writer<N>,
    reader: &mut ReaderToken<N>,
    first: &mut Client<N>,
    second: &mut Client<N>,
) -> (((), bool), (bool, bool)) {
    join(
        rt,
        move || {
            join(
                rt,
                move || answer_all(rt, alloc, writer),
                move || read_all(rt, alloc, reader),
            )
        },
        move || {
            join(
                rt,
                move || write_all(rt, alloc, first),
                move || write_all(rt, alloc, second),
            )
        },
    )
}

/// Steps until the submissions of both clients are answered.
fn answer_all<N: EngineName, R: Wait>(rt: &R, alloc: Global, writer: &mut Writer<N>) {
    let mut answered = 0u64;
    for _ in rt.forever() {
        if answered >= 2 * EACH {
            break;
        }
        match writer.step(rt, alloc) {
            Step::Published(count) => answered = answered.saturating_add(count as u64),
            Step::Idle | Step::Held => yield_now(),
        }
    }
}

/// Asks until all is published. Returns false if a reading shows less than one before.
fn read_all<N: EngineName, R: Wait>(rt: &R, alloc: Global, reader: &mut ReaderToken<N>) -> bool {
    for _ in rt.forever() {
        let before = reader.seen_len();
        if before as u64 >= 2 * EACH {
            return true;
        }
        if reader.ask(alloc, &Question::Vector).is_err() || reader.seen_len() < before {
            return false;
        }
        yield_now();
    }
    unreachable!()
}

/// Submits assignments of 1, 2 and so on, polls each answer, and reads each number back.
fn write_all<N: EngineName, R: Wait>(rt: &R, alloc: Global, client: &mut Client<N>) -> bool {
    for number in 0..EACH {
        let Ok(ticket) = submit_until_taken(rt, alloc, client, number as i64) else {
            return false;
        };
        if !is_made(rt, client, &ticket) || !is_read(alloc, client) {
            return false;
        }
    }
    true
}

/// Submits an assignment at the key `a`, again while the queue is full.
fn submit_until_taken<N: EngineName, R: Wait>(
    rt: &R,
    alloc: Global,
    client: &mut Client<N>,
    number: i64,
) -> Result<Ticket, Refusal> {
    for _ in rt.forever() {
        let command = Command::Assign(at(alloc, "a")?, Val::Scalar(Scalar::Whole(number)));
        match client.submit(rt, alloc, command) {
            Err(Refusal::QueueFull) => yield_now(),
            answer => return answer,
        }
    }
    unreachable!()
}

/// Polls until there is an answer, and says whether an operation was made.
fn is_made<N: EngineName, R: Wait>(rt: &R, client: &mut Client<N>, ticket: &Ticket) -> bool {
    for _ in rt.forever() {
        match client.poll(ticket) {
            Ok(Some(reply)) => return matches!(reply, Reply::Made(..)),
            Ok(None) => yield_now(),
            Err(_) => return false,
        }
    }
    unreachable!()
}

/// Whether there is a value at the key `a`.
fn is_read<N: EngineName>(alloc: Global, client: &mut Client<N>) -> bool {
    let Ok(place) = at(alloc, "a") else {
        return false;
    };
    match client.ask(alloc, &Question::Values(place)) {
        Ok(Reading::Values(values)) => !values.is_empty(),
        _ => false,
    }
}
