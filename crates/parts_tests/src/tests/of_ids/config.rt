//! The limits of a configuration.

use ids::{Config, Refusal};
use std::alloc::Global;
use std::process::Abort;

/// These members, and every other number at its limit.
fn greatest_of(members: Vec<u32>) -> Config {
    Config {
        own: 2,
        members,
        clients: 64,
        readers: 64,
        queue: 65_536,
        batch: 256,
        serials: 4_294_967_295,
    }
}

/// Three members, and every other number at its limit.
fn greatest(rt: &impl Abort, alloc: Global) -> Config {
    let members = vec![in alloc; 1, 2, 4_294_967_295].expect(rt, "memory");
    greatest_of(members)
}

/// What `check` returns.
type Answer = Result<(), Refusal>;

/// A number, and the answers of `check` with it as the own number, the clients, the readers, the queue, the batch and the serials.
type Row = (u32, [Answer; 6]);

const OK: Answer = Ok(());

const BAD: Answer = Err(Refusal::BadConfig);

const ROWS: [Row; 10] = [
    (0, [BAD, BAD, BAD, BAD, BAD, BAD]),
    (1, [OK, OK, OK, OK, OK, OK]),
    (3, [BAD, OK, OK, OK, OK, OK]),
    (64, [BAD, OK, OK, OK, OK, OK]),
    (65, [BAD, BAD, BAD, OK, OK, OK]),
    (256, [BAD, BAD, BAD, OK, OK, OK]),
    (257, [BAD, BAD, BAD, OK, BAD, OK]),
    (65_536, [BAD, BAD, BAD, OK, BAD, OK]),
    (65_537, [BAD, BAD, BAD, BAD, BAD, OK]),
    (4_294_967_295, [OK, BAD, BAD, BAD, BAD, OK]),
];

fn with_own(rt: &impl Abort, alloc: Global, number: u32) -> Answer {
    let mut config = greatest(rt, alloc);
    config.own = number;
    config.check()
}

fn with_clients(rt: &impl Abort, alloc: Global, number: u32) -> Answer {
    let mut config = greatest(rt, alloc);
    config.clients = number;
    config.check()
}

fn with_readers(rt: &impl Abort, alloc: Global, number: u32) -> Answer {
    let mut config = greatest(rt, alloc);
    config.readers = number;
    config.check()
}

fn with_queue(rt: &impl Abort, alloc: Global, number: u32) -> Answer {
    let mut config = greatest(rt, alloc);
    config.queue = number;
    config.check()
}

fn with_batch(rt: &impl Abort, alloc: Global, number: u32) -> Answer {
    let mut config = greatest(rt, alloc);
    config.batch = number;
    config.check()
}

fn with_serials(rt: &impl Abort, alloc: Global, number: u32) -> Answer {
    let mut config = greatest(rt, alloc);
    config.serials = number;
    config.check()
}

/// The answers of `check` with the number as each of these in turn.
fn answers(rt: &impl Abort, alloc: Global, number: u32) -> [Answer; 6] {
    [
        with_own(rt, alloc, number),
        with_clients(rt, alloc, number),
        with_readers(rt, alloc, number),
        with_queue(rt, alloc, number),
        with_batch(rt, alloc, number),
        with_serials(rt, alloc, number),
    ]
}

fn assert_answers(rt: &impl Abort, alloc: Global, row: Row) {
    let (number, want) = row;
    let answers = answers(rt, alloc, number);
    assert_eq!(rt; answers, want, "at {number}");
}

#[test]
fn numbers_are_within_limits(rt: HostRuntime) {
    for row in ROWS {
        assert_answers(&rt, rt.alloc(), row);
    }
}

/// The answer of `check` with these members.
fn with_members(members: Vec<u32>) -> Answer {
    greatest_of(members).check()
}

/// The answer of `check` with the members from 1 to the last one.
fn with_members_to(rt: &impl Abort, alloc: Global, last: u32) -> Answer {
    let mut members = Vec::new(alloc);
    for member in 1..=last {
        members.push(member).expect(rt, "memory");
    }
    with_members(members)
}

#[test]
fn members_are_different_and_few(rt: HostRuntime) {
    let alloc = rt.alloc();
    assert_eq!(rt; with_members(Vec::new(alloc)), BAD, "no member");
    assert_eq!(rt; with_members_to(&rt, alloc, 64), OK, "64 members");
    assert_eq!(rt; with_members_to(&rt, alloc, 65), BAD, "65 members");
    let twice = vec![in alloc; 2, 3, 2].expect(&rt, "memory");
    assert_eq!(rt; with_members(twice), BAD, "twice the same member");
    let zero = vec![in alloc; 2, 0].expect(&rt, "memory");
    assert_eq!(rt; with_members(zero), BAD, "a member numbered 0");
}
