//! The atomic steps of an engine, in every order that a small case allows.
//!
//! With a batch of one submission, a step of the writer takes it, publishes, and sets its answer; a client's submission is a push, its poll
//! is a get, and a question is an enter. No test can force a schedule of threads. So these steps are done here on one thread, in each order
//! of two clients, a writer and a reader, and each answer is compared with what counting says: how many submissions were pushed, taken,
//! published and answered.

mod orders;

ghost use Rattle.std.specs.Prelude.{◌≡◌};
ghost use Rattle.ids.specs.Members.{in_order};

use super::*;
use document::{Question, Reading};
use ids::ReplicaId;
use operation::Command;
use orders::{go_on, schedule};
use std::marker::Brand;
use std::sync::Wait;
use value::{Scalar, Val};

/// An atomic step, and the actor that makes it.
#[derive(Clone, Copy)]
enum Atomic {
    /// A client pushes a submission. The nth submission in the queue's order assigns n at the one key.
    Push(usize),
    /// The writer takes a submission, if one is queued, and handles it.
    Take,
    Publish,
    /// The writer sets the answer of what it took.
    Set,
    /// A client gets the answer of each of its submissions.
    Get(usize),
    /// The reader enters, and reads the number at the key.
    Enter,
}

/// What each actor does, in its order: two clients, the writer, the reader.
type Turns = [&'static [Atomic]; 4];

/// What the writer does in two steps.
const TWO_STEPS: &[Atomic] = &[
    Atomic::Take,
    Atomic::Publish,
    Atomic::Set,
    Atomic::Take,
    Atomic::Publish,
    Atomic::Set,
];

/// What follows each order: two more steps of the writer, and then everyone looks.
const LAST: &[Atomic] = &[
    Atomic::Take,
    Atomic::Publish,
    Atomic::Set,
    Atomic::Take,
    Atomic::Publish,
    Atomic::Set,
    Atomic::Get(0),
    Atomic::Get(1),
    Atomic::Enter,
];

/// The capacity of the queue.
const QUEUE: usize = 2;

/// What was done so far.
#[derive(Clone, Copy, Default)]
struct Counted {
    /// Who pushed each submission, in the queue's order.
    pushed_by: [usize; 4],
    pushed: usize,
    taken: usize,
    published: usize,
    answered: usize,
}

#[test]
fn commands_and_questions_in_every_order(rt: HostRuntime) {
    const TURNS: Turns = [
        &[Atomic::Push(0), Atomic::Push(0)],
        &[Atomic::Push(1), Atomic::Push(1)],
        TWO_STEPS,
        &[Atomic::Enter, Atomic::Enter],
    ];
    // 12! / (2! 2! 6! 2!)
    play_all(&rt, rt.alloc(), &TURNS, 83_160);
}

#[test]
fn polls_in_every_order(rt: HostRuntime) {
    const TURNS: Turns = [
        &[Atomic::Push(0), Atomic::Get(0)],
        &[Atomic::Push(1), Atomic::Get(1)],
        TWO_STEPS,
        &[Atomic::Enter],
    ];
    // 11! / (2! 2! 6! 1!)
    play_all(&rt, rt.alloc(), &TURNS, 13_860);
}

/// Plays every schedule of these turns, and asserts how many there are.
fn play_all<R: Wait + Abort>(rt: &R, alloc: Global, turns: &Turns, count: u32) {
    let mut choices = Vec::new(alloc);
    for number in 1..=count {
        let steps = schedule(alloc, turns, &mut choices).expect(rt, "memory");
        play(rt, alloc, &steps);
        assert_eq!(rt; go_on(&mut choices), number < count);
    }
}

/// Opens an engine, and does these atomic steps on it, and the last ones.
fn play<R: Wait + Abort>(rt: &R, alloc: Global, steps: &[Atomic]) {
    let parts = prepare(
        alloc,
        Config {
            own: 1,
            members: vec![in alloc; 1].expect(rt, "memory"),
            clients: 2,
            readers: 1,
            queue: QUEUE as u32,
            batch: 1,
            serials: 2,
        },
    )
    .expect(rt, "not refused");
    play_in::<Brand, R>(rt, alloc, parts, steps);
}

fn play_in<N: EngineName, R: Wait + Abort>(rt: &R, alloc: Global, parts: Parts, steps: &[Atomic])
    requires book { parts.opened.seen.book ≡ N.book }
    requires own { parts.config.own ≡ N.own }
    requires table { in_order parts.config.members ≡ N.table }
{
    let (mut writer, mut clients, mut readers) = open::<N>(rt, alloc, parts).expect(rt, "memory");
    let mut reader = readers.pop().expect(rt, "a reader");
    play_with(rt, alloc, &mut writer, &mut clients, &mut reader, steps);
    let _final = close(rt, writer, clients);
}

fn play_with<N: EngineName, R: Wait + Abort>(
    rt: &R,
    alloc: Global,
    writer: &mut Writer<N>,
    clients: &mut Vec<Client<N>>,
    reader: &mut ReaderToken<N>,
    steps: &[Atomic],
) {
    let mut counted = Counted::default();
    for step in steps.iter().chain(LAST) {
        match *step {
            Atomic::Push(client) => push(rt, alloc, clients, client, &mut counted),
            Atomic::Get(client) => get(rt, clients, client, &counted),
            Atomic::Enter => assert_eq!(rt; number(rt, alloc, reader), counted.published),
            Atomic::Take => take(rt, alloc, writer, &mut counted),
            Atomic::Publish => publish(rt, writer, &mut counted),
            Atomic::Set => set(rt, writer, &mut counted),
        }
    }
    assert_eq!(rt; counted.answered, counted.pushed);
}

/// Pushes the next submission, and asserts that it is refused exactly when the queue is full.
fn push<N: EngineName, R: Wait + Abort>(
    rt: &R,
    alloc: Global,
    clients: &mut Vec<Client<N>>,
    number: usize,
    counted: &mut Counted,
) {
    let client = clients.get_mut(number).expect(rt, "a client");
    let next = counted.pushed.saturating_add(1);
    let submitted = client.submit(rt, alloc, assign(rt, alloc, next));
    if counted.pushed.saturating_sub(counted.taken) == QUEUE {
        assert_eq!(rt; submitted.err(), Some(Refusal::QueueFull));
        return;
    }
    submitted.expect(rt, "not refused");
    if let Some(by) = counted.pushed_by.get_mut(counted.pushed) {
        *by = number;
    }
    counted.pushed = next;
}

fn assign(rt: &impl Abort, alloc: Global, number: usize) -> Command {
    let number = i64::try_from(number).unwrap_or(i64::MAX);
    Command::Assign(at_key(rt, alloc), Val::Scalar(Scalar::Whole(number)))
}

/// The expression for the one key.
fn at_key(rt: &impl Abort, alloc: Global) -> Expr {
    at(alloc, "a").expect(rt, "an expression")
}

/// Takes and handles the oldest submission of the queue, if there is one.
fn take<N: EngineName, R: Wait + Abort>(
    rt: &R,
    alloc: Global,
    writer: &mut Writer<N>,
    counted: &mut Counted,
) {
    assert_eq!(rt; writer.held_len(), 0);
    writer.take_all(rt, alloc);
    let waited = counted.taken < counted.pushed;
    assert_eq!(rt; writer.held_len(), usize::from(waited));
    counted.taken = counted.taken.saturating_add(usize::from(waited));
}

fn publish<N: EngineName, R: Wait + Abort>(rt: &R, writer: &mut Writer<N>, counted: &mut Counted) {
    writer.publish_all(rt).expect(rt, "memory");
    counted.published = counted.taken;
}

fn set<N: EngineName, R: Abort>(rt: &R, writer: &mut Writer<N>, counted: &mut Counted) {
    assert!(rt; writer.is_all_published());
    writer.answer_all();
    counted.answered = counted.published;
}

/// Polls for each submission of a client, and asserts that the nth of all that were pushed made the nth entry, once it is answered.
fn get<N: EngineName, R: Abort>(
    rt: &R,
    clients: &mut Vec<Client<N>>,
    number: usize,
    counted: &Counted,
) {
    let client = clients.get_mut(number).expect(rt, "a client");
    let mut serial = 0u64;
    for (position, by) in counted.pushed_by.iter().take(counted.pushed).enumerate() {
        if *by == number {
            serial = serial.saturating_add(1);
            let wanted = (position < counted.answered).then_some(position);
            assert_eq!(rt; made_at(rt, client, number, serial), wanted);
        }
    }
}

/// The position at which the client's submission with this serial was made, if it is answered.
fn made_at<N: EngineName>(
    rt: &impl Abort,
    client: &mut Client<N>,
    number: usize,
    serial: u64,
) -> Option<usize> {
    let ticket = Ticket {
        replica: ReplicaId::new(1).expect(rt, "a replica"),
        client: number,
        serial,
    };
    match client.poll(&ticket).expect(rt, "its own ticket")? {
        Reply::Made(_, position) => usize::try_from(position).ok(),
        _ => panic!(rt; "it wasn't made"),
    }
}

/// The number at the key, 0 if nothing was assigned.
fn number<N: EngineName>(rt: &impl Abort, alloc: Global, reader: &mut ReaderToken<N>) -> usize {
    let question = Question::Values(at_key(rt, alloc));
    let Reading::Values(values) = reader.ask(alloc, &question).expect(rt, "a reading") else {
        panic!(rt; "no values")
    };
    match values.as_slice() {
        [] => 0,
        [(_, Scalar::Whole(number))] => usize::try_from(*number).unwrap_or(usize::MAX),
        _ => panic!(rt; "another value"),
    }
}
