//! Two clients, a writer and a reader take their turns in every order.
//!
//! No test can force a schedule of threads, so each order is played on one thread: on an engine of threads, one call after another, and on
//! a new world in the same order, whose writer takes, publishes and gives when the engine steps. All answers of both are compared, and at
//! the end what each token sees. Other calls don't come between the take, the publish and the answer of one step here, or within any other
//! call: those are up to the contracts.

use super::acts::{Act, Kind, Probe};
use super::both::play;
use super::orders::next_order;
use cursor::{Expr, Step as Hop};
use operation::Command;
use std::alloc::Global;
use std::process::Abort;
use std::sync::Wait;
use value::{Key, Scalar, Val};

/// What an actor does in a turn. Clients are tokens 0 and 1, the reader is token 2.
#[derive(Clone, Copy, Debug)]
enum Move {
    /// A client puts a list at the key.
    List(usize),
    /// A client inserts at the head of the list.
    Insert(usize),
    /// A client overwrites the first item of the list.
    Write(usize),
    /// A client deletes the first item of the list.
    Delete(usize),
    /// The writer steps.
    Step,
    /// A client polls its serial.
    Poll(usize, u64),
    /// A token asks for the items of the list.
    Items(usize),
    /// A token asks what is written in the first item.
    Values(usize),
}

/// What follows each order: the writer handles what is left, the clients poll, and all tokens look.
const LAST: &[Move] = &[
    Move::Step,
    Move::Step,
    Move::Poll(0, 1),
    Move::Poll(0, 2),
    Move::Poll(1, 1),
    Move::Poll(1, 2),
    Move::Items(0),
    Move::Items(1),
    Move::Items(2),
    Move::Values(2),
];

/// The turns of each actor: the two clients, the writer, the reader.
type Turns = [&'static [Move]; 4];

#[test]
fn commands_and_questions_in_every_order(rt: HostRuntime) {
    const TURNS: Turns = [
        &[Move::List(0), Move::Insert(0)],
        &[Move::Insert(1), Move::Delete(1)],
        &[Move::Step, Move::Step],
        &[Move::Items(2), Move::Items(2)],
    ];
    let mut order = [0, 0, 1, 1, 2, 2, 3, 3];
    // 8! / (2! 2! 2! 2!)
    play_all(&rt, rt.alloc(), &TURNS, &mut order, 2_520)
}

#[test]
fn polls_in_every_order(rt: HostRuntime) {
    const TURNS: Turns = [
        &[Move::List(0), Move::Poll(0, 1), Move::Write(0)],
        &[Move::Insert(1), Move::Poll(1, 1)],
        &[Move::Step, Move::Step],
        &[Move::Values(2)],
    ];
    let mut order = [0, 0, 0, 1, 1, 2, 2, 3];
    // 8! / (3! 2! 2! 1!)
    play_all(&rt, rt.alloc(), &TURNS, &mut order, 1_680)
}

/// Plays this order of the actors and all orders after it, and asserts how many there are.
fn play_all<R: Wait + Abort>(
    rt: &R,
    alloc: Global,
    turns: &Turns,
    order: &mut [usize],
    count: u32,
) {
    for number in 1..=count {
        let acts = acts_in(rt, alloc, turns, order);
        play(rt, alloc, 2, 1, acts.as_slice());
        assert_eq!(rt; next_order(order), number < count);
    }
}

/// The acts of actors who take their turns in this order, and the last ones.
fn acts_in(rt: &impl Abort, alloc: Global, turns: &Turns, order: &[usize]) -> Vec<Act> {
    let mut acts = Vec::new(alloc);
    for (index, actor) in order.iter().enumerate() {
        // The actor's turns before this one.
        let turn = order
            .iter()
            .take(index)
            .filter(|other| *other == actor)
            .count();
        if let Some(next) = turns.get(*actor).and_then(|moves| moves.get(turn)) {
            acts.push(act(rt, alloc, *next)).expect(rt, "memory");
        }
    }
    for next in LAST {
        acts.push(act(rt, alloc, *next)).expect(rt, "memory");
    }
    acts
}

fn act(rt: &impl Abort, alloc: Global, next: Move) -> Act {
    match next {
        Move::Step => Act::SingleSteps,
        Move::Poll(client, serial) => Act::Poll { client, serial },
        Move::Items(token) => ask(rt, alloc, token, Kind::Items, &[]),
        Move::Values(token) => ask(rt, alloc, token, Kind::Values, &[1]),
        Move::List(client) => submit(
            rt,
            client,
            Command::Assign(at(rt, alloc, &[]), Val::EmptyList),
        ),
        Move::Insert(client) => submit(
            rt,
            client,
            Command::InsertAfter(at(rt, alloc, &[0]), Val::EmptyMap),
        ),
        Move::Write(client) => {
            submit(
                rt,
                client,
                Command::Assign(at(rt, alloc, &[1]), Val::Scalar(Scalar::Whole(7))),
            )
        }
        Move::Delete(client) => submit(rt, client, Command::Delete(at(rt, alloc, &[1]))),
    }
}

fn submit(rt: &impl Abort, client: usize, command: Command) -> Act {
    Act::Submit { client, command }
}

fn ask(rt: &impl Abort, alloc: Global, token: usize, kind: Kind, indices: &[u64]) -> Act {
    let place = at(rt, alloc, indices);
    Act::Ask {
        token,
        probe: Probe { kind, place },
    }
}

/// The expression of the list, or of an index in it.
fn at(rt: &impl Abort, alloc: Global, indices: &[u64]) -> Expr {
    let list = Hop::Get(Key::new(alloc, "l").expect(rt, "a key"));
    let mut steps = vec![in alloc; list].expect(rt, "memory");
    for index in indices {
        steps.push(Hop::Idx(*index)).expect(rt, "memory");
    }
    Expr::new(steps)
}
