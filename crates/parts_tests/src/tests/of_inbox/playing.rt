//! What a test does with an inbox, as a table of turns, and what plays them.

ghost use Rattle.std.specs.Prelude.{◌<◌};

use super::*;
use cursor::Place;
use document::Document;
use fixtures::{Pair, id_of, pair_of};
use ids::OpId;
use inbox::Inbox;
use operation::{Mutation, Op, Shared};
use std::alloc::Global;
use std::process::Abort;
use value::Val;

/// What an operation writes at the root.
#[derive(Clone, Copy, Debug, PartialEq, Eq)]
pub enum Writes {
    Map,
    Delete,
}

/// One turn: something that is done with an inbox, and its answer.
#[derive(Clone, Copy)]
pub enum Turn {
    /// Puts an operation at the root, with these counters of the replicas 1, 2 and 3 in its vector.
    Put(Pair, [u64; 3], Writes, Result<Delivered, Refusal>),
    /// The smallest ready one.
    Smallest(Option<Pair>),
    /// What the operation with this id writes, which is taken.
    Take(Pair, Option<Writes>),
    /// Whether one with this id waits.
    Has(Pair, bool),
    /// Whether there is room for one more that is ready, or that isn't.
    Room(bool, bool),
    Len(usize),
}

/// An operation at the root.
fn op(
    rt: &impl Abort,
    alloc: Global,
    pair: Pair,
    counters: [u64; 3],
    writes: Writes,
) -> Shared<Op> {
    let mutation = match writes {
        Writes::Map => Mutation::Assign(Val::EmptyMap),
        Writes::Delete => Mutation::Delete,
    };
    fixtures::op(alloc, pair, &counters, Place::doc(alloc), mutation).expect(rt, "an operation")
}

/// Puts an operation, and asserts the answer.
fn answers(
    rt: &impl Abort,
    inbox: &mut Inbox,
    op: Shared<Op>,
    document: &Document,
    want: Result<Delivered, Refusal>,
) {
    let id = op.id;
    let answer = inbox.put(op, document);
    assert_eq!(rt; answer, want, "to {id:?}");
}

/// The id of the smallest ready one.
fn smallest(inbox: &Inbox, document: &Document) -> Option<Pair> {
    let op = inbox.smallest_ready(document)?;
    Some(pair_of(op.id))
}

fn written(op: &Op) -> (Pair, Writes) {
    let writes = match &op.mutation {
        Mutation::Delete => Writes::Delete,
        _ => Writes::Map,
    };
    (pair_of(op.id), writes)
}

/// Takes the operation with this id, and returns its id and what it writes.
fn take(inbox: &mut Inbox, id: OpId) -> Option<(Pair, Writes)> {
    let taken = inbox.take(id)?;
    Some(written(&taken))
}

fn beside(pair: Pair, writes: Option<Writes>) -> Option<(Pair, Writes)> {
    Some((pair, writes?))
}

/// Takes the operation with this id, and asserts what it writes.
fn takes(rt: &impl Abort, inbox: &mut Inbox, pair: Pair, want: Option<Writes>) {
    let id = id_of(pair).expect(rt, "an id");
    assert_eq!(rt; take(inbox, id), beside(pair, want));
}

/// Asserts whether one with this id waits.
fn has(rt: &impl Abort, inbox: &Inbox, pair: Pair, want: bool) {
    let id = id_of(pair).expect(rt, "an id");
    assert_eq!(rt; inbox.contains(id), want, "{id:?}");
}

/// Plays a turn.
fn take_turn(rt: &impl Abort, alloc: Global, inbox: &mut Inbox, document: &Document, turn: Turn) {
    match turn {
        Turn::Put(pair, counters, writes, want) => {
            let op = op(rt, alloc, pair, counters, writes);
            answers(rt, inbox, op, document, want);
        }
        Turn::Smallest(want) => assert_eq!(rt; smallest(inbox, document), want),
        Turn::Take(pair, want) => takes(rt, inbox, pair, want),
        Turn::Has(pair, want) => has(rt, inbox, pair, want),
        Turn::Room(ready, want) => assert_eq!(rt; inbox.has_room(ready), want),
        Turn::Len(want) => assert_eq!(rt; inbox.len(), want),
    }
}

/// Plays these turns in order.
fn play(rt: &impl Abort, alloc: Global, inbox: &mut Inbox, document: &Document, turns: &[Turn]) {
    for next in turns {
        take_turn(rt, alloc, inbox, document, *next);
    }
}

/// Puts this many operations of replica 2, from its second on. Each waits for the one of replica 3 whose counter is one less.
fn fill(rt: &impl Abort, alloc: Global, inbox: &mut Inbox, document: &Document, stuck: u64)
    requires { stuck < 10000 }
{
    for index in 0..stuck {
        let op = op(rt, alloc, (index + 2, 2), [0, 0, index + 1], Writes::Map);
        answers(rt, inbox, op, document, KEPT);
    }
}

/// Plays the first turns and then the last, once this many operations wait, none of which is ready.
fn fill_and_play(
    rt: &impl Abort,
    alloc: Global,
    inbox: &mut Inbox,
    document: &Document,
    stuck: u64,
    first: &[Turn],
    second: &[Turn],
)
    requires { stuck < 10000 }
{
    fill(rt, alloc, inbox, document, stuck);
    play(rt, alloc, inbox, document, first);
    play(rt, alloc, inbox, document, second)
}

/// Plays the first turns and then the last on a new inbox of replica 1 among 1, 2 and 3, once this many operations wait there, none of
/// which is ready.
pub fn on_new(rt: &impl Abort, alloc: Global, stuck: u64, first: &[Turn], second: &[Turn])
    requires { stuck < 10000 }
{
    let document = Document::new(alloc, &[1, 2, 3]).expect(rt, "a document");
    let mut inbox = Inbox::new(alloc);
    fill_and_play(rt, alloc, &mut inbox, &document, stuck, first, second)
}
