//! The tests of `operation`: commands, operations and entries, and the faults that an operation has by itself.

use At::{Field, HeadOfField, ItemOfField, Root};
use Does::{Assign, Delete, Insert};
use cursor::{Expr, Place, Step};
use fixtures::{Pair, counted, id_of};
use ids::Refusal;
use operation::{Command, Entry, Mutation, Op, Shared, check_alone};
use std::alloc::Global;
use std::process::Abort;
use value::{Key, Scalar, Text, Val};

/// The place of an operation of a test. A field is the root's with the key `a`; an item has this counter and replica.
#[derive(Clone, Copy)]
enum At {
    Root,
    Field,
    HeadOfField,
    ItemOfField(u64, u32),
}

/// What an operation of a test does at its place: it assigns a map, inserts null, or deletes.
#[derive(Clone, Copy)]
enum Does {
    Assign,
    Insert,
    Delete,
}

/// The field of the root with the key `a`.
fn field(rt: &impl Abort, alloc: Global) -> Place {
    fixtures::field(alloc, "a").expect(rt, "a place")
}

/// The item with this id of the list at that field.
fn item(rt: &impl Abort, alloc: Global, pair: Pair) -> Place {
    let id = id_of(pair).expect(rt, "an id");
    let field = field(rt, alloc);
    field.item(alloc, id).expect(rt, "a place")
}

/// The head of that list.
fn head(rt: &impl Abort, alloc: Global) -> Place {
    let field = field(rt, alloc);
    field.head(alloc).expect(rt, "a place")
}

fn place(rt: &impl Abort, alloc: Global, at: At) -> Place {
    match at {
        Root => Place::doc(alloc),
        Field => field(rt, alloc),
        HeadOfField => head(rt, alloc),
        ItemOfField(counter, replica) => item(rt, alloc, (counter, replica)),
    }
}

fn mutation(does: Does) -> Mutation {
    match does {
        Assign => Mutation::Assign(Val::EmptyMap),
        Insert => Mutation::Insert(Val::Scalar(Scalar::Null)),
        Delete => Mutation::Delete,
    }
}

fn op(rt: &impl Abort, alloc: Global, pair: Pair, counters: &[u64], at: At, does: Does) -> Op {
    let id = id_of(pair).expect(rt, "an id");
    let deps = counted(alloc, counters).expect(rt, "a vector");
    let place = place(rt, alloc, at);
    Op {
        id,
        deps,
        place,
        mutation: mutation(does),
    }
}

/// An operation's id, the counters of its vector, where it stands, what it does, and what `check_alone` answers.
type Row<'a> = (Pair, &'a [u64], At, Does, Result<(), Refusal>);

/// The greatest counter that an operation may have.
const LAST: u64 = 4_611_686_018_427_387_904;

/// Operations whose counters don't follow their vectors.
const COUNTERS: &[Row] = &[
    ((1, 1), &[0, 0, 0], Field, Delete, Ok(())),
    ((1, 1), &[0, 0, 0], Root, Assign, Ok(())),
    ((8, 2), &[7, 0, 0], Field, Delete, Ok(())),
    ((9, 2), &[7, 0, 0], Field, Delete, Err(Refusal::BadCounter)),
    ((7, 2), &[7, 0, 0], Field, Delete, Err(Refusal::BadCounter)),
    ((0, 2), &[0, 0, 0], Field, Delete, Err(Refusal::BadCounter)),
    ((6, 3), &[5, 4, 0], Field, Delete, Ok(())),
    ((LAST, 3), &[0, 0, LAST - 1], Field, Delete, Ok(())),
    (
        (LAST + 1, 3),
        &[0, 0, LAST],
        Field,
        Delete,
        Err(Refusal::BadCounter),
    ),
];

/// Any replica may send, and be named by a vector or a place: no table is consulted.
const ANY_REPLICA: &[Row] = &[
    ((1, 4), &[0, 0, 0], Field, Delete, Ok(())),
    ((1, 4_294_967_295), &[0, 0, 0], Field, Delete, Ok(())),
    ((2, 1), &[0, 0, 0, 1], Field, Delete, Ok(())),
    (
        (2, 1),
        &[0, 0, 0, 0, 0, 0, 0, 0, 1],
        ItemOfField(1, 9),
        Assign,
        Ok(()),
    ),
    (
        (2, 1),
        &[0, 0, 1],
        ItemOfField(1, 9),
        Assign,
        Err(Refusal::BadPlace),
    ),
    ((9, 4), &[7, 0, 0], Field, Insert, Err(Refusal::BadCounter)),
];

/// Operations at places that their mutation isn't allowed at.
const PLACES: &[Row] = &[
    ((9, 2), &[7, 0, 0], Field, Insert, Err(Refusal::BadCounter)),
    ((1, 2), &[0, 0, 0], Field, Insert, Err(Refusal::NotInList)),
    ((1, 2), &[0, 0, 0], Root, Insert, Err(Refusal::NotInList)),
    ((1, 2), &[0, 0, 0], HeadOfField, Insert, Ok(())),
    (
        (1, 2),
        &[0, 0, 0],
        HeadOfField,
        Assign,
        Err(Refusal::BadPlace),
    ),
    (
        (1, 2),
        &[0, 0, 0],
        HeadOfField,
        Delete,
        Err(Refusal::BadPlace),
    ),
    (
        (9, 2),
        &[7, 0, 0],
        HeadOfField,
        Delete,
        Err(Refusal::BadCounter),
    ),
    ((6, 2), &[5, 0, 0], ItemOfField(5, 1), Insert, Ok(())),
    ((6, 2), &[5, 0, 0], ItemOfField(5, 1), Assign, Ok(())),
    ((6, 2), &[5, 0, 0], ItemOfField(4, 1), Delete, Ok(())),
    (
        (2, 2),
        &[1, 0, 0],
        ItemOfField(5, 1),
        Delete,
        Err(Refusal::BadPlace),
    ),
    (
        (2, 2),
        &[1, 0, 0],
        ItemOfField(1, 3),
        Insert,
        Err(Refusal::BadPlace),
    ),
    ((3, 2), &[1, 2, 0], ItemOfField(2, 2), Insert, Ok(())),
];

/// Asserts what `check_alone` answers.
fn is_answered(rt: &impl Abort, op: &Op, want: Result<(), Refusal>) {
    assert_eq!(rt; check_alone(op), want, "{op:?}");
}

/// Asserts what `check_alone` answers about the operation of a row and about its copy.
fn both_are_answered(rt: &impl Abort, alloc: Global, row: &Row) {
    let (pair, counters, at, does, want) = *row;
    let op = op(rt, alloc, pair, counters, at, does);
    is_answered(rt, &op, want);
    let copy = op.clone().expect(rt, "memory");
    is_answered(rt, &copy, want);
}

/// Asserts the answers of these rows.
fn are_answered(rt: &impl Abort, alloc: Global, rows: &[Row]) {
    for row in rows {
        both_are_answered(rt, alloc, row);
    }
}

#[test]
fn counters_follow_vectors(rt: HostRuntime) {
    are_answered(&rt, rt.alloc(), COUNTERS)
}

#[test]
fn any_replica_may_be_named(rt: HostRuntime) {
    are_answered(&rt, rt.alloc(), ANY_REPLICA)
}

#[test]
fn places_are_for_what_is_done(rt: HostRuntime) {
    are_answered(&rt, rt.alloc(), PLACES)
}

/// The second item of the list at the key `shopping`.
fn second_item(rt: &impl Abort, alloc: Global) -> Expr {
    let key = Key::new(alloc, "shopping").expect(rt, "a key");
    let steps = vec![in alloc; Step::Get(key), Step::Idx(2)].expect(rt, "memory");
    Expr::new(steps)
}

/// The text milk.
fn milk(rt: &impl Abort, alloc: Global) -> Val {
    Val::Scalar(Scalar::Text(Text::new(alloc, "milk").expect(rt, "a text")))
}

/// A command at the second item, with the text milk if it writes.
fn command(rt: &impl Abort, alloc: Global, does: Does) -> Command {
    let at = second_item(rt, alloc);
    match does {
        Assign => Command::Assign(at, milk(rt, alloc)),
        Insert => Command::InsertAfter(at, milk(rt, alloc)),
        Delete => Command::Delete(at),
    }
}

/// The mutation that such a command asks for.
fn asked(rt: &impl Abort, alloc: Global, does: Does) -> Mutation {
    match does {
        Assign => Mutation::Assign(milk(rt, alloc)),
        Insert => Mutation::Insert(milk(rt, alloc)),
        Delete => Mutation::Delete,
    }
}

/// Asserts that the command is at the second item.
fn is_at_second(rt: &impl Abort, alloc: Global, command: &Command) {
    let at = second_item(rt, alloc);
    assert_eq!(rt; command.expression().steps(), at.steps(), "{command:?}");
}

/// Asserts that the command asks for this mutation, at the second item.
fn has_parts(rt: &impl Abort, alloc: Global, command: &Command, does: Does) {
    let want = asked(rt, alloc, does);
    let mutation = command.mutation().expect(rt, "not refused");
    assert_eq!(rt; mutation, want, "{command:?}");
    is_at_second(rt, alloc, command)
}

/// Asserts that a copy of the command asks for this mutation, at the second item.
fn copy_has_parts(rt: &impl Abort, alloc: Global, command: &Command, does: Does) {
    let copy = command.clone().expect(rt, "memory");
    has_parts(rt, alloc, &copy, does)
}

/// Asserts that such a command and its copy have their parts.
fn keeps_parts(rt: &impl Abort, alloc: Global, does: Does) {
    let command = command(rt, alloc, does);
    has_parts(rt, alloc, &command, does);
    copy_has_parts(rt, alloc, &command, does)
}

#[test]
fn commands_keep_their_parts(rt: HostRuntime) {
    for does in [Assign, Insert, Delete] {
        keeps_parts(&rt, rt.alloc(), does);
    }
}

/// Asserts that such a mutation equals its copy.
fn is_as_copy(rt: &impl Abort, alloc: Global, does: Does) {
    let mutation = asked(rt, alloc, does);
    let copy = mutation.clone().expect(rt, "memory");
    assert_eq!(rt; copy, mutation);
}

#[test]
fn mutations_are_as_their_copies(rt: HostRuntime) {
    for does in [Assign, Insert, Delete] {
        is_as_copy(&rt, rt.alloc(), does);
    }
}

/// The operation 1@1, which assigns at the root.
fn first_op(rt: &impl Abort, alloc: Global) -> Op {
    op(rt, alloc, (1, 1), &[0], Root, Assign)
}

/// Whether two operations have the same id, place and mutation.
fn are_same(op: &Op, other: &Op) -> bool {
    op.id == other.id && op.place == other.place && op.mutation == other.mutation
}

/// Asserts that the entry holds the first operation.
fn has_first(rt: &impl Abort, alloc: Global, entry: &Entry) {
    let want = first_op(rt, alloc);
    assert!(rt; are_same(entry.op(), &want), "{entry:?}");
}

/// Asserts that the entry and its copy hold the first operation.
fn keeps_first(rt: &impl Abort, alloc: Global, entry: &Entry) {
    has_first(rt, alloc, entry);
    let copy = entry.clone().expect(rt, "memory");
    has_first(rt, alloc, &copy)
}

#[test]
fn own_entries_keep_their_operations(rt: HostRuntime) {
    let op = first_op(&rt, rt.alloc());
    let command = Command::Assign(Expr::root(rt.alloc()), Val::EmptyMap);
    let own = Entry::Own {
        client: 0,
        serial: 1,
        command: Shared::new(rt.alloc(), command).expect(&rt, "memory"),
        op: Shared::new(rt.alloc(), op).expect(&rt, "memory"),
    };
    keeps_first(&rt, rt.alloc(), &own)
}

#[test]
fn entries_of_peers_keep_their_operations(rt: HostRuntime) {
    let alloc = rt.alloc();
    let peer = Entry::Peer(Shared::new(alloc, first_op(&rt, alloc)).expect(&rt, "memory"));
    keeps_first(&rt, alloc, &peer)
}
