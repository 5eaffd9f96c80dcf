//! Replicas that aren't members: they join the table behind the members, each with its first operation, up to 256 in all.

use super::playing::Does::{Assign, Delete, Insert};
use super::playing::Hop::{Field, Head, Item};
use super::playing::Step::Get;
use super::playing::Turn::{Check, Items, Len, Table, Take, Values, Vector, Waits};
use super::playing::Value::{List, Text, Whole};
use super::playing::{Hop, Sent, Turn, on_new_of, play, take};
use super::*;
use std::process::Abort;

const K: &[Hop] = &[Field("k")];

const L: &[Hop] = &[Field("l")];

const HEAD: &[Hop] = &[Field("l"), Head];

#[test]
fn a_newcomer_stands_behind_the_members(rt: HostRuntime) -> Result<(), Fail> {
    const OPS: &[Sent] = &[
        ((1, 5), &[], K, Assign(Whole(1))),
        ((1, 2), &[], K, Assign(Whole(2))),
    ];
    const TURNS: &[Turn] = &[
        Table(&[5, 2]),
        Values(&[Get("k")], &[((1, 2), Whole(2)), ((1, 5), Whole(1))]),
        Vector(&[(1, 2), (1, 5)]),
        Take(((2, 5), &[0, 1, 0, 0, 1], K, Assign(Whole(3)))),
        Values(&[Get("k")], &[((2, 5), Whole(3))]),
        Vector(&[(1, 2), (2, 5)]),
        Table(&[5, 2]),
    ];
    on_new_of(&rt, rt.alloc(), &[5], OPS, TURNS)
}

/// The item with the greater id comes first, though its replica has the smaller index.
#[test]
fn ids_order_items_and_indices_do_not(rt: HostRuntime) -> Result<(), Fail> {
    const OPS: &[Sent] = &[
        ((1, 5), &[], L, Assign(List)),
        ((2, 5), &[0, 0, 0, 0, 1], HEAD, Insert(Whole(1))),
        ((2, 2), &[0, 0, 0, 0, 1], HEAD, Insert(Whole(2))),
    ];
    const TURNS: &[Turn] = &[Table(&[5, 2]), Items(&[Get("l")], &[(2, 5), (2, 2)])];
    on_new_of(&rt, rt.alloc(), &[5], OPS, TURNS)
}

#[test]
fn newcomers_stand_in_the_order_of_their_first_operations(rt: HostRuntime) -> Result<(), Fail> {
    const OPS: &[Sent] = &[
        ((1, 8), &[], K, Assign(Text("A"))),
        ((1, 3), &[], K, Assign(Text("B"))),
        ((2, 8), &[0, 0, 1, 0, 0, 0, 0, 1], K, Delete),
        ((3, 1), &[0, 0, 1, 0, 0, 0, 0, 2], K, Delete),
        ((1, 6), &[], K, Delete),
    ];
    const TURNS: &[Turn] = &[
        Table(&[4, 6, 8, 3, 1]),
        Vector(&[(3, 1), (1, 3), (1, 6), (2, 8)]),
    ];
    on_new_of(&rt, rt.alloc(), &[6, 4], OPS, TURNS)
}

#[test]
fn newcomers_are_tested_as_members_are(rt: HostRuntime) -> Result<(), Fail> {
    const OPS: &[Sent] = &[
        ((1, 5), &[], K, Assign(Whole(1))),
        ((1, 2), &[], K, Assign(Whole(2))),
    ];
    const OF_ITEM: &[Hop] = &[Field("k"), Item((1, 5))];
    const TURNS: &[Turn] = &[
        Check(
            ((2, 2), &[0, 0, 0, 0, 1], K, Delete),
            Err(Refusal::BrokenChain),
        ),
        Check(
            ((2, 3), &[0, 0, 0, 0, 1], OF_ITEM, Delete),
            Err(Refusal::BadPlace),
        ),
        Check(((2, 3), &[0, 1], K, Delete), Ok(())),
        Waits(((2, 3), &[1], K, Delete)),
        Waits(((3, 3), &[0, 2], K, Delete)),
        Table(&[5, 2]),
    ];
    on_new_of(&rt, rt.alloc(), &[5], OPS, TURNS)
}

/// A document of the members 4, 5 and 101 to 162.
fn of_many(rt: &impl Abort, alloc: Global) -> Document {
    let mut members = vec![in alloc; 4, 5].expect(rt, "memory");
    for number in 101..=162 {
        members.push(number).expect(rt, "memory");
    }
    Document::new(alloc, &members).expect(rt, "a document")
}

/// Takes 1@1001 to 1@1192.
fn fill(rt: &impl Abort, alloc: Global, document: &mut Document) {
    for number in 1001..=1192 {
        take(rt, alloc, document, ((1, number), &[], K, Delete)).expect(rt, "not refused");
    }
}

/// Takes these operations, lets 192 replicas join 64 members, and then plays these turns.
fn fill_and_play(
    rt: &impl Abort,
    alloc: Global,
    document: &mut Document,
    ops: &[Sent],
    turns: &[Turn],
) {
    play(rt, alloc, document, ops, &[]).expect(rt, "not refused");
    fill(rt, alloc, document);
    assert_eq!(rt; document.members().len(), 64);
    assert_eq!(rt; document.table().len(), 256);
    play(rt, alloc, document, &[], turns).expect(rt, "not refused")
}

/// A document of 64 members takes these operations, and 192 others join; then these turns are played.
fn on_full(rt: &impl Abort, alloc: Global, ops: &[Sent], turns: &[Turn]) {
    let mut document = of_many(rt, alloc);
    fill_and_play(rt, alloc, &mut document, ops, turns)
}

const NO_ROOM: Result<(), Refusal> = Err(Refusal::UnknownReplica);

#[test]
fn at_most_256_replicas_are_in_a_document(rt: HostRuntime) {
    const TURNS: &[Turn] = &[
        Len(192),
        Check(((1, 2000), &[], K, Delete), NO_ROOM),
        Check(((1, 3), &[], K, Delete), NO_ROOM),
        Check(((1, 101), &[], K, Delete), Ok(())),
        Check(((1, 1192), &[], K, Delete), Err(Refusal::BrokenChain)),
        Take(((1, 101), &[], K, Delete)),
        Check(((1, 2000), &[], K, Delete), NO_ROOM),
    ];
    on_full(&rt, rt.alloc(), &[], TURNS)
}

/// With each of these vectors and places, the operation of a member has a different fault.
#[test]
fn room_is_tested_first(rt: HostRuntime) {
    const OPS: &[Sent] = &[
        ((1, 5), &[], K, Delete),
        ((2, 4), &[0, 0, 0, 0, 1], K, Delete),
        ((3, 5), &[0, 0, 0, 2, 1], K, Delete),
    ];
    const NOBODYS: &[u64] = &[0, 0, 0, 0, 2];
    const OPEN: &[u64] = &[0, 0, 0, 2];
    const FIRST: &[u64] = &[0, 0, 0, 0, 1];
    const OF_ITEM: &[Hop] = &[Field("k"), Item((1, 5))];
    const TURNS: &[Turn] = &[
        Check(((3, 101), NOBODYS, K, Delete), Err(Refusal::NamesNothing)),
        Check(((3, 2000), NOBODYS, K, Delete), NO_ROOM),
        Check(((3, 101), OPEN, K, Delete), Err(Refusal::NotClosed)),
        Check(((3, 2000), OPEN, K, Delete), NO_ROOM),
        Check(((2, 101), FIRST, OF_ITEM, Delete), Err(Refusal::BadPlace)),
        Check(((2, 2000), FIRST, OF_ITEM, Delete), NO_ROOM),
    ];
    on_full(&rt, rt.alloc(), OPS, TURNS)
}
