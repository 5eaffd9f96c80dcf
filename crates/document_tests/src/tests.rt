//! Documents before their first entry, and as the operations of peers leave them.

mod checks;
mod cut_glances;
mod glances;
mod newcomers;
mod of_tree;
mod playing;
mod refused_memory;

use cursor::{Place, Tag};
use document::Document;
use fixtures::{Pair, id_of};
use ids::{NamedVector, Refusal, ReplicaId};
use operation::{Mutation, Op, Shared};
use playing::Does::{Assign, Insert};
use playing::Hop::{Field, Head, Item};
use playing::Step::{Get, Idx};
use playing::Turn::{Conflicts, Items, Keys, Values};
use playing::Value::{List, Map, Whole};
use playing::{Hop, Sent, Turn, on_new};
use std::alloc::Global;
use std::process::Abort;
use std::test::Fail;
use value::Val;

/// The operation 1@1 that assigns an empty map at the root, with the vector of all that was applied.
fn first_op(rt: &impl Abort, alloc: Global, document: &Document) -> Shared<Op> {
    let op = Op {
        id: id_of((1, 1)).expect(rt, "an id"),
        deps: NamedVector::of(alloc, document.applied().ids()).expect(rt, "not refused"),
        place: Place::doc(alloc),
        mutation: Mutation::Assign(Val::EmptyMap),
    };
    Shared::new(alloc, op).expect(rt, "memory")
}

#[test]
fn new_documents_are_empty(rt: HostRuntime) {
    let document = Document::new(rt.alloc(), &[2, 1]).expect(&rt, "a document");
    assert_eq!(rt; document.table().at(0), ReplicaId::new(1));
    assert_eq!(rt; document.table().at(1), ReplicaId::new(2));
    let applied = document.applied();
    assert_eq!(rt;
        (applied.greatest(), applied.ids().len(), document.len()),
        (0, 0, 0)
    );
    assert_eq!(rt; document.into_entries().len(), 0);
}

/// How many replicas the table of a new document with these members has.
fn width(alloc: Global, members: &[u32]) -> Result<usize, Refusal> {
    let document = Document::new(alloc, members)?;
    Ok(document.table().len())
}

#[test]
fn members_are_within_limits(rt: HostRuntime) {
    for (members, want) in [
        ([1, 2].as_slice(), Ok(2)),
        ([4_294_967_295, 1].as_slice(), Ok(2)),
        ([0, 1].as_slice(), Err(Refusal::BadConfig)),
        ([3, 3].as_slice(), Err(Refusal::BadConfig)),
        ([].as_slice(), Err(Refusal::BadConfig)),
    ] {
        assert_eq!(rt; width(rt.alloc(), members), want, "{members:?}");
    }
}

/// Reserves that operation twice.
fn reserve_twice(rt: &impl Abort, alloc: Global, document: &mut Document) {
    let op = first_op(rt, alloc, document);
    document.reserve(alloc, &op).expect(rt, "memory");
    document.reserve(alloc, &op).expect(rt, "memory");
}

#[test]
fn taking_memory_changes_no_content(rt: HostRuntime) {
    let mut document = Document::new(rt.alloc(), &[1, 2]).expect(&rt, "a document");
    reserve_twice(&rt, rt.alloc(), &mut document);
    assert_eq!(rt; (document.len(), document.applied().greatest()), (0, 0));
}

/// Inserts a map into a list, and writes a number at a key of it.
#[test]
fn a_map_stands_in_a_list(rt: HostRuntime) -> Result<(), Fail> {
    const HEAD: &[Hop] = &[Field("l"), Head];
    const WITHIN: &[Hop] = &[Field("l"), Item((2, 1)), Field("t")];
    const OPS: &[Sent] = &[
        ((1, 1), &[0, 0, 0], &[Field("l")], Assign(List)),
        ((2, 1), &[1, 0, 0], HEAD, Insert(Map)),
        ((3, 1), &[2, 0, 0], WITHIN, Assign(Whole(7))),
    ];
    const IN_ITEM: &[(Pair, Tag)] = &[((2, 1), Tag::Map), ((3, 1), Tag::Map)];
    const IN_LIST: &[(Pair, Tag)] = &[
        ((1, 1), Tag::List),
        ((2, 1), Tag::List),
        ((3, 1), Tag::List),
    ];
    const WANTED: &[Turn] = &[
        Items(&[Get("l")], &[(2, 1)]),
        Keys(&[Get("l"), Idx(1)], &["t"]),
        Conflicts(&[Get("l"), Idx(1)], IN_ITEM),
        Conflicts(&[Get("l")], IN_LIST),
        Values(&[Get("l"), Idx(1), Get("t")], &[((3, 1), Whole(7))]),
    ];
    on_new(&rt, rt.alloc(), OPS, WANTED)
}
