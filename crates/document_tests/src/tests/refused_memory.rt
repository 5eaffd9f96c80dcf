//! A call whose allocation is refused leaves the document as it was, and answers as usual when it is called again.
//!
//! Run with each allocation refused in turn (`tests/refused_memory.sh`): a refused call is made once more, so each run passes.

use super::playing::Does::{Assign, Delete, Insert};
use super::playing::Hop::{Field, Head, Item};
use super::playing::Step::{Get, Idx};
use super::playing::Turn::{Conflicts, Items, Keys, Missing, Table, Take, Values, Vector};
use super::playing::Value::{List, Map, Text};
use super::playing::{Hop, Sent, Turn, on_new};
use super::*;
use cursor::Tag;
use std::test::Fail;

const X: &[Hop] = &[Field("l"), Item((2, 1))];

/// Makes a list, and inserts x and y after one another.
const LIST: &[Sent] = &[
    ((1, 1), &[0, 0, 0], &[Field("l")], Assign(List)),
    ((2, 1), &[1, 0, 0], &[Field("l"), Head], Insert(Text("x"))),
    ((3, 1), &[2, 0, 0], X, Insert(Text("y"))),
];

#[test]
fn lists_grow(rt: HostRuntime) -> Result<(), Fail> {
    const TURNS: &[Turn] = &[
        Items(&[Get("l")], &[(2, 1), (3, 1)]),
        Take(((4, 1), &[3, 0, 0], X, Delete)),
        Items(&[Get("l")], &[(3, 1)]),
        Values(&[Get("l"), Idx(1)], &[((3, 1), Text("y"))]),
    ];
    on_new(&rt, rt.alloc(), LIST, TURNS)
}

#[test]
fn items_are_entered(rt: HostRuntime) -> Result<(), Fail> {
    const WITHIN: &[Hop] = &[Field("l"), Item((3, 1)), Field("f")];
    const TURNS: &[Turn] = &[
        Take(((4, 1), &[3, 0, 0], WITHIN, Assign(Text("z")))),
        Keys(&[], &["l"]),
        Items(&[Get("l")], &[(2, 1), (3, 1)]),
    ];
    on_new(&rt, rt.alloc(), LIST, TURNS)
}

const DEEP: &[Hop] = &[Field("m"), Field("a"), Field("b")];

/// Makes a map, and writes a text two fields below.
const MAP: &[Sent] = &[
    ((1, 1), &[0, 0, 0], &[Field("m")], Assign(Map)),
    ((2, 1), &[1, 0, 0], DEEP, Assign(Text("B"))),
];

#[test]
fn maps_grow(rt: HostRuntime) -> Result<(), Fail> {
    const WANTED: &[Turn] = &[
        Keys(&[Get("m")], &["a"]),
        Values(&[Get("m"), Get("a"), Get("b")], &[((2, 1), Text("B"))]),
    ];
    on_new(&rt, rt.alloc(), MAP, WANTED)
}

#[test]
fn maps_are_emptied(rt: HostRuntime) -> Result<(), Fail> {
    const TURNS: &[Turn] = &[
        Take(((3, 1), &[2, 0, 0], &[Field("m")], Delete)),
        Keys(&[], &[]),
    ];
    on_new(&rt, rt.alloc(), MAP, TURNS)
}

#[test]
fn both_kinds_stand(rt: HostRuntime) -> Result<(), Fail> {
    const BOTH: &[Sent] = &[
        ((1, 1), &[0, 0, 0], &[Field("k")], Assign(Map)),
        ((1, 2), &[0, 0, 0], &[Field("k")], Assign(List)),
    ];
    const WANTED: &[Turn] = &[
        Conflicts(&[Get("k")], &[((1, 1), Tag::Map), ((1, 2), Tag::List)]),
        Missing(&[0, 0, 0], &[(1, 1), (1, 2)]),
        Vector(&[(1, 1), (1, 2)]),
    ];
    on_new(&rt, rt.alloc(), BOTH, WANTED)
}

/// Two nonmembers write at the key at which a member wrote: 9, which has seen nothing, and then 5, which has seen the member's write.
#[test]
fn newcomers_join(rt: HostRuntime) -> Result<(), Fail> {
    const K: &[Hop] = &[Field("k")];
    const OPS: &[Sent] = &[
        ((1, 2), &[0, 0, 0], K, Assign(Text("A"))),
        ((1, 9), &[0, 0, 0], K, Assign(Text("B"))),
        ((2, 5), &[0, 1, 0], K, Assign(Text("C"))),
    ];
    const TURNS: &[Turn] = &[
        Table(&[1, 2, 3, 9, 5]),
        Values(&[Get("k")], &[((1, 9), Text("B")), ((2, 5), Text("C"))]),
        Vector(&[(1, 2), (2, 5), (1, 9)]),
        Missing(&[0, 1, 0, 0, 0, 0, 0, 0, 0], &[(1, 9), (2, 5)]),
        Missing(&[0, 0, 0, 0, 2, 0, 0, 0, 1], &[(1, 2)]),
        Take(((3, 9), &[0, 1, 0, 0, 2, 0, 0, 0, 1], K, Delete)),
        Table(&[1, 2, 3, 9, 5]),
        Values(&[Get("k")], &[]),
    ];
    on_new(&rt, rt.alloc(), OPS, TURNS)
}
