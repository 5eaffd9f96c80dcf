//! Documents that operations leave, with values worked out from the rules.

use super::playing::Does::{Assign, Delete, Insert};
use super::playing::Hop::{Field, Head, Item};
use super::playing::Step::{ById, Get, Idx};
use super::playing::Turn::{Conflicts, Items, Keys, Len, Reserve, Take, Values};
use super::playing::Value::{List, Map, Text};
use super::playing::{Hop, Sent, Step, Turn, on_new};
use super::*;

const SHOPPING: &[Step] = &[Get("shopping")];

const EGGS: &[Hop] = &[Field("shopping"), Item((3, 1))];

const AT_EGGS: &[Step] = &[Get("shopping"), ById((3, 1))];

/// A list with eggs, cheese at the head, and milk after the eggs.
const SHOP: &[Sent] = &[
    ((1, 1), &[], &[], Assign(Map)),
    ((2, 1), &[1], &[Field("shopping")], Assign(List)),
    (
        (3, 1),
        &[2],
        &[Field("shopping"), Head],
        Insert(Text("eggs")),
    ),
    (
        (4, 1),
        &[3],
        &[Field("shopping"), Head],
        Insert(Text("cheese")),
    ),
    ((5, 1), &[4], EGGS, Insert(Text("milk"))),
];

#[test]
fn items_stand_where_they_are_inserted(rt: HostRuntime) -> Result<(), Fail> {
    const WANTED: &[Turn] = &[
        Items(SHOPPING, &[(4, 1), (3, 1), (5, 1)]),
        Values(&[Get("shopping"), Idx(1)], &[((4, 1), Text("cheese"))]),
        Values(&[Get("shopping"), Idx(2)], &[((3, 1), Text("eggs"))]),
        Values(&[Get("shopping"), Idx(3)], &[((5, 1), Text("milk"))]),
    ];
    on_new(&rt, rt.alloc(), SHOP, WANTED)
}

const DELETE: Turn = Take(((6, 1), &[5], EGGS, Delete));

const REWRITE: Turn = Take(((6, 2), &[5], EGGS, Assign(Text("ham"))));

const HAM: Turn = Values(AT_EGGS, &[((6, 2), Text("ham"))]);

#[test]
fn deleted_items_go_and_rewritten_ones_come_back(rt: HostRuntime) -> Result<(), Fail> {
    const TURNS: &[Turn] = &[
        DELETE,
        Items(SHOPPING, &[(4, 1), (5, 1)]),
        REWRITE,
        Items(SHOPPING, &[(4, 1), (3, 1), (5, 1)]),
        HAM,
    ];
    on_new(&rt, rt.alloc(), SHOP, TURNS)
}

#[test]
fn rewritten_items_outlive_a_delete_that_saw_less(rt: HostRuntime) -> Result<(), Fail> {
    const TURNS: &[Turn] = &[
        REWRITE,
        DELETE,
        Items(SHOPPING, &[(4, 1), (3, 1), (5, 1)]),
        HAM,
    ];
    on_new(&rt, rt.alloc(), SHOP, TURNS)
}

/// Takes the operations of each row, on a new document, and then plays these turns.
fn on_each(rt: &impl Abort, alloc: Global, rows: &[&[Sent]], turns: &[Turn]) -> Result<(), Fail> {
    for row in rows {
        on_new(rt, alloc, row, turns)?;
    }
    Ok(())
}

#[test]
fn runs_of_concurrent_inserts_stay_together(rt: HostRuntime) -> Result<(), Fail> {
    const HEAD: &[Hop] = &[Field("l"), Head];
    const AT_A: &[Step] = &[Get("l"), ById((2, 2))];
    const LIST: Sent = ((1, 1), &[], &[Field("l")], Assign(List));
    const X: Sent = ((2, 1), &[1], HEAD, Insert(Text("x")));
    const Y: Sent = ((3, 1), &[2], &[Field("l"), Item((2, 1))], Insert(Text("y")));
    const A: Sent = ((2, 2), &[1], HEAD, Insert(Text("a")));
    const B: Sent = (
        (3, 2),
        &[1, 2],
        &[Field("l"), Item((2, 2))],
        Insert(Text("b")),
    );
    const ROWS: &[&[Sent]] = &[
        &[LIST, X, Y, A, B],
        &[LIST, A, B, X, Y],
        &[LIST, X, A, B, Y],
    ];
    const WANTED: &[Turn] = &[
        Items(&[Get("l")], &[(2, 2), (3, 2), (2, 1), (3, 1)]),
        Values(AT_A, &[((2, 2), Text("a"))]),
        Conflicts(AT_A, &[((2, 2), Tag::Reg)]),
    ];
    on_each(&rt, rt.alloc(), ROWS, WANTED)
}

#[test]
fn what_a_delete_did_not_see_stays(rt: HostRuntime) -> Result<(), Fail> {
    const COLORS: &[Hop] = &[Field("colors")];
    const BLUE: &[Hop] = &[Field("colors"), Field("blue")];
    const GREEN: &[Hop] = &[Field("colors"), Field("green")];
    const MAP: Sent = ((1, 1), &[], COLORS, Assign(Map));
    const SEEN: Sent = ((2, 1), &[1], BLUE, Assign(Text("#00f")));
    const GONE: Sent = ((3, 1), &[2], COLORS, Delete);
    const UNSEEN: Sent = ((3, 2), &[2], GREEN, Assign(Text("#0f0")));
    const ROWS: &[&[Sent]] = &[&[MAP, SEEN, GONE, UNSEEN], &[MAP, SEEN, UNSEEN, GONE]];
    const WANTED: &[Turn] = &[
        Keys(&[], &["colors"]),
        Keys(&[Get("colors")], &["green"]),
        Conflicts(&[Get("colors")], &[((3, 2), Tag::Map)]),
        Values(&[Get("colors"), Get("green")], &[((3, 2), Text("#0f0"))]),
    ];
    on_each(&rt, rt.alloc(), ROWS, WANTED)
}

#[test]
fn concurrent_values_stand_side_by_side(rt: HostRuntime) -> Result<(), Fail> {
    const WANTED: &[Turn] = &[
        Values(&[Get("key")], &[((2, 1), Text("B")), ((2, 2), Text("C"))]),
        Len(3),
    ];
    const ROWS: &[&[Sent]] = &[
        &[checks::A, checks::B, checks::C],
        &[checks::A, checks::C, checks::B],
    ];
    on_each(&rt, rt.alloc(), ROWS, WANTED)
}

#[test]
fn a_map_and_a_list_stand_at_one_key(rt: HostRuntime) -> Result<(), Fail> {
    const DOC: Sent = ((1, 1), &[], &[], Assign(Map));
    const MAP: Sent = ((2, 1), &[1], &[Field("k")], Assign(Map));
    const LIST: Sent = ((2, 2), &[1], &[Field("k")], Assign(List));
    const ROWS: &[&[Sent]] = &[&[DOC, MAP, LIST], &[DOC, LIST, MAP]];
    const WANTED: &[Turn] = &[Conflicts(&[Get("k")], &[((2, 1), Tag::Map), ((2, 2), Tag::List)])];
    on_each(&rt, rt.alloc(), ROWS, WANTED)
}

#[test]
fn fields_come_and_go(rt: HostRuntime) -> Result<(), Fail> {
    const SET: &[Hop] = &[Field("set")];
    const A: &[Hop] = &[Field("set"), Field("a")];
    const B: &[Hop] = &[Field("set"), Field("b")];
    const C: &[Hop] = &[Field("set"), Field("c")];
    const GO: &[Sent] = &[
        ((1, 1), &[], SET, Assign(Map)),
        ((2, 1), &[1], B, Assign(Text("b"))),
        ((3, 1), &[2], A, Assign(Text("a"))),
    ];
    // A late value comes back, survives a clear that didn't see it, and is removed by one that did.
    const TURNS: &[Turn] = &[
        Keys(&[Get("set")], &["a", "b"]),
        Take(((4, 1), &[3], A, Delete)),
        Keys(&[Get("set")], &["b"]),
        Take(((5, 1), &[4], SET, Assign(Map))),
        Keys(&[Get("set")], &[]),
        Take(((4, 2), &[3], A, Assign(Text("late")))),
        Keys(&[Get("set")], &["a"]),
        Take(((6, 1), &[5], SET, Assign(Map))),
        Keys(&[Get("set")], &["a"]),
        Values(&[Get("set"), Get("a")], &[((4, 2), Text("late"))]),
        Take(((7, 1), &[6, 4], SET, Assign(Map))),
        Keys(&[Get("set")], &[]),
        Reserve(((8, 1), &[7, 4], C, Assign(Text("c")))),
        Keys(&[Get("set")], &[]),
        Take(((8, 1), &[7, 4], B, Assign(Text("again")))),
        Keys(&[Get("set")], &["b"]),
    ];
    on_new(&rt, rt.alloc(), GO, TURNS)
}

const LETTERS: &[Hop] = &[Field("letters")];

const AT_HEAD: &[Hop] = &[Field("letters"), Head];

const AT_A: &[Hop] = &[Field("letters"), Item((2, 1))];

const SHOWN: &[Step] = &[Get("letters")];

/// A list of two items, which is cleared.
const CLEARED: &[Sent] = &[
    ((1, 1), &[], LETTERS, Assign(List)),
    ((2, 1), &[1], AT_HEAD, Insert(Text("a"))),
    ((3, 1), &[2], AT_A, Insert(Text("b"))),
    ((4, 1), &[3], LETTERS, Assign(List)),
];

#[test]
fn late_items_of_a_cleared_list_go_with_a_clear_that_saw_them(rt: HostRuntime) -> Result<(), Fail> {
    const LATE: &[Step] = &[Get("letters"), ById((2, 2))];
    // The second clear saw x, which is older than the first clear, but not c.
    const TURNS: &[Turn] = &[
        Items(SHOWN, &[]),
        Take(((2, 2), &[1], AT_HEAD, Insert(Text("x")))),
        Items(SHOWN, &[(2, 2)]),
        Values(LATE, &[((2, 2), Text("x"))]),
        Take(((5, 1), &[4, 2], AT_HEAD, Insert(Text("c")))),
        Items(SHOWN, &[(5, 1), (2, 2)]),
        Take(((5, 2), &[4, 2], LETTERS, Assign(List))),
        Items(SHOWN, &[(5, 1)]),
        Values(LATE, &[]),
        Conflicts(LATE, &[]),
        Take(((6, 1), &[5, 5], LETTERS, Assign(List))),
        Items(SHOWN, &[]),
    ];
    on_new(&rt, rt.alloc(), CLEARED, TURNS)
}

#[test]
fn late_values_at_items_of_a_cleared_list_go_with_a_clear_that_saw_them(
    rt: HostRuntime,
) -> Result<(), Fail> {
    const LATE: &[Step] = &[Get("letters"), ById((2, 1))];
    const TURNS: &[Turn] = &[
        Items(SHOWN, &[]),
        Take(((3, 2), &[2], AT_A, Assign(Text("late")))),
        Items(SHOWN, &[(2, 1)]),
        Values(LATE, &[((3, 2), Text("late"))]),
        Take(((5, 1), &[4], LETTERS, Assign(List))),
        Items(SHOWN, &[(2, 1)]),
        Take(((6, 1), &[5, 3], LETTERS, Assign(List))),
        Items(SHOWN, &[]),
        Conflicts(LATE, &[]),
    ];
    on_new(&rt, rt.alloc(), CLEARED, TURNS)
}
