//! What `reserve` leaves unchanged, and what may follow it.

use super::playing::Does::{Assign, Delete, Insert};
use super::playing::Hop::{Field, Head, Item};
use super::playing::Step::{Get, Idx};
use super::playing::Turn::{Conflicts, Items, Keys, Reserve, Take, Values};
use super::playing::Value::{List, Map, Text};
use super::playing::{Hop, Sent, Turn, empty, on_new, play, reserve_alone};
use super::*;

const LIST: &[Hop] = &[Field("list")];

const HEAD: &[Hop] = &[Field("list"), Head];

const EGGS: &[Hop] = &[Field("list"), Item((2, 1))];

const NOTE: &[Hop] = &[Field("note")];

const MORE: &[Hop] = &[Field("more")];

/// A list with eggs, and a note.
const GROCERIES: &[Sent] = &[
    ((1, 1), &[], LIST, Assign(List)),
    ((2, 1), &[1], HEAD, Insert(Text("eggs"))),
    ((3, 1), &[2], NOTE, Assign(Text("today"))),
];

/// Everything that the groceries hold beneath the root.
const HELD: &[Turn] = &[
    Items(&[Get("list")], &[(2, 1)]),
    Values(&[Get("list"), Idx(1)], &[((2, 1), Text("eggs"))]),
    Values(&[Get("note")], &[((3, 1), Text("today"))]),
    Conflicts(&[Get("note")], &[((3, 1), Tag::Reg)]),
    Conflicts(&[Get("list")], &[((1, 1), Tag::List), ((2, 1), Tag::List)]),
];

/// An operation of each form, that could follow the groceries.
const FORMS: &[Sent] = &[
    (
        (4, 2),
        &[3],
        &[Field("more"), Field("deep")],
        Assign(Text("soon")),
    ),
    ((4, 2), &[3], NOTE, Assign(Map)),
    ((4, 2), &[3], MORE, Assign(List)),
    ((4, 2), &[3], HEAD, Insert(Text("milk"))),
    ((4, 2), &[3], EGGS, Insert(Text("ham"))),
    ((4, 2), &[3], NOTE, Delete),
];

/// Reserves an operation twice, and each time asserts everything that the groceries hold.
fn assert_keeps(rt: &impl Abort, alloc: Global, document: &mut Document, form: Sent) {
    for _ in 0..2 {
        reserve_alone(rt, alloc, document, form).expect(rt, "not refused");
        play(rt, alloc, document, &[], HELD).expect(rt, "not refused");
        play(rt, alloc, document, &[], &[Keys(&[], &["list", "note"])]).expect(rt, "not refused");
    }
}

/// Reserves each form, on one document.
fn assert_keeps_all(rt: &impl Abort, alloc: Global, document: &mut Document) {
    play(rt, alloc, document, GROCERIES, &[]).expect(rt, "not refused");
    for form in FORMS {
        assert_keeps(rt, alloc, document, *form);
    }
}

#[test]
fn reserves_keep_the_content(rt: HostRuntime) {
    let mut document = empty(rt.alloc(), &[1, 2, 3]).expect(&rt, "not refused");
    assert_keeps_all(&rt, rt.alloc(), &mut document);
}

/// Makes the groceries, reserves a form, and plays the next turns and then the last.
fn take_after(
    rt: &impl Abort,
    alloc: Global,
    document: &mut Document,
    form: Sent,
    next: &[Turn],
    last: &[Turn],
) {
    play(rt, alloc, document, GROCERIES, &[]).expect(rt, "not refused");
    reserve_alone(rt, alloc, document, form).expect(rt, "not refused");
    play(rt, alloc, document, &[], next).expect(rt, "not refused");
    play(rt, alloc, document, &[], last).expect(rt, "not refused")
}

/// The same after each form, each time on a new document.
fn after_each(rt: &impl Abort, alloc: Global, next: &[Turn], last: &[Turn]) {
    for form in FORMS {
        let mut document = empty(alloc, &[1, 2, 3]).expect(rt, "not refused");
        take_after(rt, alloc, &mut document, *form, next, last);
    }
}

#[test]
fn another_operation_follows_each_reserve(rt: HostRuntime) {
    const LATE: &[Turn] = &[
        Take(((4, 1), &[3], &[Field("other")], Assign(Text("late")))),
        Values(&[Get("other")], &[((4, 1), Text("late"))]),
        Keys(&[], &["list", "note", "other"]),
    ];
    after_each(&rt, rt.alloc(), LATE, HELD)
}

/// Assigns a map, the only thing that is then present there.
const MAP: &[Turn] = &[
    Take(((4, 1), &[3], MORE, Assign(Map))),
    Values(&[Get("more")], &[]),
    Conflicts(&[Get("more")], &[((4, 1), Tag::Map)]),
];

#[test]
fn a_scalar_of_an_earlier_reserve_is_not_written(rt: HostRuntime) {
    after_each(&rt, rt.alloc(), MAP, &[])
}

#[test]
fn the_first_reserved_is_applied_later(rt: HostRuntime) -> Result<(), Fail> {
    const MILK: Sent = ((4, 2), &[3], HEAD, Insert(Text("milk")));
    const TURNS: &[Turn] = &[
        Reserve(MILK),
        Take(((4, 1), &[3], EGGS, Insert(Text("ham")))),
        Items(&[Get("list")], &[(2, 1), (4, 1)]),
        Take(MILK),
        Items(&[Get("list")], &[(4, 2), (2, 1), (4, 1)]),
    ];
    on_new(&rt, rt.alloc(), GROCERIES, TURNS)
}
