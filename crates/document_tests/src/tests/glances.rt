//! Documents at a glance.

use super::playing::Does::{Assign, Delete, Insert};
use super::playing::Hop::{Field, Head, Item};
use super::playing::Step::{Get, Idx};
use super::playing::Turn::{Glance, Take};
use super::playing::Value::{List, Map, Text, Whole};
use super::playing::{Hop, Sent, Step, Turn, Value, are_values, expr, on_new};
use document::{Document, Hop as Entrance, Kinds, Row};
use fixtures::{Pair, pair_of};
use ids::Refusal;
use std::alloc::Global;
use std::process::Abort;
use std::test::Fail;

/// How an element is entered.
#[derive(Clone, Copy)]
pub enum Entered<'a> {
    /// It is the one that is asked about.
    Asked,
    Key(&'a str),
    Id(Pair),
}

/// One element: its depth, how it is entered, which kinds of value are present, its values, and whether more is beneath it.
pub type Shown<'a> = (usize, Entered<'a>, Kinds, &'a [(Pair, Value<'a>)], bool);

/// What is asked: where, to which depth, and for how many elements.
pub type Asked<'a> = (&'a [Step<'a>], usize, usize);

const NOTHING: Kinds = Kinds {
    register: false,
    map: false,
    list: false,
};

const VALUE: Kinds = Kinds {
    register: true,
    map: false,
    list: false,
};

const MAP: Kinds = Kinds {
    register: false,
    map: true,
    list: false,
};

const LIST: Kinds = Kinds {
    register: false,
    map: false,
    list: true,
};

const VALUE_AND_MAP: Kinds = Kinds {
    register: true,
    map: true,
    list: false,
};

fn is_entered(entered: &Option<Entrance>, wanted: Entered) -> bool {
    match (entered, wanted) {
        (None, Entered::Asked) => true,
        (Some(Entrance::Field(key)), Entered::Key(wanted)) => key.as_str() == wanted,
        (Some(Entrance::Item(id)), Entered::Id(pair)) => pair_of(*id) == pair,
        _ => false,
    }
}

fn is_row(row: &Row, wanted: Shown) -> bool {
    let (depth, entered, kinds, values, is_cut) = wanted;
    is_entered(&row.entered, entered)
        && are_values(&row.values, values)
        && (row.depth, row.kinds, row.is_cut) == (depth, kinds, is_cut)
}

fn are_rows(rows: &[Row], wanted: &[Shown]) -> bool {
    for (row, wanted) in rows.iter().zip(wanted) {
        if !is_row(row, *wanted) {
            return false;
        }
    }
    rows.len() == wanted.len()
}

/// What is seen at a glance, or `NoMemory` if an allocation is refused.
fn try_glance(
    alloc: Global,
    document: &Document,
    asked: Asked,
) -> Result<document::Glance, Refusal> {
    let (path, depth, elements) = asked;
    document.glance(alloc, &expr(alloc, path)?, depth, elements)
}

/// Asserts what is seen at a glance, at the second attempt if an allocation of the first is refused.
pub fn assert_glance(
    rt: &impl Abort,
    alloc: Global,
    document: &Document,
    asked: Asked,
    rows: &[Shown],
    is_cut: bool,
) -> Result<(), Refusal> {
    let glance = match try_glance(alloc, document, asked) {
        Err(Refusal::NoMemory) => try_glance(alloc, document, asked)?,
        answer => answer?,
    };
    assert!(rt; are_rows(&glance.rows, rows), "{:?}", glance.rows);
    assert_eq!(rt; glance.is_cut, is_cut);
    Ok(())
}

/// A map with a list of three texts.
const SHOPPING: &[Sent] = &[
    ((1, 1), &[0, 0, 0], &[], Assign(Map)),
    ((2, 1), &[1, 0, 0], &[Field("shopping")], Assign(List)),
    (
        (3, 1),
        &[2, 0, 0],
        &[Field("shopping"), Head],
        Insert(Text("eggs")),
    ),
    (
        (4, 1),
        &[3, 0, 0],
        &[Field("shopping"), Head],
        Insert(Text("cheese")),
    ),
    (
        (5, 1),
        &[4, 0, 0],
        &[Field("shopping"), Item((3, 1))],
        Insert(Text("milk")),
    ),
];

const ALL: &[Shown] = &[
    (0, Entered::Asked, MAP, &[], false),
    (1, Entered::Key("shopping"), LIST, &[], false),
    (
        2,
        Entered::Id((4, 1)),
        VALUE,
        &[((4, 1), Text("cheese"))],
        false,
    ),
    (
        2,
        Entered::Id((3, 1)),
        VALUE,
        &[((3, 1), Text("eggs"))],
        false,
    ),
    (
        2,
        Entered::Id((5, 1)),
        VALUE,
        &[((5, 1), Text("milk"))],
        false,
    ),
];

#[test]
fn so_many_elements(rt: HostRuntime) -> Result<(), Fail> {
    const THREE: &[Shown] = &[
        (0, Entered::Asked, MAP, &[], false),
        (1, Entered::Key("shopping"), LIST, &[], false),
        (
            2,
            Entered::Id((4, 1)),
            VALUE,
            &[((4, 1), Text("cheese"))],
            false,
        ),
    ];
    const TURNS: &[Turn] = &[
        Glance((&[], 32, 100), ALL, false),
        Glance((&[], 2, 5), ALL, false),
        Glance((&[], 32, 3), THREE, true),
        Glance((&[], 32, 0), &[], true),
    ];
    on_new(&rt, rt.alloc(), SHOPPING, TURNS)
}

#[test]
fn so_deep(rt: HostRuntime) -> Result<(), Fail> {
    const ONE: &[Shown] = &[
        (0, Entered::Asked, MAP, &[], false),
        (1, Entered::Key("shopping"), LIST, &[], true),
    ];
    const NONE: &[Shown] = &[(0, Entered::Asked, MAP, &[], true)];
    const EGGS: &[Shown] = &[(0, Entered::Asked, VALUE, &[((3, 1), Text("eggs"))], false)];
    const TURNS: &[Turn] = &[
        Glance((&[], 1, 100), ONE, false),
        Glance((&[], 0, 100), NONE, false),
        Glance((&[Get("shopping"), Idx(2)], 0, 1), EGGS, false),
    ];
    on_new(&rt, rt.alloc(), SHOPPING, TURNS)
}

/// Two values at one key, whose writers hadn't seen each other's.
#[test]
fn conflicts_are_shown_whole(rt: HostRuntime) -> Result<(), Fail> {
    const OPS: &[Sent] = &[
        ((1, 1), &[0, 0, 0], &[Field("key")], Assign(Text("A"))),
        ((2, 1), &[1, 0, 0], &[Field("key")], Assign(Text("B"))),
        ((2, 2), &[1, 0, 0], &[Field("key")], Assign(Text("C"))),
    ];
    const BOTH: &[(Pair, Value)] = &[((2, 1), Text("B")), ((2, 2), Text("C"))];
    const ROWS: &[Shown] = &[
        (0, Entered::Asked, MAP, &[], false),
        (1, Entered::Key("key"), VALUE, BOTH, false),
    ];
    on_new(&rt, rt.alloc(), OPS, &[Glance((&[], 1, 2), ROWS, false)])
}

/// A map next to a value, also after everything in the map is deleted.
#[test]
fn kinds_stand_side_by_side(rt: HostRuntime) -> Result<(), Fail> {
    const WITHIN: &[Hop] = &[Field("a"), Field("b")];
    const OPS: &[Sent] = &[
        ((1, 1), &[0, 0, 0], &[Field("a")], Assign(Text("x"))),
        ((2, 1), &[1, 0, 0], WITHIN, Assign(Whole(1))),
    ];
    const FULL: &[Shown] = &[
        (0, Entered::Asked, MAP, &[], false),
        (
            1,
            Entered::Key("a"),
            VALUE_AND_MAP,
            &[((1, 1), Text("x"))],
            false,
        ),
        (2, Entered::Key("b"), VALUE, &[((2, 1), Whole(1))], false),
    ];
    const EMPTIED: &[Shown] = &[
        (0, Entered::Asked, MAP, &[], false),
        (
            1,
            Entered::Key("a"),
            VALUE_AND_MAP,
            &[((1, 1), Text("x"))],
            false,
        ),
    ];
    const TURNS: &[Turn] = &[
        Glance((&[], 9, 9), FULL, false),
        Take(((3, 1), &[2, 0, 0], WITHIN, Delete)),
        Glance((&[], 9, 9), EMPTIED, false),
        Glance((&[], 1, 9), EMPTIED, false),
    ];
    on_new(&rt, rt.alloc(), OPS, TURNS)
}

#[test]
fn nothing_at_a_glance(rt: HostRuntime) -> Result<(), Fail> {
    const ROWS: &[Shown] = &[(0, Entered::Asked, NOTHING, &[], false)];
    on_new(&rt, rt.alloc(), &[], &[Glance((&[], 32, 9), ROWS, false)])
}
