//! A glance that is cut is a prefix of the whole one.

use super::playing::Does::{Assign, Insert};
use super::playing::Hop::{Field, Head, Item};
use super::playing::Value::{List, Map, Text, Whole};
use super::playing::{Sent, expr, take};
use document::{Document, Glance, Row};
use std::alloc::Global;
use std::process::Abort;

/// Whether two rows show the same.
fn is_same(row: &Row, other: &Row) -> bool {
    row.entered == other.entered
        && row.values == other.values
        && (row.depth, row.kinds, row.is_cut) == (other.depth, other.kinds, other.is_cut)
}

/// Whether these rows are the first of all.
fn are_first(rows: &[Row], all: &[Row]) -> bool {
    for (row, other) in rows.iter().zip(all) {
        if !is_same(row, other) {
            return false;
        }
    }
    rows.len() <= all.len()
}

/// The whole document at a glance, with at most this many elements.
fn glance(rt: &impl Abort, alloc: Global, document: &Document, elements: usize) -> Glance {
    let root = expr(alloc, &[]).expect(rt, "not refused");
    document
        .glance(alloc, &root, 32, elements)
        .expect(rt, "a glance")
}

/// Asserts that a glance with at most this many elements shows the first of all rows.
fn assert_first(rt: &impl Abort, alloc: Global, document: &Document, all: &[Row], elements: usize) {
    let glance = glance(rt, alloc, document, elements);
    assert!(rt; are_first(&glance.rows, all), "{elements}");
    assert_eq!(rt;
        (glance.rows.len(), glance.is_cut),
        (elements.min(all.len()), elements < all.len())
    );
}

/// Asserts that there are this many rows, and that glances with fewer elements show the first of them.
fn assert_cut(rt: &impl Abort, alloc: Global, document: &Document, count: usize, bounds: &[usize]) {
    let whole = glance(rt, alloc, document, 10_000);
    assert_eq!(rt; (whole.rows.len(), whole.is_cut), (count, false));
    for elements in bounds {
        assert_first(rt, alloc, document, &whole.rows, *elements);
    }
}

/// Makes a list with the operations up to this one: each but the first makes an item, put after the one before it.
fn fill_list(rt: &impl Abort, alloc: Global, document: &mut Document, last: u64) {
    const FIRST: [Sent; 2] = [
        ((1, 1), &[0], &[Field("list")], Assign(List)),
        ((2, 1), &[1], &[Field("list"), Head], Insert(Whole(0))),
    ];
    for sent in FIRST {
        take(rt, alloc, document, sent).expect(rt, "not refused");
    }
    for number in 2..last {
        let item = [Field("list"), Item((number, 1))];
        let sent: Sent = ((number + 1, 1), &[number], &item, Insert(Whole(1)));
        take(rt, alloc, document, sent).expect(rt, "not refused");
    }
}

#[test]
fn long_lists_are_cut(rt: HostRuntime) {
    const BOUNDS: &[usize] = &[0, 1, 2, 3, 4, 513, 514, 515, 1026, 2001, 2002, 2003];
    let mut document = Document::new(rt.alloc(), &[1]).expect(&rt, "a document");
    fill_list(&rt, rt.alloc(), &mut document, 2001);
    assert_cut(&rt, rt.alloc(), &document, 2002, BOUNDS);
}

/// Makes this many fields of the root.
fn fill_map(rt: &impl Abort, alloc: Global, document: &mut Document, count: u64) {
    for number in 0..count {
        let key = format!(in alloc; "{number}").expect(rt, "memory");
        let field = [Field(&key)];
        let sent: Sent = ((number + 1, 1), &[number], &field, Assign(Whole(1)));
        take(rt, alloc, document, sent).expect(rt, "not refused");
    }
}

#[test]
fn wide_maps_are_cut(rt: HostRuntime) {
    const BOUNDS: &[usize] = &[0, 1, 2, 3, 500, 999, 1000, 1001, 1002];
    let mut document = Document::new(rt.alloc(), &[1]).expect(&rt, "a document");
    fill_map(&rt, rt.alloc(), &mut document, 1000);
    assert_cut(&rt, rt.alloc(), &document, 1001, BOUNDS);
}

#[test]
fn nested_elements_are_cut_anywhere(rt: HostRuntime) {
    const OPS: [Sent; 7] = [
        ((1, 1), &[0], &[Field("a"), Field("x")], Assign(Whole(1))),
        (
            (2, 1),
            &[1],
            &[Field("a"), Field("y"), Field("z")],
            Assign(Whole(2)),
        ),
        ((3, 1), &[2], &[Field("b")], Assign(List)),
        ((4, 1), &[3], &[Field("b"), Head], Insert(Map)),
        (
            (5, 1),
            &[4],
            &[Field("b"), Item((4, 1)), Field("k")],
            Assign(Text("v")),
        ),
        ((6, 1), &[5], &[Field("b"), Item((4, 1))], Insert(Whole(3))),
        ((7, 1), &[6], &[Field("c")], Assign(Map)),
    ];
    const BOUNDS: &[usize] = &[0, 1, 2, 3, 4, 5, 6, 7, 8, 9, 10, 11];
    let mut document = Document::new(rt.alloc(), &[1]).expect(&rt, "a document");
    for sent in OPS {
        take(&rt, rt.alloc(), &mut document, sent).expect(&rt, "not refused");
    }
    assert_cut(&rt, rt.alloc(), &document, 10, BOUNDS);
}
