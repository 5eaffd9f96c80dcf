//! The tests of `version`: vectors, and columns of ids that are compared with them.

ghost use Rattle.std.specs.Prelude.{◌≡◌, ◌<◌, length, IfOk};
ghost use Rattle.std.specs.List.{All};

use fixtures::{Pair, id_of, pair_of, vector};
use ids::{GrowingVector, Refusal};
use std::alloc::Global;
use std::process::Abort;
use version::{IdColumns, VersionVector};

/// The greatest counter, and the one after it.
fn greatest(vector: &VersionVector) -> (u64, Option<u64>) {
    (vector.greatest(), vector.successor())
}

/// A vector of this width names nothing.
fn assert_none(rt: &impl Abort, alloc: Global, width: usize) {
    let vector = VersionVector::zero(alloc, width).expect(rt, "memory");
    assert_eq!(rt; vector.width(), width);
    assert_eq!(rt; greatest(&vector), (0, Some(1)), "{width} wide");
    for index in 0..width {
        assert_eq!(rt; vector.get(index), 0, "{index} of {width}");
    }
}

#[test]
fn vectors_name_nothing_at_first(rt: HostRuntime) {
    for width in [0, 1, 64] {
        assert_none(&rt, rt.alloc(), width);
    }
}

/// Two counters that one is raised to, and its value then.
type Raised = (u64, u64, u64);

/// A vector whose last counter was raised twice.
fn raised(rt: &impl Abort, alloc: Global, width: usize, earlier: u64, later: u64) -> VersionVector
    requires { 0 < width }
    ensures { length result ≡ width }
{
    let mut vector = VersionVector::zero(alloc, width).expect(rt, "memory");
    vector.raise(width - 1, earlier);
    vector.raise(width - 1, later);
    vector
}

/// Asserts the last counter, and that there is 0 beyond it.
fn assert_last(rt: &impl Abort, vector: &VersionVector, want: u64)
    requires { 0 < length vector.now }
{
    let width = vector.width();
    let first = if width == 1 { want } else { 0 };
    assert_eq!(rt; vector.greatest(), want);
    assert_eq!(rt; vector.get(width - 1), want);
    assert_eq!(rt; vector.get(0), first);
}

/// Asserts that the greater of two counters stays, also in a copy.
fn assert_raised(rt: &impl Abort, alloc: Global, width: usize, row: &Raised)
    requires { 0 < width }
{
    let (earlier, later, want) = *row;
    let vector = raised(rt, alloc, width, earlier, later);
    assert_last(rt, &vector, want);
    let copy = vector.clone().expect(rt, "memory");
    assert_last(rt, &copy, want);
}

#[test]
fn counters_are_raised_and_never_lowered(rt: HostRuntime) {
    const ROWS: &[Raised] = &[
        (0, 0, 0),
        (0, 1, 1),
        (7, 3, 7),
        (7, 7, 7),
        (7, 8, 8),
        (8, u64::MAX, u64::MAX),
    ];
    for row in ROWS {
        assert_raised(&rt, rt.alloc(), 1, row);
        assert_raised(&rt, rt.alloc(), 64, row);
    }
}

/// The greatest counter of the vector with these counters, and the one after it.
fn greatest_of(rt: &impl Abort, alloc: Global, counters: &[u64]) -> (u64, Option<u64>) {
    let vector = vector(alloc, counters).expect(rt, "a vector");
    greatest(&vector)
}

#[test]
fn the_greatest_counter_stands_anywhere(rt: HostRuntime) {
    for counters in [[9, 2, 4], [2, 9, 4], [4, 2, 9], [9, 9, 9]] {
        let greatest = greatest_of(&rt, rt.alloc(), &counters);
        assert_eq!(rt; greatest, (9, Some(10)), "of {counters:?}");
    }
}

#[test]
fn counters_end(rt: HostRuntime) {
    for (counter, want) in [
        (4_611_686_018_427_387_903, Some(4_611_686_018_427_387_904)),
        (4_611_686_018_427_387_904, None),
        (u64::MAX, None),
    ] {
        let greatest = greatest_of(&rt, rt.alloc(), &[0, counter]);
        assert_eq!(rt; greatest, (counter, want));
    }
}

/// Asserts how the vector of zeros compares with one that names something at its last index.
fn assert_last_counts(rt: &impl Abort, none: &VersionVector, last: &VersionVector)
    requires { length none.now ≡ length last.now }
{
    let found = [none.le(last), none.le(none), last.le(last), last.le(none)];
    assert_eq!(rt; found, [true, true, true, false], "{} wide", none.width());
}

#[test]
fn the_last_counter_counts(rt: HostRuntime) {
    for width in [1, 7, 8, 9, 64] {
        let none = VersionVector::zero(rt.alloc(), width).expect(&rt, "memory");
        let last = raised(&rt, rt.alloc(), width, 0, 1);
        assert_last_counts(&rt, &none, &last);
    }
}

/// Two vectors, whether the first is at most the second, and both joined.
type Compared = ([u64; 2], [u64; 2], bool, [u64; 2]);

/// How two vectors compare, and their join.
fn compared(
    rt: &impl Abort,
    alloc: Global,
    counters: &[u64; 2],
    others: &[u64; 2],
) -> (bool, [u64; 2]) {
    let mut vector = vector(alloc, counters).expect(rt, "a vector");
    let other = fixtures::vector(alloc, others).expect(rt, "a vector");
    let is_le = vector.le(&other);
    vector.join(&other);
    if vector.width() != 2 {
        panic!(rt; "another width");
    }
    (is_le, [vector.get(0), vector.get(1)])
}

#[test]
fn vectors_compare_counter_by_counter(rt: HostRuntime) {
    const ROWS: &[Compared] = &[
        ([1, 2], [1, 2], true, [1, 2]),
        ([1, 2], [2, 1], false, [2, 2]),
        ([0, 0], [0, 5], true, [0, 5]),
        ([3, 0], [2, u64::MAX], false, [3, u64::MAX]),
    ];
    for (counters, others, want, joined) in ROWS {
        let compared = compared(&rt, rt.alloc(), counters, others);
        assert_eq!(rt; compared, (*want, *joined), "{counters:?} and {others:?}");
    }
}

/// Whether the vector of 1 and 3 covers this counter of the first replica, and of the second.
fn covers(rt: &impl Abort, alloc: Global, counter: u64) -> (bool, bool) {
    let vector = vector(alloc, &[1, 3]).expect(rt, "a vector");
    (vector.covers(0, counter), vector.covers(1, counter))
}

#[test]
fn ids_are_covered_up_to_the_counter(rt: HostRuntime) {
    for (counter, want) in [
        (0, (true, true)),
        (1, (true, true)),
        (2, (false, true)),
        (3, (false, true)),
        (4, (false, false)),
    ] {
        assert_eq!(rt; covers(&rt, rt.alloc(), counter), want, "at {counter}");
    }
}

/// The counter and the index of an id.
type Id = (u64, usize);

/// Columns with these ids, each put at the end, for a table of this width.
fn columns(alloc: Global, width: usize, ids: &[Id]) -> Result<IdColumns, Refusal>
    ensures { IfOk result (λ c. All (λ id. id.1 < width) c.ids) }
{
    let mut columns = IdColumns::new(alloc);
    for (counter, index) in ids {
        if *index >= width {
            return Err(Refusal::UnknownReplica);
        }
        columns.reserve_one()?;
        let end = columns.len();
        columns.insert(end, *counter, *index);
    }
    Ok(columns)
}

/// Asserts the ids, in order.
fn assert_ids(rt: &impl Abort, ids: &IdColumns, want: &[Id]) {
    assert_eq!(rt; ids.len(), want.len());
    for (position, id) in want.iter().enumerate() {
        assert_eq!(rt; ids.at(position), *id, "at {position}");
    }
}

/// Inserts an id at a position, if there are enough ids.
fn put(rt: &impl Abort, ids: &mut IdColumns, position: usize, id: Id) {
    ids.reserve_one().expect(rt, "memory");
    if position > ids.len() {
        panic!(rt; "no such position");
    }
    ids.insert(position, id.0, id.1);
}

#[test]
fn ids_go_where_they_are_put(rt: HostRuntime) {
    let mut ids = columns(rt.alloc(), 2, &[(2, 0), (4, 1)]).expect(&rt, "columns");
    put(&rt, &mut ids, 0, (1, 1));
    put(&rt, &mut ids, 2, (3, 0));
    put(&rt, &mut ids, 4, (5, 1));
    assert_ids(&rt, &ids, &[(1, 1), (2, 0), (3, 0), (4, 1), (5, 1)]);
}

/// Asserts which of the given ids are kept with a vector of these counters.
fn assert_kept(rt: &impl Abort, alloc: Global, given: &[Id], counters: &[u64; 2], want: &[Id]) {
    let vector = vector(alloc, counters).expect(rt, "a vector");
    let mut ids = columns(alloc, 2, given).expect(rt, "columns");
    vector.keep_uncovered(&mut ids);
    assert_ids(rt, &ids, want);
}

/// The given ids, the counters of a vector, and the ids that it doesn't cover.
type Kept<'a> = (&'a [Id], [u64; 2], &'a [Id]);

#[test]
fn covered_ids_go(rt: HostRuntime) {
    const ROWS: &[Kept] = &[
        (&[(1, 0), (3, 1), (4, 0), (5, 1)], [1, 3], &[(4, 0), (5, 1)]),
        (&[], [9, 9], &[]),
        (&[(1, 0), (1, 1)], [0, 0], &[(1, 0), (1, 1)]),
        (&[(1, 0), (1, 1)], [1, 1], &[]),
        (&[(7, 1), (2, 0), (7, 0)], [6, 7], &[(7, 0)]),
    ];
    for (given, counters, want) in ROWS {
        assert_kept(&rt, rt.alloc(), given, counters, want);
    }
}

/// The ids of the first replica with the counters from 1 to this one.
fn first_ids(rt: &impl Abort, alloc: Global, most: u64) -> IdColumns
    ensures { All (λ id. id.1 < 1) result.ids }
{
    let mut given = Vec::new(alloc);
    for counter in 1..=most {
        given.push((counter, 0)).expect(rt, "memory");
    }
    columns(alloc, 1, &given).expect(rt, "columns")
}

/// Asserts that a vector that covers all ids but the last keeps that one, and that one more goes after it.
fn assert_last_kept(rt: &impl Abort, alloc: Global, most: u64)
    requires any { 0 < most }
    requires few { most < 1000 }
{
    let vector = vector(alloc, &[most - 1]).expect(rt, "a vector");
    let mut ids = first_ids(rt, alloc, most);
    vector.keep_uncovered(&mut ids);
    assert_ids(rt, &ids, &[(most, 0)]);
    put(rt, &mut ids, 1, (most + 1, 0));
    assert_ids(rt, &ids, &[(most, 0), (most + 1, 0)]);
}

#[test]
fn columns_of_many_words(rt: HostRuntime) {
    for most in [8, 9, 63, 64, 65, 200] {
        assert_last_kept(&rt, rt.alloc(), most);
    }
}

/// A vector that is raised to these ids, one after another.
fn raised_to(rt: &impl Abort, alloc: Global, pairs: &[Pair]) -> GrowingVector {
    let mut vector = GrowingVector::new(alloc);
    for pair in pairs {
        let id = id_of(*pair).expect(rt, "an id");
        vector.reserve_one().expect(rt, "memory");
        if id.counter == 0 {
            panic!(rt; "no id of an operation");
        }
        vector.raise(id);
    }
    vector
}

/// Ids to which a vector is raised, its pairs then, and the greatest counter of these.
type Applied = (&'static [Pair], &'static [Pair], u64);

const APPLIED: [Applied; 6] = [
    (&[], &[], 0),
    (&[(3, 7)], &[(3, 7)], 3),
    (&[(3, 7), (1, 9), (2, 5)], &[(2, 5), (3, 7), (1, 9)], 3),
    (&[(1, 5), (2, 5), (4, 5)], &[(4, 5)], 4),
    (&[(4, 5), (2, 5), (1, 6)], &[(4, 5), (1, 6)], 4),
    (
        &[(1, 2), (1, 3), (1, 1), (2, 3), (5, 1)],
        &[(5, 1), (1, 2), (2, 3)],
        5,
    ),
];

fn assert_applied(rt: &impl Abort, alloc: Global, row: Applied) {
    let (raised, want, greatest) = row;
    let vector = raised_to(rt, alloc, raised);
    assert_eq!(rt; vector.ids().len(), want.len(), "{raised:?}");
    for (id, pair) in vector.ids().iter().zip(want) {
        assert_eq!(rt; pair_of(*id), *pair, "{raised:?}");
    }
    assert_eq!(rt; vector.greatest(), greatest, "{raised:?}");
}

#[test]
fn applied_ids_raise_their_replicas(rt: HostRuntime) {
    for row in APPLIED {
        assert_applied(&rt, rt.alloc(), row);
    }
}
