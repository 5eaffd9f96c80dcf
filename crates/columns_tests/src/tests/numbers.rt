//! Numbers by id.

use super::*;
use std::alloc::Global;
use std::process::Abort;

/// An id, and its number.
type Row = (Pair, usize);

const FOUR: [Row; 4] = [((1, 1), 7), ((1, 2), 5), ((2, 1), 9), ((10, 1), 0)];

/// Puts the number of an id.
fn put(rt: &impl Abort, numbers: &mut Numbers, row: Row) {
    let id = id_of(row.0).expect(rt, "an id");
    numbers.reserve_one().expect(rt, "memory");
    numbers.put(id, row.1);
}

/// These numbers, put in this order.
fn numbers_of(rt: &impl Abort, alloc: Global, rows: &[Row]) -> Numbers {
    let mut numbers = Numbers::new(alloc);
    for row in rows {
        put(rt, &mut numbers, *row);
    }
    numbers
}

/// The number of an id.
fn get(rt: &impl Abort, numbers: &Numbers, pair: Pair) -> Option<usize> {
    let id = id_of(pair).expect(rt, "an id");
    numbers.get(&id)
}

/// Sets the number of an id that is there.
fn set(rt: &impl Abort, numbers: &mut Numbers, row: Row) {
    let id = id_of(row.0).expect(rt, "an id");
    assert!(rt; numbers.get(&id).is_some());
    numbers.set(&id, row.1);
}

/// Removes an id, and returns its number.
fn remove(rt: &impl Abort, numbers: &mut Numbers, pair: Pair) -> Option<usize> {
    let id = id_of(pair).expect(rt, "an id");
    numbers.remove(&id)
}

/// An entry as a row.
fn row_of(entry: &(OpId, usize)) -> Row {
    (pair_of(entry.0), entry.1)
}

/// Asserts the entries in order, and the number of each id.
fn assert_rows(rt: &impl Abort, numbers: &Numbers, want: &[Row]) {
    assert_eq!(rt; numbers.len(), want.len(), "of {want:?}");
    for (position, row) in want.iter().enumerate() {
        assert_eq!(rt;
            row_of(&numbers.at(position)),
            *row,
            "at {position} of {want:?}"
        );
    }
    for row in want {
        assert_eq!(rt; get(rt, numbers, row.0), Some(row.1), "of {row:?}");
    }
}

/// Asserts that none of these ids has a number.
fn assert_absent(rt: &impl Abort, numbers: &Numbers, pairs: &[Pair]) {
    for pair in pairs {
        assert_eq!(rt; get(rt, numbers, *pair), None, "of {pair:?}");
    }
}

/// Asserts where the entries begin whose ids have a greater counter than this.
fn assert_above(rt: &impl Abort, numbers: &Numbers, counter: u64, first: usize) {
    assert_eq!(rt; numbers.first_above(counter), first, "above {counter}");
}

/// Puts numbers in this order, and asserts the entries.
fn assert_put(rt: &impl Abort, alloc: Global, given: &[Row], want: &[Row]) {
    let numbers = numbers_of(rt, alloc, given);
    assert_rows(rt, &numbers, want);
    assert_absent(rt, &numbers, &[(0, 9), (1, 3), (2, 2), (9, 9), (11, 1)])
}

/// Removes an id from the first three, which had this number, and asserts what is left.
fn assert_left(rt: &impl Abort, alloc: Global, gone: Pair, number: Option<usize>, left: &[Row]) {
    let mut numbers = numbers_of(rt, alloc, &FOUR[..3]);
    assert_eq!(rt; remove(rt, &mut numbers, gone), number, "of {gone:?}");
    assert_absent(rt, &numbers, &[gone]);
    assert_rows(rt, &numbers, left)
}

#[test]
fn numbers_rise_by_id(rt: HostRuntime) {
    for given in [
        FOUR,
        [((10, 1), 0), ((2, 1), 9), ((1, 2), 5), ((1, 1), 7)],
        [((1, 2), 5), ((10, 1), 0), ((1, 1), 7), ((2, 1), 9)],
    ] {
        assert_put(&rt, rt.alloc(), &given, &FOUR);
    }
}

#[test]
fn numbers_above_a_counter(rt: HostRuntime) {
    assert_above(&rt, &Numbers::new(rt.alloc()), 0, 0);
    let numbers = numbers_of(&rt, rt.alloc(), &FOUR);
    assert_above(&rt, &numbers, 0, 0);
    assert_above(&rt, &numbers, 1, 2);
    assert_above(&rt, &numbers, 2, 3);
    assert_above(&rt, &numbers, 9, 3);
    assert_above(&rt, &numbers, 10, 4);
    assert_above(&rt, &numbers, u64::MAX, 4);
}

#[test]
fn a_put_number_replaces(rt: HostRuntime) {
    let numbers = numbers_of(&rt, rt.alloc(), &[((1, 1), 7), ((2, 1), 8), ((1, 1), 9)]);
    assert_rows(&rt, &numbers, &[((1, 1), 9), ((2, 1), 8)])
}

#[test]
fn a_set_number_replaces(rt: HostRuntime) {
    let mut numbers = numbers_of(&rt, rt.alloc(), &FOUR);
    set(&rt, &mut numbers, ((1, 2), 6));
    set(&rt, &mut numbers, ((10, 1), 3));
    let [first, _, third, _] = FOUR;
    assert_rows(&rt, &numbers, &[first, ((1, 2), 6), third, ((10, 1), 3)])
}

#[test]
fn removed_numbers_are_gone(rt: HostRuntime) {
    let alloc = rt.alloc();
    let [first, second, third, _] = FOUR;
    assert_left(&rt, alloc, (1, 1), Some(7), &[second, third]);
    assert_left(&rt, alloc, (1, 2), Some(5), &[first, third]);
    assert_left(&rt, alloc, (2, 1), Some(9), &[first, second]);
    assert_left(&rt, alloc, (2, 2), None, &[first, second, third])
}
