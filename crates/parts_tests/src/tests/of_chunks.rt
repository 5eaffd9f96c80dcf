//! The tests of `chunks`: lists of one to many chunks, compared with vectors that take the same.

use chunks::Chunks;
use std::alloc::Global;
use std::process::Abort;

/// How many numbers come, and how far each goes behind the one before it, wrapping at the end.
type Row = (usize, usize);

/// The most numbers that a row may have.
const MOST: usize = 10_000;

/// Puts a number at a position of both.
fn put(
    rt: &impl Abort,
    numbers: &mut Chunks<usize>,
    beside: &mut Vec<usize>,
    position: usize,
    number: usize,
) {
    numbers.reserve_one().expect(rt, "memory");
    if position > numbers.len() || position > beside.len() || numbers.len() > MOST {
        panic!(rt; "no such position");
    }
    numbers.insert(position, number);
    beside.insert(position, number).expect(rt, "memory");
}

/// Puts the numbers of a row into both.
fn fill(rt: &impl Abort, numbers: &mut Chunks<usize>, beside: &mut Vec<usize>, row: &Row) {
    let (count, step) = *row;
    let mut position: usize = 0;
    for number in 0..count {
        position = position.wrapping_add(step) % (number + 1);
        put(rt, numbers, beside, position, number);
    }
}

/// Compares the items one by one, each alone and through a reader.
fn assert_items(rt: &impl Abort, numbers: &Chunks<usize>, want: &[usize]) {
    assert_eq!(rt; numbers.len(), want.len());
    let mut reader = numbers.reader();
    for (position, number) in want.iter().enumerate() {
        assert_eq!(rt; *numbers.get(position), *number, "at {position}");
        assert_eq!(rt; *reader.get(position), *number, "read at {position}");
    }
}

/// Compares a list with the vector that took the same.
fn assert_same(rt: &impl Abort, alloc: Global, row: &Row) {
    let mut numbers = Chunks::new(alloc);
    let mut want = Vec::new(alloc);
    fill(rt, &mut numbers, &mut want, row);
    assert_items(rt, &numbers, want.as_slice());
}

/// At the end, at the front, and in between: up to one chunk, one more, and many.
#[test]
fn chunks_are_the_list_of_all_inserts(rt: HostRuntime) {
    for row in [
        (0, 1),
        (1, 1),
        (512, 1),
        (513, 1),
        (3000, 1),
        (513, 0),
        (3000, 0),
        (769, 300),
        (5000, 7),
        (5000, 1999),
    ] {
        assert_same(&rt, rt.alloc(), &row);
    }
}
