//! The tests of `rings`: lists of none to several rings, compared with vectors that take the same.

use rings::Rings;
use std::alloc::Global;
use std::process::Abort;

/// Puts a number at a position of both.
fn put(
    rt: &impl Abort,
    numbers: &mut Rings<usize>,
    beside: &mut Vec<usize>,
    position: usize,
    number: usize,
) {
    numbers.reserve_one().expect(rt, "memory");
    if position > numbers.len() || position > beside.len() {
        panic!(rt; "no such position");
    }
    numbers.insert(position, number);
    beside.insert(position, number).expect(rt, "memory");
}

/// How many numbers come, and how far each goes behind the one before it, wrapping at the end.
type Row = (usize, usize);

/// Puts the numbers of a row into both.
fn fill(rt: &impl Abort, numbers: &mut Rings<usize>, beside: &mut Vec<usize>, row: &Row) {
    let (count, step) = *row;
    let mut position: usize = 0;
    for number in 0..count {
        position = position.wrapping_add(step) % (number + 1);
        put(rt, numbers, beside, position, number);
    }
}

/// Compares the items one by one.
fn assert_items(rt: &impl Abort, numbers: &Rings<usize>, want: &[usize]) {
    assert_eq!(rt; numbers.len(), want.len());
    for (position, number) in want.iter().enumerate() {
        assert_eq!(rt; *numbers.get(position), *number, "at {position}");
    }
}

/// Each run has the items from its position on, isn't empty, and ends within the list.
fn assert_runs(rt: &impl Abort, numbers: &Rings<usize>, want: &[usize]) {
    for position in 0..numbers.len() {
        let run = numbers.run(position);
        let rest = want.get(position..position + run.len());
        assert_eq!(rt; rest, Some(run), "from {position}");
        assert!(rt; !run.is_empty(), "from {position}");
    }
}

/// A ring lends one or two runs, and what is after the rings one: this many items before the next run.
fn assert_lengths(rt: &impl Abort, numbers: &Rings<usize>, rows: &[(usize, usize)]) {
    for (position, want) in rows {
        assert!(rt; *position < numbers.len());
        assert_eq!(rt; numbers.run(*position).len(), *want, "from {position}");
    }
}

#[test]
fn items_are_lent_in_runs(rt: HostRuntime) {
    let mut numbers = Rings::new(rt.alloc());
    let mut beside = Vec::new(rt.alloc());
    fill(&rt, &mut numbers, &mut beside, &(4200, 1));
    assert_lengths(
        &rt,
        &numbers,
        &[
            (0, 2048),
            (2047, 1),
            (2048, 2048),
            (4095, 1),
            (4096, 104),
            (4199, 1),
        ],
    );
    // Three more at the front: each ring begins three slots before the end of its memory, and wraps around.
    for _ in 0..3 {
        put_next(&rt, &mut numbers, &mut beside, 0);
    }
    assert_lengths(
        &rt,
        &numbers,
        &[
            (0, 3),
            (2, 1),
            (3, 2045),
            (2047, 1),
            (2048, 3),
            (2051, 2045),
            (4096, 107),
        ],
    );
    assert_runs(&rt, &numbers, &beside);
}

/// What a row puts is where the vector has it, also as one slice, and takes one more at its front.
fn assert_filled(rt: &impl Abort, alloc: Global, row: &Row) {
    let mut numbers = Rings::new(alloc);
    let mut beside = Vec::new(alloc);
    fill(rt, &mut numbers, &mut beside, row);
    assert_items(rt, &numbers, &beside);
    numbers.make_contiguous();
    assert_eq!(rt; numbers.as_slice(), beside.as_slice());
    put(rt, &mut numbers, &mut beside, 0, 7);
    assert_items(rt, &numbers, &beside);
}

#[test]
fn items_go_where_they_are_put(rt: HostRuntime) {
    const ROWS: &[Row] = &[
        (0, 0),
        (1, 0),
        (2047, 0),
        (2048, 0),
        (2049, 0),
        (4096, 0),
        (4097, 0),
        (6400, 1),
        (6400, 2049),
        (6400, 1_000_003),
    ];
    for row in ROWS {
        assert_filled(&rt, rt.alloc(), row);
    }
}

/// Puts a number that is in neither yet at a position of both.
fn put_next(rt: &impl Abort, numbers: &mut Rings<usize>, beside: &mut Vec<usize>, position: usize) {
    let number = numbers.len();
    put(rt, numbers, beside, position, number)
}

/// Numbers are inserted at the ends and about the middle of two rings, which begin this many slots before the ends of their memory.
fn assert_halves(rt: &impl Abort, alloc: Global, turns: usize) {
    let mut numbers = Rings::new(alloc);
    let mut beside = Vec::new(alloc);
    fill(rt, &mut numbers, &mut beside, &(4096, 1));
    for _ in 0..turns {
        put_next(rt, &mut numbers, &mut beside, 0);
    }
    for position in [1, 0, 1023, 1024, 2047, 2049, 3071, 3072, 4095] {
        put_next(rt, &mut numbers, &mut beside, position);
        assert_items(rt, &numbers, &beside);
    }
}

#[test]
fn items_go_into_both_halves_of_a_ring(rt: HostRuntime) {
    // What moves ends where the memory ends, or wraps by one item, or by nearly all.
    for turns in [0, 1, 1020, 1021, 1022, 2045, 2046, 2047] {
        assert_halves(&rt, rt.alloc(), turns);
    }
}

/// Swaps two items of both, and overwrites the first of them.
fn change(rt: &impl Abort, numbers: &mut Rings<usize>, beside: &mut [usize], a: usize, b: usize) {
    assert!(rt; a < numbers.len() && b < numbers.len());
    assert!(rt; a < beside.len() && b < beside.len());
    numbers.swap(a, b);
    beside.swap(a, b);
    assert!(rt; a < numbers.len());
    assert_eq!(rt; numbers.replace(a, 7), beside[a]);
    beside[a] = 7;
}

/// Two positions of a list of three rings and a half, turned: its items change, those that three doesn't divide stay, and of these the
/// ones before the second position.
fn assert_changed(rt: &impl Abort, alloc: Global, a: usize, b: usize) {
    let mut numbers = Rings::new(alloc);
    let mut beside = Vec::new(alloc);
    fill(rt, &mut numbers, &mut beside, &(7200, 1_000_003));
    change(rt, &mut numbers, &mut beside, a, b);
    assert_items(rt, &numbers, &beside);
    numbers.retain(|number| number % 3 != 0);
    beside.retain(|number| number % 3 != 0);
    assert_items(rt, &numbers, &beside);
    numbers.truncate(b);
    beside.truncate(b);
    assert_items(rt, &numbers, &beside);
}

#[test]
fn items_change_and_go(rt: HostRuntime) {
    for (a, b) in [
        (0, 0),
        (0, 2047),
        (2400, 2048),
        (4095, 2049),
        (7199, 6400),
        (3, 7199),
    ] {
        assert_changed(&rt, rt.alloc(), a, b);
    }
}

/// The item at each of these positions is removed from both, one after another.
fn assert_removed(rt: &impl Abort, alloc: Global, positions: &[usize]) {
    let mut numbers = Rings::new(alloc);
    let mut beside = Vec::new(alloc);
    fill(rt, &mut numbers, &mut beside, &(4098, 1_000_003));
    for position in positions {
        assert!(rt; *position < numbers.len() && *position < beside.len());
        assert_eq!(rt; numbers.remove(*position), beside.remove(*position));
        assert_items(rt, &numbers, &beside);
    }
    put(rt, &mut numbers, &mut beside, 2400, 7);
    assert_items(rt, &numbers, &beside);
}

#[test]
fn items_are_removed(rt: HostRuntime) {
    // The last ring closes again once it isn't whole.
    assert_removed(&rt, rt.alloc(), &[4097, 0, 2048, 0])
}
