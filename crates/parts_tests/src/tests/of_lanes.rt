//! The tests of `lanes`: tables of known answers, and plain loops at widths on both sides of a block and of a word.

ghost use Rattle.std.specs.Prelude.{◌≡◌, length};

use lanes::{all_eq, all_le, count_over, greatest, is_set, mask_over, max_into};
use std::alloc::Global;
use std::process::Abort;

const WIDTHS: [usize; 9] = [0, 1, 7, 8, 9, 63, 64, 65, 256];

/// Answers about two columns: whether the first is at most the second, whether they are equal, the greatest counter of the first,
/// and how many of its counters are above those of the second.
type Said = (bool, bool, u64, usize);

/// The next state of a random number generator.
fn next(state: u64) -> u64 {
    state
        .wrapping_mul(6_364_136_223_846_793_005)
        .wrapping_add(1_442_695_040_888_963_407)
}

/// A number near 0 or near the greatest one.
fn number(state: u64) -> u64 {
    let small = state >> 62;
    let is_small = (state >> 40) & 1 == 0;
    if is_small { small } else { u64::MAX - small }
}

/// This many numbers, near 0 or near the greatest one. Equal seeds give equal numbers.
fn numbers(rt: &impl Abort, alloc: Global, width: usize, seed: u64) -> Vec<u64> {
    let mut numbers = Vec::new(alloc);
    let mut state = seed;
    for _ in 0..width {
        state = next(state);
        numbers.push(number(state)).expect(rt, "memory");
    }
    numbers
}

/// This many zeros, except for a 1 at the end.
fn one_at_end(rt: &impl Abort, alloc: Global, width: usize) -> Vec<u64> {
    let mut numbers = Vec::new(alloc);
    for index in 1..=width {
        numbers.push(u64::from(index == width)).expect(rt, "memory");
    }
    numbers
}

/// What the kernels answer.
fn said(a: &[u64], b: &[u64]) -> Said
    requires { length a.now ≡ length b.now }
{
    (all_le(a, b), all_eq(a, b), greatest(a), count_over(a, b))
}

/// What a plain loop answers.
fn said_plainly(a: &[u64], b: &[u64]) -> Said {
    let mut is_le = true;
    let mut is_eq = true;
    let mut most = 0;
    let mut count = 0_usize;
    for (x, y) in a.iter().zip(b) {
        is_le = is_le && *x <= *y;
        is_eq = is_eq && *x == *y;
        most = most.max(*x);
        count = count.wrapping_add(usize::from(*x > *y));
    }
    (is_le, is_eq, most, count)
}

fn assert_said(rt: &impl Abort, a: &[u64], b: &[u64], want: Said)
    requires { length a.now ≡ length b.now }
{
    assert_eq!(rt; said(a, b), want, "{} wide", a.len());
}

/// Asserts the answers about a column and one whose last counter is greater, if it has any.
fn assert_last(rt: &impl Abort, one: &[u64], zeros: &[u64])
    requires { length one.now ≡ length zeros.now }
{
    let is_empty = one.len() == 0;
    let (most, count) = if is_empty { (0, 0) } else { (1, 1) };
    assert_said(rt, one, zeros, (is_empty, is_empty, most, count));
    assert_said(rt, zeros, one, (true, is_empty, 0, 0));
    assert_said(rt, one, one, (true, true, most, 0));
}

#[test]
fn the_last_number_counts(rt: HostRuntime) {
    for width in WIDTHS {
        let zeros = vec![in rt.alloc(); 0; width].expect(&rt, "memory");
        let one = one_at_end(&rt, rt.alloc(), width);
        assert!(rt; one.len() == zeros.len());
        assert_last(&rt, &one, &zeros);
    }
}

/// Asserts the answers about two columns whose last counters are `a` and `b`, and whose first counter is `b`.
fn assert_last_in_block(rt: &impl Abort, a: u64, b: u64, is_le: bool) {
    let block = [b, 0, 0, 0, 0, 0, 0, a];
    let other = [b, 0, 0, 0, 0, 0, 0, b];
    let most = if is_le { b } else { a };
    let want = (is_le, false, most, usize::from(!is_le));
    assert_eq!(rt; said(&block, &other), want, "{a} and {b}");
}

/// Asserts what the last counter of such a column is raised to.
fn assert_last_raised(rt: &impl Abort, a: u64, b: u64, is_le: bool) {
    let mut block = [b, 0, 0, 0, 0, 0, 0, a];
    let other = [b, 0, 0, 0, 0, 0, 0, b];
    max_into(&mut block, &other);
    let want = if is_le { b } else { a };
    assert_eq!(rt; block[7], want, "{a} and {b}");
}

/// Asserts the answers about two columns of one counter.
fn assert_alone(rt: &impl Abort, a: u64, b: u64, is_le: bool) {
    let column = [a];
    let other = [b];
    assert_eq!(rt; all_le(&column, &other), is_le, "{a} and {b}");
}

#[test]
fn numbers_are_unsigned(rt: HostRuntime) {
    for (a, b, is_le) in [
        (0, u64::MAX, true),
        (u64::MAX, 0, false),
        (u64::MAX - 1, u64::MAX, true),
        (1 << 63, (1 << 63) - 1, false),
        ((1 << 63) - 1, 1 << 63, true),
    ] {
        assert_last_in_block(&rt, a, b, is_le);
        assert_last_raised(&rt, a, b, is_le);
        assert_alone(&rt, a, b, is_le);
    }
}

#[test]
fn greatest_of_rows(rt: HostRuntime) {
    let rows: [(&[u64], u64); 5] = [
        (&[], 0),
        (&[7], 7),
        (&[0, 4_611_686_018_427_387_904], 4_611_686_018_427_387_904),
        (&[1, 2, 3, 9, 5, 6, 7, 8, 4], 9),
        (&[1, 2, 3, 4, 5, 6, 7, 8, u64::MAX], u64::MAX),
    ];
    for (row, want) in rows {
        assert_eq!(rt; greatest(row), want, "{row:?}");
    }
}

#[test]
fn masks_of_rows(rt: HostRuntime) {
    let mut word = [u64::MAX];
    mask_over(&[5, 5, 6], &[5, 4, 6], &mut word);
    assert_eq!(rt; word, [2]);
    assert_eq!(rt; count_over(&[5, 5, 6], &[5, 4, 6]), 1);
    mask_over(&[9, 0, 0, 0, 0, 0, 0, 9, 9, 0], &[8; 10], &mut word);
    assert_eq!(rt; word, [0b1_1000_0001]);
    mask_over(&[], &[], &mut []);
}

/// Asserts the bits of a mask of these columns.
fn assert_bits(rt: &impl Abort, a: &[u64], b: &[u64], mask: &[u64]) {
    for (i, (x, y)) in a.iter().zip(b).enumerate() {
        assert_eq!(rt; is_set(mask, i), *x > *y, "at {i}");
    }
}

/// The bits past the last counter are 0, up to the end of the word.
fn assert_rest(rt: &impl Abort, counters: &[u64], mask: &[u64]) {
    for i in counters.len()..counters.len().next_multiple_of(64) {
        assert_eq!(rt; is_set(mask, i), false, "{i} of {}", counters.len());
    }
}

/// Asserts a mask that overwrites words whose bits were all 1.
fn assert_mask(rt: &impl Abort, alloc: Global, a: &[u64], b: &[u64])
    requires { length a.now ≡ length b.now }
{
    let mut mask = vec![in alloc; u64::MAX; a.len().div_ceil(64)].expect(rt, "memory");
    assert!(rt; mask.len() == a.len().div_ceil(64));
    mask_over(a, b, &mut mask);
    assert_bits(rt, a, b, &mask);
    assert_rest(rt, a, &mask);
}

/// The greater of each pair of counters.
fn greater(rt: &impl Abort, alloc: Global, a: &[u64], b: &[u64]) -> Vec<u64> {
    let mut greater = Vec::new(alloc);
    for (x, y) in a.iter().zip(b) {
        greater
            .push(if *x < *y { *y } else { *x })
            .expect(rt, "memory");
    }
    greater
}

/// Asserts what a column is raised to.
fn assert_greater(rt: &impl Abort, alloc: Global, a: &[u64], b: &[u64])
    requires { length a.now ≡ length b.now }
{
    let want = greater(rt, alloc, a, b);
    let mut raised = a.to_vec(alloc).expect(rt, "memory");
    max_into(&mut raised, b);
    assert_eq!(rt; raised, want, "{} wide", a.len());
}

/// Asserts that the kernels answer and write what plain loops do, on columns of numbers from equal or different seeds.
fn assert_agree(rt: &impl Abort, alloc: Global, width: usize, seed: u64) {
    let a = numbers(rt, alloc, width, seed);
    let b = numbers(rt, alloc, width, seed / 2);
    assert!(rt; a.len() == b.len());
    assert_eq!(rt; said(&a, &b), said_plainly(&a, &b), "{width} wide");
    assert_mask(rt, alloc, &a, &b);
    assert_greater(rt, alloc, &a, &b)
}

#[test]
fn kernels_agree_with_plain_loops(rt: HostRuntime) {
    for width in WIDTHS {
        for seed in 0..3 {
            assert_agree(&rt, rt.alloc(), width, seed);
        }
    }
}
