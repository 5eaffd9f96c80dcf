//! Registers: the value of each id.

ghost use Rattle.std.specs.Prelude.{◌<◌, IfOk};
ghost use Rattle.std.specs.List.{All};

use super::*;
use fixtures::vector;
use std::alloc::Global;
use std::process::Abort;
use value::Scalar;

/// An id, and its whole number.
type Row = (Pair, i64);

const FOUR: [Row; 4] = [((1, 1), 10), ((2, 2), 20), ((3, 1), 30), ((3, 2), 40)];

/// Puts an entry, for a table of two replicas, numbered from 1.
fn put(entries: &mut Register, pair: Pair, value: Scalar) -> Result<(), Fail>
    requires { All (λ index. index < 2) entries.old.indices }
    ensures { All (λ index. index < 2) entries.new.indices }
{
    let id = id_of(pair)?;
    entries.reserve_one()?;
    let index = if pair.1 == 1 { 0 } else { 1 };
    entries.put(id, index, value);
    Ok(())
}

/// A register of whole numbers, put in this order.
fn register(alloc: Global, rows: &[Row]) -> Result<Register, Fail>
    ensures { IfOk result (λ register. All (λ index. index < 2) register.indices) }
{
    let mut register = Register::new(alloc);
    for (pair, whole) in rows {
        put(&mut register, *pair, Scalar::Whole(*whole))?;
    }
    Ok(register)
}

/// An entry as a row, if its value is a whole number.
fn row_of(id: OpId, scalar: &Scalar) -> Option<Row> {
    match scalar {
        Scalar::Whole(whole) => Some((pair_of(id), *whole)),
        _ => None,
    }
}

/// Asserts the entries of a register, in order.
fn assert_rows(rt: &impl Abort, register: &Register, want: &[Row]) {
    assert_eq!(rt; register.len(), want.len(), "of {want:?}");
    for (position, row) in want.iter().enumerate() {
        let (id, scalar) = register.at(position);
        assert_eq!(rt; row_of(id, scalar), Some(*row), "at {position}");
    }
}

/// Puts whole numbers in this order, and asserts what the register then holds.
fn assert_put(rt: &impl Abort, alloc: Global, given: &[Row], want: &[Row]) -> Result<(), Fail> {
    let register = register(alloc, given)?;
    assert_rows(rt, &register, want);
    Ok(())
}

/// Clears the four by the vector of these counters, and asserts what is left.
fn assert_left(
    rt: &impl Abort,
    alloc: Global,
    counters: [u64; 2],
    want: &[Row],
) -> Result<(), Fail> {
    let vector = vector(alloc, &counters)?;
    let mut register = register(alloc, &FOUR)?;
    register.clear(&vector);
    assert_rows(rt, &register, want);
    Ok(())
}

#[test]
fn entries_rise_by_id(rt: HostRuntime) -> Result<(), Fail> {
    let want = [((1, 1), 10), ((2, 1), 20), ((2, 2), 30), ((5, 1), 40)];
    for given in [
        want,
        [((5, 1), 40), ((2, 2), 30), ((2, 1), 20), ((1, 1), 10)],
        [((2, 2), 30), ((1, 1), 10), ((5, 1), 40), ((2, 1), 20)],
    ] {
        assert_put(&rt, rt.alloc(), &given, &want)?;
    }
    Ok(())
}

#[test]
fn a_put_of_an_id_that_is_there_replaces(rt: HostRuntime) -> Result<(), Fail> {
    assert_put(
        &rt,
        rt.alloc(),
        &[((1, 1), 10), ((2, 2), 20), ((1, 1), 30), ((2, 2), 40)],
        &[((1, 1), 30), ((2, 2), 40)],
    )
}

#[test]
fn covered_entries_go(rt: HostRuntime) -> Result<(), Fail> {
    let alloc = rt.alloc();
    assert_left(&rt, alloc, [0, 0], &FOUR)?;
    assert_left(&rt, alloc, [1, 2], &[((3, 1), 30), ((3, 2), 40)])?;
    assert_left(&rt, alloc, [3, 0], &[((2, 2), 20), ((3, 2), 40)])?;
    assert_left(&rt, alloc, [2, 3], &[((3, 1), 30)])?;
    assert_left(&rt, alloc, [9, 9], &[])
}
