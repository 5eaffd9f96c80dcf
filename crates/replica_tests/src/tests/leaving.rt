//! What leaves the inbox, one after another or all at once.

use super::*;

#[test]
fn the_next_one_is_a_copy_until_it_is_committed(rt: HostRuntime) -> Result<(), Fail> {
    const TURNS: &[Turn<'static>] = &[
        Turn::Deliver((1, 2), &[0, 0, 0], Writes::Delete, KEPT),
        Turn::Lengths(0, 0),
        Turn::Copy(Some((1, 2))),
        Turn::Lengths(0, 0),
        Turn::Next(Some((1, 2))),
        Turn::Next(None),
        Turn::Lengths(1, 0),
    ];
    on_new(&rt, rt.alloc(), 1, TURNS, &[(1, 2)])
}

#[test]
fn where_nothing_is_ready_nothing_leaves(rt: HostRuntime) -> Result<(), Fail> {
    const TURNS: &[Turn<'static>] = &[
        Turn::Deliver((2, 2), &[0, 0, 1], Writes::Delete, KEPT),
        Turn::Lengths(0, 0),
        Turn::Next(None),
        Turn::Lengths(0, 0),
        Turn::Drain(0, 0),
    ];
    on_new(&rt, rt.alloc(), 1, TURNS, &[])
}

#[test]
fn where_nothing_waits_nothing_leaves(rt: HostRuntime) -> Result<(), Fail> {
    const TURNS: &[Turn<'static>] = &[Turn::Next(None), Turn::Lengths(0, 0), Turn::Drain(0, 0)];
    on_new(&rt, rt.alloc(), 1, TURNS, &[])
}

/// Delivers the smaller of two operations that don't depend on each other.
const SMALLER: Turn<'static> = Turn::Deliver((1, 2), &[0, 0, 0], Writes::Delete, KEPT);

/// Delivers the greater one.
const GREATER: Turn<'static> = Turn::Deliver((1, 3), &[0, 0, 0], Writes::Delete, KEPT);

/// The smaller one first.
const RISING: &[Turn<'static>] = &[SMALLER, Turn::Lengths(0, 0), GREATER, Turn::Lengths(0, 0)];

/// The greater one first.
const FALLING: &[Turn<'static>] = &[GREATER, Turn::Lengths(0, 0), SMALLER, Turn::Lengths(0, 0)];

#[test]
fn the_smallest_leaves_first(rt: HostRuntime) -> Result<(), Fail> {
    const TURNS: &[Turn<'static>] = &[
        Turn::Next(Some((1, 2))),
        Turn::Next(Some((1, 3))),
        Turn::Next(None),
        Turn::Lengths(2, 0),
    ];
    const HISTORY: &[Pair] = &[(1, 2), (1, 3)];
    on_new_after(&rt, rt.alloc(), 1, RISING, TURNS, HISTORY)?;
    on_new_after(&rt, rt.alloc(), 1, FALLING, TURNS, HISTORY)
}

#[test]
fn drains_append_by_rising_id(rt: HostRuntime) -> Result<(), Fail> {
    const TURNS: &[Turn<'static>] = &[Turn::Drain(2, 0)];
    const HISTORY: &[Pair] = &[(1, 2), (1, 3)];
    on_new_after(&rt, rt.alloc(), 1, RISING, TURNS, HISTORY)?;
    on_new_after(&rt, rt.alloc(), 1, FALLING, TURNS, HISTORY)
}
