//! Operations of nonmembers, and operations that name nonmembers.

use super::playing::on_lone;
use super::*;

#[test]
fn what_newcomers_wrote_is_kept(rt: HostRuntime) -> Result<(), Fail> {
    const TURNS: &[Turn<'static>] = &[
        Turn::Deliver((2, 2), &[0, 0, 0, 1], Writes::Delete, KEPT),
        Turn::Drain(0, 0),
        Turn::Table(&[1, 2, 3]),
        Turn::Deliver((1, 4), &[0, 0, 0], Writes::Delete, KEPT),
        Turn::Drain(2, 0),
        Turn::Table(&[1, 2, 3, 4]),
        Turn::Deliver((1, 4), &[0, 0, 0], Writes::Delete, KNOWN),
        Turn::Deliver((2, 4), &[0, 0, 0, 0], Writes::Delete, BAD_COUNTER),
        Turn::Drain(2, 0),
    ];
    on_new(&rt, rt.alloc(), 1, TURNS, &[(1, 4), (2, 2)])
}

/// A newcomer's item isn't a place for an operation whose vector doesn't cover it, nor in a list into which it was never inserted.
#[test]
fn items_of_newcomers_are_tested(rt: HostRuntime) -> Result<(), Fail> {
    const TURNS: &[Turn<'static>] = &[
        Turn::Deliver((2, 2), &[1, 0, 0], Writes::DeleteItem((1, 4)), BAD_PLACE),
        Turn::Drain(0, 0),
        Turn::Deliver((2, 2), &[0, 0, 0, 1], Writes::DeleteItem((1, 4)), KEPT),
        Turn::Drain(0, 0),
        Turn::Deliver((1, 4), &[], Writes::Delete, KEPT),
        Turn::Drain(1, 1),
        Turn::Deliver((2, 2), &[0, 0, 0, 1], Writes::DeleteItem((1, 4)), BAD_PLACE),
        Turn::Drain(1, 1),
    ];
    on_new(&rt, rt.alloc(), 1, TURNS, &[(1, 4)])
}

#[test]
fn newcomers_join_as_they_are_applied(rt: HostRuntime) -> Result<(), Fail> {
    const TURNS: &[Turn<'static>] = &[
        Turn::Deliver((2, 3), &[0, 1], Writes::Delete, KEPT),
        Turn::Drain(0, 0),
        Turn::Table(&[1]),
        Turn::Deliver((1, 2), &[], Writes::Delete, KEPT),
        Turn::Drain(2, 0),
        Turn::Table(&[1, 2, 3]),
    ];
    on_lone(&rt, rt.alloc(), 1, TURNS, &[(1, 2), (2, 3)])
}

#[test]
fn the_first_that_is_applied_joins_first(rt: HostRuntime) -> Result<(), Fail> {
    const TURNS: &[Turn<'static>] = &[
        Turn::Deliver((2, 2), &[0, 0, 1], Writes::Delete, KEPT),
        Turn::Deliver((1, 3), &[], Writes::Delete, KEPT),
        Turn::Drain(2, 0),
        Turn::Table(&[1, 3, 2]),
        Turn::Assign("a", "1", (3, 1)),
        Turn::Deliver((4, 3), &[3, 2, 1], Writes::Delete, KEPT),
        Turn::Drain(4, 0),
        Turn::Table(&[1, 3, 2]),
    ];
    const HISTORY: &[Pair] = &[(1, 3), (2, 2), (3, 1), (4, 3)];
    on_lone(&rt, rt.alloc(), 1, TURNS, HISTORY)
}

/// The values are in id order, though replica 2 has the greater index.
#[test]
fn a_newcomer_writes_beside_the_own_replica(rt: HostRuntime) -> Result<(), Fail> {
    const TURNS: &[Turn<'static>] = &[
        Turn::Assign("key", "1", (1, 5)),
        Turn::Deliver((1, 2), &[], Writes::Text("key", "2"), KEPT),
        Turn::Drain(2, 0),
        Turn::Values(&[(1, 2), (1, 5)]),
        Turn::Table(&[5, 2]),
        Turn::Assign("key", "3", (2, 5)),
        Turn::Values(&[(2, 5)]),
    ];
    on_lone(&rt, rt.alloc(), 5, TURNS, &[(1, 5), (1, 2), (2, 5)])
}
