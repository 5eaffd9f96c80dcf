//! A call whose allocation is refused leaves the replica as it was, and answers as usual when it is called again.
//!
//! Run with each allocation refused in turn (`tests/refused_memory.sh`): a refused turn is taken once more, so each run passes. If none is
//! refused, nothing is called again.

use super::*;

/// Replica 1 applies 1@1, 2@1, 3@2, 4@1 and 5@1, of which 3@2 is a peer's. Then 6@3, which names no operation, 7@2 and 6@2 are
/// delivered. Once 6@2 is applied, the other two are ready.
const EIGHT: &[Turn<'static>] = &[
    Turn::Assign("a", "1", (1, 1)),
    Turn::Assign("a", "1", (2, 1)),
    Turn::Deliver((3, 2), &[2, 0, 0], Writes::Delete, KEPT),
    Turn::Next(Some((3, 2))),
    Turn::Assign("a", "1", (4, 1)),
    Turn::Assign("a", "1", (5, 1)),
    Turn::Deliver((6, 3), &[5, 4, 0], Writes::Delete, KEPT),
    Turn::Deliver((7, 2), &[5, 6, 0], Writes::Delete, KEPT),
    Turn::Deliver((6, 2), &[5, 3, 0], Writes::Delete, KEPT),
    Turn::Lengths(5, 0),
];

/// Delivers 6@3 again, after all have left.
const FORGED: Turn<'static> = Turn::Deliver((6, 3), &[5, 4, 0], Writes::Delete, NAMES_NOTHING);

/// What is applied after all have left.
const SEVEN: &[Pair] = &[(1, 1), (2, 1), (3, 2), (4, 1), (5, 1), (6, 2), (7, 2)];

#[test]
fn turns_go_on(rt: HostRuntime) -> Result<(), Fail> {
    const TURNS: &[Turn<'static>] = &[
        Turn::Next(Some((6, 2))),
        Turn::Lengths(6, 0),
        Turn::Next(Some((7, 2))),
        Turn::Lengths(7, 1),
        Turn::Next(None),
        FORGED,
        Turn::Lengths(7, 1),
    ];
    on_new_after(&rt, rt.alloc(), 1, EIGHT, TURNS, SEVEN)
}

#[test]
fn drains_go_on(rt: HostRuntime) -> Result<(), Fail> {
    const TURNS: &[Turn<'static>] = &[Turn::Drain(7, 1), FORGED, Turn::Lengths(7, 1)];
    on_new_after(&rt, rt.alloc(), 1, EIGHT, TURNS, SEVEN)
}

/// 3@3 waits for 1@3, and once that has come for 2@1, which waits for 1@1.
#[test]
fn what_waits_twice_goes_on(rt: HostRuntime) -> Result<(), Fail> {
    const TURNS: &[Turn<'static>] = &[
        Turn::Deliver((3, 3), &[2, 0, 1], Writes::Delete, KEPT),
        Turn::Deliver((1, 3), &[0, 0, 0], Writes::Delete, KEPT),
        Turn::Drain(1, 0),
        Turn::Deliver((2, 1), &[1, 0, 0], Writes::Delete, KEPT),
        Turn::Deliver((1, 1), &[0, 0, 0], Writes::Delete, KEPT),
        Turn::Drain(4, 0),
    ];
    on_new(&rt, rt.alloc(), 2, TURNS, &[(1, 3), (1, 1), (2, 1), (3, 3)])
}

/// 2@9 waits for 1@1, and 3@4 for 2@9. Neither is of a member.
#[test]
fn newcomers_join(rt: HostRuntime) -> Result<(), Fail> {
    const TURNS: &[Turn<'static>] = &[
        Turn::Deliver((3, 4), &[1, 0, 0, 0, 0, 0, 0, 0, 2], Writes::Delete, KEPT),
        Turn::Deliver((2, 9), &[1], Writes::Text("key", "x"), KEPT),
        Turn::Assign("key", "1", (1, 1)),
        Turn::Table(&[1, 2, 3]),
        Turn::Next(Some((2, 9))),
        Turn::Values(&[(2, 9)]),
        Turn::Table(&[1, 2, 3, 9]),
        Turn::Drain(3, 0),
        Turn::Table(&[1, 2, 3, 9, 4]),
        Turn::Values(&[]),
    ];
    on_new(&rt, rt.alloc(), 1, TURNS, &[(1, 1), (2, 9), (3, 4)])
}
