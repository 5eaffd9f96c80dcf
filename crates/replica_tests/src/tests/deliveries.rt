//! Deliveries in any order, repeated and forged.

use super::*;

const OWN_NAME: Answer = Err(Refusal::OwnName);

const BROKEN_CHAIN: Answer = Err(Refusal::BrokenChain);

const NOT_CLOSED: Answer = Err(Refusal::NotClosed);

/// What each operation of replica 1 writes, made one after another.
const LINK: Writes<'static> = Writes::Text("a", "x");

#[test]
fn what_comes_too_early_waits(rt: HostRuntime) -> Result<(), Fail> {
    const TURNS: &[Turn<'static>] = &[
        Turn::Deliver((3, 1), &[2, 0, 0], LINK, KEPT),
        Turn::Drain(0, 0),
        Turn::Deliver((2, 1), &[1, 0, 0], LINK, KEPT),
        Turn::Drain(0, 0),
        Turn::Deliver((1, 1), &[0, 0, 0], LINK, KEPT),
        Turn::Drain(3, 0),
    ];
    on_new(&rt, rt.alloc(), 2, TURNS, &[(1, 1), (2, 1), (3, 1)])
}

#[test]
fn what_waits_for_two_replicas_waits_for_each(rt: HostRuntime) -> Result<(), Fail> {
    const TURNS: &[Turn<'static>] = &[
        Turn::Deliver((3, 3), &[2, 0, 1], LINK, KEPT),
        Turn::Drain(0, 0),
        Turn::Deliver((1, 3), &[0, 0, 0], LINK, KEPT),
        Turn::Drain(1, 0),
        Turn::Deliver((2, 1), &[1, 0, 0], LINK, KEPT),
        Turn::Drain(1, 0),
        Turn::Deliver((1, 1), &[0, 0, 0], LINK, KEPT),
        Turn::Drain(4, 0),
    ];
    on_new(&rt, rt.alloc(), 2, TURNS, &[(1, 3), (1, 1), (2, 1), (3, 3)])
}

#[test]
fn what_becomes_ready_at_once_comes_by_rising_id(rt: HostRuntime) -> Result<(), Fail> {
    const TURNS: &[Turn<'static>] = &[
        Turn::Deliver((3, 3), &[2, 0, 1], LINK, KEPT),
        Turn::Deliver((2, 3), &[0, 0, 1], LINK, KEPT),
        Turn::Deliver((2, 1), &[0, 0, 1], LINK, KEPT),
        Turn::Drain(0, 0),
        Turn::Deliver((1, 3), &[0, 0, 0], LINK, KEPT),
        Turn::Next(Some((1, 3))),
        Turn::Next(Some((2, 1))),
        Turn::Next(Some((2, 3))),
        Turn::Drain(3, 1),
    ];
    on_new(&rt, rt.alloc(), 2, TURNS, &[(1, 3), (2, 1), (2, 3)])
}

#[test]
fn what_waits_or_was_applied_is_known(rt: HostRuntime) -> Result<(), Fail> {
    const TURNS: &[Turn<'static>] = &[
        Turn::Deliver((3, 1), &[2, 0, 0], LINK, KEPT),
        Turn::Drain(0, 0),
        Turn::Deliver((3, 1), &[2, 0, 0], LINK, KNOWN),
        Turn::Drain(0, 0),
        Turn::Deliver((1, 1), &[0, 0, 0], LINK, KEPT),
        Turn::Drain(1, 0),
        Turn::Deliver((2, 1), &[1, 0, 0], LINK, KEPT),
        Turn::Drain(3, 0),
        Turn::Deliver((3, 1), &[2, 0, 0], LINK, KNOWN),
        Turn::Drain(3, 0),
    ];
    on_new(&rt, rt.alloc(), 2, TURNS, &[(1, 1), (2, 1), (3, 1)])
}

#[test]
fn what_was_applied_is_known_by_its_own_replica(rt: HostRuntime) -> Result<(), Fail> {
    const TURNS: &[Turn<'static>] = &[
        Turn::Assign("a", "1", (1, 1)),
        Turn::Deliver((1, 1), &[0, 0, 0], Writes::Delete, KNOWN),
        Turn::Drain(1, 0),
        Turn::Deliver((2, 1), &[1, 0, 0], Writes::Delete, OWN_NAME),
        Turn::Drain(1, 0),
    ];
    on_new(&rt, rt.alloc(), 1, TURNS, &[(1, 1)])
}

/// Delivers an operation to replica 1, which has an empty history and refuses it.
fn expect_refused_first(
    rt: &impl Abort,
    alloc: Global,
    pair: Pair,
    counters: &[u64],
    writes: Writes<'_>,
    refused: Answer,
) -> Result<(), Fail> {
    let turns = [
        Turn::Deliver(pair, counters, writes, refused),
        Turn::Drain(0, 0),
    ];
    on_new(rt, alloc, 1, &turns, &[])
}

#[test]
fn counters_are_tested(rt: HostRuntime) -> Result<(), Fail> {
    let alloc = rt.alloc();
    expect_refused_first(&rt, alloc, (9, 2), &[7, 0, 0], Writes::Delete, BAD_COUNTER)
}

#[test]
fn counters_are_tested_before_names(rt: HostRuntime) -> Result<(), Fail> {
    const TURNS: &[Turn<'static>] = &[
        Turn::Deliver((3, 1), &[1, 0, 0], Writes::Delete, BAD_COUNTER),
        Turn::Drain(0, 0),
        Turn::Deliver((1, 1), &[0, 0, 0], Writes::Delete, OWN_NAME),
        Turn::Drain(0, 0),
    ];
    on_new(&rt, rt.alloc(), 1, TURNS, &[])
}

#[test]
fn what_turns_out_unlawful_is_dropped(rt: HostRuntime) -> Result<(), Fail> {
    const TURNS: &[Turn<'static>] = &[
        Turn::Assign("a", "1", (1, 1)),
        Turn::Assign("a", "2", (2, 1)),
        Turn::Deliver((3, 2), &[2, 0, 0], Writes::Delete, KEPT),
        Turn::Drain(3, 0),
        Turn::Assign("a", "4", (4, 1)),
        Turn::Assign("a", "5", (5, 1)),
        Turn::Deliver((6, 3), &[5, 4, 0], Writes::Delete, KEPT),
        Turn::Drain(5, 0),
        Turn::Deliver((6, 2), &[5, 3, 0], Writes::Delete, KEPT),
        Turn::Drain(6, 1),
        Turn::Deliver((6, 3), &[5, 4, 0], Writes::Delete, NAMES_NOTHING),
        Turn::Drain(6, 1),
    ];
    const HISTORY: &[Pair] = &[(1, 1), (2, 1), (3, 2), (4, 1), (5, 1), (6, 2)];
    on_new(&rt, rt.alloc(), 1, TURNS, HISTORY)
}

/// Replica 1, which saw 1@1 and then assigned at `key`, concurrently with replica 2, which did the same.
const FORKED_1: &[Turn<'static>] = &[
    Turn::Assign("key", "A", (1, 1)),
    Turn::Assign("key", "B", (2, 1)),
    Turn::Deliver((2, 2), &[1, 0, 0], Writes::Text("key", "C"), KEPT),
    Turn::Drain(3, 0),
];

/// Replica 2 of the two.
const FORKED_2: &[Turn<'static>] = &[
    Turn::Deliver((1, 1), &[0, 0, 0], Writes::Text("key", "A"), KEPT),
    Turn::Drain(1, 0),
    Turn::Assign("key", "C", (2, 2)),
    Turn::Deliver((2, 1), &[1, 0, 0], Writes::Text("key", "B"), KEPT),
    Turn::Drain(3, 0),
];

/// The ids of the values at `key`, in both.
const BESIDE: &[Turn<'static>] = &[Turn::Values(&[(2, 1), (2, 2)])];

#[test]
fn concurrent_writes_stand_beside_each_other(rt: HostRuntime) -> Result<(), Fail> {
    const HISTORY_1: &[Pair] = &[(1, 1), (2, 1), (2, 2)];
    const HISTORY_2: &[Pair] = &[(1, 1), (2, 2), (2, 1)];
    on_new_after(&rt, rt.alloc(), 1, FORKED_1, BESIDE, HISTORY_1)?;
    on_new_after(&rt, rt.alloc(), 2, FORKED_2, BESIDE, HISTORY_2)
}

#[test]
fn ready_ones_are_tested_against_the_history(rt: HostRuntime) -> Result<(), Fail> {
    const TURNS: &[Turn<'static>] = &[
        Turn::Deliver((3, 1), &[1, 2, 0], Writes::Delete, BROKEN_CHAIN),
        Turn::Drain(3, 0),
        Turn::Deliver((3, 3), &[0, 2, 0], Writes::Delete, NOT_CLOSED),
        Turn::Drain(3, 0),
        Turn::Deliver((3, 3), &[2, 2, 0], Writes::DeleteItem((2, 2)), BAD_PLACE),
        Turn::Drain(3, 0),
    ];
    const HISTORY: &[Pair] = &[(1, 1), (2, 2), (2, 1)];
    on_new_after(&rt, rt.alloc(), 2, FORKED_2, TURNS, HISTORY)
}

#[test]
fn the_own_number_is_refused(rt: HostRuntime) -> Result<(), Fail> {
    const TURNS: &[Turn<'static>] = &[
        Turn::Deliver((3, 1), &[2, 2, 0], Writes::Delete, OWN_NAME),
        Turn::Drain(3, 0),
    ];
    const HISTORY: &[Pair] = &[(1, 1), (2, 1), (2, 2)];
    on_new_after(&rt, rt.alloc(), 1, FORKED_1, TURNS, HISTORY)
}

#[test]
fn the_first_fault_is_answered(rt: HostRuntime) -> Result<(), Fail> {
    let alloc = rt.alloc();
    let not_in_list = Err(Refusal::NotInList);
    let item = Writes::DeleteItem((5, 1));
    expect_refused_first(&rt, alloc, (9, 2), &[7, 0, 0], Writes::Insert, BAD_COUNTER)?;
    expect_refused_first(&rt, alloc, (1, 2), &[0, 0, 0], Writes::Insert, not_in_list)?;
    expect_refused_first(&rt, alloc, (2, 2), &[1, 0, 0], item, BAD_PLACE)
}
