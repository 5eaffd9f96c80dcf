//! Why received operations are refused.

use super::playing::Does::{Assign, Delete};
use super::playing::Hop::{Field, Item};
use super::playing::Step::Get;
use super::playing::Turn::{Check, Has, Take, Values, Waits};
use super::playing::Value::Text;
use super::playing::{Hop, Sent, Turn, on_new};
use super::*;
use ids::Refusal;
use std::test::Fail;

const KEY: &[Hop] = &[Field("key")];

/// Replica 1 writes at the key, and once both have seen that, replica 1 and replica 2 write there concurrently.
pub const A: Sent = ((1, 1), &[0, 0, 0], KEY, Assign(Text("A")));

pub const B: Sent = ((2, 1), &[1, 0, 0], KEY, Assign(Text("B")));

pub const C: Sent = ((2, 2), &[1, 0, 0], KEY, Assign(Text("C")));

#[test]
fn applied_operations_are_found_by_their_ids(rt: HostRuntime) -> Result<(), Fail> {
    const WANTED: &[Turn] = &[
        Has((2, 1), true),
        Has((2, 2), true),
        Has((2, 3), false),
        Has((3, 2), false),
    ];
    on_new(&rt, rt.alloc(), &[A, B, C], WANTED)
}

#[test]
fn a_replica_names_all_its_own(rt: HostRuntime) -> Result<(), Fail> {
    const OP: Sent = ((3, 1), &[1, 2, 0], KEY, Delete);
    const WANTED: &[Turn] = &[Check(OP, Err(Refusal::BrokenChain))];
    on_new(&rt, rt.alloc(), &[A, B, C], WANTED)
}

#[test]
fn what_is_named_names_no_more(rt: HostRuntime) -> Result<(), Fail> {
    const OP: Sent = ((3, 3), &[0, 2, 0], KEY, Delete);
    const WANTED: &[Turn] = &[Check(OP, Err(Refusal::NotClosed))];
    on_new(&rt, rt.alloc(), &[A, B, C], WANTED)
}

#[test]
fn items_are_those_of_their_list(rt: HostRuntime) -> Result<(), Fail> {
    const ITEM: &[Hop] = &[Field("key"), Item((2, 2))];
    const OP: Sent = ((3, 3), &[2, 2, 0], ITEM, Assign(Text("D")));
    const WANTED: &[Turn] = &[Check(OP, Err(Refusal::BadPlace))];
    on_new(&rt, rt.alloc(), &[A, B, C], WANTED)
}

#[test]
fn what_names_all_may_follow(rt: HostRuntime) -> Result<(), Fail> {
    const OP: Sent = ((3, 3), &[2, 2, 0], KEY, Delete);
    const TURNS: &[Turn] = &[Check(OP, Ok(())), Take(OP), Values(&[Get("key")], &[])];
    on_new(&rt, rt.alloc(), &[A, B, C], TURNS)
}

#[test]
fn what_was_not_applied_is_waited_for(rt: HostRuntime) -> Result<(), Fail> {
    const OP: Sent = ((9, 3), &[8, 0, 0], KEY, Delete);
    on_new(&rt, rt.alloc(), &[A, B, C], &[Waits(OP)])
}

/// Operations of two replicas, each of which has seen all before it; the last one has the counter 6.
const IN_TURNS: &[Sent] = &[
    ((1, 1), &[0, 0, 0], KEY, Assign(Text("A"))),
    ((2, 1), &[1, 0, 0], KEY, Assign(Text("B"))),
    ((3, 2), &[2, 0, 0], KEY, Assign(Text("C"))),
    ((4, 1), &[2, 3, 0], KEY, Assign(Text("D"))),
    ((5, 1), &[4, 3, 0], KEY, Assign(Text("E"))),
    ((6, 2), &[5, 3, 0], KEY, Assign(Text("F"))),
];

#[test]
fn counters_between_two_operations_name_nothing(rt: HostRuntime) -> Result<(), Fail> {
    const OP: Sent = ((6, 3), &[5, 4, 0], KEY, Delete);
    const WANTED: &[Turn] = &[Check(OP, Err(Refusal::NamesNothing))];
    on_new(&rt, rt.alloc(), IN_TURNS, WANTED)
}
