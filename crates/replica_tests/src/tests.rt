//! What replicas answer and keep, according to the rules. Each test is a list of turns that a replica takes in order, and the history that
//! they leave.

mod deliveries;
mod full;
mod leaving;
mod newcomers;
mod playing;
mod recorder;
mod refused_memory;

use fixtures::Pair;
use ids::Refusal;
use operation::Delivered;
use playing::{Answer, Turn, Writes, on_new, on_new_after};
use replica::Replica;
use std::alloc::Global;
use std::process::Abort;
use std::test::Fail;

const KEPT: Answer = Ok(Delivered::Kept);

const KNOWN: Answer = Ok(Delivered::Known);

const BAD_COUNTER: Answer = Err(Refusal::BadCounter);

const BAD_PLACE: Answer = Err(Refusal::BadPlace);

const NAMES_NOTHING: Answer = Err(Refusal::NamesNothing);

#[test]
fn the_same_is_made_until_it_is_committed(rt: HostRuntime) -> Result<(), Fail> {
    const TURNS: &[Turn<'static>] = &[
        Turn::Make((1, 1)),
        Turn::Lengths(0, 0),
        Turn::Make((1, 1)),
        Turn::Lengths(0, 0),
    ];
    on_new(&rt, rt.alloc(), 1, TURNS, &[])
}

#[test]
fn counters_go_on_after_a_commit(rt: HostRuntime) -> Result<(), Fail> {
    const TURNS: &[Turn<'static>] = &[
        Turn::Assign("a", "1", (1, 1)),
        Turn::Make((2, 1)),
        Turn::Lengths(1, 0),
    ];
    on_new(&rt, rt.alloc(), 1, TURNS, &[(1, 1)])
}

/// Whether a replica with this number among these members is opened.
fn opened(alloc: Global, own: u32, members: &[u32]) -> Result<(), Refusal> {
    let _replica = Replica::new(alloc, own, members)?;
    Ok(())
}

#[test]
fn configurations_are_tested(rt: HostRuntime) {
    const ROWS: &[(u32, &[u32], Result<(), Refusal>)] = &[
        (2, &[3, 1, 2], Ok(())),
        (4, &[1, 2, 3], Err(Refusal::BadConfig)),
        (1, &[], Err(Refusal::BadConfig)),
        (1, &[1, 1], Err(Refusal::BadConfig)),
        (0, &[0, 1], Err(Refusal::BadConfig)),
        (0, &[1], Err(Refusal::BadConfig)),
    ];
    for (own, members, want) in ROWS {
        assert_eq!(rt;
            opened(rt.alloc(), *own, members),
            *want,
            "{own} of {members:?}"
        );
    }
}
