//! What a bench finds, and when it gives up.

mod workers;

use bench::*;
use ids::Refusal;
use std::test::Fail;

/// Replicas, writers, operations of each writer, and capacity of each queue.
const PLANS: [(u32, u32, u32, u32); 5] = [
    (1, 1, 3, 65_536),
    (1, 16, 4, 65_536),
    (2, 3, 5, 65_536),
    (3, 2, 4, 65_536),
    (2, 4, 8, 1),
];

#[test]
fn engines_agree(rt: HostRuntime) -> Result<(), Fail> {
    for (replicas, writers, ops, queue) in PLANS {
        let found = play(&rt, rt.alloc(), Plan::new(replicas, writers, ops, queue)?);
        assert_eq!(rt; found, Ok(Verdict::Agree(replicas * writers * ops)));
    }
    Ok(())
}

#[test]
fn plans_have_limits(rt: HostRuntime) {
    for (replicas, writers, ops, queue) in [
        (0, 1, 1, 1),
        (17, 1, 1, 1),
        (1, 0, 1, 1),
        (1, 17, 1, 1),
        (1, 1, 0, 1),
        (1, 1, 4_097, 1),
        (1, 1, 1, 0),
        (1, 1, 1, 65_537),
    ] {
        let plan = Plan::new(replicas, writers, ops, queue);
        assert_eq!(rt; plan, Err(Refusal::BadConfig));
    }
    let greatest = Plan::new(16, 16, 4_096, 65_536).map(|plan| plan.operations());
    assert_eq!(rt; greatest, Ok(1_048_576));
}
