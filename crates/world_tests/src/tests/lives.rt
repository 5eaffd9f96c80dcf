//! How a world counts its steps, and is poisoned by a failed allocation.

use super::*;
use std::process::Abort;

/// The number of an engine, what it does in one run, and how many steps were done after that.
type Run<'a> = (usize, &'a [Act<'a>], u64);

#[test]
fn steps_are_counted_over_all_runs(rt: HostRuntime) {
    const RUNS: &[Run] = &[
        (0, &[Act::Push(0, "a", 1), Act::Step, Act::Step], 3),
        (0, &[], 3),
        (5, &[Act::Step], 4),
    ];
    let config = config(rt.alloc(), 1, &[1], 1).expect(&rt, "memory");
    let mut world = World::new(rt.alloc(), &[config]).expect(&rt, "a world");
    assert_eq!(rt; world.steps_done(), 0);
    for (engine, acts, done) in RUNS {
        let steps = steps(rt.alloc(), *engine, acts).expect(&rt, "memory");
        let replies = world.run(rt.alloc(), &steps).expect(&rt, "memory");
        assert_eq!(rt; replies.len(), acts.len());
        assert_eq!(rt; world.steps_done(), *done);
    }
}

/// How many steps a world was given, how many it has done, and whether a run was refused.
#[derive(Clone, Copy)]
struct Progress {
    given: u64,
    done: u64,
    failed: bool,
}

/// Asserts that a run was answered, after which this many steps are done: all that were given, since no run was refused before.
fn expect_whole(rt: &impl Abort, progress: &mut Progress, done: u64) {
    assert!(rt; !progress.failed);
    assert_eq!(rt; done, progress.given);
    progress.done = done;
}

/// Asserts that a run was refused, after which this many steps are done: as many as before, if a run was refused before.
fn expect_end(rt: &impl Abort, progress: &mut Progress, done: u64) {
    let Progress {
        given,
        done: before,
        failed,
    } = *progress;
    assert!(rt; !failed || done == before, "{done} steps after {before}");
    assert!(rt; before <= done && done <= given, "{done} steps of {given}");
    progress.done = done;
    progress.failed = true;
}

/// Does these acts in one run.
fn go_on(
    rt: &impl Abort,
    alloc: Global,
    world: &mut World,
    progress: &mut Progress,
    acts: &[Act],
) -> Result<(), Refusal> {
    let run = steps(alloc, 0, acts)?;
    progress.given = progress.given.saturating_add(run.len() as u64);
    let answer = world.run(alloc, &run).map(|replies| replies.len());
    match answer {
        Ok(replies) => {
            assert_eq!(rt; replies, run.len());
            expect_whole(rt, progress, world.steps_done());
        }
        Err(_) => expect_end(rt, progress, world.steps_done()),
    }
    Ok(())
}

/// Twelve steps, in three runs.
const SESSION: &[&[Act]] = &[
    &[
        Act::Push(0, "a", 1),
        Act::Push(1, "b", 2),
        Act::Step,
        Act::Poll(0, 1),
    ],
    &[
        Act::Push(0, "a", 3),
        Act::Ask(2, "a"),
        Act::Step,
        Act::Poll(1, 1),
    ],
    &[
        Act::Ask(0, "a"),
        Act::Push(1, "c", 4),
        Act::Step,
        Act::Poll(1, 2),
    ],
];

/// Does the session.
fn play(rt: &impl Abort, alloc: Global) -> Result<(), Refusal> {
    let config = config(alloc, 1, &[1, 2], 2)?;
    let mut world = World::new(alloc, &[config])?;
    let mut progress = Progress {
        given: 0,
        done: 0,
        failed: false,
    };
    for acts in SESSION {
        go_on(rt, alloc, &mut world, &mut progress, acts)?;
    }
    assert!(rt; progress.failed || world.steps_done() == 12);
    Ok(())
}

/// If no allocation fails, this is a session of 12 steps. It is for refusing each allocation in turn: after the first `NoMemory` there is
/// no other answer.
#[test]
fn a_world_ends_where_memory_is_refused(rt: HostRuntime) {
    if let Err(why) = play(&rt, rt.alloc()) {
        assert_eq!(rt; why, Refusal::NoMemory);
    }
}
