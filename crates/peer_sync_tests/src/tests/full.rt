//! Bundles of more lines than a queue has slots.

use super::opening::{on_others, on_two};
use super::playing::Side::{One, Two};
use super::playing::Told::{Kept, Refused};
use super::playing::Turn::{Answer, Hello, Pull, Receive, ReceiveAll, Show, Step, Take, Write};
use super::playing::Writing::{Assign, Insert};
use super::playing::Wrote::{List, Map, Words};
use super::playing::{Row, Turn};
use super::showing::Shown::{Items, Values};
use super::showing::To;
use super::showing::To::{Index, Key};
use super::*;
use engine::Step::{Idle, Published};
use engine::{Client, EngineName, Writer};
use peer_sync::{BundleReader, receive_on};
use std::alloc::Global;
use std::process::Abort;
use std::sync::Wait;

/// A full queue stops lines of profile 1 too, at each receipt again.
#[test]
fn a_full_queue_stops_at_its_line(rt: HostRuntime) {
    const ACTS: &[&[Row]] = &[
        &[
            (
                Two,
                Receive(FIVE_ALONE, 1, 2, 81, Some((3, Refusal::QueueFull))),
            ),
            (Two, Step(Published(2))),
            (Two, Hello("[\"hello\",[[1,2]]]\n")),
        ],
        &[
            // The two that are already known fill the queue again.
            (
                Two,
                Receive(FIVE_ALONE, 3, 2, 81, Some((3, Refusal::QueueFull))),
            ),
            (Two, Step(Published(2))),
            (Two, Hello("[\"hello\",[[1,2]]]\n")),
        ],
    ];
    on_two(&rt, rt.alloc(), 2, ACTS)
}

/// After a stop at a full queue, steps and a new hello bring the rest, until nothing is missing.
#[test]
fn new_hellos_bring_what_a_full_queue_left(rt: HostRuntime) {
    const LIST_AT: &[To] = &[Key("shopping")];
    const HEAD: &[To] = &[Key("shopping"), Index(0)];
    const ITEM: &[To] = &[Key("shopping"), Index(2)];
    const LAST_THREE: &str = r#"["op2",[3,1],[[1,2]],[["m",0],["l","shopping"]],1,["i","eggs"]]
["op2",[4,1],[[1,3]],[["m",0],["l","shopping"]],1,["i","cheese"]]
["op2",[5,1],[[1,4]],[["m",0],["l","shopping"]],[3,1],["i","milk"]]
"#;
    const LAST: &str = r#"["op2",[5,1],[[1,4]],[["m",0],["l","shopping"]],[3,1],["i","milk"]]
"#;
    const ACTS: &[&[Row]] = &[
        &[
            (One, Write(Assign(&[], Map))),
            (One, Write(Assign(LIST_AT, List))),
            (One, Write(Insert(HEAD, Words("eggs")))),
            (One, Write(Insert(HEAD, Words("cheese")))),
            (One, Write(Insert(ITEM, Words("milk")))),
            (Two, Hello(NEW)),
            (One, Answer(NEW, Ok(FIVE))),
            (Two, Receive(FIVE, 1, 2, 83, Some((3, Refusal::QueueFull)))),
            (Two, Step(Published(2))),
            (Two, Step(Idle)),
        ],
        &[
            (Two, Hello("[\"hello\",[[1,2]]]\n")),
            (One, Answer("[\"hello\",[[1,2]]]\n", Ok(LAST_THREE))),
            (
                Two,
                Receive(LAST_THREE, 3, 2, 130, Some((3, Refusal::QueueFull))),
            ),
            (Two, Step(Published(2))),
            (Two, Step(Idle)),
            (Two, Hello("[\"hello\",[[1,4]]]\n")),
            (One, Answer("[\"hello\",[[1,4]]]\n", Ok(LAST))),
            (Two, Receive(LAST, 5, 1, 68, None)),
            (Two, Step(Published(1))),
            (Two, Step(Idle)),
        ],
        &[
            (Two, Pull("[\"hello\",[[1,5]]]\n", "")),
            (Two, Answer(NEW, Ok(FIVE))),
            (Two, Show(LIST_AT, Items(&[(4, 1), (3, 1), (5, 1)]))),
        ],
    ];
    on_two(&rt, rt.alloc(), 2, ACTS)
}

/// The rest of a bundle is read relative to the empty vector: as another operation, whose counter doesn't come after its vector. The answer
/// to a new hello has the whole vector.
#[test]
fn what_is_left_of_a_bundle_may_be_refused(rt: HostRuntime) {
    const LEFT: &str = r#"["op2",[2,2],[],[["m",0]],"key",["a","C"]]
"#;
    const ANSWERED: &str = r#"["op2",[2,2],[[1,1]],[["m",0]],"key",["a","C"]]
"#;
    const ACTS: &[&[Row]] = &[
        &[
            (One, ReceiveAll(THREE, 1)),
            (One, Step(Published(1))),
            (Two, Receive(THREE, 1, 2, 91, Some((3, Refusal::QueueFull)))),
            (Two, Step(Published(2))),
        ],
        &[
            (Two, Take(LEFT, Refused(Refusal::BadCounter, 2))),
            (Two, Pull("[\"hello\",[[1,2]]]\n", ANSWERED)),
            (Two, Answer(NEW, Ok(THREE))),
        ],
    ];
    on_others(&rt, rt.alloc(), 2, ACTS)
}

/// Relative to the empty vector no pair has the counter 0: the rest of a bundle may be a bad line.
#[test]
fn what_is_left_of_a_bundle_may_be_bad(rt: HostRuntime) {
    const LEFT: &str = r#"["op2",[1,3],[[1,0]],[["m",0]],"z",["d"]]
"#;
    const ANSWERED: &str = r#"["op2",[1,3],[],[["m",0]],"z",["d"]]
"#;
    const ACTS: &[&[Row]] = &[
        &[
            (One, ReceiveAll(FOUR, 1)),
            (One, Step(Published(1))),
            (Two, Receive(FOUR, 1, 3, 134, Some((4, Refusal::QueueFull)))),
            (Two, Step(Published(3))),
        ],
        &[
            (Two, Receive(LEFT, 0, 0, 0, Some((1, Refusal::BadLine)))),
            (Two, Pull("[\"hello\",[[1,2],[2,2]]]\n", ANSWERED)),
            (Two, Answer(NEW, Ok(FOUR))),
        ],
    ];
    on_others(&rt, rt.alloc(), 3, ACTS)
}

/// The rest of a bundle may also pass every test, as an operation that no engine made: the vector of replica 3's write no longer names
/// replica 2, so the write doesn't take the place of B. It has the id of the true one, so no later exchange repairs that.
#[test]
fn what_is_left_of_a_bundle_may_be_kept(rt: HostRuntime) {
    const KEY: &[To] = &[Key("key")];
    const APART: &str = r#"["op2",[1,1],[],[["m",0]],"key",["a","A"]]
["op2",[1,2],[],[["m",0]],"key",["a","B"]]
["op2",[2,2],[[2,1]],[["m",0]],"z",["d"]]
["op2",[2,3],[[1,1]],[["m",0]],"key",["a","D"]]
"#;
    const LEFT: &str = r#"["op2",[2,3],[[1,1]],[["m",0]],"key",["a","D"]]
"#;
    const OTHER: &str = r#"["op2",[1,1],[],[["m",0]],"key",["a","A"]]
["op2",[1,2],[],[["m",0]],"key",["a","B"]]
["op2",[2,2],[[2,1]],[["m",0]],"z",["d"]]
["op2",[2,3],[[1,1],[2,0]],[["m",0]],"key",["a","D"]]
"#;
    const ALL: &str = "[\"hello\",[[1,1],[2,2],[3,2]]]\n";
    const OVER: Turn = Show(KEY, Values(&[((2, 3), "D")]));
    const BESIDE: Turn = Show(KEY, Values(&[((1, 2), "B"), ((2, 3), "D")]));
    const ACTS: &[&[Row]] = &[
        &[
            (One, ReceiveAll(APART, 1)),
            (One, Step(Published(1))),
            (
                Two,
                Receive(APART, 1, 3, 128, Some((4, Refusal::QueueFull))),
            ),
            (Two, Step(Published(3))),
            (Two, Take(LEFT, Kept(4))),
        ],
        &[
            (One, Pull(ALL, "")),
            (Two, Pull(ALL, "")),
            (One, OVER),
            (Two, BESIDE),
            (One, Answer(NEW, Ok(APART))),
            (Two, Answer(NEW, Ok(OTHER))),
        ],
    ];
    on_others(&rt, rt.alloc(), 3, ACTS)
}

/// If there is no peer to say hello to, a bundle goes on after the line at which the queue was full, once the writer has stepped. All its
/// operations are then as they were written.
#[test]
fn a_receipt_goes_on(rt: HostRuntime) {
    const ACTS: &[&[Row]] = &[
        &[
            (One, ReceiveAll(FOUR, 1)),
            (One, Step(Published(2))),
            (One, Step(Idle)),
            (One, Hello("[\"hello\",[[1,2],[2,2],[3,1]]]\n")),
            (One, Answer(NEW, Ok(FOUR))),
        ],
        &[
            (Two, ReceiveAll(FIVE, 2)),
            (Two, Step(Published(1))),
            (Two, Step(Idle)),
            (Two, Hello("[\"hello\",[[1,5]]]\n")),
            (Two, Answer(NEW, Ok(FIVE))),
        ],
    ];
    on_others(&rt, rt.alloc(), 2, ACTS)
}

/// Receives a bundle, and goes on after a step whenever the queue is full; asserts how often that happened.
pub fn receive_all<N: EngineName, R: Wait + Abort>(
    rt: &R,
    alloc: Global,
    writer: &mut Writer<N>,
    client: &mut Client<N>,
    bundle: &str,
    want: u32,
) -> Result<(), Refusal> {
    let mut reader = BundleReader::new();
    let mut rest = bundle.as_bytes();
    let mut full: u32 = 0;
    for _ in 0..bundle.len() {
        let received = receive_on(rt, alloc, client, &mut reader, rest);
        rest = &rest[received.bytes..];
        match received.stopped {
            None => break,
            Some((_, Refusal::QueueFull)) => {
                writer.step(rt, alloc);
                full = full.saturating_add(1);
            }
            Some((_, why)) => return Err(why),
        }
    }
    assert_eq!(rt; full, want, "of {bundle}");
    Ok(())
}
