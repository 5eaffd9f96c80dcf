//! Hellos, answers and bundles from anywhere, as bytes.

use super::opening::on_two;
use super::playing::Row;
use super::playing::Side::{One, Two};
use super::playing::Told::Kept;
use super::playing::Turn::{Answer, Hello, Receive, Seen, Step, Take, Write};
use super::playing::Writing::Assign;
use super::playing::Wrote::Map;
use super::*;
use engine::Step::{Idle, Published};

#[test]
fn a_new_engine_names_nothing(rt: HostRuntime) {
    const ACTS: &[&[Row]] = &[
        &[
            (One, Hello("[\"hello\",[]]\n")),
            (One, Seen(0)),
            (One, Answer(r#"["hello",[]]"#, Ok(""))),
        ],
        &[
            (One, Write(Assign(&[], Map))),
            (One, Seen(0)),
            (One, Hello("[\"hello\",[[1,1]]]\n")),
            (One, Seen(1)),
        ],
    ];
    on_two(&rt, rt.alloc(), 16, ACTS)
}

#[test]
fn the_first_fault_of_a_hello_decides(rt: HostRuntime) {
    const ACTS: &[&[Row]] = &[
        &[
            (One, Write(Assign(&[], Map))),
            (One, Answer("", Err(Refusal::BadLine))),
            (One, Answer("\n", Err(Refusal::BadLine))),
            (One, Answer(r#"["hello",[[1,1]]"#, Err(Refusal::BadLine))),
            (One, Answer(r#"["op",[]]"#, Err(Refusal::BadLine))),
            (
                One,
                Answer(r#"["hello",[[2,1],[1,1]]]"#, Err(Refusal::BadLine)),
            ),
            // No refused hello made the token read.
            (One, Seen(0)),
        ],
        &[
            (One, Answer(r#"["hello",[[3,7]]]"#, Ok(FIRST_LINE))),
            (One, Seen(1)),
            (One, Answer(r#"["hello",[[4,1]]]"#, Ok(FIRST_LINE))),
        ],
    ];
    on_two(&rt, rt.alloc(), 16, ACTS)
}

#[test]
fn what_comes_before_a_bad_line_stays(rt: HostRuntime) {
    const FIRST_ALONE: &str = r#"["op",[1,1],[],[],0,["a",{}]]
"#;
    const CUT: &str = r#"["op",[1,1],[],[],0,["a",{}]]
["op",[2,1],[[1,1]],[["m",0]],"shopping",["a",[]]]"#;
    const ACTS: &[&[Row]] = &[
        &[
            (Two, Receive(CUT, 1, 1, 30, Some((2, Refusal::BadLine)))),
            (Two, Step(Published(1))),
            (Two, Hello("[\"hello\",[[1,1]]]\n")),
        ],
        &[
            (Two, Receive("", 0, 0, 0, None)),
            (Two, Receive("\n", 0, 0, 0, Some((1, Refusal::BadLine)))),
            (Two, Step(Idle)),
            (Two, Take(NEWCOMER, Kept(2))),
            (Two, Receive(FIRST_ALONE, 3, 1, 30, None)),
            (Two, Step(Published(1))),
            (Two, Seen(1)),
            (Two, Hello("[\"hello\",[[1,1],[4,1]]]\n")),
            (Two, Seen(2)),
        ],
    ];
    on_two(&rt, rt.alloc(), 16, ACTS)
}
