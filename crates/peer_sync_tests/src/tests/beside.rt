//! What a line of a bundle means relative to the line before it.

use super::opening::on_others;
use super::playing::Side::One;
use super::playing::Turn::{Answer, Hello, Receive, Seen, Step};
use super::playing::{Row, Turn};
use super::*;
use engine::Step::Published;

/// The hello of an engine that has all four operations.
const ALL: Turn = Hello("[\"hello\",[[1,2],[2,2],[3,1]]]\n");

/// The fourth operation has the empty vector, as its line says both after the third one, which names replica 1, and after no line.
const HAS_NOTHING: &[Row] = &[
    (One, Step(Published(4))),
    (One, ALL),
    (One, Answer(NEW, Ok(FOUR))),
    (
        One,
        Answer(
            r#"["hello",[[1,2],[2,2]]]"#,
            Ok("[\"op2\",[1,3],[],[[\"m\",0]],\"z\",[\"d\"]]\n"),
        ),
    ),
];

/// A replica that the operation before named and this one doesn't has the counter 0.
#[test]
fn a_vector_may_name_less_than_the_one_before(rt: HostRuntime) {
    const ACTS: &[&[Row]] = &[&[(One, Receive(FOUR, 1, 4, 176, None))], HAS_NOTHING];
    on_others(&rt, rt.alloc(), 16, ACTS)
}

/// A line of profile 1 has its whole vector, whatever came before.
#[test]
fn a_line_of_profile_1_stands_alone(rt: HostRuntime) {
    const MIXED: &str = r#"["op2",[1,1],[],[["m",0]],"key",["a","A"]]
["op2",[2,1],[[1,1]],[["m",0]],"key",["a","B"]]
["op2",[2,2],[],[["m",0]],"key",["a","C"]]
["op",[1,3],[],[["m",0]],"z",["d"]]
"#;
    const ACTS: &[&[Row]] = &[&[(One, Receive(MIXED, 1, 4, 170, None))], HAS_NOTHING];
    on_others(&rt, rt.alloc(), 16, ACTS)
}

/// A pair that changes nothing makes a bad line, and what comes before it stays.
#[test]
fn a_pair_that_changes_nothing_is_bad(rt: HostRuntime) {
    const SAME: &str = r#"["op2",[1,1],[],[["m",0]],"key",["a","A"]]
["op2",[2,1],[[1,1]],[["m",0]],"key",["a","B"]]
["op2",[2,2],[],[["m",0]],"key",["a","C"]]
["op2",[1,3],[[1,1]],[["m",0]],"z",["d"]]
"#;
    const ACTS: &[&[Row]] = &[&[
        (One, Receive(SAME, 1, 3, 134, Some((4, Refusal::BadLine)))),
        (One, Step(Published(3))),
        (One, Hello("[\"hello\",[[1,2],[2,2]]]\n")),
        (One, Seen(3)),
        (One, Answer(NEW, Ok(THREE))),
    ]];
    on_others(&rt, rt.alloc(), 16, ACTS)
}
