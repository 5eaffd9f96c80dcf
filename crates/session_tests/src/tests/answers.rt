//! What a session answers to a hello.

use super::playing::Row::{Answer, Receive, Write};
use super::playing::on_new;
use super::*;

/// The first of three lines, of 41 bytes.
const ONE: &str = r#"["op2",[1,1],[],[["m",0]],"a",["a","A"]]
"#;

/// The first two, of 87 bytes.
const TWO: &str = r#"["op2",[1,1],[],[["m",0]],"a",["a","A"]]
["op2",[2,1],[[1,1]],[["m",0]],"b",["a","B"]]
"#;

/// The last one, relative to the empty vector.
const LAST: &str = r#"["op2",[3,1],[[1,2]],[["m",0]],"c",["a","C"]]
"#;

/// A bound that cuts the answer: as many lines as fit, and one if none does. The next hello gets what follows.
#[test]
fn a_long_answer_is_cut(rt: HostRuntime) -> Result<(), Fail> {
    on_new(
        &rt,
        rt.alloc(),
        1,
        &[
            Answer(NEW, 0, 1000, "", false, false),
            Write(r#"["assign",["a"],"A"]"#, (1, 1)),
            Write(r#"["assign",["b"],"B"]"#, (2, 1)),
            Write(r#"["assign",["c"],"C"]"#, (3, 1)),
            Answer(NEW, 3, 87, TWO, true, false),
            Answer(NEW, 3, 86, ONE, true, false),
            Answer(NEW, 3, 0, ONE, true, false),
            Answer(r#"["hello",[[1,2]]]"#, 3, 87, LAST, false, false),
            Answer(r#"["hello",[[1,3]]]"#, 3, 0, "", false, false),
        ],
    )
}

/// What isn't stored isn't sent.
#[test]
fn only_what_is_stored_is_sent(rt: HostRuntime) -> Result<(), Fail> {
    on_new(
        &rt,
        rt.alloc(),
        1,
        &[
            Write(r#"["assign",["a"],"A"]"#, (1, 1)),
            Write(r#"["assign",["b"],"B"]"#, (2, 1)),
            Write(r#"["assign",["c"],"C"]"#, (3, 1)),
            Answer(NEW, 0, 1000, "", false, false),
            Answer(NEW, 2, 1000, TWO, false, false),
        ],
    )
}

/// A hello with more operations of the own number than are known here, and one with more of other numbers alone.
#[test]
fn a_number_that_lost_something_is_told(rt: HostRuntime) -> Result<(), Fail> {
    on_new(
        &rt,
        rt.alloc(),
        2,
        &[
            Receive(TWO, (2, None, None)),
            Write(r#"["assign",["c"],"C"]"#, (3, 2)),
            Answer(r#"["hello",[[1,2],[2,4]]]"#, 3, 1000, "", false, true),
            Answer(r#"["hello",[[1,9],[2,3]]]"#, 3, 1000, "", false, false),
        ],
    )
}
