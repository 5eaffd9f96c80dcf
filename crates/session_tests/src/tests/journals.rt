//! Sessions that resume from their journals.

use super::playing::Row::{Answer, Journal, Length, Receive, Replay, Shows, Write};
use super::playing::Why::{NotApplied, OtherId};
use super::playing::on_new;
use super::*;

/// Two own commands, an operation of a peer that inserts after them, and an own command that depends on it.
const FOUR: &str = r#"["own",[1,1],["assign",["l"],[]]]
["own",[2,1],["insert",["l",0],"x"]]
["op",[3,2],[[1,2]],[["m",0],["l","l"]],[2,1],["i","y"]]
["own",[4,1],["delete",["l",2]]]
"#;

/// The first of them.
const FIRST: &str = r#"["own",[1,1],["assign",["l"],[]]]
"#;

/// The last one.
const LAST: &str = r#"["own",[4,1],["delete",["l",2]]]
"#;

/// The session whose journal these four are.
#[test]
fn a_history_is_written(rt: HostRuntime) -> Result<(), Fail> {
    const PEER: &str = r#"["op2",[3,2],[[1,2]],[["m",0],["l","l"]],[2,1],["i","y"]]
"#;
    on_new(
        &rt,
        rt.alloc(),
        1,
        &[
            Write(r#"["assign",["l"],[]]"#, (1, 1)),
            Write(r#"["insert",["l",0],"x"]"#, (2, 1)),
            Receive(PEER, (1, None, None)),
            Write(r#"["delete",["l",2]]"#, (4, 1)),
            Journal(0, FOUR),
            Journal(3, LAST),
            Journal(9, ""),
        ],
    )
}

/// The history comes back, own entries as own; the next id is above all of them, and peers get what is new.
#[test]
fn a_history_comes_back(rt: HostRuntime) -> Result<(), Fail> {
    const NEXT: &str = r#"["op2",[5,1],[[1,4],[2,3]],[["m",0]],"k",["a",true]]
"#;
    on_new(
        &rt,
        rt.alloc(),
        1,
        &[
            Replay(FOUR, (4, 161, None)),
            Journal(0, FOUR),
            Shows(r#"{"l":["x"]}"#),
            Write(r#"["assign",["k"],true]"#, (5, 1)),
            Answer(r#"["hello",[[1,4],[2,3]]]"#, 5, 1000, NEXT, false, false),
        ],
    )
}

/// A command makes no other id than the next one; the session has the lines before it.
#[test]
fn another_id_stops_it(rt: HostRuntime) -> Result<(), Fail> {
    const SKIPS: &str = r#"["own",[1,1],["assign",["l"],[]]]
["own",[3,1],["assign",["a"],2]]
"#;
    on_new(
        &rt,
        rt.alloc(),
        1,
        &[
            Replay(SKIPS, (1, 34, Some((2, OtherId((2, 1)))))),
            Journal(0, FIRST),
            Write(r#"["assign",["a"],2]"#, (2, 1)),
        ],
    )
}

/// An operation that depends on one that no earlier line has, one that is known, a refused command, and a cut.
#[test]
fn what_does_not_fit_stops_it(rt: HostRuntime) -> Result<(), Fail> {
    const EARLY: &str = r#"["op",[2,2],[[3,1]],[["m",0]],"a",["a",2]]
"#;
    const PEER: &str = r#"["op",[2,2],[[1,1]],[["m",0]],"a",["a",2]]
"#;
    const PAST_END: &str = r#"["own",[3,1],["delete",["l",1]]]
"#;
    const CUT: &str = r#"["own",[3,1],["delete","#;
    on_new(
        &rt,
        rt.alloc(),
        1,
        &[
            Replay(FIRST, (1, 34, None)),
            Replay(EARLY, (0, 0, Some((1, NotApplied)))),
            Length(1),
        ],
    )?;
    on_new(
        &rt,
        rt.alloc(),
        1,
        &[
            Replay(FIRST, (1, 34, None)),
            Replay(PEER, (1, 43, None)),
            Replay(PEER, (0, 0, Some((1, NotApplied)))),
            Replay(
                PAST_END,
                (
                    0,
                    0,
                    Some((1, super::playing::Why::Refused(Refusal::PastEnd))),
                ),
            ),
            Replay(
                CUT,
                (
                    0,
                    0,
                    Some((1, super::playing::Why::Refused(Refusal::BadLine))),
                ),
            ),
            Length(2),
        ],
    )
}
