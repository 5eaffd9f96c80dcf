//! Lines of a journal that don't fit: what is before them is brought back, and the engine resumes from that.

use super::opening::{Life, live};
use super::playing::Row;
use super::playing::Row::{Journal, Stops, Write};
use super::playing::Why::{NotApplied, OtherId, Refused};
use super::*;
use ids::Refusal;

/// The first line of each journal here.
const FIRST: Row = Journal(
    0,
    r#"["own",[1,1],["assign",["a"],1]]
"#,
    1,
);

/// The next command of the engine.
const NEXT: Row = Write(r#"["assign",["b"],2]"#, (2, 1));

/// A line that is no JSON, one that is cut off, one without its line feed, and a line of the second profile.
#[test]
fn a_bad_line_stops_it(rt: HostRuntime) -> Result<(), Fail> {
    const NO_JSON: &str = r#"["own",[1,1],["assign",["a"],1]]
["own",[2,1],
"#;
    const CUT: &str = r#"["own",[1,1],["assign",["a"],1]]
["own",[2,1],["assign",["#;
    const NO_END: &str = r#"["own",[1,1],["assign",["a"],1]]
["own",[2,1],["assign",["a"],2]]"#;
    const PROFILE_2: &str = r#"["own",[1,1],["assign",["a"],1]]
["op2",[2,2],[[1,1]],[["m",0]],"a",["a",2]]
"#;
    const LIVES: &[Life] = &[
        (1, &[Stops(NO_JSON, Refused(Refusal::BadLine)), FIRST, NEXT]),
        (1, &[Stops(CUT, Refused(Refusal::BadLine)), FIRST, NEXT]),
        (1, &[Stops(NO_END, Refused(Refusal::BadLine)), FIRST, NEXT]),
        (
            1,
            &[Stops(PROFILE_2, Refused(Refusal::BadLine)), FIRST, NEXT],
        ),
    ];
    live(&rt, rt.alloc(), LIVES)
}

/// A command makes no other id than the next one of this engine.
#[test]
fn another_id_stops_it(rt: HostRuntime) -> Result<(), Fail> {
    const SKIPS: &str = r#"["own",[1,1],["assign",["a"],1]]
["own",[3,1],["assign",["a"],2]]
"#;
    const OF_ANOTHER: &str = r#"["own",[1,1],["assign",["a"],1]]
["own",[2,2],["assign",["a"],2]]
"#;
    const AGAIN: &str = r#"["own",[1,1],["assign",["a"],1]]
["own",[1,1],["assign",["a"],1]]
"#;
    const LIVES: &[Life] = &[
        (1, &[Stops(SKIPS, OtherId((2, 1))), FIRST, NEXT]),
        (1, &[Stops(OF_ANOTHER, OtherId((2, 1))), FIRST, NEXT]),
        (1, &[Stops(AGAIN, OtherId((2, 1))), FIRST, NEXT]),
    ];
    live(&rt, rt.alloc(), LIVES)
}

/// A command that is refused, an operation of the own number that comes as a peer's, and one that breaks the rules.
#[test]
fn what_is_refused_stops_it(rt: HostRuntime) -> Result<(), Fail> {
    const PAST_END: &str = r#"["own",[1,1],["assign",["a"],1]]
["own",[2,1],["delete",["l",1]]]
"#;
    const OWN: &str = r#"["own",[1,1],["assign",["a"],1]]
["op",[2,1],[[1,1]],[["m",0]],"a",["a",2]]
"#;
    const SKIPS: &str = r#"["own",[1,1],["assign",["a"],1]]
["op",[3,2],[[1,1]],[["m",0]],"a",["a",2]]
"#;
    const LIVES: &[Life] = &[
        (
            1,
            &[Stops(PAST_END, Refused(Refusal::PastEnd)), FIRST, NEXT],
        ),
        (1, &[Stops(OWN, Refused(Refusal::OwnName)), FIRST, NEXT]),
        (
            1,
            &[Stops(SKIPS, Refused(Refusal::BadCounter)), FIRST, NEXT],
        ),
    ];
    live(&rt, rt.alloc(), LIVES)
}

/// An operation that depends on one that no earlier line has.
#[test]
fn what_is_not_applied_stops_it(rt: HostRuntime) -> Result<(), Fail> {
    const EARLY: &str = r#"["own",[1,1],["assign",["a"],1]]
["op",[2,2],[[3,1]],[["m",0]],"a",["a",2]]
"#;
    const LIVES: &[Life] = &[(1, &[Stops(EARLY, NotApplied), FIRST, NEXT])];
    live(&rt, rt.alloc(), LIVES)
}
