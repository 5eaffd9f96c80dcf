//! Responses, and their lines.

use calls::{RefusedLines, Response, StoppedLine, write_response};
use document::{Glance, Key, Kinds, Reading, Row};
use fixtures::{Pair, id_of, named};
use ids::{OpId, Refusal};
use std::alloc::Global;
use std::process::Abort;
use std::test::Fail;

/// A response, in a form that a constant can have.
#[derive(Clone, Copy)]
pub(super) enum Said {
    Made(Pair, u64),
    Refused(Refusal, u64),
    Denied(Refusal),
    Keys(u64, &'static [&'static str]),
    Items(u64, &'static [Pair]),
    Vector(u64, &'static [Pair]),
    /// An empty map, and whether more is in it.
    Map(u64, bool),
    Hello(&'static [Pair]),
    Bundle(&'static str, bool, bool),
    Received(u64, Option<RefusedLines>, Option<StoppedLine>),
    Saved(u64),
    Status(u32, u64, u64),
    Ready(u32, u64),
    Unsaved(u64, u64),
    Lost,
}

/// A response, and its line without the line feed.
type Case = (Said, &'static str);

const OF_COMMANDS: &[Case] = &[
    (
        Said::Made((3, 4294967295), 2),
        r#"["made",[3,4294967295],2]"#,
    ),
    (Said::Refused(Refusal::PastEnd, 7), r#"["refused","E3",7]"#),
    (Said::Denied(Refusal::BadLine), r#"["refused","E22"]"#),
];

const OF_QUESTIONS: &[Case] = &[
    (
        Said::Keys(9, &["", "a\"\n"]),
        r#"["reading",9,["","a\"\n"]]"#,
    ),
    (
        Said::Items(9, &[(3, 1), (2, 2)]),
        r#"["reading",9,[[3,1],[2,2]]]"#,
    ),
    (
        Said::Vector(5, &[(3, 1), (2, 4)]),
        r#"["reading",5,[[1,3],[4,2]]]"#,
    ),
    (Said::Map(5, false), r#"["glance",5,{}]"#),
    (Said::Map(0, true), r#"["glance",0,{"?":"cut"}]"#),
];

const OF_PEERS: &[Case] = &[
    (Said::Hello(&[(3, 1), (2, 4)]), r#"["hello",[[1,3],[4,2]]]"#),
    (Said::Hello(&[]), r#"["hello",[]]"#),
    (
        Said::Bundle("", false, false),
        r#"["bundle","",false,false]"#,
    ),
    (
        Said::Bundle("[\"op2\",[1,1],[],[],0,[\"d\"]]\n", true, false),
        r#"["bundle","[\"op2\",[1,1],[],[],0,[\"d\"]]\n",true,false]"#,
    ),
    (
        Said::Bundle("\u{e9}\u{1}", false, true),
        "[\"bundle\",\"\u{e9}\\u0001\",false,true]",
    ),
    (Said::Received(3, None, None), r#"["received",3,null,null]"#),
    (
        Said::Received(18446744073709551615, Some(REFUSED), None),
        r#"["received",18446744073709551615,[2,5,"E19"],null]"#,
    ),
    (
        Said::Received(0, Some(REFUSED), Some(STOPPED)),
        r#"["received",0,[2,5,"E19"],[6,"E1"]]"#,
    ),
];

const REFUSED: RefusedLines = RefusedLines {
    count: 2,
    line: 5,
    why: Refusal::InboxFull,
};

const STOPPED: StoppedLine = StoppedLine {
    line: 6,
    why: Refusal::NoMemory,
};

const OF_THE_PROGRAM: &[Case] = &[
    (Said::Saved(4), r#"["saved",4]"#),
    (
        Said::Status(4294967295, 4, 3),
        r#"["status",4294967295,4,3]"#,
    ),
    (Said::Ready(1, 0), r#"["ready",1,0]"#),
    (Said::Unsaved(4, 3), r#"["unsaved",4,3]"#),
    (Said::Lost, r#"["lost"]"#),
];

#[test]
fn responses_to_commands(rt: HostRuntime) -> Result<(), Fail> {
    are_written(&rt, rt.alloc(), OF_COMMANDS)?;
    Ok(())
}

#[test]
fn responses_to_questions(rt: HostRuntime) -> Result<(), Fail> {
    are_written(&rt, rt.alloc(), OF_QUESTIONS)?;
    Ok(())
}

#[test]
fn responses_for_peers(rt: HostRuntime) -> Result<(), Fail> {
    are_written(&rt, rt.alloc(), OF_PEERS)?;
    Ok(())
}

#[test]
fn responses_of_the_program(rt: HostRuntime) -> Result<(), Fail> {
    are_written(&rt, rt.alloc(), OF_THE_PROGRAM)?;
    Ok(())
}

/// Asserts that each response is written as its row says, with a line feed.
fn are_written(rt: &impl Abort, alloc: Global, cases: &[Case]) -> Result<(), Refusal> {
    for (said, want) in cases {
        is_written(rt, alloc, *said, want)?;
    }
    Ok(())
}

fn is_written(rt: &impl Abort, alloc: Global, said: Said, want: &str) -> Result<(), Refusal> {
    let response = response(alloc, said)?;
    let line = write_response(alloc, &response)?;
    let mut wanted = String::from_str(alloc, want)?;
    wanted.push('\n')?;
    assert_eq!(rt; line.as_slice(), wanted.as_bytes());
    Ok(())
}

pub(super) fn response(alloc: Global, said: Said) -> Result<Response, Refusal> {
    match said {
        Said::Made(pair, position) => Ok(Response::Made(id_of(pair)?, position)),
        Said::Refused(why, length) => Ok(Response::Refused(why, length)),
        Said::Denied(why) => Ok(Response::Denied(why)),
        Said::Keys(length, keys) => Ok(Response::Read(
            length,
            Reading::Keys(keys_of(alloc, keys)?),
        )),
        Said::Items(length, ids) => Ok(Response::Read(length, Reading::Items(ids_of(alloc, ids)?))),
        Said::Vector(length, ids) => Ok(Response::Read(
            length,
            Reading::Vector(named(alloc, ids)?),
        )),
        Said::Map(length, is_cut) => Ok(Response::Glance(length, map(alloc, is_cut)?)),
        Said::Hello(ids) => Ok(Response::Hello(named(alloc, ids)?)),
        Said::Bundle(lines, has_more, is_beyond) => bundle(alloc, lines, has_more, is_beyond),
        _ => Ok(plain_response(said)),
    }
}

/// A response without parts that need an allocation.
fn plain_response(said: Said) -> Response {
    match said {
        Said::Received(taken, refused, stopped) => Response::Received {
            taken,
            refused,
            stopped,
        },
        Said::Saved(length) => Response::Saved(length),
        Said::Status(number, length, saved) => Response::Status {
            number,
            length,
            saved,
        },
        Said::Ready(number, length) => Response::Ready { number, length },
        Said::Unsaved(length, saved) => Response::Unsaved { length, saved },
        _ => Response::Lost,
    }
}

fn bundle(
    alloc: Global,
    lines: &str,
    has_more: bool,
    is_beyond: bool,
) -> Result<Response, Refusal> {
    let lines = String::from_str(alloc, lines)?;
    Ok(Response::Bundle {
        lines,
        has_more,
        is_beyond,
    })
}

fn keys_of(alloc: Global, texts: &[&str]) -> Result<Vec<Key>, Refusal> {
    let mut keys = Vec::new(alloc);
    for text in texts {
        keys.push(Key::new(alloc, text)?)?;
    }
    Ok(keys)
}

fn ids_of(alloc: Global, pairs: &[Pair]) -> Result<Vec<OpId>, Refusal> {
    let mut ids = Vec::new(alloc);
    for pair in pairs {
        ids.push(id_of(*pair)?)?;
    }
    Ok(ids)
}

/// A glance at a map in which nothing is shown.
fn map(alloc: Global, is_cut: bool) -> Result<Glance, Refusal> {
    let row = Row {
        depth: 0,
        entered: None,
        kinds: Kinds {
            register: false,
            map: true,
            list: false,
        },
        values: Vec::new(alloc),
        is_cut,
    };
    Ok(Glance {
        rows: vec![in alloc; row]?,
        is_cut: false,
    })
}
