//! What a session receives: bundles that are whole, cut, late or partly refused.

use super::playing::Row::{Hello, Length, Receive, Shows, Write};
use super::playing::{Got, got, on_new};
use super::*;
use session::Session;
use std::alloc::Global;
use std::process::Abort;

/// Replica 2 makes a list, and inserts two items.
const THREE: &str = r#"["op2",[1,2],[],[["m",0]],"l",["a",[]]]
["op2",[2,2],[[2,1]],[["m",0],["l","l"]],1,["i","x"]]
["op2",[3,2],[[2,2]],[["m",0],["l","l"]],[2,2],["i","y"]]
"#;

/// An operation waits for the one that it depends on, and is applied when that comes.
#[test]
fn an_operation_waits(rt: HostRuntime) -> Result<(), Fail> {
    const LATER: &str = r#"["op",[2,2],[[2,1]],[["m",0],["l","l"]],1,["i","x"]]
"#;
    const EARLIER: &str = r#"["op",[1,2],[],[["m",0]],"l",["a",[]]]
"#;
    on_new(
        &rt,
        rt.alloc(),
        1,
        &[
            Receive(LATER, (1, None, None)),
            Length(0),
            Receive(LATER, (1, None, None)),
            Receive(EARLIER, (1, None, None)),
            Length(2),
            Shows(r#"{"l":["x"]}"#),
        ],
    )
}

/// The second operation skips a counter, and the third has the session's own number: both are refused, and the others are applied.
#[test]
fn what_is_refused_is_told(rt: HostRuntime) -> Result<(), Fail> {
    const FOUR: &str = r#"["op",[1,2],[],[["m",0]],"a",["a",1]]
["op",[7,2],[[2,1]],[["m",0]],"b",["a",2]]
["op",[1,1],[],[["m",0]],"c",["a",3]]
["op",[2,2],[[2,1]],[["m",0]],"d",["a",4]]
"#;
    on_new(
        &rt,
        rt.alloc(),
        1,
        &[
            Receive(FOUR, (4, Some((2, 2, Refusal::BadCounter)), None)),
            Length(2),
            Hello(r#"["hello",[[2,2]]]"#),
            Write(r#"["assign",["a"],5]"#, (3, 1)),
        ],
    )
}

/// A line of profile 1, one that isn't a line of either, and one more, which isn't looked at.
#[test]
fn a_bad_line_stops_it(rt: HostRuntime) -> Result<(), Fail> {
    const BAD: &str = r#"["op",[1,2],[],[["m",0]],"a",["a",1]]
["op",[2,2],[[2,1]],[["m",0]],"b"]
["op",[2,2],[[2,1]],[["m",0]],"d",["a",4]]
"#;
    on_new(
        &rt,
        rt.alloc(),
        1,
        &[
            Receive(BAD, (1, None, Some((2, Refusal::BadLine)))),
            Length(1),
        ],
    )
}

/// A cut within a line stops there, and the whole lines before it are taken.
#[test]
fn a_cut_stops_behind_the_last_whole_line(rt: HostRuntime) -> Result<(), Fail> {
    assert_eq!(rt; THREE.len(), 152);
    for length in 0..=152 {
        receive_cut(&rt, rt.alloc(), length)?;
    }
    Ok(())
}

/// Receives the first bytes of the three lines, of which the first has 40 bytes and the first two 94.
fn receive_cut(rt: &impl Abort, alloc: Global, length: usize) -> Result<(), Fail> {
    let whole = match length {
        0..=39 => 0,
        40..=93 => 1,
        94..=151 => 2,
        _ => 3,
    };
    let is_cut = length != 0 && length != 40 && length != 94 && length != 152;
    let mut session = Session::open(alloc, 1)?;
    let text = THREE.as_bytes();
    assert!(rt; length <= text.len());
    let received = session.receive(alloc, &text[..length]);
    let stopped = if is_cut {
        Some((whole + 1, Refusal::BadLine))
    } else {
        None
    };
    let want: Got = (whole, None, stopped);
    assert_eq!(rt; got(&received), want);
    assert_eq!(rt; session.len() as u64, whole);
    Ok(())
}
