//! Two sessions that write concurrently, and exchange.

use super::playing::Row::{Denied, Hello, Length, Shows, Write};
use super::playing::{Row, play};
use super::*;
use session::Session;
use std::alloc::Global;
use std::process::Abort;
use wire::write_vector;

/// Replica 1 writes a list with an item, and a key.
const FIRST: &[Row] = &[
    Write(r#"["assign",["l"],[]]"#, (1, 1)),
    Write(r#"["insert",["l",0],"x"]"#, (2, 1)),
    Write(r#"["assign",["k"],1]"#, (3, 1)),
    Denied(r#"["delete",["l",2]]"#, Refusal::PastEnd),
    Shows(r#"{"l":["x"],"k":1}"#),
];

/// Replica 2 writes the key concurrently.
const SECOND: &[Row] = &[Write(r#"["assign",["k"],2]"#, (1, 2)), Shows(r#"{"k":2}"#)];

/// What both then show: the key has two values, neither of whose writers had seen the other.
const BOTH: &[Row] = &[
    Length(4),
    Hello(r#"["hello",[[1,3],[2,1]]]"#),
    Shows(r#"{"l":["x"],"k":{"?":"conflict","values":[2,1]}}"#),
];

/// Replica 2 overwrites both.
const OVER: &[Row] = &[
    Write(r#"["assign",["k"],3]"#, (4, 2)),
    Write(r#"["delete",["l",1]]"#, (5, 2)),
];

/// What both show at the end.
const LAST: &[Row] = &[Length(6), Shows(r#"{"l":[],"k":3}"#)];

#[test]
fn they_show_the_same(rt: HostRuntime) -> Result<(), Fail> {
    let alloc = rt.alloc();
    let mut one = Session::open(alloc, 1)?;
    let mut two = Session::open(alloc, 2)?;
    exchange_twice(&rt, alloc, &mut one, &mut two)
}

fn exchange_twice(
    rt: &impl Abort,
    alloc: Global,
    one: &mut Session,
    two: &mut Session,
) -> Result<(), Fail> {
    play(rt, alloc, one, FIRST)?;
    play(rt, alloc, two, SECOND)?;
    exchange(rt, alloc, one, two)?;
    play(rt, alloc, one, BOTH)?;
    play(rt, alloc, two, BOTH)?;
    play(rt, alloc, two, OVER)?;
    exchange(rt, alloc, one, two)?;
    play(rt, alloc, one, LAST)?;
    play(rt, alloc, two, LAST)
}

/// Each sends the other what it lacks.
fn exchange(
    rt: &impl Abort,
    alloc: Global,
    one: &mut Session,
    two: &mut Session,
) -> Result<(), Fail> {
    send(rt, alloc, one, two)?;
    send(rt, alloc, two, one)
}

/// A session sends another one everything that it lacks.
fn send(rt: &impl Abort, alloc: Global, from: &Session, to: &mut Session) -> Result<(), Fail> {
    let hello = write_vector(alloc, &to.hello(alloc)?)?;
    let answered = from.answer(alloc, hello.as_slice(), from.len())?;
    assert!(rt; !answered.has_more && !answered.is_beyond);
    let received = to.receive(alloc, answered.lines.as_slice());
    assert!(rt; received.refused.is_none() && received.stopped.is_none());
    Ok(())
}

/// The number 0 isn't a number of a replica.
#[test]
fn no_session_has_the_number_0(rt: HostRuntime) -> Result<(), Fail> {
    match Session::open(rt.alloc(), 0) {
        Err(Refusal::BadConfig) => Ok(()),
        _ => Err("another answer".into()),
    }
}
