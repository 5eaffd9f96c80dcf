//! A call whose allocation is refused is called again, and then answers as usual.
//!
//! Run with each allocation refused in turn (`tests/refused_memory.sh`): each run passes. If none is refused, nothing is called again.

use super::*;
use replica::Command;
use requests::{Edition, command_in};
use session::Session;
use std::alloc::Global;
use std::process::Abort;
use wire::json_of;

/// The last operation waits for the first, and the second one skips a counter.
const THREE: &str = r#"["op",[2,2],[[2,1]],[["m",0],["l","l"]],1,["i","x"]]
["op",[7,3],[],[["m",0]],"b",["a",2]]
["op",[1,2],[],[["m",0]],"l",["a",[]]]
"#;

/// A receipt that ran out of memory leaves what any other receipt leaves, once the same bundle is received again.
#[test]
fn a_receipt_goes_on(rt: HostRuntime) -> Result<(), Fail> {
    let mut session = open(rt.alloc())?;
    receive_again(&rt, rt.alloc(), &mut session)
}

fn receive_again(rt: &impl Abort, alloc: Global, session: &mut Session) -> Result<(), Fail> {
    let received = session.receive(alloc, THREE.as_bytes());
    if received.stopped.is_some() {
        let again = session.receive(alloc, THREE.as_bytes());
        assert_eq!(rt; again.taken, 3);
        assert!(rt; again.stopped.is_none());
    }
    assert_eq!(rt; session.len(), 2);
    Ok(())
}

/// A write that ran out of memory has changed nothing: the same id is made when it is written again.
#[test]
fn a_write_goes_on(rt: HostRuntime) -> Result<(), Fail> {
    let mut session = open(rt.alloc())?;
    write_again(&rt, rt.alloc(), &mut session)
}

fn write_again(rt: &impl Abort, alloc: Global, session: &mut Session) -> Result<(), Fail> {
    let id = match session.write(alloc, command(alloc)?) {
        Err(Refusal::NoMemory) => {
            assert_eq!(rt; session.len(), 0);
            session.write(alloc, command(alloc)?)?
        }
        other => other?,
    };
    assert_eq!(rt; id.counter, 1);
    assert_eq!(rt; session.len(), 1);
    Ok(())
}

/// Opens a session, with a second try.
fn open(alloc: Global) -> Result<Session, Refusal> {
    match Session::open(alloc, 1) {
        Err(Refusal::NoMemory) => Session::open(alloc, 1),
        other => other,
    }
}

/// A command, with a second try.
fn command(alloc: Global) -> Result<Command, Refusal> {
    match try_command(alloc) {
        Err(Refusal::NoMemory) => try_command(alloc),
        other => other,
    }
}

fn try_command(alloc: Global) -> Result<Command, Refusal> {
    command_in(
        alloc,
        Edition::Second,
        &json_of(alloc, br#"["assign",["k"],"v"]"#)?,
    )
}
