//! Calls are read and responses written, even if an allocation fails.
//!
//! Run with each allocation refused in turn (`tests/refused_memory.sh`): a refused call is made once more, so each run passes, and each
//! answer that isn't refused is that of a run in which no allocation fails.

use super::responses::{Said, response};
use super::showing::shown;
use calls::{Call, Response, read_call, write_response};
use ids::Refusal;
use std::alloc::{AllocError, Global};
use std::process::Abort;
use std::test::Fail;

/// Lines, and the texts of their calls.
const CALLS: &[(&str, &str)] = &[
    (r#"["assign",["a",[3,2]],"x"]"#, "assign /a/ 3@2 text x"),
    (r#"["missing",[[1,5]]]"#, "missing 5@1"),
    (r#"["glance",["a"],3,100]"#, "glance /a 3 100"),
    (
        r#"["answer","[\"hello\",[]]\n"]"#,
        "answer [\"hello\",[]]\n",
    ),
    (r#"["receive","x"]"#, "receive x"),
];

/// Responses, and their lines.
const RESPONSES: &[(Said, &str)] = &[
    (
        Said::Refused(Refusal::PastEnd, 7),
        "[\"refused\",\"E3\",7]\n",
    ),
    (
        Said::Keys(9, &["a", "b"]),
        "[\"reading\",9,[\"a\",\"b\"]]\n",
    ),
    (Said::Map(0, true), "[\"glance\",0,{\"?\":\"cut\"}]\n"),
    (
        Said::Bundle(
            "A text that is longer than the room which a line has at first, so that the writer asks for more.",
            true,
            false,
        ),
        "[\"bundle\",\"A text that is longer than the room which a line has at first, so that the writer asks for more.\",true,false]\n",
    ),
];

#[test]
fn calls_are_read_again(rt: HostRuntime) -> Result<(), Fail> {
    for (line, want) in CALLS {
        is_read_again(&rt, rt.alloc(), line, want)?;
    }
    Ok(())
}

#[test]
fn responses_are_written_again(rt: HostRuntime) -> Result<(), Fail> {
    for (said, want) in RESPONSES {
        is_written_again(&rt, rt.alloc(), *said, want)?;
    }
    Ok(())
}

fn is_read_again(rt: &impl Abort, alloc: Global, line: &str, want: &str) -> Result<(), Refusal> {
    let call = read_again(alloc, line.as_bytes())?;
    let text = shown_again(alloc, &call)?;
    assert_eq!(rt; text.as_str(), want);
    Ok(())
}

/// The call of a line, at the second attempt if an allocation of the first fails.
fn read_again(alloc: Global, line: &[u8]) -> Result<Call, Refusal> {
    match read_call(alloc, line) {
        Err(Refusal::NoMemory) => read_call(alloc, line),
        read => read,
    }
}

fn shown_again(alloc: Global, call: &Call) -> Result<String, AllocError> {
    match shown(alloc, call) {
        Err(_) => shown(alloc, call),
        shown => shown,
    }
}

fn is_written_again(rt: &impl Abort, alloc: Global, said: Said, want: &str) -> Result<(), Refusal> {
    let response = response_again(alloc, said)?;
    let line = written_again(alloc, &response)?;
    assert_eq!(rt; line.as_slice(), want.as_bytes());
    Ok(())
}

fn response_again(alloc: Global, said: Said) -> Result<Response, Refusal> {
    match response(alloc, said) {
        Err(Refusal::NoMemory) => response(alloc, said),
        response => response,
    }
}

fn written_again(alloc: Global, response: &Response) -> Result<Vec<u8>, AllocError> {
    match write_response(alloc, response) {
        Err(_) => write_response(alloc, response),
        written => written,
    }
}
