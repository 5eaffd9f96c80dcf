//! Lines of vectors.

use super::{Around, MOST_PAIRS, joined, pairs, with_part};
use ids::Refusal;
use std::alloc::Global;
use std::process::Abort;
use wire::{read_vector, write_vector};

/// How the vector that is read from this line is written, or why none is read.
fn rewritten(alloc: Global, line: &str) -> Result<Vec<u8>, Refusal> {
    let vector = read_vector(alloc, line.as_bytes())?;
    Ok(write_vector(alloc, &vector)?)
}

/// Asserts that the vector of this line is written as that text.
fn is_written(rt: &impl Abort, alloc: Global, line: &str, written: &str) {
    let again = rewritten(alloc, line).expect(rt, "not refused");
    assert_eq!(rt; again.as_slice(), written.as_bytes(), "{line}");
}

#[test]
fn vectors_are_written_as_they_are_read(rt: HostRuntime) {
    const ROWS: &[(&str, &str)] = &[
        (r#"["hello",[]]"#, r#"["hello",[]]"#),
        (r#"["hello",[[1,5]]]"#, r#"["hello",[[1,5]]]"#),
        (
            r#"["hello",[[9,4611686018427387904]]]"#,
            r#"["hello",[[9,4611686018427387904]]]"#,
        ),
        (r#"["\u0068ello",[[2,7]]]"#, r#"["hello",[[2,7]]]"#),
        (
            r#"["hello",[[1,1],[3,1],[4294967295,1]]]"#,
            r#"["hello",[[1,1],[3,1],[4294967295,1]]]"#,
        ),
    ];
    for (line, written) in ROWS {
        is_written(&rt, rt.alloc(), line, written);
    }
}

#[test]
fn white_space_is_not_written(rt: HostRuntime) {
    const PARTS: &[&str] = &[r#" [ "hello","#, "\t[[1,1] ,[2,2],\r\n[ 9,3 ]] ] "];
    let line = joined(&rt, rt.alloc(), PARTS);
    is_written(
        &rt,
        rt.alloc(),
        line.as_str(),
        r#"["hello",[[1,1],[2,2],[9,3]]]"#,
    );
}

/// Asserts that no vector is read from this line, for this reason.
fn is_refused(rt: &impl Abort, alloc: Global, line: &str, why: Refusal) {
    let read = rewritten(alloc, line).err();
    assert_eq!(rt; read, Some(why), "{line}");
}

#[test]
fn lines_that_are_no_vectors(rt: HostRuntime) {
    const LINES: &[&str] = &[
        "",
        r#""hello""#,
        "[]",
        r#"["hello"]"#,
        r#"["hello",[],[]]"#,
        r#"["Hello",[]]"#,
        r#"["op",[]]"#,
        r#"[[],"hello"]"#,
        r#"["hello",[]"#,
        r#"["hello",[]]]"#,
        r#"["hello",[]] x"#,
    ];
    for line in LINES {
        is_refused(&rt, rt.alloc(), line, Refusal::BadLine);
    }
}

/// What surrounds the pairs of a vector.
const HELLO: Around = (r#"["hello","#, "]");

/// Asserts that no vector is read from a line with these pairs, for this reason.
fn are_refused(rt: &impl Abort, alloc: Global, pairs: &str, why: Refusal) {
    let line = with_part(rt, alloc, HELLO, pairs);
    is_refused(rt, alloc, line.as_str(), why);
}

#[test]
fn vectors_without_form(rt: HostRuntime) {
    const VECTORS: &[&str] = &[
        "null",
        "{}",
        "[1,1]",
        "[[]]",
        "[[1]]",
        "[[1,1,1]]",
        r#"[["1",1]]"#,
        "[[0,1]]",
        "[[1,0]]",
        "[[-1,1]]",
        "[[1.0,1]]",
        "[[1,1e3]]",
        "[[1,-0]]",
        "[[4294967296,1]]",
        "[[1,4611686018427387905]]",
        "[[1,18446744073709551616]]",
        "[[1,1],[1,1]]",
        "[[2,2],[1,2]]",
        "[[1,1],[9,3],[9,4]]",
        "[[9,1],[3,1]]",
        "[[1,1],[0,1],[3,1]]",
        "[[3,1],null]",
    ];
    for pairs in VECTORS {
        are_refused(&rt, rt.alloc(), pairs, Refusal::BadLine);
    }
}

#[test]
fn vectors_of_many_pairs(rt: HostRuntime) {
    let most = pairs(&rt, rt.alloc(), MOST_PAIRS);
    let line = with_part(&rt, rt.alloc(), HELLO, most.as_str());
    is_written(&rt, rt.alloc(), line.as_str(), line.as_str());
    let more = pairs(&rt, rt.alloc(), MOST_PAIRS + 1);
    are_refused(&rt, rt.alloc(), more.as_str(), Refusal::BadLine);
}
